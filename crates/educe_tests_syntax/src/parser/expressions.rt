//! Expressions.

use crate::answers::check_definitions;
use std::test::Fail;

static LITERALS_AND_PATHS: &str = r#"
enum E { A = 1 }
enum E { A = 1u8 }
enum E { A = "s" }
enum E { A = b"s" }
enum E { A = 'c' }
enum E { A = b'c' }
enum E { A = true }
enum E { A = false }
enum E { A = a }
enum E { A = a::b }
enum E { A = ::a::b }
enum E { A = a::<B> }
enum E { A = a::b::<C, D>::e }
enum E { A = <A>::b }
enum E { A = <A as B>::c }
enum E { A = <A as B>::c::<D> }
enum E { A = self::a }
enum E { A = Self::A }
enum E { A = Self }
enum E { A = super::a }
enum E { A = crate::a }
: Ok

enum E { A =  }
enum E { A = self }
enum E { A = super }
enum E { A = crate }
enum E { A = 1 2 }
enum E { A = a b }
enum E { A = a:: }
enum E { A = :: }
enum E { A = a::<B }
enum E { A = a::<>:: }
enum E { A = <A> }
enum E { A = <A>:: }
enum E { A = a<B>::c }
enum E { A = a::(B) }
: Syntax
"#;

static PREFIXES_AND_BRACKETS: &str = r#"
enum E { A = -1 }
enum E { A = !a }
enum E { A = *a }
enum E { A = &a }
enum E { A = &mut a }
enum E { A = - -1 }
enum E { A = &&a }
enum E { A = &&mut a }
enum E { A = !!!a }
enum E { A = -a.b }
enum E { A = (1) }
enum E { A = () }
enum E { A = (1,) }
enum E { A = (1, 2) }
enum E { A = ((1)) }
: Ok

enum E { A = +a }
enum E { A = -  }
enum E { A = & }
enum E { A = mut a }
enum E { A = ! }
enum E { A = ( }
enum E { A = (,) }
enum E { A = (1 2) }
: Syntax
"#;

static CALLS_INDICES_AND_FIELDS: &str = r#"
enum E { A = f() }
enum E { A = f(1) }
enum E { A = f(1, 2,) }
enum E { A = f(1)(2) }
enum E { A = a[1] }
enum E { A = a[b][c] }
enum E { A = a.b }
enum E { A = a.0 }
enum E { A = a.b.c }
enum E { A = a.b() }
enum E { A = a.b::<C>() }
enum E { A = a.b::<C> }
enum E { A = a.0.b }
enum E { A = a.b(1)[2].c }
enum E { A = (a)(b) }
enum E { A = a.b + c }
enum E { A = a.r#fn }
enum E { A = a(b) }
: Ok

enum E { A = f(,) }
enum E { A = f(1 2) }
enum E { A = a[] }
enum E { A = a[1, 2] }
enum E { A = a. }
enum E { A = a..b }
enum E { A = a.+ }
enum E { A = a.fn }
enum E { A = a.self }
enum E { A = a.b:: }
enum E { A = a.0::<B> }
enum E { A = a.(b) }
enum E { A = a.b::<C }
: Syntax
"#;

static OPERATORS: &str = r#"
enum E { A = a + b }
enum E { A = a - b }
enum E { A = a * b }
enum E { A = a / b }
enum E { A = a % b }
enum E { A = a ^ b }
enum E { A = a & b }
enum E { A = a | b }
enum E { A = a << b }
enum E { A = a >> b }
enum E { A = a && b }
enum E { A = a || b }
enum E { A = a == b }
enum E { A = a != b }
enum E { A = a < b }
enum E { A = a > b }
enum E { A = a <= b }
enum E { A = a >= b }
enum E { A = a + -b }
enum E { A = a - - b }
enum E { A = a & &b }
enum E { A = a && &b }
enum E { A = a &&& b }
enum E { A = a < -b }
enum E { A = a + b * c - d }
enum E { A = a < b && c < d }
enum E { A = a == b || c != d }
enum E { A = a << b >> c }
enum E { A = a<b }
enum E { A = a>b }
enum E { A = a<=b }
enum E { A = a>>b }
enum E { A = a*-b }
enum E { A = a==-b }
enum E { A = a & b == c }
: Ok

enum E { A = a + }
enum E { A = + b }
enum E { A = a + + b }
enum E { A = a = b }
enum E { A = a += b }
enum E { A = a <<= b }
enum E { A = a & &  }
enum E { A = a - > b }
enum E { A = a < b < c }
enum E { A = a == b == c }
enum E { A = a < b == c }
enum E { A = a < b > c }
enum E { A = a != b >= c }
enum E { A = a < b + c < d }
enum E { A = a -> b }
enum E { A = a => b }
enum E { A = a <- b -> }
: Syntax
"#;

static CASTS: &str = r#"
enum E { A = a as u8 }
enum E { A = a as u8 + b }
enum E { A = a as u8 as u16 }
enum E { A = -a as u8 }
enum E { A = a as &B }
enum E { A = a as *const u8 }
enum E { A = a as [u8; 2] }
enum E { A = a as A<B> }
enum E { A = a as A::B }
enum E { A = a as u8 <= b }
enum E { A = a as u8 > b }
enum E { A = a as u8 >= b }
enum E { A = a as u8 >> b }
enum E { A = a as A<B> < c }
enum E { A = a as [u8] < b }
enum E { A = a as (u8) < b }
enum E { A = a as fn() -> A <= b }
enum E { A = a as &A <= b }
enum E { A = a as dyn A + b }
enum E { A = a as fn() }
enum E { A = a as u8 == b }
enum E { A = a as F(A) - b }
enum E { A = a as Vec<A> < b }
enum E { A = a as A<B> << c }
enum E { A = a as u8 && b }
enum E { A = a as ! }
: Ok

enum E { A = a as }
enum E { A = a as u8 < b }
enum E { A = a as u8 << b }
enum E { A = a as A::B < c }
enum E { A = a as &A < b }
enum E { A = a as Self<A> < b }
enum E { A = a as fn() -> A < b }
enum E { A = a as dyn A < b }
enum E { A = a as 1 }
enum E { A = a as u8 b }
enum E { A = a as mut b }
enum E { A = a as Self() -> (A) < b }
enum E { A = a as (u8 }
enum E { A = a as impl B }
: Syntax
"#;

static STRUCTS: &str = r#"
enum E { A = A { } }
enum E { A = A { b: 1 } }
enum E { A = A { b: 1, } }
enum E { A = A { b } }
enum E { A = A { b, c: 1 } }
enum E { A = A { 0: 1 } }
enum E { A = A { ..b } }
enum E { A = A { b, ..c } }
enum E { A = A { b ..c } }
enum E { A = A { b: 1 ..c } }
enum E { A = a::A { b: 1 } }
enum E { A = A::<B> { c } }
enum E { A = <A>::B { c } }
enum E { A = A { b: A { c } } }
enum E { A = A { b: x..y } }
enum E { A = Self { a } }
: Ok

enum E { A = A { , } }
enum E { A = A { b: } }
enum E { A = A { b = 1 } }
enum E { A = A { b c } }
enum E { A = A { , ..b } }
enum E { A = A { .. } }
enum E { A = A { ..b, } }
enum E { A = A { ..b, c } }
enum E { A = A { b: 1,, } }
enum E { A = A { self } }
enum E { A = A { 0 } }
enum E { A = A { b:: 1 } }
enum E { A = A { b:::c } }
: Syntax
"#;

static MACROS: &str = r#"
enum E { A = m!() }
enum E { A = m![] }
enum E { A = m!{} }
enum E { A = m!(a b , ; 1) }
enum E { A = a::m!() }
enum E { A = ::m!() }
enum E { A = m!(self::a) }
enum E { A = m!((self::b)) }
enum E { A = m!()() }
enum E { A = m!().a }
enum E { A = m!(a)[1] }
enum E { A = 1 + m!() }
enum E { A = m!(/* c */) }
enum E { A = m!('a) }
enum E { A = m!(=>) }
enum E { A = self::m!() }
enum E { A = m!(fn) }
: Ok

enum E { A = m! }
enum E { A = m!a }
enum E { A = m! =  }
enum E { A = m!( }
enum E { A = m!(self) }
enum E { A = m!((self)) }
enum E { A = m!(a self b) }
enum E { A = m!(self :: )x }
enum E { A = a::<B>!() }
enum E { A = <A>::m!() }
enum E { A = self!() }
enum E { A = super!() }
enum E { A = m!(self.a) }
enum E { A = m!(/** d */) }
: Syntax
"#;

/// Unsupported expressions.
static OTHERS: &str = r#"
enum E { A = if a { b } }
enum E { A = { 1 } }
enum E { A = [1] }
enum E { A = [1; 2] }
enum E { A = |a| b }
enum E { A = || }
enum E { A = return }
enum E { A = let a = b }
enum E { A = a? }
enum E { A = a.await }
enum E { A = a ? b }
enum E { A = unsafe { a } }
enum E { A = loop { } }
enum E { A = match a { } }
enum E { A = .. }
enum E { A = a.. }
enum E { A = ..b }
enum E { A = break }
enum E { A = const { 1 } }
enum E { A = #[x] a }
enum E { A = yield a }
enum E { A = box a }
: Syntax
"#;

#[test]
fn operands(rt: HostRuntime) -> Result<(), Fail> {
    check_definitions(rt.alloc(), LITERALS_AND_PATHS)?;
    check_definitions(rt.alloc(), PREFIXES_AND_BRACKETS)?;
    check_definitions(rt.alloc(), CALLS_INDICES_AND_FIELDS)?;
    check_definitions(rt.alloc(), STRUCTS)?;
    check_definitions(rt.alloc(), MACROS)
}

#[test]
fn operators_and_casts(rt: HostRuntime) -> Result<(), Fail> {
    check_definitions(rt.alloc(), OPERATORS)?;
    check_definitions(rt.alloc(), CASTS)?;
    check_definitions(rt.alloc(), OTHERS)
}
