//! Types.

use crate::answers::check_definitions;
use std::test::Fail;

static PATHS: &str = r#"
struct S { a: A }
struct S { a: a::B }
struct S { a: ::a::B }
struct S { a: Self }
struct S { a: Self::A }
struct S { a: self::A }
struct S { a: super::A }
struct S { a: crate::A }
struct S { a: A<B>::C }
struct S { a: A<B>::C<D> }
struct S { a: a::B<C>::D }
struct S { a: r#fn }
: Ok

struct S { a: self }
struct S { a: super }
struct S { a: crate }
struct S { a: (crate) }
struct S { a: A:: }
struct S { a: :: }
struct S { a: a::B:: }
struct S { a: Fn() -> A:: }
: Syntax
"#;

static ARGUMENTS: &str = r#"
struct S { a: A<B> }
struct S { a: A::<B> }
struct S { a: A<> }
struct S { a: A<B,> }
struct S { a: A<'a> }
struct S { a: A<'a, B, C = D> }
struct S { a: A<1> }
struct S { a: A<-1> }
struct S { a: A<true> }
struct S { a: A<'x'> }
struct S { a: A<"s"> }
struct S { a: A<{ 1 }> }
struct S { a: A<{ N + 1 }> }
struct S { a: A<Vec<B>> }
struct S { a: A<B<C<D>>> }
struct S { a: A<&'a B> }
struct S { a: A<fn() -> B> }
struct S { a: A<N> }
struct S { a: A<(B)> }
struct S { a: Fn() }
struct S { a: Fn(A) }
struct S { a: Fn(A, B,) -> C }
struct S { a: Fn() -> A::B }
struct S { a: Fn() -> (A)::B }
struct S { a: Fn() -> [A]::B }
struct S { a: a::Fn(A) -> B }
struct S { a: A<Fn() -> B> }
: Ok

struct S { a: A< }
struct S { a: A> }
struct S { a: A<B }
struct S { a: A<,> }
struct S { a: A<B C> }
struct S { a: A<B==C> }
struct S { a: A<<B> }
struct S { a: A<1 + 1> }
struct S { a: A<-N> }
struct S { a: A<- -1> }
struct S { a: A<'a 'b> }
struct S { a: A<B, 'a = C> }
struct S { a: A<const B> }
struct S { a: A<B: C> }
struct S { a: A::< }
struct S { a: A::(B) }
struct S { a: Fn(a: A) }
: Syntax
"#;

static TUPLES_REFERENCES_AND_POINTERS: &str = r#"
struct S { a: () }
struct S { a: (A) }
struct S { a: (A,) }
struct S { a: (A, B) }
struct S { a: (A, B,) }
struct S { a: ((A)) }
struct S { a: ! }
struct S { a: &A }
struct S { a: &mut A }
struct S { a: &'a A }
struct S { a: &'a mut A }
struct S { a: &&A }
struct S { a: && 'a mut A }
struct S { a: *const A }
struct S { a: *mut A }
struct S { a: *const *mut A }
: Ok

struct S { a: &self }
struct S { a: (,) }
struct S { a: (A B) }
struct S { a: (A,,B) }
struct S { a: & & }
struct S { a: &mut }
struct S { a: &mut mut A }
struct S { a: &'a }
struct S { a: *A }
struct S { a: *const }
struct S { a: * mut }
: Syntax
"#;

static ARRAYS_AND_QUALIFIED_PATHS: &str = r#"
struct S { a: [A] }
struct S { a: [A; 1] }
struct S { a: [A; N + 1] }
struct S { a: [[A; 2]; 3] }
struct S { a: [A; f(1)] }
struct S { a: <A>::B }
struct S { a: <A as B>::C }
struct S { a: <A as B<C>>::D::E }
struct S { a: <<A>::B as C>::D }
struct S { a: <A>::B<C> }
struct S { a: <A as ::B>::C }
struct S { a: <&A>::B }
struct S { a: <dyn A>::B }
struct S { a: <dyn A + B as C>::D }
: Ok

struct S { a: [] }
struct S { a: [A;] }
struct S { a: [A, B] }
struct S { a: [A; 1; 2] }
struct S { a: <A> }
struct S { a: <A>:: }
struct S { a: <A as>::B }
struct S { a: <A as dyn B>::C }
struct S { a: <A, B>::C }
struct S { a: <A as B + C>::D }
: Syntax
"#;

static FUNCTION_POINTERS: &str = r#"
struct S { a: fn() }
struct S { a: fn(A) }
struct S { a: fn(a: A) }
struct S { a: fn(_: A, b: B) }
struct S { a: fn(A) -> B }
struct S { a: unsafe fn() }
struct S { a: extern fn() }
struct S { a: extern "C" fn() }
struct S { a: extern r"C" fn() }
struct S { a: for<'a> fn(&'a A) }
struct S { a: for<'a> unsafe extern "C" fn(A) -> B }
struct S { a: fn(a::B) }
struct S { a: fn() -> fn() -> A }
struct S { a: fn(A,) }
: Ok

struct S { a: fn }
struct S { a: fn A }
struct S { a: fn(a: b: C) }
struct S { a: fn(self) }
struct S { a: fn() -> }
struct S { a: fn() - > A }
struct S { a: unsafe A }
struct S { a: extern "C" A }
struct S { a: extern 1 fn() }
struct S { a: for<'a> A }
struct S { a: fn(...) }
struct S { a: fn(A, ...) }
struct S { a: for<'a> for<'b> fn() }
: Syntax
"#;

static TRAIT_OBJECTS: &str = r#"
struct S { a: dyn A }
struct S { a: dyn A + B }
struct S { a: dyn A + 'a }
struct S { a: dyn 'a + A }
struct S { a: dyn A + }
struct S { a: dyn for<'a> A<'a> }
struct S { a: dyn (A) }
struct S { a: dyn (A) + B }
struct S { a: dyn ?A }
struct S { a: &dyn A }
struct S { a: Box<dyn A + B> }
struct S { a: dyn Fn() -> A::B }
struct S { a: dyn Fn(A) -> B + C }
struct S { a: (dyn A + B) }
struct S { a: &(dyn A + B) }
struct S { a: [dyn A + B] }
struct S { a: A<B = dyn C + D> }
struct S { a: *const dyn A }
struct S { a: fn() -> dyn A }
struct S { a: dyn 'a }
: Ok

struct S { a: dyn }
struct S { a: dyn A B }
struct S { a: &dyn A + B }
struct S { a: *const dyn A + B }
struct S { a: fn() -> dyn A + B }
struct S { a: dyn ! }
struct S { a: dyn [A] }
struct S { a: dyn A + + B }
struct S { a: dyn () }
struct S { a: dyn Fn() -> A + + }
struct S { a: dyn(A }
: Syntax
"#;

/// Unsupported types, and texts that are none.
static OTHERS: &str = r#"
struct S { a:  }
struct S { a: impl A }
struct S { a: _ }
struct S { a: A! }
struct S { a: a!() }
struct S { a: typeof(A) }
struct S { a: A B }
struct S { a: A.B }
struct S { a: 'a }
struct S { a: 1 }
struct S { a: const A }
struct S { a: mut A }
: Syntax
"#;

#[test]
fn paths_and_their_arguments(rt: HostRuntime) -> Result<(), Fail> {
    check_definitions(rt.alloc(), PATHS)?;
    check_definitions(rt.alloc(), ARGUMENTS)
}

#[test]
fn types_without_a_path_in_front(rt: HostRuntime) -> Result<(), Fail> {
    check_definitions(rt.alloc(), TUPLES_REFERENCES_AND_POINTERS)?;
    check_definitions(rt.alloc(), ARRAYS_AND_QUALIFIED_PATHS)?;
    check_definitions(rt.alloc(), FUNCTION_POINTERS)?;
    check_definitions(rt.alloc(), TRAIT_OBJECTS)?;
    check_definitions(rt.alloc(), OTHERS)
}
