//! Names, metas, paths, expressions and predicates by themselves: beside each text that is read one
//! that differs by a token and is rejected.

use super::{Call, Refusal, kind_name, refusal_of};
use crate::answers::{Asked, check};
use educe_tests::{check_at, lexed_slice};
use std::alloc::Global;
use std::test::Fail;

/// How a call rejects a text, if it does.
fn refused(alloc: Global, call: Call, text: &str) -> Result<Refusal, Fail> {
    Ok(refusal_of(alloc, call, &lexed_slice(alloc, text)?))
}

/// The kind and the place of a rejection, or `read`.
fn refusal_text(alloc: Global, call: Call, text: &str) -> Result<String, Fail> {
    match refused(alloc, call, text)? {
        Some((kind, (start, end))) => {
            Ok(format!(in alloc; "{} {start}..{end}", kind_name(kind))?)
        }
        None => Ok(String::from_str(alloc, "read")?),
    }
}

/// How a call rejects the text behind `|`. It reads the one in front of it.
pub(crate) fn refused_beside(alloc: Global, call: Call, texts: &str) -> Result<String, Fail> {
    let (front, behind) = texts.split_once('|').ok_or(texts)?;
    check_at(texts, refused(alloc, call, front.trim())?, None)?;
    refusal_text(alloc, call, behind.trim())
}

static NAMES: &str = r#"
r#fn | fn
: Syntax 0..2
"#;

static METAS: &str = r#"
| ,
a | ,a
a | 1
a | (a)
a | #a
::a | :a
a[] | []
: Syntax 0..1

a | a b
a, | a,,
a, b | a,, b
: Syntax 2..3

a | 'a
: Syntax 0..2

a | /// a
: Syntax 0..5

fn | fn fn
: Syntax 3..5

a, b | a; b
a::b | a:b
a(b) | a!(b)
a{b} | a<b>
: Syntax 1..2

a::b | a::
: Syntax 3..3

a::b | a::b::
: Syntax 6..6

a::self | a::1
: Syntax 3..4

::a | ::
: Syntax 2..2

a() | a() b
a(b) | a(b)(c)
: Syntax 4..5

a(b) | a(b) c
a[b] | a[b] = c
::a::b(c) | ::a::(c)
a(b), c[d] | a(b) c[d]
: Syntax 5..6

a(/ => ; fn) | a(/ /** b */)
a([{}]) | a([{/** b */}])
: Syntax 4..12

a = 1 | a =
: Syntax 3..3

a = 1 | = 1
: Syntax 0..1

a = 1 | a == 1
: Syntax 3..4

a = 1 | a += 1
: Syntax 2..3

a = 1 | a: 1
: Syntax 1..2

a = 1 | a = 1 2
a = 1 | a = 1 = 2
a = b(1) | a = b(,)
a = 1, b | a = 1 b
::a::b = c | ::a:: = c
: Syntax 6..7

a = 1 | a = , 1
a = -1 | a = +1
a = b | a = _
a = (1) | a = [1]
: Syntax 4..5

a = 1, | a = 1;
: Syntax 5..6

a = 1 | a = /** b */ 1
: Syntax 4..12

a = -1 | a = -
: Syntax 5..5

a = "x" | a = "x" "y"
: Syntax 8..11

a = true | a = true false
: Syntax 9..14

a = b | a = fn
: Syntax 4..6

a = b::c | a = b::
a = 1 + 2 | a = 1 +
: Syntax 7..7

a = (1, 2) | a = (1 2)
a = 1, b = 2 | a = 1, = 2
: Syntax 7..8

a = m!(/) | a = m!
: Syntax 6..6
"#;

static PATHS: &str = r#"
a |
: Syntax 0..0

a | a b
<A as B>::c | <A, B>::c
: Syntax 2..3

a | 1
a | (a)
::a | : :a
: Syntax 0..1

a | a!
a::b | a:b
a::b | a.b
a::<B> | a<B>
: Syntax 1..2

r#fn | fn
: Syntax 0..2

Self | self
: Syntax 4..4

crate::a | crate
::super | super
a::<B> | a::<B
: Syntax 5..5

a::b | a::
<A>::b | <A>
: Syntax 3..3

::a | ::
: Syntax 2..2

a::<B> | a::(B)
<A>::b | <A>b
: Syntax 3..4

a::<B>::c | a::<B>::
: Syntax 8..8

a::<-1> | a::<-b>
: Syntax 5..6

<A as B>::c | <A as dyn B>::c
: Syntax 6..9

<dyn A + B>::c | <&dyn A + B>::c
: Syntax 8..9
"#;

static EXPRESSIONS: &str = r#"
1 |
: Syntax 0..0

1 | 1 2
a[1] | a[]
m!(a) | m!a
a + b | a = b
: Syntax 2..3

1 | 1,
(1,) | (,)
a.b | a..b
: Syntax 1..2

-1 | +1
(1) | [1]
(1) | {1}
: Syntax 0..1

-1 | -
: Syntax 1..1

&mut a | mut a
: Syntax 0..3

a | fn
: Syntax 0..2

a | /** b */ a
: Syntax 0..8

f(1, 2) | f(1 2)
a + b | a + + b
: Syntax 4..5

a[1] | a[1, 2]
: Syntax 3..4

a.b | a.
: Syntax 2..2

a.b::<C>() | a.b::C()
a as u8 | a as 1
: Syntax 5..6

A { b } | A { b c }
: Syntax 6..7

A { b, ..c } | A { ..c, b }
: Syntax 7..8

m!(self::a) | m!(self)
: Syntax 8..8

a < b | a < b < c
: Syntax 9..9

a == b && c == d | a == b + c == d
: Syntax 15..15

a as u8 | a as
: Syntax 4..4

a as u8 <= b | a as u8 < b
: Syntax 11..11

a as dyn B | a as impl B
: Syntax 5..9
"#;

static PREDICATES: &str = r#"
| ,
A: B | : B
: Syntax 0..1

A: B | A
: Syntax 1..1

A: B | A = B
: Syntax 2..3

A: B | A:: B
: Syntax 5..5

A: B | A: 1
: Syntax 3..4

A: B | where A: B
A: B | /// a␊A: B
: Syntax 0..5

A: B | A: B;
A: (B) | A: ()
'a: 'b | 'a: B
for<'a> A: B | for<A> A: B
[A]: B | [A; ]: B
: Syntax 4..5

A: B | A: B { }
A: B, | A: B,,
A: B, C: D | A: B C: D
A: B + C | A: B C
A: ?B | A: ? ?B
: Syntax 5..6

A: B + C | A: B + + C
for<'a> A: B | for<'a>: B
: Syntax 7..8

A: B + 'a | A: B 'a
: Syntax 5..7

A: | A::
: Syntax 3..3

A: (B) | A: ('b)
: Syntax 4..6

'a: 'b | 'a 'b
: Syntax 3..5

A: for<'a> B | A: for<'a>
: Syntax 10..10

dyn A: B | impl A: B
: Syntax 0..4
"#;

#[test]
fn parts_stand_alone(rt: HostRuntime) -> Result<(), Fail> {
    check(rt.alloc(), Asked::Pair(Call::Ident), NAMES)?;
    check(rt.alloc(), Asked::Pair(Call::Metas), METAS)?;
    check(rt.alloc(), Asked::Pair(Call::Path), PATHS)?;
    check(rt.alloc(), Asked::Pair(Call::Expr), EXPRESSIONS)?;
    check(rt.alloc(), Asked::Pair(Call::Predicates), PREDICATES)
}
