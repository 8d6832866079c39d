//! Parameters and predicates.

use crate::answers::check_definitions;
use std::test::Fail;

static PARAMETERS: &str = r#"
struct S<>;
struct S<'a>;
struct S<'a,>;
struct S<'a: 'b>;
struct S<'a: 'b + 'c>;
struct S<'a:>;
struct S<'a: 'b +>;
struct S<T>;
struct S<T,>;
struct S<T = A>;
struct S<const N: usize>;
struct S<const N: usize = 1>;
struct S<const N: usize = -1>;
struct S<const N: bool = true>;
struct S<const N: usize = M>;
struct S<const N: usize = { 1 }>;
struct S<const N: char = 'a'>;
struct S<'a, T, const N: usize>;
struct S<T: A>;
struct S<T: A + B>;
struct S<T: A +>;
struct S<T:>;
struct S<T: ?A>;
struct S<T: ?A + 'a>;
struct S<T: A = B>;
struct S<T: A<u8>= B>;
struct S<T: for<'a> A<'a>>;
struct S<T: for<'a: 'b> A>;
struct S<T: (A)>;
struct S<T: (?A)>;
struct S<T: (?for<'a> A<'a>)>;
struct S<T: ?for<'a> A<'a>>;
struct S<T: ::a::B>;
struct S<T: Fn(A) -> B>;
: Ok

struct S<,>;
struct S<'a 'b>;
struct S<'a: T>;
struct S<T: +>;
struct S<T: A B>;
struct S<T == A>;
struct S<const N>;
struct S<const N: usize = 1 + 1>;
struct S<const N: usize = -M>;
struct S<const: usize>;
struct S<T: A + + B>;
struct S<T =>;
struct S<T: (>;
struct S<T: ('a)>;
struct S<T: (A + B)>;
struct S<fn>;
struct S<_>;
struct S<T: self>;
struct S<const N: usize = f()>;
struct S<T: for<T> A>;
struct S<T: ~const A>;
struct S<T: ? ?A>;
: Syntax
"#;

static PREDICATES: &str = r#"
struct S where ;
struct S where A: B;
struct S where A: B,;
struct S where A: B, C: D;
struct S where A:;
struct S where 'a: 'b;
struct S where 'a:;
struct S where 'a: 'b + 'c +;
struct S where for<'a> A: B;
struct S where for<'a> fn(&'a A): B;
struct S where [A]: B;
struct S where A: B + 'a + ?C;
struct S where dyn A: B;
struct S where <A as B>::C: D;
struct S where (A, B): C;
struct S where A: ::B;
struct S where for<> A: B;
struct S where &'a A: B;
struct S where A: for<'a> B<'a>;
struct S where A::B: C;
: Ok

struct S where ,;
struct S where A;
struct S where A::B;
struct S where A = B;
struct S where 'a;
struct S where 'a: B;
struct S where for<'a>: B;
struct S where for A: B;
struct S where A: B C: D;
struct S where A: B;;
struct S where impl A: B;
struct S where A:::B;
struct S where A == B;
: Syntax
"#;

#[test]
fn parameters_and_predicates(rt: HostRuntime) -> Result<(), Fail> {
    check_definitions(rt.alloc(), PARAMETERS)?;
    check_definitions(rt.alloc(), PREDICATES)
}
