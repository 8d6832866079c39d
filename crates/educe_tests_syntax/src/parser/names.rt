//! Names that are given twice, and unions.

use crate::answers::check_definitions;
use std::test::Fail;

static NAMES: &str = r#"
enum E { A { a: u8 }, B { a: u8 } }
struct S<T> { T: T }
struct S<'a, a> { a: &'a a }
struct S(A, A);
: Ok

struct S { a: A, a: B }
struct S { a: A, r#a: B }
struct S<T, T>;
struct S<'a, 'a>;
struct S<T, const T: usize>;
enum E { A, A }
enum E { A { a: u8, a: u8 } }
: DuplicateName
"#;

static UNIONS: &str = r#"
struct union;
struct S { union: A }
: Ok

union U { a: A }
union
pub union U { a: A }
#[x] pub(crate) union
: NotCarried

r#union U { a: A }
: Syntax
"#;

#[test]
fn names_are_apart_and_unions_are_not_carried(rt: HostRuntime) -> Result<(), Fail> {
    check_definitions(rt.alloc(), NAMES)?;
    check_definitions(rt.alloc(), UNIONS)
}
