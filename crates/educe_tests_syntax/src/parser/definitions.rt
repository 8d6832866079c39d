//! Definitions, their fields, variants and attributes.

use crate::answers::check_definitions;
use std::test::Fail;

static DEFINITIONS: &str = r#"
struct S;
struct S { }
struct S();
struct S { a: A }
struct S { a: A, }
struct S { a: A, b: B }
struct S(A);
struct S(A,);
struct S(A, B);
enum E { }
enum E { A }
enum E { A, }
enum E { A, B }
enum E { A(u8), B { c: C }, D }
enum E { A() , B { } }
pub struct S;
pub(crate) struct S;
pub(self) enum E { }
pub(super) struct S;
pub(in a::b) struct S;
pub(in crate) struct S;
pub(in ::a) struct S;
struct S where A: B;
struct S where A: B { }
struct S(A) where A: B;
enum E where A: B { }
struct r#struct;
: Ok

struct S
struct { }
struct S { a A }
struct S { , }
struct S { a: A b: B }
struct S(,);
struct S(A)
struct S { };
enum E;
enum E(A);
enum E { A B }
struct S { a: A };
struct fn;
struct _;
pub(a) struct S;
pub(in) struct S;
pub() struct S;
struct S() { }
struct S where A: B, (A);
∅
fn f() { }
struct S; struct T;
enum E { A } where A: B
const struct S;
: Syntax
"#;

static FIELDS: &str = r#"
struct S { pub a: A }
struct S { pub(crate) a: A }
struct S { #[x] a: A }
struct S { /// d␊a: A }
struct S { #[x] #[y(z)] pub a: A }
struct S { r#fn: A }
struct S { a: A, /// d␊b: B }
: Ok

struct S { a: A: B }
struct S { a:: A }
struct S { pub: A }
struct S { self: A }
struct S { _: A }
struct S { #[x] }
struct S { a: A /// d }
struct S { pub pub a: A }
struct S { #![x] a: A }
: Syntax
"#;

static TUPLE_FIELDS: &str = r#"
struct S(A);
struct S(pub A);
struct S(pub (A, B));
struct S(pub(crate) A);
struct S(pub (crate::A));
struct S(pub(in a) A);
struct S(#[x] A);
struct S(pub(self) (A));
struct S(pub (self::A));
struct S(/// d␊A);
: Ok

struct S(a: A);
struct S(pub);
struct S(pub (crate));
struct S(pub(in) A);
struct S((crate));
struct S(A B);
: Syntax
"#;

static VARIANTS: &str = r#"
enum E { A = 1 }
enum E { A(u8) = 1 }
enum E { A { a: u8 } = 1 }
enum E { #[x] A }
enum E { /// d␊A }
enum E { A = -1 }
enum E { A = B::C + 1 }
enum E { A { pub a: u8 } }
: Ok

enum E { A = }
enum E { A = , }
enum E { pub A }
enum E { A B }
enum E { A: u8 }
enum E { = 1 }
enum E { A = 1 = 2 }
enum E { A()() }
: Syntax
"#;

static ATTRIBUTES: &str = r#"
#[a] struct S;
#[a::b] struct S;
#[::a] struct S;
#[a()] struct S;
#[a[]] struct S;
#[a{}] struct S;
#[a(b, c = d; e)] struct S;
#[a = b] struct S;
#[a = "x"] struct S;
#[a = 1 + 2] struct S;
#[a == b] struct S;
#[fn] struct S;
#[a = (b)] struct S;
/// a␊ struct S;
/** a */ struct S;
#[a(([{}]))] struct S;
#[_] struct S;
: Ok

#[] struct S;
#[a struct S;
#a struct S;
#[a b] struct S;
#[a() b] struct S;
#[a =] struct S;
#[a::] struct S;
#[::] struct S;
#![a] struct S;
#[a(] struct S;
#[1] struct S;
#[a<b>] struct S;
#[a(/** x */)] struct S;
: Syntax
"#;

#[test]
fn definitions_fields_variants_and_attributes(rt: HostRuntime) -> Result<(), Fail> {
    check_definitions(rt.alloc(), DEFINITIONS)?;
    check_definitions(rt.alloc(), FIELDS)?;
    check_definitions(rt.alloc(), TUPLE_FIELDS)?;
    check_definitions(rt.alloc(), VARIANTS)?;
    check_definitions(rt.alloc(), ATTRIBUTES)
}
