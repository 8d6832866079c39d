//! The values of parameters, by their kinds (documentation of `educe`, Traits).

use crate::values::{check_values, read_place, refused_place};
use educe_attrs_values::ValueKind;
use educe_tests::check_rows;
use std::test::Fail;

static NAMES: &str = r#"
p = X
p(X)
p[X]
p = "X"
p("X")
p = r"X"
p = " X "
p = "/* */ X"
: X

p{r#fn}
: r#fn

p
: 1:1: expected `p = Ident` or `p(Ident)`

a::p
: 1:1: expected `a::p = Ident` or `a::p(Ident)`

p = 1
p = true
p = X::Y
p = ""
p = "X Y"
p = "self"
: 1:5: expected `p = Ident`

p(fn)
p(X Y)
p(_)
: 1:3: expected `p = Ident`

p()
: 1:2: expected `p = Ident`

p = "1.5"
: 1:5: `1.5` is not supported

p = "340282366920938463463374607431768211456"
: 1:5: `340282366920938463463374607431768211456` is not supported

p = "((((((((((((((((((((((((((((((((((((((((((((((((((((((((((((((((((((((((((((((((((((((((((((((((((((((((((((((((((((((((((((((((()))))))))))))))))))))))))))))))))))))))))))))))))))))))))))))))))))))))))))))))))))))))))))))))))))))))))))))))))))))))))))))))))"
: 1:5: nested too deeply
"#;

#[test]
fn names_are_read(rt: HostRuntime) -> Result<(), Fail> {
    check_values(rt.alloc(), ValueKind::Ident, NAMES)
}

static TRUTH_VALUES: &str = r#"
p = true
p{true}
: true

p(false)
: false

p
: 1:1: expected `p = false` or `p(false)`

a::p
: 1:1: expected `a::p = false` or `a::p(false)`

p = 1
p = "true"
p = x
p = !true
: 1:5: expected `p = false`

p()
: 1:2: expected `p = false`

p(true true)
p(r#true)
: 1:3: expected `p = false`
"#;

#[test]
fn truth_values_are_read(rt: HostRuntime) -> Result<(), Fail> {
    check_values(rt.alloc(), ValueKind::Truth, TRUTH_VALUES)
}

static PATHS: &str = r#"
p = f
: f

p(a::f)
p = "a::f"
: a :: f

p("::f::<u8>")
: :: f ::< u8 >

p(<T>::f)
: < T >:: f

p = Self::f
: Self :: f

p = "f::<X<X<X<X<X<X<X<X<X<X<X<X<X<X<X<X<X<X<X<X<X<X<X<X<X<X<X<X<X<X<X<X<X<X<X<X<X<X<X<X<X<X<X<X<X<X<X<X<X<X<X<X<X<X<X<X<X<X<X<X<X<X<X<X<X<X<X<X<X<X<X<X<X<X<X<X<X<X<X<X<X<X<X<X<X<X<X<X<X<X<X<X<X<X<X<X<X<X<X<X<X<X<X<X<X<X<X<X<X<X<X<X<X<X<X<X<X<X<X<X<X<X<X<X<X<X<X<u8>>>>>>>>>>>>>>>>>>>>>>>>>>>>>>>>>>>>>>>>>>>>>>>>>>>>>>>>>>>>>>>>>>>>>>>>>>>>>>>>>>>>>>>>>>>>>>>>>>>>>>>>>>>>>>>>>>>>>>>>>>>>>>>>"
: f ::< X < X < X < X < X < X < X < X < X < X < X < X < X < X < X < X < X < X < X < X < X < X < X < X < X < X < X < X < X < X < X < X < X < X < X < X < X < X < X < X < X < X < X < X < X < X < X < X < X < X < X < X < X < X < X < X < X < X < X < X < X < X < X < X < X < X < X < X < X < X < X < X < X < X < X < X < X < X < X < X < X < X < X < X < X < X < X < X < X < X < X < X < X < X < X < X < X < X < X < X < X < X < X < X < X < X < X < X < X < X < X < X < X < X < X < X < X < X < X < X < X < X < X < X < X < X < X < u8 >>>>>>>>>>>>>>>>>>>>>>>>>>>>>>>>>>>>>>>>>>>>>>>>>>>>>>>>>>>>>>>>>>>>>>>>>>>>>>>>>>>>>>>>>>>>>>>>>>>>>>>>>>>>>>>>>>>>>>>>>>>>>>>>

p
: 1:1: expected `p = Path` or `p(Path)`

a::p
: 1:1: expected `a::p = Path` or `a::p(Path)`

p = 1
p = f()
p = ""
p = "f,"
: 1:5: expected `p = Path`

p()
: 1:2: expected `p = Path`

p(f())
p(crate)
: 1:3: expected `p = Path`

p(f::<X<X<X<X<X<X<X<X<X<X<X<X<X<X<X<X<X<X<X<X<X<X<X<X<X<X<X<X<X<X<X<X<X<X<X<X<X<X<X<X<X<X<X<X<X<X<X<X<X<X<X<X<X<X<X<X<X<X<X<X<X<X<X<X<X<X<X<X<X<X<X<X<X<X<X<X<X<X<X<X<X<X<X<X<X<X<X<X<X<X<X<X<X<X<X<X<X<X<X<X<X<X<X<X<X<X<X<X<X<X<X<X<X<X<X<X<X<X<X<X<X<X<X<X<X<X<X<X<u8>>>>>>>>>>>>>>>>>>>>>>>>>>>>>>>>>>>>>>>>>>>>>>>>>>>>>>>>>>>>>>>>>>>>>>>>>>>>>>>>>>>>>>>>>>>>>>>>>>>>>>>>>>>>>>>>>>>>>>>>>>>>>>>>>)
: 1:262: nested too deeply

p = "f::<1.5>"
: 1:5: `1.5` is not supported

p = "f(1e3)"
: 1:5: `1e3` is not supported

p = "((((((((((((((((((((((((((((((((((((((((((((((((((((((((((((((((((((((((((((((((((((((((((((((((((((((((((((((((((((((((((((((((()))))))))))))))))))))))))))))))))))))))))))))))))))))))))))))))))))))))))))))))))))))))))))))))))))))))))))))))))))))))))))))))))"
p = "f::<X<X<X<X<X<X<X<X<X<X<X<X<X<X<X<X<X<X<X<X<X<X<X<X<X<X<X<X<X<X<X<X<X<X<X<X<X<X<X<X<X<X<X<X<X<X<X<X<X<X<X<X<X<X<X<X<X<X<X<X<X<X<X<X<X<X<X<X<X<X<X<X<X<X<X<X<X<X<X<X<X<X<X<X<X<X<X<X<X<X<X<X<X<X<X<X<X<X<X<X<X<X<X<X<X<X<X<X<X<X<X<X<X<X<X<X<X<X<X<X<X<X<X<X<X<X<X<X<u8>>>>>>>>>>>>>>>>>>>>>>>>>>>>>>>>>>>>>>>>>>>>>>>>>>>>>>>>>>>>>>>>>>>>>>>>>>>>>>>>>>>>>>>>>>>>>>>>>>>>>>>>>>>>>>>>>>>>>>>>>>>>>>>>>"
: 1:5: nested too deeply
"#;

#[test]
fn paths_are_read(rt: HostRuntime) -> Result<(), Fail> {
    check_values(rt.alloc(), ValueKind::Path, PATHS)
}

static INTEGERS: &str = r#"
p = 1
p(1)
p = "+1"
p = 1u8
: 1

p = -1
p[-1]
p("-1")
: -1

p
: 1:1: expected `p = integer` or `p(integer)`

a::p
: 1:1: expected `a::p = integer` or `a::p(integer)`

p = x
p = ""
p = '1'
p = b'1'
: 1:5: expected `p = integer`

p()
: 1:2: expected `p = integer`

p(+1)
: 1:3: expected `p = integer`
"#;

#[test]
fn integers_are_read(rt: HostRuntime) -> Result<(), Fail> {
    check_values(rt.alloc(), ValueKind::Integer, INTEGERS)
}

static EXPRESSIONS: &str = r#"
p = 1
: 1

p(1 + 1)
: 1 + 1

p = "1.5"
: "1.5"

p("x")
: "x"

p = f(x)
: f ( x )

p(a[0].b)
: a [ 0 ] . b

p
: 1:1: expected `p = Expr` or `p(Expr)`

a::p
: 1:1: expected `a::p = Expr` or `a::p(Expr)`

p()
: 1:2: expected `p = Expr`

p(1 2)
p(let)
: 1:3: expected `p = Expr`

p(!!!!!!!!!!!!!!!!!!!!!!!!!!!!!!!!!!!!!!!!!!!!!!!!!!!!!!!!!!!!!!!!!!!!!!!!!!!!!!!!!!!!!!!!!!!!!!!!!!!!!!!!!!!!!!!!!!!!!!!!!!!!!!!!!x)
: 1:131: nested too deeply
"#;

#[test]
fn expressions_are_read(rt: HostRuntime) -> Result<(), Fail> {
    check_values(rt.alloc(), ValueKind::Expr, EXPRESSIONS)
}

static FLAGS: &str = r#"
p
p = true
a::p
: true

p(false)
: false

p = 1
p = "true"
: 1:5: expected `p = false`

p()
: 1:2: expected `p = false`

p(x)
: 1:3: expected `p = false`
"#;

#[test]
fn flags_are_read(rt: HostRuntime) -> Result<(), Fail> {
    check_values(rt.alloc(), ValueKind::Flag, FLAGS)
}

static SHOWN_NAMES: &str = r#"
p = X
p(X)
p = "X"
: X

p = ""
p("")
p = r""
p(false)
: false

p = true
: true

p = "union"
: union

p
: 1:1: expected `p = Ident`, `p(Ident)`, `p = false`, or `p(false)`

a::p
: 1:1: expected `a::p = Ident`, `a::p(Ident)`, `a::p = false`, or `a::p(false)`

r#p
: 1:1: expected `r#p = Ident`, `r#p(Ident)`, `r#p = false`, or `r#p(false)`

p = 1
p = " "
p = "true"
p = b""
: 1:5: expected `p = Ident` or `p = false`

p()
: 1:2: expected `p = Ident` or `p = false`

p(X Y)
: 1:3: expected `p = Ident` or `p = false`

a :: p = 1
: 1:10: expected `a::p = Ident` or `a::p = false`

p("1.5")
: 1:3: `1.5` is not supported

p = "x 1.5 2.5"
: 1:5: `1.5` is not supported

p = "((((((((((((((((((((((((((((((((((((((((((((((((((((((((((((((((((((((((((((((((((((((((((((((((((((((((((((((((((((((((((((((((()))))))))))))))))))))))))))))))))))))))))))))))))))))))))))))))))))))))))))))))))))))))))))))))))))))))))))))))))))))))))))))))))"
: 1:5: nested too deeply
"#;

#[test]
fn shown_names_are_read(rt: HostRuntime) -> Result<(), Fail> {
    check_values(rt.alloc(), ValueKind::Name, SHOWN_NAMES)
}

static BOUNDS: &str = r#"
p = true
p(true)
: needed bounds

p = false
p[false]
: no bounds

p(*)
: all bounds

p(T: X,)
p = "T: X"
p("T: X")
: bounds T : X,

p()
p = ""
: bounds

p
a::p
: 1:1: expected `bound = "where_predicates"`, `bound(where_predicates)`, `bound(*)`, `bound = false`, or `bound(false)`

p = 1
p = T
p = "*"
p = "true"
p = "T: X Y"
: 1:5: expected `bound = "where_predicates"` or `bound = false`

p(* *)
p(1)
p(true, T: X)
: 1:3: expected `bound = "where_predicates"` or `bound = false`

p(T: X<X<X<X<X<X<X<X<X<X<X<X<X<X<X<X<X<X<X<X<X<X<X<X<X<X<X<X<X<X<X<X<X<X<X<X<X<X<X<X<X<X<X<X<X<X<X<X<X<X<X<X<X<X<X<X<X<X<X<X<X<X<X<X<X<X<X<X<X<X<X<X<X<X<X<X<X<X<X<X<X<X<X<X<X<X<X<X<X<X<X<X<X<X<X<X<X<X<X<X<X<X<X<X<X<X<X<X<X<X<X<X<X<X<X<X<X<X<X<X<X<X<X<X<X<X<X<X<X<u8>>>>>>>>>>>>>>>>>>>>>>>>>>>>>>>>>>>>>>>>>>>>>>>>>>>>>>>>>>>>>>>>>>>>>>>>>>>>>>>>>>>>>>>>>>>>>>>>>>>>>>>>>>>>>>>>>>>>>>>>>>>>>>>>>)
: 1:263: nested too deeply

p = "T: X<1.5>"
: 1:5: `1.5` is not supported

p = "((((((((((((((((((((((((((((((((((((((((((((((((((((((((((((((((((((((((((((((((((((((((((((((((((((((((((((((((((((((((((((((((()))))))))))))))))))))))))))))))))))))))))))))))))))))))))))))))))))))))))))))))))))))))))))))))))))))))))))))))))))))))))))))))))"
: 1:5: nested too deeply

p("T: X<X<X<X<X<X<X<X<X<X<X<X<X<X<X<X<X<X<X<X<X<X<X<X<X<X<X<X<X<X<X<X<X<X<X<X<X<X<X<X<X<X<X<X<X<X<X<X<X<X<X<X<X<X<X<X<X<X<X<X<X<X<X<X<X<X<X<X<X<X<X<X<X<X<X<X<X<X<X<X<X<X<X<X<X<X<X<X<X<X<X<X<X<X<X<X<X<X<X<X<X<X<X<X<X<X<X<X<X<X<X<X<X<X<X<X<X<X<X<X<X<X<X<X<X<X<X<X<X<u8>>>>>>>>>>>>>>>>>>>>>>>>>>>>>>>>>>>>>>>>>>>>>>>>>>>>>>>>>>>>>>>>>>>>>>>>>>>>>>>>>>>>>>>>>>>>>>>>>>>>>>>>>>>>>>>>>>>>>>>>>>>>>>>>>")
: 1:3: nested too deeply
"#;

#[test]
fn bounds_are_read(rt: HostRuntime) -> Result<(), Fail> {
    check_values(rt.alloc(), ValueKind::Bound, BOUNDS)
}

/// A meta, and the place of the name that is its value: in the text, or in the text of the string.
static PLACES: &str = r##"
p = X
: at 4 to 5

p(X)
: at 2 to 3

a::p = r#fn
: at 7 to 11

p = "X"
: at 0 to 1

p(" X")
: at 1 to 2

p = r#"/**/ X"#
: at 5 to 6
"##;

#[test]
fn names_have_places(rt: HostRuntime) -> Result<(), Fail> {
    check_rows(rt.alloc(), read_place, PLACES)
}

/// A meta, and the place at which it has no name or truth value.
static REFUSED: &str = r#"
p
: at 0 to 1

a :: p
: at 0 to 6

p = 1 + 1
p = "a b"
: at 4 to 9

p(a b)
: at 2 to 5

p{ 1 }
: at 3 to 4

p()
: at 1 to 3

p[  ]
: at 1 to 5

p("1.5")
: at 2 to 7
"#;

#[test]
fn refusals_have_places(rt: HostRuntime) -> Result<(), Fail> {
    check_rows(rt.alloc(), refused_place, REFUSED)
}
