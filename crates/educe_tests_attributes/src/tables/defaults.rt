//! The attributes of `Default`, and how default values are written (documentation of `educe`, Default).

use crate::answers::{check_metas, check_types};
use crate::defaults::{check_default_places, check_defaults, written};
use educe_attrs::default;
use educe_bound::Trait;
use educe_tests::check_rows;
use std::test::Fail;

static TYPE: &str = r#"
Default
: marked; no new; no value; needed bounds; at 0 to 7

Default()
Default[]
: marked; no new; no value; needed bounds; at 0 to 9

Default(new)
: not marked; new; no value; needed bounds; at 0 to 12

Default(new = true)
: not marked; new; no value; needed bounds; at 0 to 19

Default(new(false))
: not marked; no new; no value; needed bounds; at 0 to 19

Default(expression = x)
: not marked; no new; value x; needed bounds; at 0 to 23

Default(expr = x + 1)
: not marked; no new; value x + 1; needed bounds; at 0 to 21

Default(expr(f(1)))
: not marked; no new; value f ( 1 ); needed bounds; at 0 to 19

Default(expression(S { a: 1 }))
: not marked; no new; value S { a : 1 }; needed bounds; at 0 to 31

Default(expr = 1)
: not marked; no new; value :: core :: convert :: Into :: into ( 1 ); needed bounds; at 0 to 17

Default(expression(true))
: not marked; no new; value :: core :: convert :: Into :: into ( true ); needed bounds; at 0 to 25

Default(expr = "a")
: not marked; no new; value :: core :: convert :: Into :: into ( "a" ); needed bounds; at 0 to 19

Default(expr = -1)
: not marked; no new; value - 1; needed bounds; at 0 to 18

Default(expr = (1))
: not marked; no new; value ( 1 ); needed bounds; at 0 to 19

Default(bound = false)
: not marked; no new; no value; no bounds; at 0 to 22

Default(bound(*), expr = x, new)
: not marked; new; value x; all bounds; at 0 to 32

Default = 1
Default(ignore)
Default(name = x)
Default(r#new)
: 1:1: you are using an incorrect format of the `Default` attribute, which should be reformatted as follows:
    #[educe(Default)]
    #[educe(Default(new))]
    #[educe(Default(expression = expr))]
    #[educe(Default(bound(where_predicates)))]
    #[educe(Default(bound = false))]

Default(new = 1)
: 1:15: expected `new = false`

Default(new())
: 1:12: expected `new = false`

Default(expression)
: 1:9: expected `expression = Expr` or `expression(Expr)`

Default(expr)
: 1:9: expected `expr = Expr` or `expr(Expr)`

Default(expr())
: 1:13: expected `expr = Expr`

Default(expression(1 2))
: 1:20: expected `expression = Expr`

Default(expr(let))
: 1:14: expected `expr = Expr`

Default(bound)
: 1:9: expected `bound = "where_predicates"`, `bound(where_predicates)`, `bound(*)`, `bound = false`, or `bound(false)`

Default(bound = x)
: 1:17: expected `bound = "where_predicates"` or `bound = false`

Default(new, new)
: 1:14: you are trying to reset the `new` parameter

Default(expression = 1, expr = 1)
: 1:25: you are trying to reset the `expr` parameter

Default(expr = 1, new, expression = 2)
: 1:24: you are trying to reset the `expression` parameter

Default(expr = 1 2)
: 1:18: syntax error

Default(a = !!!!!!!!!!!!!!!!!!!!!!!!!!!!!!!!!!!!!!!!!!!!!!!!!!!!!!!!!!!!!!!!!!!!!!!!!!!!!!!!!!!!!!!!!!!!!!!!!!!!!!!!!!!!!!!!!!!!!!!!!!!!!!!!!x)
: 1:141: nested too deeply

Default(bound = "T: 1.5")
: 1:17: `1.5` is not supported
"#;

#[test]
fn default_at_a_type(rt: HostRuntime) -> Result<(), Fail> {
    check_metas(
        rt.alloc(),
        default::TypeAttributeBuilder {
            enable_flag: true,
            enable_new: true,
            enable_expression: true,
            enable_bound: true,
        },
        TYPE,
    )
}

static VARIANT: &str = r#"
Default
: marked; no new; no value; needed bounds; at 0 to 7

Default()
: marked; no new; no value; needed bounds; at 0 to 9

Default(new)
Default = 1
Default(bound = false)
: 1:1: you are using an incorrect format of the `Default` attribute, which should be reformatted as follows:
    #[educe(Default)]

Default(1)
: 1:9: syntax error

Default(a = !!!!!!!!!!!!!!!!!!!!!!!!!!!!!!!!!!!!!!!!!!!!!!!!!!!!!!!!!!!!!!!!!!!!!!!!!!!!!!!!!!!!!!!!!!!!!!!!!!!!!!!!!!!!!!!!!!!!!!!!!!!!!!!!!x)
: 1:141: nested too deeply
"#;

#[test]
fn default_at_a_variant(rt: HostRuntime) -> Result<(), Fail> {
    check_metas(
        rt.alloc(),
        default::TypeAttributeBuilder {
            enable_flag: true,
            enable_new: false,
            enable_expression: false,
            enable_bound: false,
        },
        VARIANT,
    )
}

static NOWHERE: &str = r#"
Default
Default()
Default(expr = 1)
Default(1 1)
: 1:1: the `Default` attribute cannot be placed here
"#;

#[test]
fn default_nowhere(rt: HostRuntime) -> Result<(), Fail> {
    check_metas(
        rt.alloc(),
        default::TypeAttributeBuilder {
            enable_flag: false,
            enable_new: false,
            enable_expression: false,
            enable_bound: false,
        },
        NOWHERE,
    )
}

#[test]
fn default_at_no_field(rt: HostRuntime) -> Result<(), Fail> {
    check_defaults(
        rt.alloc(),
        &default::FieldAttributeBuilder {
            enable_flag: false,
            enable_expression: false,
        },
        "u8",
        NOWHERE,
    )
}

static FIELD: &str = r#"
Default = 1
: not marked; value 1; at 0 to 11

Default = x
: not marked; value x; at 0 to 11

Default(expression = 1)
: not marked; value 1; at 0 to 23

Default(expr(1))
: not marked; value 1; at 0 to 16

Default[expr = 1]
: not marked; value 1; at 0 to 17

Default = "a"
: not marked; value :: core :: convert :: Into :: into ( "a" ); at 0 to 13

Default
Default()
Default(new)
Default(bound = false)
: 1:1: you are using an incorrect format of the `Default` attribute, which should be reformatted as follows:
    #[educe(Default = expr)]
    #[educe(Default(expression = expr))]

Default(expr)
: 1:9: expected `expr = Expr` or `expr(Expr)`

Default(expression())
: 1:19: expected `expression = Expr`

Default(expr = 1, expr = 1)
: 1:19: you are trying to reset the `expr` parameter

Default(1)
: 1:9: syntax error

Default(a = !!!!!!!!!!!!!!!!!!!!!!!!!!!!!!!!!!!!!!!!!!!!!!!!!!!!!!!!!!!!!!!!!!!!!!!!!!!!!!!!!!!!!!!!!!!!!!!!!!!!!!!!!!!!!!!!!!!!!!!!!!!!!!!!!x)
: 1:141: nested too deeply
"#;

#[test]
fn default_at_a_field(rt: HostRuntime) -> Result<(), Fail> {
    check_defaults(
        rt.alloc(),
        &default::FieldAttributeBuilder {
            enable_flag: false,
            enable_expression: true,
        },
        "u8",
        FIELD,
    )
}

static FIELD_WITH_FLAG: &str = r#"
Default
: marked; no value; at 0 to 7

Default()
: marked; no value; at 0 to 9

Default = 1
: not marked; value 1; at 0 to 11

Default(new)
: 1:1: you are using an incorrect format of the `Default` attribute, which should be reformatted as follows:
    #[educe(Default)]
    #[educe(Default = expr)]
    #[educe(Default(expression = expr))]
"#;

#[test]
fn default_at_a_field_with_a_flag(rt: HostRuntime) -> Result<(), Fail> {
    check_defaults(
        rt.alloc(),
        &default::FieldAttributeBuilder {
            enable_flag: true,
            enable_expression: true,
        },
        "u8",
        FIELD_WITH_FLAG,
    )
}

static FIELD_ONLY_FLAG: &str = r#"
Default{}
: marked; no value; at 0 to 9

Default = 1
Default(expr = 1)
: 1:1: you are using an incorrect format of the `Default` attribute, which should be reformatted as follows:
    #[educe(Default)]
"#;

#[test]
fn default_at_a_field_with_a_flag_alone(rt: HostRuntime) -> Result<(), Fail> {
    check_defaults(
        rt.alloc(),
        &default::FieldAttributeBuilder {
            enable_flag: true,
            enable_expression: false,
        },
        "u8",
        FIELD_ONLY_FLAG,
    )
}

static WITHOUT_EXPRESSION: &str = r#"
Default(new)
: not marked; new; no value; needed bounds; at 0 to 12

Default(expression = 1)
Default(expr = 1)
: 1:1: you are using an incorrect format of the `Default` attribute, which should be reformatted as follows:
    #[educe(Default)]
    #[educe(Default(new))]
    #[educe(Default(bound(where_predicates)))]
    #[educe(Default(bound = false))]
"#;

#[test]
fn default_without_an_expression(rt: HostRuntime) -> Result<(), Fail> {
    check_metas(
        rt.alloc(),
        default::TypeAttributeBuilder {
            enable_flag: true,
            enable_new: true,
            enable_expression: false,
            enable_bound: true,
        },
        WITHOUT_EXPRESSION,
    )
}

static WITHOUT_FLAG: &str = r#"
Default(new, expr = x)
: not marked; new; value x; needed bounds; at 0 to 22

Default
Default()
Default(bound = false)
: 1:1: you are using an incorrect format of the `Default` attribute, which should be reformatted as follows:
    #[educe(Default(new))]
    #[educe(Default(expression = expr))]
"#;

#[test]
fn default_without_a_flag(rt: HostRuntime) -> Result<(), Fail> {
    check_metas(
        rt.alloc(),
        default::TypeAttributeBuilder {
            enable_flag: false,
            enable_new: true,
            enable_expression: true,
            enable_bound: false,
        },
        WITHOUT_FLAG,
    )
}

/// The type of a field with a default value, and how this is written.
static INTEGERS: &str = r#"
u8 = 1
::core::primitive::u8 = 1
core::primitive::isize = 1
std::primitive::u64 = 1
::std::primitive::i8 = 1
: 1

i128 = 1u16
: 1u16

usize = 0x1
: 0x1

f64 = 1
U8 = 1
primitive::u8 = 1
r#u8 = 1
&u8 = 1
(u8) = 1
: :: core :: convert :: Into :: into ( 1 )
"#;

#[test]
fn integers_are_converted_where_they_do_not_fit(rt: HostRuntime) -> Result<(), Fail> {
    check_rows(rt.alloc(), written, INTEGERS)
}

/// The type of a field with a default value, and how this is written.
static STRINGS: &str = r#"
&str = "a"
&'static str = "a"
&'a mut str = "a"
&core::primitive::str = "a"
: "a"

&mut str = r"a"
: r"a"

str = "a"
String = "a"
: :: core :: convert :: Into :: into ( "a" )
"#;

#[test]
fn strings_are_converted_where_they_do_not_fit(rt: HostRuntime) -> Result<(), Fail> {
    check_rows(rt.alloc(), written, STRINGS)
}

/// The type of a field with a default value, and how this is written.
static OTHERS: &str = r#"
&&str = "a"
: :: core :: convert :: Into :: into ( "a" )

bool = true
: true

::std::primitive::bool = false
: false

u8 = true
Option<bool> = true
: :: core :: convert :: Into :: into ( true )

bool = 1
: :: core :: convert :: Into :: into ( 1 )

char = 'a'
: 'a'

u8 = 'a'
: :: core :: convert :: Into :: into ( 'a' )

u8 = b'a'
: b'a'

i8 = b'a'
char = b'a'
: :: core :: convert :: Into :: into ( b'a' )

&[u8; 2] = b"ab"
&'static [u8; 2] = b"ab"
: b"ab"

&[u8; N] = br"ab"
: br"ab"

&[u8] = b"ab"
[u8; 2] = b"ab"
&[i8; 2] = b"ab"
&str = b"ab"
: :: core :: convert :: Into :: into ( b"ab" )

T = x
: x

T = 1 + 1
: 1 + 1

u8 = -1
: - 1

T = (1)
: ( 1 )

T = !true
: ! true
"#;

#[test]
fn other_values_are_converted_where_they_do_not_fit(rt: HostRuntime) -> Result<(), Fail> {
    check_rows(rt.alloc(), written, OTHERS)
}

static TYPE_PLACES: &str = r#"
∅
#[educe(Debug)]
: not marked; no new; no value; needed bounds; at 0 to 0

#[educe(Debug, Default(new))]
: not marked; new; no value; needed bounds; at 15 to 27

#[educe(Default)] #[educe(Default)]
: 1:27: the trait `Default` is used repeatedly
"#;

#[test]
fn default_in_the_attributes_of_a_type(rt: HostRuntime) -> Result<(), Fail> {
    check_types(
        rt.alloc(),
        default::TypeAttributeBuilder {
            enable_flag: true,
            enable_new: true,
            enable_expression: true,
            enable_bound: true,
        },
        &[Trait::Debug, Trait::Default],
        TYPE_PLACES,
    )
}

static FIELD_PLACES: &str = r#"
∅
: not marked; no value; at 0 to 0

#[educe(Default = 1)]
: not marked; value 1; at 8 to 19

#[educe()] #[educe(Debug(ignore))] #[educe(Default(expr = 'a'))]
: not marked; value :: core :: convert :: Into :: into ( 'a' ); at 43 to 62

#[educe(Default)]
: 1:9: you are using an incorrect format of the `Default` attribute, which should be reformatted as follows:
    #[educe(Default = expr)]
    #[educe(Default(expression = expr))]

#[educe(Default = 1, Default = 1)]
: 1:22: the trait `Default` is used repeatedly

#[educe(Hash, Default = 1)]
: 1:9: the trait `Hash` is not used

#[educe(Other, Default = 1)]
: 1:9: unsupported trait `Other`, available traits:
    Debug
    Clone
    Copy
    PartialEq
    Eq
    PartialOrd
    Ord
    Hash
    Default
"#;

#[test]
fn default_in_the_attributes_of_a_field(rt: HostRuntime) -> Result<(), Fail> {
    check_default_places(
        rt.alloc(),
        &default::FieldAttributeBuilder {
            enable_flag: false,
            enable_expression: true,
        },
        "u8",
        &[Trait::Debug, Trait::Default],
        FIELD_PLACES,
    )
}
