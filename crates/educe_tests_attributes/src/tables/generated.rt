//! What generated items take from the attributes of a type (Rust Reference, Lint check attributes; The
//! alignment modifiers; Primitive representations).

use crate::generated::{discriminants_name, lint_text, named_type, packed_words};
use educe_tests::check_rows;
use std::test::Fail;

/// Attributes of a type, and the lint attributes of what is generated for it.
static LINTS: &str = r#"
∅
#[expect]
#[expect = 1]
#[forbid(a)]
#[r#allow(a)]
#[allow::allow(a)]
#[educe(Ord)] /// x␊#[derive(Ord)]
: ∅

#[allow(dead_code)]
: # [ allow ( dead_code ) ]

#[warn(a)] #[deny(b, c::d,)]
: # [ warn ( a ) ] # [ deny ( b , c :: d , ) ]

#[expect(a, reason = "b")]
: # [ allow ( a , reason = "b" ) ]

#[expect[a]]
: # [ allow ( a ) ]

#[allow]
: # [ allow ]

#[allow = 1]
: # [ allow = 1 ]

#[deny = 1 2]
: # [ deny = 1 2 ]

#[warn[a]]
: # [ warn [ a ] ]

#[deny(b)] #[educe(Ord)] #[allow(a)] #[expect(c)]
: # [ deny ( b ) ] # [ allow ( a ) ] # [ allow ( c ) ]
"#;

#[test]
fn lints_are_copied(rt: HostRuntime) -> Result<(), Fail> {
    check_rows(rt.alloc(), lint_text, LINTS)
}

/// Attributes of a type, and whether it is packed.
static PACKED: &str = r#"
∅
#[repr(C)]
#[repr(r#packed)]
#[repr(a::packed)]
#[repr(packed 1)]
#[repr(C(packed))]
#[r#repr(packed)]
#[repr]
#[repr = packed]
#[packed]
: not packed

#[repr(packed)]
#[repr(C, packed(2))]
#[repr(packed = 1)]
#[repr[packed]]
#[repr(C)] #[repr{packed,}]
#[repr(1)] #[repr(packed)]
: packed
"#;

#[test]
fn representations_are_packed(rt: HostRuntime) -> Result<(), Fail> {
    check_rows(rt.alloc(), packed_words, PACKED)
}

/// Attributes of a type, and the name of the type that its discriminants have.
static DISCRIMINANTS: &str = r#"
∅
#[repr(isize)]
#[repr(C)]
#[repr(u8 i16)]
#[repr(u8, 1)]
#[repr(r#u8)]
#[repr(U8)]
#[repr(f32, char, bool)]
#[repr(core::primitive::u8)]
#[repr(::u8)]
#[repr(u8 = 1)]
#[repr(u8(i16))]
#[r#repr(u8)]
#[a::repr(u8)]
#[repr]
#[repr = u8]
#[u8]
#[educe(u8)]
: isize

#[repr(i8)]
: i8

#[repr(i16)]
#[repr(align(8), i16)]
#[repr(u8, i16)]
#[repr(u8)] #[repr(i16)]
#[repr(1)] #[repr(i16)]
: i16

#[repr(i32)]
: i32

#[repr(i64)]
: i64

#[repr(i128)]
: i128

#[repr(usize)]
: usize

#[repr(u8)]
#[repr(C, u8)]
#[repr(u8, C)]
#[repr(i16, u8)]
#[repr(u8)] #[educe(Ord)] #[repr(C)]
#[repr(i8, u8)] #[repr()] #[allow(u16)]
#[repr[u8]]
#[repr{u8,}]
#[repr(u8)] #[repr(i16 1)]
: u8

#[repr(u16)]
: u16

#[repr(u32)]
: u32

#[repr(u64)]
: u64

#[repr(u128)]
: u128
"#;

#[test]
fn discriminants_have_a_type(rt: HostRuntime) -> Result<(), Fail> {
    check_rows(rt.alloc(), discriminants_name, DISCRIMINANTS)
}

/// Names, the types of discriminants that have them, and the paths that are printed.
static TYPES: &str = r#"
isize
: ISize, :: core :: primitive :: isize

i8
: I8, :: core :: primitive :: i8

i16
: I16, :: core :: primitive :: i16

i32
: I32, :: core :: primitive :: i32

i64
: I64, :: core :: primitive :: i64

i128
: I128, :: core :: primitive :: i128

usize
: USize, :: core :: primitive :: usize

u8
: U8, :: core :: primitive :: u8

u16
: U16, :: core :: primitive :: u16

u32
: U32, :: core :: primitive :: u32

u64
: U64, :: core :: primitive :: u64

u128
: U128, :: core :: primitive :: u128

∅
u
8
u08
u88
u256
U8
ISize
␠u8
u8␠
r#u8
f32
: no type
"#;

#[test]
fn types_of_discriminants_have_names(rt: HostRuntime) -> Result<(), Fail> {
    check_rows(rt.alloc(), named_type, TYPES)
}
