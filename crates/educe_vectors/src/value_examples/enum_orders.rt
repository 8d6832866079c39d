//! Worked examples of what the comparisons of enums evaluate to: variants first, by their discriminants,
//! and then the fields of one variant (documentation of `educe`, PartialEq; PartialOrd; Ord; Rust
//! Reference, Enumerations).

use crate::tables::check_table;
use std::test::Fail;

static MIXED_VARIANTS: &str = r#"
equality of variants and fields
#[educe(PartialEq, PartialOrd, Ord)] enum E { A, B(u8, #[educe(PartialEq = false, Ord(ignore))] u8), C { x: u8, y: u8 } }
: eq 0() 0() = true
: eq 0() 1(0, 0) = false
: eq 1(0, 0) 0() = false
: eq 1(1, 2) 1(1, 3) = true
: eq 1(1, 2) 1(2, 2) = false
: eq 2(1, 2) 2(1, 2) = true
: eq 2(1, 2) 2(1, 3) = false
: eq 2(1, 2) 1(1, 2) = false
: eq 1(1) 1(1) = stuck
: eq 3() 0() = stuck
: eq 0() 3() = false

a partial order of variants and fields
#[educe(PartialEq, PartialOrd, Ord)] enum E { A, B(u8, #[educe(PartialEq = false, Ord(ignore))] u8), C { x: u8, y: u8 } }
: partial_cmp 0() 0() = Some(Equal)
: partial_cmp 0() 1(0, 0) = Some(Less)
: partial_cmp 2(0, 0) 1(9, 9) = Some(Greater)
: partial_cmp 1(1, 2) 1(1, 3) = Some(Equal)
: partial_cmp 1(3, 2) 1(2, 3) = Some(Greater)
: partial_cmp 2(1, 2) 2(1, 3) = Some(Less)
: partial_cmp 2(2, 1) 2(1, 3) = Some(Greater)

an order of variants and fields
#[educe(PartialEq, PartialOrd, Ord)] enum E { A, B(u8, #[educe(PartialEq = false, Ord(ignore))] u8), C { x: u8, y: u8 } }
: cmp 0() 0() = Equal
: cmp 0() 2(0, 0) = Less
: cmp 2(0, 0) 0() = Greater
: cmp 1(1, 2) 1(1, 3) = Equal
: cmp 1(1, 2) 1(2, 1) = Less
: cmp 2(1, 4) 2(1, 3) = Greater
: cmp 2(1) 2(1) = stuck
: cmp 0() 3() = stuck
"#;

#[test]
fn variants_and_fields_are_compared(rt: HostRuntime) -> Result<(), Fail> {
    check_table(rt.alloc(), MIXED_VARIANTS)
}

static FIELDS: &str = r#"
a method of equality that is not symmetric
#[educe(PartialEq)] enum Enum { V2 { #[educe(PartialEq(method(eq)))] f1: u8 } }
: method eq(1, 2) -> true
: method eq(2, 1) -> false
: eq 0(1) 0(2) = true
: eq 0(2) 0(1) = false
: eq 0(1) 0(1) = stuck

ranks and a method inside a variant
#[educe(PartialOrd, Ord)] enum E { A(#[educe(Ord(rank = 2))] u8, #[educe(Ord(rank = 1, method(c)))] u8), B { #[educe(Ord(rank = 2))] x: u8, #[educe(Ord(rank = 1))] y: u8 } }
: method c(1, 2) -> Greater
: method c(1, 1) -> Equal
: cmp 0(1, 1) 0(2, 2) = Greater
: cmp 0(1, 1) 0(2, 1) = Less
: cmp 0(1, 1) 0(1, 1) = Equal
: cmp 0(1, 2) 0(1, 1) = stuck
: cmp 1(1, 2) 1(2, 1) = Greater
: cmp 1(1, 2) 0(2, 1) = Greater

a method of `Ord` serves the other order
#[educe(PartialOrd, Ord)] enum E { A(#[educe(Ord(rank = 2))] u8, #[educe(Ord(rank = 1, method(c)))] u8), B { #[educe(Ord(rank = 2))] x: u8, #[educe(Ord(rank = 1))] y: u8 } }
: method c(1, 2) -> Greater
: method c(1, 1) -> Equal
: method c(2, 2) -> None
: partial_cmp 0(1, 1) 0(2, 2) = Some(Greater)
: partial_cmp 0(1, 1) 0(2, 1) = Some(Less)
: partial_cmp 0(1, 2) 0(1, 2) = stuck
: partial_cmp 1(1, 2) 1(2, 1) = Some(Greater)

a method of a partial order that finds none
#[educe(PartialOrd)] enum E { A, B(#[educe(PartialOrd(method(p)))] u8) }
: method p(1, 1) -> None
: method p(1, 2) -> Less
: partial_cmp 1(1) 1(1) = None
: partial_cmp 1(1) 1(2) = stuck
: partial_cmp 1(1) 0() = Some(Greater)

equality by a method of the name of the second value
#[educe(PartialEq, PartialOrd, Ord)] enum E { A { #[educe(PartialEq(method(other)))] _s_x: u8, #[educe(Ord(method = "this"))] y: u8 } }
: method other(1, 2) -> true
: eq 0(1, 3) 0(2, 3) = true
: eq 0(1, 3) 0(2, 4) = false

an order by a method of the name of a parameter
#[educe(PartialEq, PartialOrd, Ord)] enum E { A { #[educe(PartialEq(method(other)))] _s_x: u8, #[educe(Ord(method = "this"))] y: u8 } }
: method this(3, 4) -> Greater
: cmp 0(1, 3) 0(1, 4) = Greater
: cmp 0(1, 3) 0(2, 4) = Less

a partial order by it
#[educe(PartialEq, PartialOrd, Ord)] enum E { A { #[educe(PartialEq(method(other)))] _s_x: u8, #[educe(Ord(method = "this"))] y: u8 } }
: method this(3, 4) -> Greater
: partial_cmp 0(1, 3) 0(1, 4) = Some(Greater)
: partial_cmp 0(2, 3) 0(1, 4) = Some(Greater)

a method that has the name of a variable
#[educe(PartialEq)] enum E { A(#[educe(PartialEq(method(_s_0)))] u8) }
: method _s_0(1, 2) -> true
: eq 0(1) 0(2) = true
"#;

#[test]
fn fields_of_a_variant_are_compared(rt: HostRuntime) -> Result<(), Fail> {
    check_table(rt.alloc(), FIELDS)
}

static KEYS: &str = r#"
a variant that stands behind and comes before
#[educe(Ord)] enum E { Two = 2, One = 1 }
: cmp 1() 0() = Less
: cmp 0() 1() = Greater
: cmp 0() 0() = Equal

discriminants that go down
#[educe(PartialOrd, Ord)] #[repr(u8)] enum Enum { Three { f1: u8 } = 3, Two(u8) = 2, One = 1 }
: cmp 2() 1(0) = Less
: cmp 0(0) 1(9) = Greater
: cmp 1(1) 1(2) = Less
: cmp 2() 2() = Equal

discriminants that go down, in the other order
#[educe(PartialOrd, Ord)] #[repr(u8)] enum Enum { Three { f1: u8 } = 3, Two(u8) = 2, One = 1 }
: partial_cmp 2() 1(0) = Some(Less)
: partial_cmp 0(0) 2() = Some(Greater)
: partial_cmp 0(1) 0(1) = Some(Equal)

discriminants do not count for equality
#[educe(PartialEq)] enum E { Two = 2, One = 1 }
: eq 0() 0() = true
: eq 0() 1() = false
: eq 1() 0() = false

negative discriminants
#[educe(PartialOrd)] #[repr(i8)] enum E { Zero, Low = -128, Next, Last = -0x1i8, Behind }
: partial_cmp 1() 0() = Some(Less)
: partial_cmp 2() 1() = Some(Greater)
: partial_cmp 2() 3() = Some(Less)
: partial_cmp 4() 0() = Some(Equal)
: partial_cmp 4() 3() = Some(Greater)

a number that the table has for an expression
#[educe(PartialOrd, Ord)] enum E { A = X, B }
: const X -> 5
: cmp 0() 1() = Less
: cmp 1() 0() = Greater
: cmp 1() 1() = Equal

an expression without a number
#[educe(PartialOrd, Ord)] enum E { A = X, B }
: cmp 0() 1() = stuck
: cmp 1() 0() = stuck

an expression without a number, in the other order
#[educe(PartialOrd, Ord)] enum E { A = X, B }
: partial_cmp 0() 1() = stuck

an expression is found by its text
#[educe(Ord)] #[repr(u8)] enum E { A = X::Y + 1, B = self::Z, C(u8) = 3 }
: const X :: Y + 1 -> 7
: const self :: Z -> 6
: const 3 -> 99
: cmp 0() 1() = Greater
: cmp 2(1) 1() = Less
: cmp 2(1) 0() = Less

an expression with a name that functions declare elsewhere
#[educe(Ord)] enum E { A = this + base, B }
: const this + base -> 1
: cmp 0() 1() = Less

a distance that wraps
#[educe(Ord)] #[repr(u8)] enum E { Last = 255, First, Next }
: cmp 1() 0() = Less
: cmp 2() 1() = Greater
: cmp 2() 0() = Less

a distance that wraps where no type is written
#[educe(Ord)] #[repr(C)] enum E { Zero, Last = 9223372036854775807, First }
: cmp 2() 1() = Less
: cmp 2() 0() = Less
: cmp 1() 0() = Greater

the largest discriminants
#[educe(Ord)] #[repr(u128)] enum E { Last = 340282366920938463463374607431768211455, Before = 340282366920938463463374607431768211454, Zero = 0 }
: cmp 1() 0() = Less
: cmp 2() 1() = Less
: cmp 0() 2() = Greater
"#;

#[test]
fn discriminants_are_compared(rt: HostRuntime) -> Result<(), Fail> {
    check_table(rt.alloc(), KEYS)
}

static NO_VARIANTS: &str = r#"
equality without variants
#[educe(PartialEq)] enum E {}
: eq 0() 0() = true

a partial order without variants
#[educe(PartialOrd)] enum E {}
: partial_cmp 0() 0() = Some(Equal)

an order without variants
#[educe(Ord)] enum E {}
: cmp 0() 0() = Equal
"#;

#[test]
fn no_variants_are_equal(rt: HostRuntime) -> Result<(), Fail> {
    check_table(rt.alloc(), NO_VARIANTS)
}

static MANY: &str = r#"
the distance of the last of 200 variants is written
#[educe(Ord)] #[repr(i8)] enum E { V0 = -128, V1, V2, V3, V4, V5, V6, V7, V8, V9, V10, V11, V12, V13, V14, V15, V16, V17, V18, V19, V20, V21, V22, V23, V24, V25, V26, V27, V28, V29, V30, V31, V32, V33, V34, V35, V36, V37, V38, V39, V40, V41, V42, V43, V44, V45, V46, V47, V48, V49, V50, V51, V52, V53, V54, V55, V56, V57, V58, V59, V60, V61, V62, V63, V64, V65, V66, V67, V68, V69, V70, V71, V72, V73, V74, V75, V76, V77, V78, V79, V80, V81, V82, V83, V84, V85, V86, V87, V88, V89, V90, V91, V92, V93, V94, V95, V96, V97, V98, V99, V100, V101, V102, V103, V104, V105, V106, V107, V108, V109, V110, V111, V112, V113, V114, V115, V116, V117, V118, V119, V120, V121, V122, V123, V124, V125, V126, V127, V128, V129, V130, V131, V132, V133, V134, V135, V136, V137, V138, V139, V140, V141, V142, V143, V144, V145, V146, V147, V148, V149, V150, V151, V152, V153, V154, V155, V156, V157, V158, V159, V160, V161, V162, V163, V164, V165, V166, V167, V168, V169, V170, V171, V172, V173, V174, V175, V176, V177, V178, V179, V180, V181, V182, V183, V184, V185, V186, V187, V188, V189, V190, V191, V192, V193, V194, V195, V196, V197, V198, V199 }
: holds Self :: V199 => const { let base : :: core :: primitive :: i8 = - 128 ; base . wrapping_add ( 199usize as :: core :: primitive :: i8 ) } , } } ;

a variant whose discriminant is one below that of the last of 200
#[educe(Ord)] #[repr(i8)] enum E { V0 = -128, V1, V2, V3, V4, V5, V6, V7, V8, V9, V10, V11, V12, V13, V14, V15, V16, V17, V18, V19, V20, V21, V22, V23, V24, V25, V26, V27, V28, V29, V30, V31, V32, V33, V34, V35, V36, V37, V38, V39, V40, V41, V42, V43, V44, V45, V46, V47, V48, V49, V50, V51, V52, V53, V54, V55, V56, V57, V58, V59, V60, V61, V62, V63, V64, V65, V66, V67, V68, V69, V70, V71, V72, V73, V74, V75, V76, V77, V78, V79, V80, V81, V82, V83, V84, V85, V86, V87, V88, V89, V90, V91, V92, V93, V94, V95, V96, V97, V98, V99, V100, V101, V102, V103, V104, V105, V106, V107, V108, V109, V110, V111, V112, V113, V114, V115, V116, V117, V118, V119, V120, V121, V122, V123, V124, V125, V126, V127, V128, V129, V130, V131, V132, V133, V134, V135, V136, V137, V138, V139, V140, V141, V142, V143, V144, V145, V146, V147, V148, V149, V150, V151, V152, V153, V154, V155, V156, V157, V158, V159, V160, V161, V162, V163, V164, V165, V166, V167, V168, V169, V170, V171, V172, V173, V174, V175, V176, V177, V178, V179, V180, V181, V182, V183, V184, V185, V186, V187, V188, V189, V190, V191, V192, V193, V194, V195, V196, V197, V198, V199, W = 70 }
: cmp 199() 200() = Greater
: cmp 199() 0() = Greater
: cmp 127() 128() = Less

a variant whose discriminant is that of the last of 200
#[educe(Ord)] #[repr(i8)] enum E { V0 = -128, V1, V2, V3, V4, V5, V6, V7, V8, V9, V10, V11, V12, V13, V14, V15, V16, V17, V18, V19, V20, V21, V22, V23, V24, V25, V26, V27, V28, V29, V30, V31, V32, V33, V34, V35, V36, V37, V38, V39, V40, V41, V42, V43, V44, V45, V46, V47, V48, V49, V50, V51, V52, V53, V54, V55, V56, V57, V58, V59, V60, V61, V62, V63, V64, V65, V66, V67, V68, V69, V70, V71, V72, V73, V74, V75, V76, V77, V78, V79, V80, V81, V82, V83, V84, V85, V86, V87, V88, V89, V90, V91, V92, V93, V94, V95, V96, V97, V98, V99, V100, V101, V102, V103, V104, V105, V106, V107, V108, V109, V110, V111, V112, V113, V114, V115, V116, V117, V118, V119, V120, V121, V122, V123, V124, V125, V126, V127, V128, V129, V130, V131, V132, V133, V134, V135, V136, V137, V138, V139, V140, V141, V142, V143, V144, V145, V146, V147, V148, V149, V150, V151, V152, V153, V154, V155, V156, V157, V158, V159, V160, V161, V162, V163, V164, V165, V166, V167, V168, V169, V170, V171, V172, V173, V174, V175, V176, V177, V178, V179, V180, V181, V182, V183, V184, V185, V186, V187, V188, V189, V190, V191, V192, V193, V194, V195, V196, V197, V198, V199, W = 71 }
: cmp 199() 200() = Equal
: cmp 199() 0() = Greater
: cmp 127() 128() = Less

a variant whose discriminant is one above that of the last of 200
#[educe(Ord)] #[repr(i8)] enum E { V0 = -128, V1, V2, V3, V4, V5, V6, V7, V8, V9, V10, V11, V12, V13, V14, V15, V16, V17, V18, V19, V20, V21, V22, V23, V24, V25, V26, V27, V28, V29, V30, V31, V32, V33, V34, V35, V36, V37, V38, V39, V40, V41, V42, V43, V44, V45, V46, V47, V48, V49, V50, V51, V52, V53, V54, V55, V56, V57, V58, V59, V60, V61, V62, V63, V64, V65, V66, V67, V68, V69, V70, V71, V72, V73, V74, V75, V76, V77, V78, V79, V80, V81, V82, V83, V84, V85, V86, V87, V88, V89, V90, V91, V92, V93, V94, V95, V96, V97, V98, V99, V100, V101, V102, V103, V104, V105, V106, V107, V108, V109, V110, V111, V112, V113, V114, V115, V116, V117, V118, V119, V120, V121, V122, V123, V124, V125, V126, V127, V128, V129, V130, V131, V132, V133, V134, V135, V136, V137, V138, V139, V140, V141, V142, V143, V144, V145, V146, V147, V148, V149, V150, V151, V152, V153, V154, V155, V156, V157, V158, V159, V160, V161, V162, V163, V164, V165, V166, V167, V168, V169, V170, V171, V172, V173, V174, V175, V176, V177, V178, V179, V180, V181, V182, V183, V184, V185, V186, V187, V188, V189, V190, V191, V192, V193, V194, V195, V196, V197, V198, V199, W = 72 }
: cmp 199() 200() = Less
: cmp 199() 0() = Greater
: cmp 127() 128() = Less
"#;

#[test]
fn a_distance_is_larger_than_the_type(rt: HostRuntime) -> Result<(), Fail> {
    check_table(rt.alloc(), MANY)
}
