//! Worked examples of what comparisons by user-written functions evaluate to (documentation of `educe`,
//! PartialEq; PartialOrd; Ord). `examples/answers.sh` has compiled code answer these rows too.

use crate::tables::check_table;
use std::test::Fail;

static TRUTHS: &str = r#"
a method says that two are equal
#[educe(PartialEq)] struct S { #[educe(PartialEq(method(other)))] a: u8 }
: method other(1, 2) -> true
: eq 0(1) 0(2) = true

a method that is not symmetric
#[educe(PartialEq)] struct S { #[educe(PartialEq(method(before)))] a: u8 }
: method before(1, 2) -> true
: method before(2, 1) -> false
: eq 0(1) 0(2) = true

a method that is not symmetric, the other way round
#[educe(PartialEq)] struct S { #[educe(PartialEq(method(before)))] a: u8 }
: method before(1, 2) -> true
: method before(2, 1) -> false
: eq 0(2) 0(1) = false

a method that is not reflexive
#[educe(PartialEq)] struct S { #[educe(PartialEq(method(never)))] a: u8 }
: method never(1, 1) -> false
: eq 0(1) 0(1) = false

a method for one of two fields
#[educe(PartialEq)] struct S { #[educe(PartialEq(method(m)))] a: u8, b: u8 }
: method m(1, 2) -> true
: eq 0(1, 5) 0(2, 5) = true

a field without a method tells two apart
#[educe(PartialEq)] struct S { #[educe(PartialEq(method(m)))] a: u8, b: u8 }
: method m(1, 2) -> true
: eq 0(1, 5) 0(2, 6) = false

a field with a method tells two apart
#[educe(PartialEq)] struct S { #[educe(PartialEq(method(m)))] a: u8, b: u8 }
: method m(1, 1) -> false
: eq 0(1, 5) 0(1, 5) = false

a field that tells two apart ends the comparison
#[educe(PartialEq)] struct S { a: u8, #[educe(PartialEq(method(m)))] b: u8 }
: method m(8, 9) -> true
: eq 0(1, 5) 0(2, 6) = false

a method for two fields
#[educe(PartialEq)] struct S { #[educe(PartialEq(method(m)))] a: u8, #[educe(PartialEq(method(m)))] b: u16 }
: method m(1, 2) -> true
: method m(300, 4) -> false
: eq 0(1, 300) 0(2, 4) = false

two methods
#[educe(PartialEq)] struct S { #[educe(PartialEq(method(m)))] a: u8, #[educe(PartialEq(method(n)))] b: i64 }
: method m(1, 2) -> true
: method n(-5, 5) -> true
: eq 0(1, -5) 0(2, 5) = true

a method of an ignored field is not called
#[educe(PartialEq)] struct S { #[educe(PartialEq(method(m), ignore))] a: u8, b: u8 }
: eq 0(1, 5) 0(2, 5) = true

a method in a module
#[educe(PartialEq)] struct S { #[educe(PartialEq(method = a::b))] a: u8 }
: method a :: b(1, 2) -> true
: eq 0(1) 0(2) = true

a method in a string
#[educe(PartialEq)] struct S { #[educe(PartialEq(method = "a::b"))] a: u8 }
: method a :: b(1, 1) -> false
: eq 0(1) 0(1) = false

a method with arguments
#[educe(PartialEq)] struct S { #[educe(PartialEq(method(same::<u8>)))] a: u8 }
: method same ::< u8 >(1, 2) -> true
: eq 0(1) 0(2) = true

a field without a name
#[educe(PartialEq)] struct S(u8, #[educe(PartialEq(method(m)))] u8);
: method m(5, 6) -> true
: eq 0(1, 5) 0(1, 6) = true

a method that answers an order
#[educe(PartialEq)] struct S { #[educe(PartialEq(method(m)))] a: u8 }
: method m(1, 2) -> Equal
: eq 0(1) 0(2) = stuck

a method that answers a partial order
#[educe(PartialEq)] struct S { #[educe(PartialEq(method(m)))] a: u8 }
: method m(1, 2) -> Some(Equal)
: eq 0(1) 0(2) = stuck

a call that the table does not have
#[educe(PartialEq)] struct S { #[educe(PartialEq(method(m)))] a: u8 }
: method m(2, 1) -> true
: eq 0(1) 0(2) = stuck

a call of another method
#[educe(PartialEq)] struct S { #[educe(PartialEq(method(m)))] a: u8 }
: method n(1, 2) -> true
: eq 0(1) 0(2) = stuck
"#;

#[test]
fn methods_say_what_is_equal(rt: HostRuntime) -> Result<(), Fail> {
    check_table(rt.alloc(), TRUTHS)
}

static ORDERS: &str = r#"
a method of `Ord`
#[educe(PartialOrd, Ord)] struct S { #[educe(Ord(method(c)))] a: u8 }
: method c(1, 2) -> Greater
: cmp 0(1) 0(2) = Greater

a method of `Ord`, in `partial_cmp`
#[educe(PartialOrd, Ord)] struct S { #[educe(Ord(method(c)))] a: u8 }
: method c(1, 2) -> Greater
: partial_cmp 0(1) 0(2) = Some(Greater)

an equal one goes on in `partial_cmp`
#[educe(PartialOrd, Ord)] struct S { #[educe(Ord(method(c)))] a: u8 }
: method c(1, 3) -> Equal
: partial_cmp 0(1) 0(3) = Some(Equal)

a method of `PartialOrd`
#[educe(PartialOrd, Ord)] struct S { #[educe(PartialOrd(method(p)))] a: u8 }
: method p(1, 2) -> None
: partial_cmp 0(1) 0(2) = None

a method of `PartialOrd` is not called by `cmp`
#[educe(PartialOrd, Ord)] struct S { #[educe(PartialOrd(method(p)))] a: u8 }
: method p(1, 2) -> None
: cmp 0(1) 0(2) = Less

an order that is not antisymmetric
#[educe(Ord)] struct S(#[educe(Ord(method(c)))] i8);
: method c(-1, 2) -> Less
: method c(2, -1) -> Less
: cmp 0(2) 0(-1) = Less

a method and then numbers
#[educe(Ord)] struct S { #[educe(Ord(method(c)))] a: u8, b: u8 }
: method c(1, 2) -> Equal
: cmp 0(1, 4) 0(2, 3) = Greater

a method that decides before numbers
#[educe(Ord)] struct S { #[educe(Ord(method(c)))] a: u8, b: u8 }
: method c(2, 1) -> Less
: cmp 0(2, 4) 0(1, 3) = Less

a method of a later rank
#[educe(Ord)] struct S { #[educe(Ord(method(c), rank = 1))] a: u8, b: u8 }
: method c(2, 1) -> Less
: cmp 0(1, 4) 0(2, 3) = Greater

a method of a later rank decides
#[educe(Ord)] struct S { #[educe(Ord(method(c), rank = 1))] a: u8, b: u8 }
: method c(2, 1) -> Less
: cmp 0(2, 4) 0(1, 4) = Less

a method that knows no order ends the comparison
#[educe(PartialOrd)] struct S { #[educe(PartialOrd(method = p))] a: u8, b: u8 }
: method p(1, 2) -> None
: partial_cmp 0(1, 4) 0(2, 3) = None

a method that knows an equal one goes on
#[educe(PartialOrd)] struct S { #[educe(PartialOrd(method = p))] a: u8, b: u8 }
: method p(1, 3) -> Some(Equal)
: partial_cmp 0(1, 4) 0(3, 3) = Some(Greater)

a method of a field that an order ignores is not called
#[educe(PartialOrd, Ord)] struct S { #[educe(Ord(method(c), ignore))] a: u8, b: u8 }
: partial_cmp 0(1, 4) 0(2, 5) = Some(Less)

each trait calls its own method: `PartialEq`
#[educe(PartialEq, PartialOrd, Ord)] struct S { #[educe(PartialEq(method(e)), PartialOrd(method(p)), Ord(method(c)))] a: u8 }
: method e(1, 2) -> true
: method p(1, 2) -> None
: method c(1, 2) -> Less
: eq 0(1) 0(2) = true

each trait calls its own method: `PartialOrd`
#[educe(PartialEq, PartialOrd, Ord)] struct S { #[educe(PartialEq(method(e)), PartialOrd(method(p)), Ord(method(c)))] a: u8 }
: method e(1, 2) -> true
: method p(1, 2) -> None
: method c(1, 2) -> Less
: partial_cmp 0(1) 0(2) = None

each trait calls its own method: `Ord`
#[educe(PartialEq, PartialOrd, Ord)] struct S { #[educe(PartialEq(method(e)), PartialOrd(method(p)), Ord(method(c)))] a: u8 }
: method e(1, 2) -> true
: method p(1, 2) -> None
: method c(1, 2) -> Less
: cmp 0(1) 0(2) = Less

the order's own function as its method
#[educe(PartialOrd, Ord)] struct S { #[educe(Ord(method(::core::cmp::Ord::cmp)))] a: u8 }
: partial_cmp 0(1) 0(2) = Some(Less)

the function of the other order as a method
#[educe(Ord)] struct S { #[educe(Ord(method(::core::cmp::PartialOrd::partial_cmp)))] a: u8 }
: cmp 0(1) 0(2) = stuck

a method of `Ord` that answers a partial order
#[educe(PartialOrd, Ord)] struct S { #[educe(Ord(method(c)))] a: u8 }
: method c(1, 2) -> Some(Less)
: cmp 0(1) 0(2) = stuck

a method of `Ord` that answers a partial order, in `partial_cmp`
#[educe(PartialOrd, Ord)] struct S { #[educe(Ord(method(c)))] a: u8 }
: method c(1, 2) -> Some(Less)
: partial_cmp 0(1) 0(2) = stuck

a method of `PartialOrd` that answers an order
#[educe(PartialOrd, Ord)] struct S { #[educe(PartialOrd(method(p)))] a: u8 }
: method p(1, 2) -> Less
: partial_cmp 0(1) 0(2) = stuck

a method of `PartialOrd` that answers a truth value
#[educe(PartialOrd, Ord)] struct S { #[educe(PartialOrd(method(p)))] a: u8 }
: method p(1, 2) -> true
: partial_cmp 0(1) 0(2) = stuck
"#;

#[test]
fn methods_say_what_comes_first(rt: HostRuntime) -> Result<(), Fail> {
    check_table(rt.alloc(), ORDERS)
}

static HOSTILE: &str = r#"
the name of the second value as the struct's
#[educe(PartialEq)] struct other { _other: u8 }
: eq 0(1) 0(1) = true

the name as a method's, behind `r#`
#[educe(PartialEq)] struct S { #[educe(PartialEq(method(r#other)))] a: u8 }
: method r#other(1, 2) -> true
: eq 0(1) 0(2) = true

the name as a method's, in a string
#[educe(PartialEq)] struct S { #[educe(PartialEq(method = "other"))] a: u8 }
: method other(1, 1) -> false
: eq 0(1) 0(1) = false

the name as a module's
#[educe(Ord)] struct S { #[educe(Ord(method(other::_other)))] a: u8 }
: method other :: _other(1, 2) -> Greater
: cmp 0(1) 0(2) = Greater

three names as those of fields, and one of a method
#[educe(PartialEq)] struct S { #[educe(PartialEq(method(_other)))] other: u8, _other: u8, __other: u8 }
: method _other(1, 2) -> true
: eq 0(1, 3, 4) 0(2, 3, 4) = true

names of fields and a method, in both orders
#[educe(PartialOrd, Ord)] struct S { other: u8, #[educe(Ord(method(_other)))] _other: u8 }
: method _other(3, 4) -> Greater
: partial_cmp 0(1, 3) 0(1, 4) = Some(Greater)

the name in documentation
/// other
#[educe(PartialEq)] struct S { a: u8 }
: eq 0(1) 0(2) = false

the name in a string
#[educe(PartialEq)] struct S { #[deprecated(note = "an other")] a: u8 }
: eq 0(1) 0(1) = true

a method of the function's name
#[educe(PartialEq)] struct S { #[educe(PartialEq(method(eq)))] a: u8 }
: method eq(1, 2) -> true
: eq 0(1) 0(2) = true

a method of the function's name, behind `self`
#[educe(PartialEq)] struct S { #[educe(PartialEq(method(self::eq)))] a: u8 }
: method self :: eq(1, 2) -> true
: eq 0(1) 0(2) = true

a method of the function's name, of an order
#[educe(Ord)] struct S { #[educe(Ord(method(cmp)))] cmp: u8 }
: method cmp(1, 2) -> Greater
: cmp 0(1) 0(2) = Greater

a method that is the built-in function
#[educe(PartialEq)] struct S { #[educe(PartialEq(method(::core::cmp::PartialEq::ne)))] a: u8 }
: eq 0(1) 0(2) = true

a method that is the built-in function, of equal values
#[educe(PartialEq)] struct S { #[educe(PartialEq(method(::core::cmp::PartialEq::ne)))] a: u8 }
: eq 0(1) 0(1) = false

a method whose path only ends as the built-in one
#[educe(PartialEq)] struct S { #[educe(PartialEq(method(core::cmp::PartialEq::ne)))] a: u8 }
: method core :: cmp :: PartialEq :: ne(1, 2) -> false
: eq 0(1) 0(2) = false

a struct, a field and a method of one name
#[educe(PartialEq)] struct core { #[educe(PartialEq(method(core)))] core: u8 }
: method core(1, 2) -> true
: eq 0(1) 0(2) = true

keywords behind `r#`
#[educe(Ord)] struct r#type { #[educe(Ord(method(r#match)))] r#fn: u8 }
: method r#match(1, 2) -> Equal
: cmp 0(1) 0(2) = Equal

a struct of a name that the text uses
#[educe(PartialOrd)] struct Option { #[educe(PartialOrd(method(Some)))] a: u8 }
: method Some(1, 2) -> None
: partial_cmp 0(1) 0(2) = None

names of another script
#[educe(PartialEq)] struct Été { #[educe(PartialEq(method(mêmes)))] être: u8 }
: method mêmes(1, 2) -> true
: eq 0(1) 0(2) = true
"#;

#[test]
fn names_of_the_input_are_kept_apart(rt: HostRuntime) -> Result<(), Fail> {
    check_table(rt.alloc(), HOSTILE)
}
