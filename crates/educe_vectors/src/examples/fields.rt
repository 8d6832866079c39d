//! Worked examples of what is said of a comparison at its type and at a field (documentation of
//! `educe`, PartialEq; PartialOrd; Ord).

use crate::tables::check_table;
use std::test::Fail;

static FORMS: &str = r#"
the trait alone at a field
#[educe(PartialEq)] struct S { #[educe(PartialEq)] a: u8 }
: rejected 1:40: you are using an incorrect format of the `PartialEq` attribute, which should be reformatted as follows:
    #[educe(PartialEq = false)]
    #[educe(PartialEq(ignore))]
    #[educe(PartialEq(method(path_to_method)))]

a parameter twice
#[educe(PartialEq)] struct S { #[educe(PartialEq(ignore, ignore = false))] a: u8 }
: rejected 1:58: you are trying to reset the `ignore` parameter

a number where a truth value belongs
#[educe(PartialEq)] struct S { #[educe(PartialEq(ignore = 1))] a: u8 }
: rejected 1:59: expected `ignore = false`

a trait that the type does not list
#[educe(PartialEq)] struct S { #[educe(Hash = false)] a: u8 }
: rejected 1:40: the trait `Hash` is not used

a trait that is not supported at a field
#[educe(PartialEq)] struct S { #[educe(Foo)] a: u8 }
: rejected 1:40: unsupported trait `Foo`, available traits:
    Debug
    Clone
    Copy
    PartialEq
    Eq
    PartialOrd
    Ord
    Hash
    Default

a trait twice at a field
#[educe(PartialEq)] struct S { #[educe(PartialEq(ignore))] #[educe(PartialEq = true)] a: u8 }
: rejected 1:68: the trait `PartialEq` is used repeatedly

a list of a field that is no list of metas
#[educe(PartialEq)] struct S { #[educe(1)] a: u8 }
: rejected 1:40: syntax error

a faulty list behind one that is read
#[educe(PartialEq)] struct S { #[educe(PartialEq(ignore))] #[educe(PartialEq 1)] a: u8 }
: rejected 1:78: syntax error

129 prefixes at a field
#[educe(PartialEq)] struct S { #[educe(PartialEq = !!!!!!!!!!!!!!!!!!!!!!!!!!!!!!!!!!!!!!!!!!!!!!!!!!!!!!!!!!!!!!!!!!!!!!!!!!!!!!!!!!!!!!!!!!!!!!!!!!!!!!!!!!!!!!!!!!!!!!!!!!!!!!!!!x)] a: u8 }
: rejected 1:180: nested too deeply

parameters that are no list of metas
#[educe(PartialEq)] struct S { #[educe(PartialEq(ignore ignore))] a: u8 }
: rejected 1:57: syntax error

a number behind the trait
#[educe(PartialEq)] struct S { #[educe(PartialEq = 0)] a: u8 }
: rejected 1:52: expected `PartialEq = false`

a raw name is no parameter
#[educe(Ord)] struct S { #[educe(Ord(r#method = f))] a: u8 }
: rejected 1:34: you are using an incorrect format of the `Ord` attribute, which should be reformatted as follows:
    #[educe(Ord = false)]
    #[educe(Ord(ignore))]
    #[educe(Ord(method(path_to_method)))]
    #[educe(Ord(rank = integer))]
    #[educe(Ord(reverse))]

`reverse` twice
#[educe(Ord)] struct S { #[educe(Ord(reverse, reverse = false))] a: u8 }
: rejected 1:47: you are trying to reset the `reverse` parameter

`reverse` of equality
#[educe(PartialEq)] struct S { #[educe(PartialEq(reverse))] a: u8 }
: rejected 1:40: you are using an incorrect format of the `PartialEq` attribute, which should be reformatted as follows:
    #[educe(PartialEq = false)]
    #[educe(PartialEq(ignore))]
    #[educe(PartialEq(method(path_to_method)))]

`reverse` that is no truth
#[educe(Ord)] struct S { #[educe(Ord(reverse = 3))] a: u8 }
: rejected 1:48: expected `reverse = false`

`reverse` at the type
#[educe(Ord(reverse))] struct S { a: u8 }
: rejected 1:9: you are using an incorrect format of the `Ord` attribute, which should be reformatted as follows:
    #[educe(Ord)]
    #[educe(Ord(bound(where_predicates)))]
    #[educe(Ord(bound = false))]

a value behind a trait at its type
#[educe(PartialEq = false)] struct S { a: u8 }
: rejected 1:9: you are using an incorrect format of the `PartialEq` attribute, which should be reformatted as follows:
    #[educe(PartialEq)]
    #[educe(PartialEq(bound(where_predicates)))]
    #[educe(PartialEq(bound = false))]

a list of a trait at its type that is no list of metas
#[educe(PartialEq(1))] struct S { a: u8 }
: rejected 1:19: syntax error
"#;

#[test]
fn forms_are_answered(rt: HostRuntime) -> Result<(), Fail> {
    check_table(rt.alloc(), FORMS)
}

static RANKS: &str = r#"
a rank below all others
#[educe(Ord)] struct S { #[educe(Ord(rank = -1))] a: u8, #[educe(Ord(rank = -2))] b: u8 }
: cmp 0(2, 1) 0(1, 2) = Less

a rank in a string
#[educe(Ord)] struct S { #[educe(Ord(rank = "-1"))] a: u8, b: u8 }
: cmp 0(2, 1) 0(1, 2) = Less

a rank in brackets
#[educe(PartialOrd)] struct S { #[educe(PartialOrd(rank("+7")))] a: u8, b: u8 }
: partial_cmp 0(2, 1) 0(1, 2) = Some(Less)

a truth value that ignores
#[educe(Ord)] struct S { #[educe(Ord = false)] a: u8, b: u8 }
: cmp 0(2, 1) 0(1, 1) = Equal

a truth value that keeps
#[educe(Ord)] struct S { #[educe(Ord(ignore = false))] a: u8, b: u8 }
: cmp 0(2, 1) 0(1, 1) = Greater

a list for each setting
#[educe(Ord)] #[educe(PartialEq)] struct S { #[educe(PartialEq(ignore))] #[educe(Ord(rank = 3))] a: u8, b: u8 }
: eq 0(2, 1) 0(1, 1) = true

a rank without a value
#[educe(Ord)] struct S { #[educe(Ord(rank))] a: u8 }
: rejected 1:38: expected `rank = integer` or `rank(integer)`

a rank that is no integer
#[educe(Ord)] struct S { #[educe(Ord(rank = x))] a: u8 }
: rejected 1:45: expected `rank = integer`

a float in a string
#[educe(Ord)] struct S { #[educe(Ord(rank = "1.5"))] a: u8 }
: rejected 1:45: expected `rank = integer`

a rank twice at a field
#[educe(Ord)] struct S { #[educe(Ord(rank = 1, rank(2)))] a: u8 }
: rejected 1:48: you are trying to reset the `rank` parameter

a rank of the other order that is no integer
#[educe(PartialOrd, Ord)] struct S { #[educe(PartialOrd(rank = x))] a: u8 }
: rejected 1:64: expected `rank = integer`

a rank where the type lists the other order alone
#[educe(PartialOrd)] struct S { #[educe(Ord(rank = 1))] a: u8 }
: rejected 1:41: the trait `Ord` is not used

one rank in two spellings
#[educe(Ord)] struct S { #[educe(Ord(rank = 0x10))] a: u8, #[educe(Ord(rank("16")))] b: u8 }
: rejected 1:72: the rank `16` is repeatedly used
"#;

#[test]
fn ranks_are_answered(rt: HostRuntime) -> Result<(), Fail> {
    check_table(rt.alloc(), RANKS)
}
