//! Worked examples of texts with several causes of a rejection. A cause of an earlier phase is reported
//! before one of a later phase: the text, the names, what the type lists, the attributes.

use crate::tables::check_table;
use std::test::Fail;

static SEVERAL: &str = r#"
two types that are none
struct S { a: impl X, b: impl Y }
: rejected 1:15: syntax error

two names given twice
#[educe(PartialEq)] struct S { a: u8, b: u8, a: u8, b: u8 }
: rejected 1:46: the name `a` is defined more than once

three faults of a listing
#[educe(Foo, Ord, Ord)] #[educe] struct S { a: u8 }
: rejected 1:9: unsupported trait `Foo`, available traits:
    Debug
    Clone
    Copy
    PartialEq
    Eq
    PartialOrd
    Ord
    Hash
    Default
: rejected 1:19: the trait `Ord` is used repeatedly
: rejected 1:27: you are using an incorrect format of the `educe` attribute, which should be reformatted as follows:
    #[educe(Trait1, Trait2, ..., TraitN)]

four faults of fields
#[educe(Ord)] struct S { #[educe(Ord(foo, rank = x), Hash)] a: u8, #[educe(Foo)] b: u8 }
: rejected 1:34: you are using an incorrect format of the `Ord` attribute, which should be reformatted as follows:
    #[educe(Ord = false)]
    #[educe(Ord(ignore))]
    #[educe(Ord(method(path_to_method)))]
    #[educe(Ord(rank = integer))]
    #[educe(Ord(reverse))]
: rejected 1:50: expected `rank = integer`
: rejected 1:54: the trait `Hash` is not used
: rejected 1:76: unsupported trait `Foo`, available traits:
    Debug
    Clone
    Copy
    PartialEq
    Eq
    PartialOrd
    Ord
    Hash
    Default

a field whose rank is not read has none
#[educe(Ord)] struct S { #[educe(Ord)] a: u8, #[educe(Ord(rank = -9223372036854775808))] b: u8 }
: rejected 1:34: you are using an incorrect format of the `Ord` attribute, which should be reformatted as follows:
    #[educe(Ord = false)]
    #[educe(Ord(ignore))]
    #[educe(Ord(method(path_to_method)))]
    #[educe(Ord(rank = integer))]
    #[educe(Ord(reverse))]

a fault of one order, where the other one is right
#[educe(PartialOrd, Ord)] struct S { #[educe(PartialOrd(foo), Ord(rank = 1))] a: u8 }
: rejected 1:46: you are using an incorrect format of the `PartialOrd` attribute, which should be reformatted as follows:
    #[educe(PartialOrd = false)]
    #[educe(PartialOrd(ignore))]
    #[educe(PartialOrd(method(path_to_method)))]
    #[educe(PartialOrd(rank = integer))]
    #[educe(PartialOrd(reverse))]

a rank used again in both orders
#[educe(PartialOrd, Ord)] struct S { #[educe(PartialOrd(rank = 1), Ord(rank = 2))] a: u8, #[educe(PartialOrd(rank = 1), Ord(rank = 2))] b: u8 }
: rejected 1:110: the rank `1` is repeatedly used
: rejected 1:125: the rank `2` is repeatedly used

a wrong form, a name that is needed and no default variant
#[educe(Clone(x), Debug(name = false), Default)] enum E { #[educe(Debug(name = false))] A, B }
: rejected 1:9: you are using an incorrect format of the `Clone` attribute, which should be reformatted as follows:
    #[educe(Clone)]
    #[educe(Clone(bound(where_predicates)))]
    #[educe(Clone(bound = false))]
: rejected 1:59: a unit variant which doesn't use an enum name needs to have a name
: rejected 1:40: there is no variant set as default

the text comes first
#[educe(Hash, Hash)] struct S<T> { #[educe(Hash)] a: u8, a: impl X }
: rejected 1:61: syntax error

then the names
#[educe(Hash, Hash)] struct S<T> { #[educe(Hash)] a: u8, a: u8 }
: rejected 1:58: the name `a` is defined more than once

then what the type lists
#[educe(Hash, Hash)] struct S<T> { #[educe(Hash)] a: u8, b: u8 }
: rejected 1:15: the trait `Hash` is used repeatedly

then the attributes
#[educe(Ord)] struct S { #[educe(Ord)] a: u8, b: u8 }
: rejected 1:34: you are using an incorrect format of the `Ord` attribute, which should be reformatted as follows:
    #[educe(Ord = false)]
    #[educe(Ord(ignore))]
    #[educe(Ord(method(path_to_method)))]
    #[educe(Ord(rank = integer))]
    #[educe(Ord(reverse))]

and then nothing
#[educe(Ord)] struct S { a: u8, b: u8 }
: expands

a trait that is not supported, of an enum
#[educe(Foo)] enum E { A }
: rejected 1:9: unsupported trait `Foo`, available traits:
    Debug
    Clone
    Copy
    PartialEq
    Eq
    PartialOrd
    Ord
    Hash
    Default

a trait twice, of a struct with parameters
#[educe(Clone, Clone)] struct S<T>(T);
: rejected 1:16: the trait `Clone` is used repeatedly
"#;

#[test]
fn one_of_several_causes_is_reported(rt: HostRuntime) -> Result<(), Fail> {
    check_table(rt.alloc(), SEVERAL)
}
