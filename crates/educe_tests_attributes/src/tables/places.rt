//! The attributes of places as wholes: which metas of which lists count, and which traits a type lists
//! (documentation of `educe`, Traits).

use crate::answers::{check_fields, check_types};
use crate::listings::{check_whole, listing};
use educe_attrs::{clone, copy, hash};
use educe_bound::{Trait, all_listed, each_once, is_listed};
use educe_tests::check_rows;
use std::test::Fail;

static TYPES: &str = r#"
∅
#[educe()]
#[educe(Clone)]
: needed bounds

#[educe(Clone(bound = false))]
#[educe[Clone(bound = false)]]
#[educe{Debug, Clone(bound = false),}]
#[educe(Debug)] #[educe(Clone(bound = false))]
#[educe(Clone(bound = false))] #[educe] #[educe = 1] #[educe = 1 2]
/// educe(Clone)␊#[educe(Clone(bound = false))]
#[derive(Clone)] #[r#educe(Clone)] #[educe::educe(1 1)] #[educe(Clone(bound = false))]
#[educe(Debug, Debug, Clone(bound = false))]
#[educe(Debug(1 1), Clone(bound = false))]
: no bounds

#[educe(Other)]
: 1:9: unsupported trait `Other`, available traits:
    Debug
    Clone
    Copy
    PartialEq
    Eq
    PartialOrd
    Ord
    Hash
    Default

#[educe(Clone, std::clone::Clone)]
: 1:16: unsupported trait `std::clone::Clone`, available traits:
    Debug
    Clone
    Copy
    PartialEq
    Eq
    PartialOrd
    Ord
    Hash
    Default

#[educe(Clone, r#Clone)]
: 1:16: unsupported trait `r#Clone`, available traits:
    Debug
    Clone
    Copy
    PartialEq
    Eq
    PartialOrd
    Ord
    Hash
    Default

#[educe(clone = 1)]
: 1:9: unsupported trait `clone`, available traits:
    Debug
    Clone
    Copy
    PartialEq
    Eq
    PartialOrd
    Ord
    Hash
    Default

#[educe(:: Clone)]
: 1:9: unsupported trait `::Clone`, available traits:
    Debug
    Clone
    Copy
    PartialEq
    Eq
    PartialOrd
    Ord
    Hash
    Default

#[educe(Clone)]␊#[educe(Ord)]
: 2:9: the trait `Ord` is not used

#[educe(Clone, Hash(1 1))]
: 1:16: the trait `Hash` is not used

#[educe(Clone, Clone)]
: 1:16: the trait `Clone` is used repeatedly

#[educe(Clone)]␊  #[educe(Debug, Clone(bound = false))]
: 2:18: the trait `Clone` is used repeatedly

#[educe(Debug)]␊#[educe(Clone(bound = 1))]
: 2:23: expected `bound = "where_predicates"` or `bound = false`

#[educe(1)]
#[educe(,)]
: 1:9: syntax error

#[educe(Clone Clone)]
#[educe(Clone(1))]
: 1:15: syntax error

#[educe(Clone)] #[educe(Clone =)]
: 1:32: syntax error

#[educe(Clone = 1)]
: 1:9: you are using an incorrect format of the `Clone` attribute, which should be reformatted as follows:
    #[educe(Clone)]
    #[educe(Clone(bound(where_predicates)))]
    #[educe(Clone(bound = false))]
"#;

#[test]
fn clone_in_the_attributes_of_a_type(rt: HostRuntime) -> Result<(), Fail> {
    check_types(
        rt.alloc(),
        clone::TypeAttributeBuilder {
            enable_flag: true,
            enable_bound: true,
        },
        &[Trait::Clone, Trait::Debug],
        TYPES,
    )
}

static NOT_LISTED: &str = r#"
∅
: needed bounds

#[educe(Clone)]
: 1:9: the trait `Clone` is not used
"#;

#[test]
fn clone_where_it_is_not_listed(rt: HostRuntime) -> Result<(), Fail> {
    check_types(
        rt.alloc(),
        clone::TypeAttributeBuilder {
            enable_flag: true,
            enable_bound: true,
        },
        &[],
        NOT_LISTED,
    )
}

static FIELDS: &str = r#"
∅
: kept; no method

#[educe(Hash(ignore))]
#[educe(Hash(ignore))] /** educe(Other) */ #[educe] #[serde(skip)]
#[educe()] #[educe[Hash(ignore,),]]
#[educe = 1] #[a::b = 1 + 1] #[r#educe] #[educe::educe(x)] #[educe(Hash(ignore))]
: ignored; no method

#[educe(PartialEq(foo))] #[educe(Hash(method = f))]
: kept; method f

#[educe(Hash(ignore);)]
: 1:21: syntax error

#[educe(Hash(ignore))] #[educe(Hash 1)]
: 1:37: syntax error

#[educe(PartialEq, Eq, Hash = false)]
: 1:20: the trait `Eq` is not used

#[educe(Hash = false, Hash(foo))]
: 1:23: the trait `Hash` is used repeatedly

#[educe(Hash)]
: 1:9: you are using an incorrect format of the `Hash` attribute, which should be reformatted as follows:
    #[educe(Hash = false)]
    #[educe(Hash(ignore))]
    #[educe(Hash(method(path_to_method)))]

#[educe(Hash(method))]
: 1:14: expected `method = Path` or `method(Path)`

#[educe(Foo, Hash)]
: 1:9: unsupported trait `Foo`, available traits:
    Debug
    Clone
    Copy
    PartialEq
    Eq
    PartialOrd
    Ord
    Hash
    Default
"#;

#[test]
fn hash_in_the_attributes_of_a_field(rt: HostRuntime) -> Result<(), Fail> {
    check_fields(
        rt.alloc(),
        hash::FieldAttributeBuilder {
            enable_ignore: true,
            enable_method: true,
        },
        &[Trait::PartialEq, Trait::Hash],
        FIELDS,
    )
}

static COPY_FIELDS: &str = r#"
∅
#[educe(Clone(method = f))]
: nothing

#[educe(Copy)]
: 1:9: the `Copy` attribute cannot be placed here

#[educe(Clone(method = f))] #[educe(Copy(1 1))]
: 1:37: the `Copy` attribute cannot be placed here
"#;

#[test]
fn copy_in_the_attributes_of_a_field(rt: HostRuntime) -> Result<(), Fail> {
    check_fields(
        rt.alloc(),
        copy::FieldAttributeBuilder,
        &[Trait::Clone, Trait::Copy],
        COPY_FIELDS,
    )
}

static TOO_DEEP: &str = r#"
#[educe(Hash = !!!!!!!!!!!!!!!!!!!!!!!!!!!!!!!!!!!!!!!!!!!!!!!!!!!!!!!!!!!!!!!!!!!!!!!!!!!!!!!!!!!!!!!!!!!!!!!!!!!!!!!!!!!!!!!!!!!!!!!!!!!!!!!!!x)]
: 1:144: nested too deeply

#[educe(Debug = x == (x == (x == (x == (x == (x == (x == (x == (x == (x == (x == (x == (x == (x == (x == (x == (x == (x == (x == (x == (x == (x == (x == (x == (x == (x == (x == (x == (x == (x == (x == (x == (x == (x == (x == (x == (x == (x == (x == (x == (x == (x == (x == (x == (x == (x == (x == (x == (x == (x == (x == (x == (x == (x == (x == (x == (x == (x == (x == (x == (x == (x == (x == (x == (x)))))))))))))))))))))))))))))))))))))))))))))))))))))))))))))))))]
: kept; no method
"#;

#[test]
fn hash_in_deep_attributes(rt: HostRuntime) -> Result<(), Fail> {
    check_fields(
        rt.alloc(),
        hash::FieldAttributeBuilder {
            enable_ignore: true,
            enable_method: true,
        },
        &[Trait::Debug, Trait::Hash],
        TOO_DEEP,
    )
}

static LISTINGS: &str = r#"
#[educe(Ord)]
/// x␊#[educe(Ord(1 1))]
#[derive] #[derive = 1] #[derive(Clone, a = 1)] #[r#derive[]] #[repr(C)] #[educe(Ord())]
: Ord

#[educe(Ord, PartialOrd(bound(*)), Debug = 1)]
: Ord PartialOrd Debug

#[educe[Clone]] #[derive(Clone)] #[educe{Copy,}] #[educe()]
: Clone Copy

#[educe(Debug, Clone, Copy, PartialEq, Eq, PartialOrd, Ord, Hash, Default)]
: Debug Clone Copy PartialEq Eq PartialOrd Ord Hash Default

∅
#[educe()]
/// educe(Ord)␊#[r#educe(Ord)] #[educe::educe(Ord)] #[derive(Ord)]
: 1:1: you are using `Educe` in the `derive` attribute, but it has not been set up yet

#[educe]
#[educe = 1]
: 1:3: you are using an incorrect format of the `educe` attribute, which should be reformatted as follows:
    #[educe(Trait1, Trait2, ..., TraitN)]

#[educe(Ord)] #[educe = 1 2]
: 1:17: you are using an incorrect format of the `educe` attribute, which should be reformatted as follows:
    #[educe(Trait1, Trait2, ..., TraitN)]

#[educe(Foo)]
: 1:9: unsupported trait `Foo`, available traits:
    Debug
    Clone
    Copy
    PartialEq
    Eq
    PartialOrd
    Ord
    Hash
    Default

#[educe(Ord, r#Ord)]
: 1:14: unsupported trait `r#Ord`, available traits:
    Debug
    Clone
    Copy
    PartialEq
    Eq
    PartialOrd
    Ord
    Hash
    Default

#[educe(Ord, std::cmp::Ord = 1)]
: 1:14: unsupported trait `std::cmp::Ord`, available traits:
    Debug
    Clone
    Copy
    PartialEq
    Eq
    PartialOrd
    Ord
    Hash
    Default

#[educe(Ord, Debug, Ord)]
: 1:21: the trait `Ord` is used repeatedly

#[educe(Ord)] #[educe(Debug)]␊#[educe(Ord(bound = false))]
: 2:9: the trait `Ord` is used repeatedly

#[educe(Ord, ::Ord)]
: 1:14: unsupported trait `::Ord`, available traits:
    Debug
    Clone
    Copy
    PartialEq
    Eq
    PartialOrd
    Ord
    Hash
    Default

#[educe(,)]
#[educe("Ord")]
: 1:9: syntax error

#[educe(Ord Ord)]
: 1:13: syntax error

#[educe(Default = !!!!!!!!!!!!!!!!!!!!!!!!!!!!!!!!!!!!!!!!!!!!!!!!!!!!!!!!!!!!!!!!!!!!!!!!!!!!!!!!!!!!!!!!!!!!!!!!!!!!!!!!!!!!!!!!!!!!!!!!!!!!!!!!!x)]
: 1:147: nested too deeply
"#;

#[test]
fn types_list_traits(rt: HostRuntime) -> Result<(), Fail> {
    check_rows(rt.alloc(), listing, LISTINGS)
}

#[test]
fn types_without_traits_are_refused_as_a_whole(rt: HostRuntime) -> Result<(), Fail> {
    check_whole(rt.alloc(), "#[educe()] struct S;")
}

#[test]
fn traits_stand_in_lists(rt: HostRuntime) {
    let all = Trait::VARIANTS;
    assert!(rt; each_once(&all));
    assert!(rt; !each_once(&[Trait::Ord, Trait::Hash, Trait::Ord]));
    assert!(rt; all_listed(&all, &[Trait::Ord, Trait::Ord]));
    assert!(rt; !all_listed(&[Trait::PartialOrd], &all));
    assert!(rt; is_listed(&all, Trait::Default));
    assert!(rt; !is_listed(&[Trait::PartialOrd, Trait::PartialEq], Trait::Ord));
}
