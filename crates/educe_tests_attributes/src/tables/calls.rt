//! The calls of builders that are named after a trait, each once.

use crate::calls::{read_field, read_type};
use educe_tests::check_rows;
use std::test::Fail;

static TYPES: &str = r#"
Debug = A
: name A; named fields; needed bounds

Clone(bound(*))
Copy(bound(*))
PartialEq(bound(*))
Eq(bound(*))
PartialOrd(bound(*))
Ord(bound(*))
Hash(bound(*))
: all bounds

Default
: marked; no new; no value; needed bounds; at 0 to 7

Debug(x)
: 1:1: you are using an incorrect format of the `Debug` attribute, which should be reformatted as follows:
    #[educe(Debug)]
    #[educe(Debug = NewName)]
    #[educe(Debug(name(NewName)))]
    #[educe(Debug(name = false))]
    #[educe(Debug(named_field = false))]
    #[educe(Debug(bound(where_predicates)))]
    #[educe(Debug(bound = false))]

Clone(x)
: 1:1: you are using an incorrect format of the `Clone` attribute, which should be reformatted as follows:
    #[educe(Clone)]
    #[educe(Clone(bound(where_predicates)))]
    #[educe(Clone(bound = false))]

Copy(x)
: 1:1: you are using an incorrect format of the `Copy` attribute, which should be reformatted as follows:
    #[educe(Copy)]
    #[educe(Copy(bound(where_predicates)))]
    #[educe(Copy(bound = false))]

PartialEq(x)
: 1:1: you are using an incorrect format of the `PartialEq` attribute, which should be reformatted as follows:
    #[educe(PartialEq)]
    #[educe(PartialEq(bound(where_predicates)))]
    #[educe(PartialEq(bound = false))]

Eq(x)
: 1:1: you are using an incorrect format of the `Eq` attribute, which should be reformatted as follows:
    #[educe(Eq)]
    #[educe(Eq(bound(where_predicates)))]
    #[educe(Eq(bound = false))]

PartialOrd(x)
: 1:1: you are using an incorrect format of the `PartialOrd` attribute, which should be reformatted as follows:
    #[educe(PartialOrd)]
    #[educe(PartialOrd(bound(where_predicates)))]
    #[educe(PartialOrd(bound = false))]

Ord(x)
: 1:1: you are using an incorrect format of the `Ord` attribute, which should be reformatted as follows:
    #[educe(Ord)]
    #[educe(Ord(bound(where_predicates)))]
    #[educe(Ord(bound = false))]

Hash(x)
: 1:1: you are using an incorrect format of the `Hash` attribute, which should be reformatted as follows:
    #[educe(Hash)]
    #[educe(Hash(bound(where_predicates)))]
    #[educe(Hash(bound = false))]

Default(x)
: 1:1: you are using an incorrect format of the `Default` attribute, which should be reformatted as follows:
    #[educe(Default)]
    #[educe(Default(new))]
    #[educe(Default(expression = expr))]
    #[educe(Default(bound(where_predicates)))]
    #[educe(Default(bound = false))]
"#;

#[test]
fn each_trait_is_read_at_a_type(rt: HostRuntime) -> Result<(), Fail> {
    check_rows(rt.alloc(), read_type, TYPES)
}

static FIELDS: &str = r#"
Debug = a
: name a; kept; no method

Clone(method = f)
: method f

PartialEq = false
: ignored; no method

PartialOrd(ignore)
: ignored; no method; rank -3

Ord(rank = 2)
: kept; no method; rank 2 at 4 to 12

Hash(ignore, method = f)
: ignored; method f

Copy
: 1:1: the `Copy` attribute cannot be placed here

Eq()
: 1:1: the `Eq` attribute cannot be placed here

Debug
: 1:1: you are using an incorrect format of the `Debug` attribute, which should be reformatted as follows:
    #[educe(Debug = NewName)]
    #[educe(Debug(name(NewName)))]
    #[educe(Debug = false)]
    #[educe(Debug(ignore))]
    #[educe(Debug(method(path_to_method)))]

Clone
: 1:1: you are using an incorrect format of the `Clone` attribute, which should be reformatted as follows:
    #[educe(Clone(method(path_to_method)))]

PartialEq
: 1:1: you are using an incorrect format of the `PartialEq` attribute, which should be reformatted as follows:
    #[educe(PartialEq = false)]
    #[educe(PartialEq(ignore))]
    #[educe(PartialEq(method(path_to_method)))]

Hash()
: 1:1: you are using an incorrect format of the `Hash` attribute, which should be reformatted as follows:
    #[educe(Hash = false)]
    #[educe(Hash(ignore))]
    #[educe(Hash(method(path_to_method)))]

PartialOrd
: 1:1: you are using an incorrect format of the `PartialOrd` attribute, which should be reformatted as follows:
    #[educe(PartialOrd = false)]
    #[educe(PartialOrd(ignore))]
    #[educe(PartialOrd(method(path_to_method)))]
    #[educe(PartialOrd(rank = integer))]
    #[educe(PartialOrd(reverse))]

Ord(new)
: 1:1: you are using an incorrect format of the `Ord` attribute, which should be reformatted as follows:
    #[educe(Ord = false)]
    #[educe(Ord(ignore))]
    #[educe(Ord(method(path_to_method)))]
    #[educe(Ord(rank = integer))]
    #[educe(Ord(reverse))]
"#;

#[test]
fn each_trait_is_read_at_a_field(rt: HostRuntime) -> Result<(), Fail> {
    check_rows(rt.alloc(), read_field, FIELDS)
}
