//! The worked examples: a name, a text, and what is answered to it.

use crate::tables::check_table;
use std::test::Fail;

mod builders;
mod commands;
mod devices;
mod discriminants;
mod enums;
mod equalities;
mod evaluations;
mod expansions;
mod fields;
mod handlers;
mod hostile;
mod impls;
mod inherited;
mod listings;
mod names;
mod phases;
mod ranks;
mod readings;
mod realistic;
mod refusals;
mod selves;
mod visits;

static EXAMPLES: &str = r##"
a struct of one field
#[educe(PartialEq)] struct S { a: u8 }
: writes # [ automatically_derived ] impl :: core :: cmp :: PartialEq for S { fn eq ( & self , other : & Self ) -> :: core :: primitive :: bool { if :: core :: cmp :: PartialEq :: ne ( & self . a , & other . a ) { return false ; } true } }

fields without names
#[educe(PartialEq)] struct S(u8, Vec<u8>);
: writes # [ automatically_derived ] impl :: core :: cmp :: PartialEq for S { fn eq ( & self , other : & Self ) -> :: core :: primitive :: bool { if :: core :: cmp :: PartialEq :: ne ( & self . 0 , & other . 0 ) { return false ; } if :: core :: cmp :: PartialEq :: ne ( & self . 1 , & other . 1 ) { return false ; } true } }

no fields
#[educe(PartialEq)] struct S;
: writes # [ automatically_derived ] impl :: core :: cmp :: PartialEq for S { fn eq ( & self , other : & Self ) -> :: core :: primitive :: bool { true } }

an ignored field takes no rank
#[educe(Ord)] struct S { #[educe(Ord(rank = 1))] a: u8, #[educe(Ord(rank = 1, ignore))] b: u8 }
: expands

the least rank is compared first
#[educe(Ord)] struct S { #[educe(Ord(rank = 1))] f1: u8, #[educe(Ord(rank = 0))] f2: u8 }
: cmp 0(1, 2) 0(2, 1) = Greater

an empty input
: rejected 1:1: syntax error

a type that is no type of a field
struct S { a: impl X }
: rejected 1:15: syntax error

no attribute
struct S { f1: u8 }
: rejected 1:1: you are using `Educe` in the `derive` attribute, but it has not been set up yet

a list of no trait
#[educe()] struct S { a: u8 }
: rejected 1:1: you are using `Educe` in the `derive` attribute, but it has not been set up yet

a union
#[educe(Clone)] union U { a: u8 }
: rejected 1:17: `union` is not supported

a float
#[educe(Default)] struct S { #[educe(Default = 1.5)] a: u8 }
: rejected 1:48: `1.5` is not supported

128 references
#[educe(Clone)] struct S { a: &&&&&&&&&&&&&&&&&&&&&&&&&&&&&&&&&&&&&&&&&&&&&&&&&&&&&&&&&&&&&&&&&&&&&&&&&&&&&&&&&&&&&&&&&&&&&&&&&&&&&&&&&&&&&&&&&&&&&&&&&&&&&&&&u8 }
: rejected 1:158: nested too deeply

two fields of one name
#[educe(PartialEq)] struct S { a: u8, a: u8 }
: rejected 1:39: the name `a` is defined more than once

a raw name is the name
#[educe(Clone)] struct S { a: u8, r#a: u8 }
: rejected 1:35: the name `r#a` is defined more than once

two parameters of one name
struct S<T, T>;
: rejected 1:13: the name `T` is defined more than once

one rank twice
#[educe(Ord)] struct S { #[educe(Ord(rank = 1))] a: u8, #[educe(Ord(rank = 1))] b: u8 }
: rejected 1:69: the rank `1` is repeatedly used

the rank of the first field where none is set
#[educe(Ord)] struct S { a: u8, #[educe(Ord(rank = -9223372036854775808))] b: u8 }
: rejected 1:45: the rank `-9223372036854775808` is repeatedly used

nested comments
a/* x /* y */ */b
: prints a b

a range
1..2
: prints 1 .. 2

128 brackets
(((((((((((((((((((((((((((((((((((((((((((((((((((((((((((((((((((((((((((((((((((((((((((((((((((((((((((((((((((((((((((((((())))))))))))))))))))))))))))))))))))))))))))))))))))))))))))))))))))))))))))))))))))))))))))))))))))))))))))))))))))))))))))))))
: tokens 256

129 brackets
((((((((((((((((((((((((((((((((((((((((((((((((((((((((((((((((((((((((((((((((((((((((((((((((((((((((((((((((((((((((((((((((()))))))))))))))))))))))))))))))))))))))))))))))))))))))))))))))))))))))))))))))))))))))))))))))))))))))))))))))))))))))))))))))))
: cause TooDeep

a hexadecimal integer
0x_Fu8
: integer 15

a raw string
r#"a"b"#
: string a"b

an open string
"a
: cause Syntax

an exponent
1e3
: cause NotCarried 1e3
"##;

#[test]
fn examples_are_answered(rt: HostRuntime) -> Result<(), Fail> {
    check_table(rt.alloc(), EXAMPLES)
}
