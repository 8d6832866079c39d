//! Worked examples of what `fmt` shows, as it prints where each field prints as its number (documentation
//! of `educe`, Debug).

use crate::tables::check_table;
use std::test::Fail;

static STRUCTS: &str = r#"
fields with names
#[educe(Debug)] struct S { a: u8, b: u8 }
: fmt 0(1, 2) = S { a: 1, b: 2 }

fields without names
#[educe(Debug)] struct S(u8, u8);
: fmt 0(1, 2) = S(1, 2)

no fields
#[educe(Debug)] struct S;
: fmt 0() = S

no fields in brackets
#[educe(Debug)] struct S();
: fmt 0() = S

an ignored field is not shown
#[educe(Debug)] struct S { #[educe(Debug = false)] a: u8, b: u8 }
: fmt 0(1, 2) = S { b: 2 }

no field is shown
#[educe(Debug)] struct S { #[educe(Debug(ignore))] a: u8 }
: fmt 0(1) = S

a name behind `r#`
#[educe(Debug)] struct r#S { r#type: u8 }
: fmt 0(1) = r#S { r#type: 1 }

a packed struct shows copies
#[educe(Debug)] #[repr(packed)] struct S { a: u8, b: u32 }
: fmt 0(1, 2) = S { a: 1, b: 2 }

a field with a method is an entry
#[educe(Debug)] struct S(#[educe(Debug(method = own::show))] u8, u8);
: fmt 0(1, 2) = S(1, 2)

methods on fields of several types
#[educe(Debug)] struct S<T> { #[educe(Debug(method = f))] a: Vec<T>, #[educe(Debug(method("f::<T>")))] b: T, c: T }
: fmt 0(1, 2, 3) = S { a: 1, b: 2, c: 3 }

names of fields that a method declares
#[educe(Debug)] struct S { #[educe(Debug(method = arg))] arg: u8, #[educe(Debug(method = builder))] builder: V, f: F }
: fmt 0(1, 2, 3) = S { arg: 1, builder: 2, f: 3 }

the settings of comparisons say nothing of it
#[educe(Debug, PartialEq)] struct S { #[educe(PartialEq(ignore))] a: u8 }
: fmt 0(1) = S { a: 1 }
"#;

#[test]
fn structs_are_shown(rt: HostRuntime) -> Result<(), Fail> {
    check_table(rt.alloc(), STRUCTS)
}

static NAMES: &str = r#"
another name
#[educe(Debug = T)] struct S { a: u8 }
: fmt 0(1) = T { a: 1 }

another name in brackets
#[educe(Debug(name(T)))] struct S(u8);
: fmt 0(1) = T(1)

without a name fields with names are a map
#[educe(Debug(name = false))] struct S { f1: u8 }
: fmt 0(1) = {f1: 1}

a map of two entries
#[educe(Debug(name = false))] struct S { a: u8, #[educe(Debug(method = m))] b: u8 }
: fmt 0(1, 2) = {a: 1, b: 2}

without a name one field is a tuple with a comma
#[educe(Debug(name = false))] struct S(u8);
: fmt 0(1) = (1,)

two are one without
#[educe(Debug(name = ""))] struct S(u8, u8);
: fmt 0(1, 2) = (1, 2)

names of fields are not shown
#[educe(Debug(named_field = false))] struct S { a: u8, b: u8 }
: fmt 0(1, 2) = S(1, 2)

fields without names have their places
#[educe(Debug(named_field = true))] struct S(u8, u8);
: fmt 0(1, 2) = S { 0: 1, 1: 2 }

a field of another name
#[educe(Debug)] struct S { #[educe(Debug = b)] a: u8, #[educe(Debug(name(a)))] b: u8 }
: fmt 0(1, 2) = S { b: 1, a: 2 }

a name of a place
#[educe(Debug(named_field = true))] struct S(u8, #[educe(Debug(rename = value))] u8);
: fmt 0(1, 2) = S { 0: 1, value: 2 }

its own name, as it says
#[educe(Debug(name = true))] struct S { a: u8 }
: fmt 0(1) = S { a: 1 }

the name of a helper type is chosen apart
#[educe(Debug(name = false))] struct S { Educe__RawString: u8 }
: fmt 0(1) = {Educe__RawString: 1}
"#;

#[test]
fn names_are_shown(rt: HostRuntime) -> Result<(), Fail> {
    check_table(rt.alloc(), NAMES)
}

static ENUMS: &str = r#"
variants of each form
#[educe(Debug)] enum E { A, B(u8), C { a: u8, b: u8 } }
: fmt 0() = A
: fmt 1(1) = B(1)
: fmt 2(1, 2) = C { a: 1, b: 2 }

the name of the enum, of a variant, and of both
#[educe(Debug(name = true))] enum Enum { #[educe(Debug(name = false))] V1, #[educe(Debug(name(V)))] V2 { #[educe(Debug(name(f)))] f1: u8 }, #[educe(Debug(name = false))] V3(u8) }
: fmt 0() = Enum
: fmt 1(1) = Enum::V { f: 1 }
: fmt 2(1) = Enum(1)

a variant shows the places of its fields
#[educe(Debug)] enum E { V1, #[educe(Debug(named_field = true))] V3(u8, #[educe(Debug(name(value)))] i32) }
: fmt 1(1, 2) = V3 { 0: 1, value: 2 }

a variant does not show the names of its fields
#[educe(Debug)] enum E { #[educe(Debug(named_field = false))] A { a: u8, b: u8 } }
: fmt 0(1, 2) = A(1, 2)

a variant without a name is a map
#[educe(Debug)] enum E { #[educe(Debug(name = false))] A { a: u8, b: u8 }, B { a: u8 } }
: fmt 0(1, 2) = {a: 1, b: 2}
: fmt 1(3) = B { a: 3 }

another name of the enum
#[educe(Debug = F)] enum E { A, B { a: u8 } }
: fmt 0() = F::A
: fmt 1(1) = F::B { a: 1 }

an ignored field, and one with a method
#[educe(Debug)] enum E { A(#[educe(Debug(ignore))] u8, #[educe(Debug(method = m))] u8, u8) }
: fmt 0(1, 2, 3) = A(2, 3)

names of variables that are taken
#[educe(Debug)] enum E { A { _a: u8, __a: u8, f: u8, builder: u8 } }
: fmt 0(1, 2, 3, 4) = A { _a: 1, __a: 2, f: 3, builder: 4 }

a name of an enum without variants
#[educe(Debug(name = true))] enum E {}
: expands
"#;

#[test]
fn enums_are_shown(rt: HostRuntime) -> Result<(), Fail> {
    check_table(rt.alloc(), ENUMS)
}

static TEXTS: &str = r#"
an impl of a struct
#[educe(Debug)] struct P { x: u8, y: u8 }
: writes # [ automatically_derived ] impl :: core :: fmt :: Debug for P { fn fmt ( & self , f : & mut :: core :: fmt :: Formatter < '_ > ) -> :: core :: fmt :: Result { let mut builder = f . debug_struct ( "P" ) ; builder . field ( "x" , & & self . x ) ; builder . field ( "y" , & & self . y ) ; builder . finish ( ) } }

an impl with a method, and its marker
#[educe(Debug)] struct S(#[educe(Debug(method = m))] u8);
: writes # [ automatically_derived ] impl :: core :: fmt :: Debug for S { fn fmt ( & self , f : & mut :: core :: fmt :: Formatter < '_ > ) -> :: core :: fmt :: Result { let mut builder = f . debug_tuple ( "S" ) ; let arg = { struct Educe__DebugField < 'a , V : ? Sized , F > ( & 'a V , F ) ; impl < V : ? Sized , F > :: core :: fmt :: Debug for Educe__DebugField < '_ , V , F > where F : :: core :: ops :: Fn ( & V , & mut :: core :: fmt :: Formatter < '_ > ) -> :: core :: fmt :: Result , { fn fmt ( & self , f : & mut :: core :: fmt :: Formatter < '_ > ) -> :: core :: fmt :: Result { ( self . 1 ) ( self . 0 , f ) } } Educe__DebugField ( & self . 0 , | educe__value : & u8 , educe__formatter : & mut :: core :: fmt :: Formatter < '_ > | m ( educe__value , educe__formatter ) ) } ; builder . field ( & arg ) ; builder . finish ( ) } }
const _ : ( ) = { fn __educe_debug_method_used ( educe__value : & u8 , educe__f : & mut :: core :: fmt :: Formatter < '_ > , ) -> :: core :: fmt :: Result { m ( educe__value , educe__f ) } } ;

an impl that shows a map
#[educe(Debug(name = false))] struct S { a: u8 }
: writes # [ automatically_derived ] impl :: core :: fmt :: Debug for S { fn fmt ( & self , f : & mut :: core :: fmt :: Formatter < '_ > ) -> :: core :: fmt :: Result { struct Educe__RawString ( & 'static :: core :: primitive :: str ) ; impl :: core :: fmt :: Debug for Educe__RawString { fn fmt ( & self , f : & mut :: core :: fmt :: Formatter < '_ > ) -> :: core :: fmt :: Result { f . write_str ( self . 0 ) } } let mut builder = f . debug_map ( ) ; builder . entry ( & Educe__RawString ( "a" ) , & & self . a ) ; builder . finish ( ) } }

a bound of a type that is not known
#[educe(Debug)] struct M<K, V, S> { m: HashMap<K, V, S> }
: holds where HashMap < K , V , S > : :: core :: fmt :: Debug

the formatter and the variables are no words of the input
#[educe(Debug(name = true))] enum Enum { #[educe(Debug(name = false))] V1, #[educe(Debug(name(V)))] V2 { #[educe(Debug(name(f)))] f1: u8 }, #[educe(Debug(name = false))] V3(u8) }
: holds fn fmt ( & self , _f : & mut :: core :: fmt :: Formatter < '_ > )
: holds Self :: V1 => _f . write_str ( "Enum" ) ,
: holds Self :: V2 { f1 : __f1 , } => { let mut builder = _f . debug_struct ( "Enum::V" ) ; builder . field ( "f" , __f1 ) ; builder . finish ( ) } ,
"#;

#[test]
fn impls_of_debug_are_written(rt: HostRuntime) -> Result<(), Fail> {
    check_table(rt.alloc(), TEXTS)
}

static REFUSALS: &str = r#"
a unit struct without a name
#[educe(Debug(name = false))] struct S;
: rejected 1:38: a unit struct needs to have a name

a struct that shows neither a name nor a field
#[educe(Debug(name = false))] struct S(#[educe(Debug(ignore))] u8);
: rejected 1:38: a unit struct needs to have a name

a unit variant without a name
#[educe(Debug)] enum E { #[educe(Debug(name = false))] A }
: rejected 1:26: a unit variant which doesn't use an enum name needs to have a name

a variant with brackets that shows neither a name nor a field
#[educe(Debug)] enum E { #[educe(Debug(name = false))] A() }
: rejected 1:56: a unit struct needs to have a name

an enum without variants needs a name
#[educe(Debug)] enum E {}
: rejected 1:22: a unit enum needs to have a name
"#;

#[test]
fn names_are_needed(rt: HostRuntime) -> Result<(), Fail> {
    check_table(rt.alloc(), REFUSALS)
}

static FORMS: &str = r#"
a struct whose fields are shown by name
#[educe(Debug(x))] struct S { a: u8 }
: rejected 1:9: you are using an incorrect format of the `Debug` attribute, which should be reformatted as follows:
    #[educe(Debug)]
    #[educe(Debug = NewName)]
    #[educe(Debug(name(NewName)))]
    #[educe(Debug(name = false))]
    #[educe(Debug(named_field = false))]
    #[educe(Debug(bound(where_predicates)))]
    #[educe(Debug(bound = false))]

a struct without fields
#[educe(Debug(x))] struct S;
: rejected 1:9: you are using an incorrect format of the `Debug` attribute, which should be reformatted as follows:
    #[educe(Debug)]
    #[educe(Debug = NewName)]
    #[educe(Debug(name(NewName)))]
    #[educe(Debug(name = false))]
    #[educe(Debug(named_field = false))]
    #[educe(Debug(bound(where_predicates)))]
    #[educe(Debug(bound = false))]

a struct whose fields are shown as a tuple
#[educe(Debug(x))] struct S(u8);
: rejected 1:9: you are using an incorrect format of the `Debug` attribute, which should be reformatted as follows:
    #[educe(Debug)]
    #[educe(Debug = NewName)]
    #[educe(Debug(name(NewName)))]
    #[educe(Debug(name = false))]
    #[educe(Debug(named_field = true))]
    #[educe(Debug(bound(where_predicates)))]
    #[educe(Debug(bound = false))]

an enum
#[educe(Debug(named_field = true))] enum E { A }
: rejected 1:9: you are using an incorrect format of the `Debug` attribute, which should be reformatted as follows:
    #[educe(Debug)]
    #[educe(Debug = NewName)]
    #[educe(Debug(name(NewName)))]
    #[educe(Debug(name = true))]
    #[educe(Debug(bound(where_predicates)))]
    #[educe(Debug(bound = false))]

a variant whose fields are shown by name
#[educe(Debug)] enum E { #[educe(Debug(x))] A { a: u8 } }
: rejected 1:34: you are using an incorrect format of the `Debug` attribute, which should be reformatted as follows:
    #[educe(Debug = NewName)]
    #[educe(Debug(name(NewName)))]
    #[educe(Debug(name = false))]
    #[educe(Debug(named_field = false))]

a variant without fields
#[educe(Debug)] enum E { #[educe(Debug(x))] A }
: rejected 1:34: you are using an incorrect format of the `Debug` attribute, which should be reformatted as follows:
    #[educe(Debug = NewName)]
    #[educe(Debug(name(NewName)))]
    #[educe(Debug(name = false))]
    #[educe(Debug(named_field = true))]

a variant with empty brackets
#[educe(Debug)] enum E { #[educe(Debug(x))] A() }
: rejected 1:34: you are using an incorrect format of the `Debug` attribute, which should be reformatted as follows:
    #[educe(Debug = NewName)]
    #[educe(Debug(name(NewName)))]
    #[educe(Debug(name = false))]
    #[educe(Debug(named_field = true))]

a field that is shown without a name
#[educe(Debug)] struct S(#[educe(Debug = x)] u8);
: rejected 1:42: expected `Debug = false`

a field that is shown by name
#[educe(Debug(named_field = true))] struct S(#[educe(Debug(rank = 1))] u8);
: rejected 1:54: you are using an incorrect format of the `Debug` attribute, which should be reformatted as follows:
    #[educe(Debug = NewName)]
    #[educe(Debug(name(NewName)))]
    #[educe(Debug = false)]
    #[educe(Debug(ignore))]
    #[educe(Debug(method(path_to_method)))]

a trait twice at a field
#[educe(Debug)] struct S(#[educe(Debug(ignore), Debug(ignore))] u8);
: rejected 1:49: the trait `Debug` is used repeatedly

what a field says is read where what the type says can be read
#[educe(Debug(foo))] struct S { #[educe(Debug(bar))] a: u8 }
: rejected 1:9: you are using an incorrect format of the `Debug` attribute, which should be reformatted as follows:
    #[educe(Debug)]
    #[educe(Debug = NewName)]
    #[educe(Debug(name(NewName)))]
    #[educe(Debug(name = false))]
    #[educe(Debug(named_field = false))]
    #[educe(Debug(bound(where_predicates)))]
    #[educe(Debug(bound = false))]
"#;

#[test]
fn wrong_forms_are_refused(rt: HostRuntime) -> Result<(), Fail> {
    check_table(rt.alloc(), FORMS)
}
