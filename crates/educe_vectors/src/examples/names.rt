//! Worked examples of the text of user-written functions, and of inputs that have the name of the second
//! value as a word (documentation of `educe`, PartialEq; PartialOrd; Ord).

use crate::tables::check_table;
use std::test::Fail;

static METHODS: &str = r#"
a method of `Ord` serves both orders
#[educe(PartialOrd, Ord)] struct S { #[educe(Ord(method(c)))] a: u8 }
: writes # [ automatically_derived ] impl :: core :: cmp :: PartialOrd for S { fn partial_cmp ( & self , other : & Self , ) -> :: core :: option :: Option < :: core :: cmp :: Ordering > { match :: core :: option :: Option :: Some ( c ( & self . a , & other . a ) ) { :: core :: option :: Option :: Some ( :: core :: cmp :: Ordering :: Equal ) => ( ) , :: core :: option :: Option :: Some ( :: core :: cmp :: Ordering :: Greater ) => return :: core :: option :: Option :: Some ( :: core :: cmp :: Ordering :: Greater ) , :: core :: option :: Option :: Some ( :: core :: cmp :: Ordering :: Less ) => return :: core :: option :: Option :: Some ( :: core :: cmp :: Ordering :: Less ) , :: core :: option :: Option :: None => return :: core :: option :: Option :: None , } :: core :: option :: Option :: Some ( :: core :: cmp :: Ordering :: Equal ) } }
# [ automatically_derived ] impl :: core :: cmp :: Ord for S { fn cmp ( & self , other : & Self ) -> :: core :: cmp :: Ordering { match c ( & self . a , & other . a ) { :: core :: cmp :: Ordering :: Equal => ( ) , :: core :: cmp :: Ordering :: Greater => return :: core :: cmp :: Ordering :: Greater , :: core :: cmp :: Ordering :: Less => return :: core :: cmp :: Ordering :: Less , } :: core :: cmp :: Ordering :: Equal } }

a method of `PartialOrd` serves it alone
#[educe(PartialOrd, Ord)] struct S { #[educe(PartialOrd(method(p)))] a: u8 }
: writes # [ automatically_derived ] impl :: core :: cmp :: PartialOrd for S { fn partial_cmp ( & self , other : & Self , ) -> :: core :: option :: Option < :: core :: cmp :: Ordering > { match p ( & self . a , & other . a ) { :: core :: option :: Option :: Some ( :: core :: cmp :: Ordering :: Equal ) => ( ) , :: core :: option :: Option :: Some ( :: core :: cmp :: Ordering :: Greater ) => return :: core :: option :: Option :: Some ( :: core :: cmp :: Ordering :: Greater ) , :: core :: option :: Option :: Some ( :: core :: cmp :: Ordering :: Less ) => return :: core :: option :: Option :: Some ( :: core :: cmp :: Ordering :: Less ) , :: core :: option :: Option :: None => return :: core :: option :: Option :: None , } :: core :: option :: Option :: Some ( :: core :: cmp :: Ordering :: Equal ) } }
# [ automatically_derived ] impl :: core :: cmp :: Ord for S { fn cmp ( & self , other : & Self ) -> :: core :: cmp :: Ordering { match :: core :: cmp :: Ord :: cmp ( & self . a , & other . a ) { :: core :: cmp :: Ordering :: Equal => ( ) , :: core :: cmp :: Ordering :: Greater => return :: core :: cmp :: Ordering :: Greater , :: core :: cmp :: Ordering :: Less => return :: core :: cmp :: Ordering :: Less , } :: core :: cmp :: Ordering :: Equal } }

the same beside equality
#[educe(PartialEq, Eq, PartialOrd, Ord)] struct S { #[educe(Ord(method(c)))] a: u8 }
: holds { match :: core :: option :: Option :: Some ( c ( & self . a , & other . a ) ) {

the same of `PartialOrd`
#[educe(PartialEq, Eq, PartialOrd, Ord)] struct S { #[educe(PartialOrd(method(p)))] a: u8 }
: holds { match :: core :: cmp :: Ord :: cmp ( & self . a , & other . a ) {

a method that has the name of the second value
#[educe(PartialEq)] struct S { #[educe(PartialEq(method(other)))] a: u8 }
: writes # [ automatically_derived ] impl :: core :: cmp :: PartialEq for S { fn eq ( & self , _other : & Self ) -> :: core :: primitive :: bool { if ! other ( & self . a , & _other . a ) { return false ; } true } }

a method in a module, behind `=`
#[educe(PartialEq)] struct S { #[educe(PartialEq(method = a::b))] a: u8 }
: writes # [ automatically_derived ] impl :: core :: cmp :: PartialEq for S { fn eq ( & self , other : & Self ) -> :: core :: primitive :: bool { if ! a :: b ( & self . a , & other . a ) { return false ; } true } }

a method in a module, in a string
#[educe(PartialEq)] struct S { #[educe(PartialEq(method = "a::b"))] a: u8 }
: writes # [ automatically_derived ] impl :: core :: cmp :: PartialEq for S { fn eq ( & self , other : & Self ) -> :: core :: primitive :: bool { if ! a :: b ( & self . a , & other . a ) { return false ; } true } }

a method in a module, in a string in brackets
#[educe(PartialEq)] struct S { #[educe(PartialEq(method("a::b")))] a: u8 }
: writes # [ automatically_derived ] impl :: core :: cmp :: PartialEq for S { fn eq ( & self , other : & Self ) -> :: core :: primitive :: bool { if ! a :: b ( & self . a , & other . a ) { return false ; } true } }

a rank of `PartialOrd` keeps the method of `Ord` away
#[educe(PartialOrd, Ord)] struct S { #[educe(PartialOrd(rank = 1), Ord(method(c)))] a: u8 }
: holds match :: core :: cmp :: PartialOrd :: partial_cmp ( & self . a , & other . a ) {

a truth value of `PartialOrd` does too
#[educe(PartialOrd, Ord)] struct S { #[educe(PartialOrd = true, Ord(method(c)))] a: u8 }
: holds match :: core :: cmp :: PartialOrd :: partial_cmp ( & self . a , & other . a ) {

`PartialEq` takes no method of an order
#[educe(PartialEq, PartialOrd, Ord)] struct S { #[educe(Ord(method(c)))] a: u8 }
: holds if :: core :: cmp :: PartialEq :: ne ( & self . a , & other . a ) { return false ; }

arguments of a method are written
#[educe(PartialEq)] struct S { #[educe(PartialEq(method(same::<u8>)))] a: u8 }
: holds if ! same ::< u8 > ( & self . a , & other . a ) { return false ; }

a method behind a qualified path
#[educe(PartialEq)] struct S { #[educe(PartialEq(method(<u8 as Near>::near)))] a: u8 }
: holds if ! < u8 as Near >:: near ( & self . a , & other . a ) { return false ; }

a method of the struct
#[educe(PartialEq)] struct S { #[educe(PartialEq(method(Self::near)))] a: u8 }
: holds if ! Self :: near ( & self . a , & other . a ) { return false ; }

a field without a name is read by its place
#[educe(PartialEq)] struct S(u8, #[educe(PartialEq(method(m)))] u8);
: holds if ! m ( & self . 1 , & other . 1 ) { return false ; }

a method of an ignored field is not written
#[educe(PartialEq)] struct S { #[educe(PartialEq(ignore, method(m)))] a: u8 }
: holds { true }

a method `eq` is written as it is
#[educe(PartialEq)] struct S { #[educe(PartialEq(method(eq)))] a: u8 }
: holds if ! eq ( & self . a , & other . a ) { return false ; }

a method behind `self` is written as it is
#[educe(PartialEq)] struct S { #[educe(PartialEq(method(self::eq)))] a: u8 }
: holds if ! self :: eq ( & self . a , & other . a ) { return false ; }

the opposite of the built-in function as a method
#[educe(PartialEq)] struct S { #[educe(PartialEq(method(::core::cmp::PartialEq::ne)))] a: u8 }
: holds if ! :: core :: cmp :: PartialEq :: ne ( & self . a , & other . a ) { return false ; }
"#;

#[test]
fn methods_are_written(rt: HostRuntime) -> Result<(), Fail> {
    check_table(rt.alloc(), METHODS)
}

static REFUSED: &str = r#"
a method without a path
#[educe(PartialEq)] struct S { #[educe(PartialEq(method))] a: u8 }
: rejected 1:50: expected `method = Path` or `method(Path)`

a number in place of a path
#[educe(PartialEq)] struct S { #[educe(PartialEq(method = 1))] a: u8 }
: rejected 1:59: expected `method = Path`

a string that is no path
#[educe(PartialEq)] struct S { #[educe(PartialEq(method = "a b"))] a: u8 }
: rejected 1:59: expected `method = Path`

a float in place of a path
#[educe(PartialEq)] struct S { #[educe(PartialEq(method = 1.5))] a: u8 }
: rejected 1:59: `1.5` is not supported

a method twice
#[educe(PartialEq)] struct S { #[educe(PartialEq(method(a), method(b)))] a: u8 }
: rejected 1:61: you are trying to reset the `method` parameter

a method of a trait that is not listed
#[educe(PartialEq)] struct S { #[educe(Hash(method = f))] a: u8 }
: rejected 1:40: the trait `Hash` is not used

a method of the other order, which the type does not list
#[educe(PartialOrd)] struct S { #[educe(Ord(method(c)))] a: u8 }
: rejected 1:41: the trait `Ord` is not used

the word of a method as a value
#[educe(PartialEq)] struct S { #[educe(PartialEq(ignore = method))] a: u8 }
: rejected 1:59: expected `ignore = false`

the word of a method in a list that is no list of metas
#[educe(PartialEq)] struct S { #[educe((method))] a: u8 }
: rejected 1:40: syntax error

the name of the second value as a rank
#[educe(Ord)] struct S { #[educe(Ord(rank = "other"))] a: u8 }
: rejected 1:45: expected `rank = integer`
"#;

#[test]
fn what_is_no_method_is_refused(rt: HostRuntime) -> Result<(), Fail> {
    check_table(rt.alloc(), REFUSED)
}

static NAMES: &str = r#"
the name behind `r#`, as a method
#[educe(PartialEq)] struct S { #[educe(PartialEq(method(r#other)))] a: u8 }
: holds if ! r#other ( & self . a , & _other . a ) { return false ; }

the name in a string, as a method
#[educe(PartialEq)] struct S { #[educe(PartialEq(method = "other"))] a: u8 }
: holds if ! other ( & self . a , & _other . a ) { return false ; }

the name in a path
#[educe(PartialEq)] struct S { #[educe(PartialEq(method(a::other::b)))] a: u8 }
: holds fn eq ( & self , _other : & Self )

the name as documentation
/// other
#[educe(PartialEq)] struct S { a: u8 }
: holds fn eq ( & self , _other : & Self )

the name among other words of documentation
#[educe(PartialEq)] /** the other one */ struct S { a: u8 }
: holds fn eq ( & self , _other : & Self )

the name in a comment is no word
#[educe(PartialEq)] /* other */ struct S { a: u8 }
: holds fn eq ( & self , other : & Self )

the name in the string of an attribute
#[educe(PartialEq)] struct S { #[note = "an other"] a: u8 }
: holds fn eq ( & self , _other : & Self )

the name in a string, behind an escape
#[educe(PartialEq)] struct S { #[note = "\x6fther"] a: u8 }
: holds fn eq ( & self , _other : & Self )

the name in a byte string is no word
#[educe(PartialEq)] struct S { #[note = b"other"] a: u8 }
: holds fn eq ( & self , other : & Self )

the name in a lint attribute
#[allow(other)] #[educe(PartialEq)] struct S { a: u8 }
: holds fn eq ( & self , _other : & Self )

the name as a lifetime
#[educe(PartialEq)] struct S { a: &'other u8 }
: holds fn eq ( & self , _other : & Self )

the name as a type, behind `r#`
#[educe(PartialEq)] struct S { a: r#other }
: holds fn eq ( & self , _other : & Self )

the name as a field
#[educe(PartialEq)] struct S { other: u8 }
: holds ( & self . other , & _other . other )

the name as a field, behind `r#`
#[educe(PartialEq)] struct S { r#other: u8 }
: holds ( & self . r#other , & _other . r#other )

the name as the struct, and the next one as a field
#[educe(PartialEq)] struct other { _other: u8 }
: holds fn eq ( & self , __other : & Self )

three names that are taken
#[educe(PartialEq)] struct S { other: u8, _other: u8, __other: u8 }
: holds fn eq ( & self , ___other : & Self )

a name between two that are taken
#[educe(PartialEq)] struct S { other: u8, __other: u8 }
: holds fn eq ( & self , _other : & Self )

a later name alone
#[educe(PartialEq)] struct S { _other: u8 }
: holds fn eq ( & self , other : & Self )

words that have the name in them
#[educe(PartialEq)] struct S { another: u8, others: u8, other_: u8 }
: holds fn eq ( & self , other : & Self )

the name as a parameter of an attribute that is left unread
#[educe(PartialEq)] struct S { #[serde(other = 1)] a: u8 }
: holds fn eq ( & self , _other : & Self )

the name in `partial_cmp`
#[educe(PartialOrd)] struct S { other: u8 }
: holds fn partial_cmp ( & self , _other : & Self , )

the name in `cmp`
#[educe(Ord)] struct S { other: u8 }
: holds fn cmp ( & self , _other : & Self )
"#;

#[test]
fn the_second_value_has_a_name_of_its_own(rt: HostRuntime) -> Result<(), Fail> {
    check_table(rt.alloc(), NAMES)
}
