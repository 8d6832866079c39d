//! Worked examples of enums: the text of their comparisons, and where and why they are rejected
//! (documentation of `educe`, PartialEq; PartialOrd; Ord; Rust Reference, Enumerations).

use crate::tables::check_table;
use std::test::Fail;

static TEXTS: &str = r#"
unit, tuple and named variants, and an ignored field
#[educe(PartialEq, PartialOrd, Ord)] enum E { A, B(u8, #[educe(PartialEq = false, Ord(ignore))] u8), C { x: u8, y: u8 } }
: writes # [ automatically_derived ] impl :: core :: cmp :: PartialEq for E { fn eq ( & self , other : & Self ) -> :: core :: primitive :: bool { match self { Self :: A => { if let Self :: A = other { } else { return false ; } } Self :: B ( _s_0 , _ , ) => { if let Self :: B ( _o_0 , _ , ) = other { if :: core :: cmp :: PartialEq :: ne ( _s_0 , _o_0 ) { return false ; } } else { return false ; } } Self :: C { x : _s_x , y : _s_y , } => { if let Self :: C { x : _o_x , y : _o_y , } = other { if :: core :: cmp :: PartialEq :: ne ( _s_x , _o_x ) { return false ; } if :: core :: cmp :: PartialEq :: ne ( _s_y , _o_y ) { return false ; } } else { return false ; } } } true } }
# [ automatically_derived ] impl :: core :: cmp :: PartialOrd for E { fn partial_cmp ( & self , other : & Self , ) -> :: core :: option :: Option < :: core :: cmp :: Ordering > { let discriminant = | this : & Self | -> :: core :: primitive :: isize { match this { Self :: A => const { 0 } , Self :: B ( .. ) => const { let base : :: core :: primitive :: isize = 0 ; base . wrapping_add ( 1usize as :: core :: primitive :: isize ) } , Self :: C { .. } => const { let base : :: core :: primitive :: isize = 0 ; base . wrapping_add ( 2usize as :: core :: primitive :: isize ) } , } } ; match :: core :: cmp :: Ord :: cmp ( & discriminant ( self ) , & discriminant ( other ) ) { :: core :: cmp :: Ordering :: Equal => { match self { Self :: A => { return :: core :: option :: Option :: Some ( :: core :: cmp :: Ordering :: Equal ) ; } Self :: B ( _s_0 , _ , ) => { if let Self :: B ( _o_0 , _ , ) = other { match :: core :: cmp :: PartialOrd :: partial_cmp ( _s_0 , _o_0 ) { :: core :: option :: Option :: Some ( :: core :: cmp :: Ordering :: Equal ) => ( ) , :: core :: option :: Option :: Some ( :: core :: cmp :: Ordering :: Greater ) => return :: core :: option :: Option :: Some ( :: core :: cmp :: Ordering :: Greater ) , :: core :: option :: Option :: Some ( :: core :: cmp :: Ordering :: Less ) => return :: core :: option :: Option :: Some ( :: core :: cmp :: Ordering :: Less ) , :: core :: option :: Option :: None => return :: core :: option :: Option :: None , } } } Self :: C { x : _s_x , y : _s_y , } => { if let Self :: C { x : _o_x , y : _o_y , } = other { match :: core :: cmp :: PartialOrd :: partial_cmp ( _s_x , _o_x ) { :: core :: option :: Option :: Some ( :: core :: cmp :: Ordering :: Equal ) => ( ) , :: core :: option :: Option :: Some ( :: core :: cmp :: Ordering :: Greater ) => return :: core :: option :: Option :: Some ( :: core :: cmp :: Ordering :: Greater ) , :: core :: option :: Option :: Some ( :: core :: cmp :: Ordering :: Less ) => return :: core :: option :: Option :: Some ( :: core :: cmp :: Ordering :: Less ) , :: core :: option :: Option :: None => return :: core :: option :: Option :: None , } match :: core :: cmp :: PartialOrd :: partial_cmp ( _s_y , _o_y ) { :: core :: option :: Option :: Some ( :: core :: cmp :: Ordering :: Equal ) => ( ) , :: core :: option :: Option :: Some ( :: core :: cmp :: Ordering :: Greater ) => return :: core :: option :: Option :: Some ( :: core :: cmp :: Ordering :: Greater ) , :: core :: option :: Option :: Some ( :: core :: cmp :: Ordering :: Less ) => return :: core :: option :: Option :: Some ( :: core :: cmp :: Ordering :: Less ) , :: core :: option :: Option :: None => return :: core :: option :: Option :: None , } } } } :: core :: option :: Option :: Some ( :: core :: cmp :: Ordering :: Equal ) } , :: core :: cmp :: Ordering :: Greater => { :: core :: option :: Option :: Some ( :: core :: cmp :: Ordering :: Greater ) } , :: core :: cmp :: Ordering :: Less => { :: core :: option :: Option :: Some ( :: core :: cmp :: Ordering :: Less ) } , } } }
# [ automatically_derived ] impl :: core :: cmp :: Ord for E { fn cmp ( & self , other : & Self ) -> :: core :: cmp :: Ordering { let discriminant = | this : & Self | -> :: core :: primitive :: isize { match this { Self :: A => const { 0 } , Self :: B ( .. ) => const { let base : :: core :: primitive :: isize = 0 ; base . wrapping_add ( 1usize as :: core :: primitive :: isize ) } , Self :: C { .. } => const { let base : :: core :: primitive :: isize = 0 ; base . wrapping_add ( 2usize as :: core :: primitive :: isize ) } , } } ; match :: core :: cmp :: Ord :: cmp ( & discriminant ( self ) , & discriminant ( other ) ) { :: core :: cmp :: Ordering :: Equal => { match self { Self :: A => { return :: core :: cmp :: Ordering :: Equal ; } Self :: B ( _s_0 , _ , ) => { if let Self :: B ( _o_0 , _ , ) = other { match :: core :: cmp :: Ord :: cmp ( _s_0 , _o_0 ) { :: core :: cmp :: Ordering :: Equal => ( ) , :: core :: cmp :: Ordering :: Greater => return :: core :: cmp :: Ordering :: Greater , :: core :: cmp :: Ordering :: Less => return :: core :: cmp :: Ordering :: Less , } } } Self :: C { x : _s_x , y : _s_y , } => { if let Self :: C { x : _o_x , y : _o_y , } = other { match :: core :: cmp :: Ord :: cmp ( _s_x , _o_x ) { :: core :: cmp :: Ordering :: Equal => ( ) , :: core :: cmp :: Ordering :: Greater => return :: core :: cmp :: Ordering :: Greater , :: core :: cmp :: Ordering :: Less => return :: core :: cmp :: Ordering :: Less , } match :: core :: cmp :: Ord :: cmp ( _s_y , _o_y ) { :: core :: cmp :: Ordering :: Equal => ( ) , :: core :: cmp :: Ordering :: Greater => return :: core :: cmp :: Ordering :: Greater , :: core :: cmp :: Ordering :: Less => return :: core :: cmp :: Ordering :: Less , } } } } :: core :: cmp :: Ordering :: Equal } , :: core :: cmp :: Ordering :: Greater => :: core :: cmp :: Ordering :: Greater , :: core :: cmp :: Ordering :: Less => :: core :: cmp :: Ordering :: Less , } } }

unit variants
#[educe(PartialOrd, Ord)] #[repr(i8)] enum E { Two = 2, One = 1, Zero = -0x3i8, Next }
: writes # [ automatically_derived ] impl :: core :: cmp :: PartialOrd for E { fn partial_cmp ( & self , other : & Self , ) -> :: core :: option :: Option < :: core :: cmp :: Ordering > { let discriminant = | this : & Self | -> :: core :: primitive :: i8 { match this { Self :: Two => const { 2 } , Self :: One => const { 1 } , Self :: Zero => const { - 0x3i8 } , Self :: Next => const { let base : :: core :: primitive :: i8 = - 0x3i8 ; base . wrapping_add ( 1usize as :: core :: primitive :: i8 ) } , } } ; :: core :: option :: Option :: Some ( :: core :: cmp :: Ord :: cmp ( & discriminant ( self ) , & discriminant ( other ) ) ) } }
# [ automatically_derived ] impl :: core :: cmp :: Ord for E { fn cmp ( & self , other : & Self ) -> :: core :: cmp :: Ordering { let discriminant = | this : & Self | -> :: core :: primitive :: i8 { match this { Self :: Two => const { 2 } , Self :: One => const { 1 } , Self :: Zero => const { - 0x3i8 } , Self :: Next => const { let base : :: core :: primitive :: i8 = - 0x3i8 ; base . wrapping_add ( 1usize as :: core :: primitive :: i8 ) } , } } ; :: core :: cmp :: Ord :: cmp ( & discriminant ( self ) , & discriminant ( other ) ) } }

no variants
#[educe(PartialEq, PartialOrd, Ord)] enum E {}
: writes # [ automatically_derived ] impl :: core :: cmp :: PartialEq for E { fn eq ( & self , other : & Self ) -> :: core :: primitive :: bool { true } }
# [ automatically_derived ] impl :: core :: cmp :: PartialOrd for E { fn partial_cmp ( & self , other : & Self , ) -> :: core :: option :: Option < :: core :: cmp :: Ordering > { :: core :: option :: Option :: Some ( :: core :: cmp :: Ordering :: Equal ) } }
# [ automatically_derived ] impl :: core :: cmp :: Ord for E { fn cmp ( & self , other : & Self ) -> :: core :: cmp :: Ordering { :: core :: cmp :: Ordering :: Equal } }

ranks and a method inside a variant
#[educe(PartialOrd, Ord)] enum E { A(#[educe(Ord(rank = 2))] u8, #[educe(Ord(rank = 1, method(c)))] u8), B { r#fn: u8 } }
: writes # [ automatically_derived ] impl :: core :: cmp :: PartialOrd for E { fn partial_cmp ( & self , other : & Self , ) -> :: core :: option :: Option < :: core :: cmp :: Ordering > { let discriminant = | this : & Self | -> :: core :: primitive :: isize { match this { Self :: A ( .. ) => const { 0 } , Self :: B { .. } => const { let base : :: core :: primitive :: isize = 0 ; base . wrapping_add ( 1usize as :: core :: primitive :: isize ) } , } } ; match :: core :: cmp :: Ord :: cmp ( & discriminant ( self ) , & discriminant ( other ) ) { :: core :: cmp :: Ordering :: Equal => { match self { Self :: A ( _s_0 , _s_1 , ) => { if let Self :: A ( _o_0 , _o_1 , ) = other { match :: core :: option :: Option :: Some ( c ( _s_1 , _o_1 ) ) { :: core :: option :: Option :: Some ( :: core :: cmp :: Ordering :: Equal ) => ( ) , :: core :: option :: Option :: Some ( :: core :: cmp :: Ordering :: Greater ) => return :: core :: option :: Option :: Some ( :: core :: cmp :: Ordering :: Greater ) , :: core :: option :: Option :: Some ( :: core :: cmp :: Ordering :: Less ) => return :: core :: option :: Option :: Some ( :: core :: cmp :: Ordering :: Less ) , :: core :: option :: Option :: None => return :: core :: option :: Option :: None , } match :: core :: cmp :: PartialOrd :: partial_cmp ( _s_0 , _o_0 ) { :: core :: option :: Option :: Some ( :: core :: cmp :: Ordering :: Equal ) => ( ) , :: core :: option :: Option :: Some ( :: core :: cmp :: Ordering :: Greater ) => return :: core :: option :: Option :: Some ( :: core :: cmp :: Ordering :: Greater ) , :: core :: option :: Option :: Some ( :: core :: cmp :: Ordering :: Less ) => return :: core :: option :: Option :: Some ( :: core :: cmp :: Ordering :: Less ) , :: core :: option :: Option :: None => return :: core :: option :: Option :: None , } } } Self :: B { r#fn : _s_fn , } => { if let Self :: B { r#fn : _o_fn , } = other { match :: core :: cmp :: PartialOrd :: partial_cmp ( _s_fn , _o_fn ) { :: core :: option :: Option :: Some ( :: core :: cmp :: Ordering :: Equal ) => ( ) , :: core :: option :: Option :: Some ( :: core :: cmp :: Ordering :: Greater ) => return :: core :: option :: Option :: Some ( :: core :: cmp :: Ordering :: Greater ) , :: core :: option :: Option :: Some ( :: core :: cmp :: Ordering :: Less ) => return :: core :: option :: Option :: Some ( :: core :: cmp :: Ordering :: Less ) , :: core :: option :: Option :: None => return :: core :: option :: Option :: None , } } } } :: core :: option :: Option :: Some ( :: core :: cmp :: Ordering :: Equal ) } , :: core :: cmp :: Ordering :: Greater => { :: core :: option :: Option :: Some ( :: core :: cmp :: Ordering :: Greater ) } , :: core :: cmp :: Ordering :: Less => { :: core :: option :: Option :: Some ( :: core :: cmp :: Ordering :: Less ) } , } } }
# [ automatically_derived ] impl :: core :: cmp :: Ord for E { fn cmp ( & self , other : & Self ) -> :: core :: cmp :: Ordering { let discriminant = | this : & Self | -> :: core :: primitive :: isize { match this { Self :: A ( .. ) => const { 0 } , Self :: B { .. } => const { let base : :: core :: primitive :: isize = 0 ; base . wrapping_add ( 1usize as :: core :: primitive :: isize ) } , } } ; match :: core :: cmp :: Ord :: cmp ( & discriminant ( self ) , & discriminant ( other ) ) { :: core :: cmp :: Ordering :: Equal => { match self { Self :: A ( _s_0 , _s_1 , ) => { if let Self :: A ( _o_0 , _o_1 , ) = other { match c ( _s_1 , _o_1 ) { :: core :: cmp :: Ordering :: Equal => ( ) , :: core :: cmp :: Ordering :: Greater => return :: core :: cmp :: Ordering :: Greater , :: core :: cmp :: Ordering :: Less => return :: core :: cmp :: Ordering :: Less , } match :: core :: cmp :: Ord :: cmp ( _s_0 , _o_0 ) { :: core :: cmp :: Ordering :: Equal => ( ) , :: core :: cmp :: Ordering :: Greater => return :: core :: cmp :: Ordering :: Greater , :: core :: cmp :: Ordering :: Less => return :: core :: cmp :: Ordering :: Less , } } } Self :: B { r#fn : _s_fn , } => { if let Self :: B { r#fn : _o_fn , } = other { match :: core :: cmp :: Ord :: cmp ( _s_fn , _o_fn ) { :: core :: cmp :: Ordering :: Equal => ( ) , :: core :: cmp :: Ordering :: Greater => return :: core :: cmp :: Ordering :: Greater , :: core :: cmp :: Ordering :: Less => return :: core :: cmp :: Ordering :: Less , } } } } :: core :: cmp :: Ordering :: Equal } , :: core :: cmp :: Ordering :: Greater => :: core :: cmp :: Ordering :: Greater , :: core :: cmp :: Ordering :: Less => :: core :: cmp :: Ordering :: Less , } } }

a text that has each chosen name as a word
#[educe(PartialEq, Ord)] enum discriminant { other, this(u8), base { _s_x: u8, y: u8 } }
: writes # [ automatically_derived ] impl :: core :: cmp :: PartialEq for discriminant { fn eq ( & self , _other : & Self ) -> :: core :: primitive :: bool { match self { Self :: other => { if let Self :: other = _other { } else { return false ; } } Self :: this ( __s_0 , ) => { if let Self :: this ( _o_0 , ) = _other { if :: core :: cmp :: PartialEq :: ne ( __s_0 , _o_0 ) { return false ; } } else { return false ; } } Self :: base { _s_x : __s__s_x , y : __s_y , } => { if let Self :: base { _s_x : _o__s_x , y : _o_y , } = _other { if :: core :: cmp :: PartialEq :: ne ( __s__s_x , _o__s_x ) { return false ; } if :: core :: cmp :: PartialEq :: ne ( __s_y , _o_y ) { return false ; } } else { return false ; } } } true } }
# [ automatically_derived ] impl :: core :: cmp :: Ord for discriminant { fn cmp ( & self , _other : & Self ) -> :: core :: cmp :: Ordering { let _discriminant = | _this : & Self | -> :: core :: primitive :: isize { match _this { Self :: other => const { 0 } , Self :: this ( .. ) => const { let _base : :: core :: primitive :: isize = 0 ; _base . wrapping_add ( 1usize as :: core :: primitive :: isize ) } , Self :: base { .. } => const { let _base : :: core :: primitive :: isize = 0 ; _base . wrapping_add ( 2usize as :: core :: primitive :: isize ) } , } } ; match :: core :: cmp :: Ord :: cmp ( & _discriminant ( self ) , & _discriminant ( _other ) ) { :: core :: cmp :: Ordering :: Equal => { match self { Self :: other => { return :: core :: cmp :: Ordering :: Equal ; } Self :: this ( __s_0 , ) => { if let Self :: this ( _o_0 , ) = _other { match :: core :: cmp :: Ord :: cmp ( __s_0 , _o_0 ) { :: core :: cmp :: Ordering :: Equal => ( ) , :: core :: cmp :: Ordering :: Greater => return :: core :: cmp :: Ordering :: Greater , :: core :: cmp :: Ordering :: Less => return :: core :: cmp :: Ordering :: Less , } } } Self :: base { _s_x : __s__s_x , y : __s_y , } => { if let Self :: base { _s_x : _o__s_x , y : _o_y , } = _other { match :: core :: cmp :: Ord :: cmp ( __s__s_x , _o__s_x ) { :: core :: cmp :: Ordering :: Equal => ( ) , :: core :: cmp :: Ordering :: Greater => return :: core :: cmp :: Ordering :: Greater , :: core :: cmp :: Ordering :: Less => return :: core :: cmp :: Ordering :: Less , } match :: core :: cmp :: Ord :: cmp ( __s_y , _o_y ) { :: core :: cmp :: Ordering :: Equal => ( ) , :: core :: cmp :: Ordering :: Greater => return :: core :: cmp :: Ordering :: Greater , :: core :: cmp :: Ordering :: Less => return :: core :: cmp :: Ordering :: Less , } } } } :: core :: cmp :: Ordering :: Equal } , :: core :: cmp :: Ordering :: Greater => :: core :: cmp :: Ordering :: Greater , :: core :: cmp :: Ordering :: Less => :: core :: cmp :: Ordering :: Less , } } }

a method `other`, and a field behind a prefix
#[educe(PartialEq)] enum E { A { #[educe(PartialEq(method(other)))] _s_x: u8, y: u8 } }
: writes # [ automatically_derived ] impl :: core :: cmp :: PartialEq for E { fn eq ( & self , _other : & Self ) -> :: core :: primitive :: bool { match self { Self :: A { _s_x : __s__s_x , y : __s_y , } => { if let Self :: A { _s_x : _o__s_x , y : _o_y , } = _other { if ! other ( __s__s_x , _o__s_x ) { return false ; } if :: core :: cmp :: PartialEq :: ne ( __s_y , _o_y ) { return false ; } } else { return false ; } } } true } }

the methods `other` and `this`
#[educe(PartialEq, PartialOrd, Ord)] enum E { A { #[educe(PartialEq(method(other)))] _s_x: u8, #[educe(Ord(method = "this"))] y: u8 } }
: holds fn eq ( & self , _other : & Self ) -> :: core :: primitive :: bool { match self { Self :: A { _s_x : __s__s_x , y : __s_y , } => { if let Self :: A { _s_x : _o__s_x , y : _o_y , } = _other {
: holds fn cmp ( & self , _other : & Self ) -> :: core :: cmp :: Ordering { let discriminant = | _this : & Self |

a method `this`
#[educe(Ord)] enum E { A { x: u8, #[educe(Ord(method = "this"))] y: u8 } }
: holds let discriminant = | _this : & Self | -> :: core :: primitive :: isize { match _this {

brackets without fields
#[educe(Ord)] enum E { A {}, B() }
: writes # [ automatically_derived ] impl :: core :: cmp :: Ord for E { fn cmp ( & self , other : & Self ) -> :: core :: cmp :: Ordering { let discriminant = | this : & Self | -> :: core :: primitive :: isize { match this { Self :: A { .. } => const { 0 } , Self :: B ( .. ) => const { let base : :: core :: primitive :: isize = 0 ; base . wrapping_add ( 1usize as :: core :: primitive :: isize ) } , } } ; match :: core :: cmp :: Ord :: cmp ( & discriminant ( self ) , & discriminant ( other ) ) { :: core :: cmp :: Ordering :: Equal => { match self { Self :: A { } => { if let Self :: A { } = other { } } Self :: B ( ) => { if let Self :: B ( ) = other { } } } :: core :: cmp :: Ordering :: Equal } , :: core :: cmp :: Ordering :: Greater => :: core :: cmp :: Ordering :: Greater , :: core :: cmp :: Ordering :: Less => :: core :: cmp :: Ordering :: Less , } } }

a type of discriminants
#[educe(Ord)] #[repr(C, u8)] #[repr(align(8))] enum E { A, B }
: holds Self :: B => const { let base : :: core :: primitive :: u8 = 0 ; base . wrapping_add ( 1usize as :: core :: primitive :: u8 ) } ,

an expression is written as it is
#[educe(Ord)] enum E { A = X::<{ 1 }>::Y, B }
: holds Self :: A => const { X ::< { 1 } >:: Y } , Self :: B => const { let base : :: core :: primitive :: isize = X ::< { 1 } >:: Y ; base . wrapping_add ( 1usize as :: core :: primitive :: isize ) } ,

a lint attribute of an enum is copied
#[allow(dead_code)] #[educe(PartialEq)] enum E {}
: holds # [ automatically_derived ] # [ allow ( dead_code ) ] impl :: core :: cmp :: PartialEq for E {
"#;

#[test]
fn enums_are_expanded(rt: HostRuntime) -> Result<(), Fail> {
    check_table(rt.alloc(), TEXTS)
}

static VARIANTS: &str = r#"
a comparison at a variant
#[educe(PartialEq)] enum E { A, #[educe(PartialEq(ignore))] B }
: rejected 1:41: the `PartialEq` attribute cannot be placed here

a comparison alone at a variant
#[educe(Ord)] enum E { #[educe(Ord)] A(u8) }
: rejected 1:32: the `Ord` attribute cannot be placed here

a truth value at a variant
#[educe(PartialEq, PartialOrd)] enum E { #[educe(PartialOrd = false)] A }
: rejected 1:50: the `PartialOrd` attribute cannot be placed here

a trait at a variant that the type does not list
#[educe(PartialEq)] enum E { #[educe(Hash = false)] A }
: rejected 1:38: the trait `Hash` is not used

a list of a variant that is no list of metas
#[educe(PartialEq)] enum E { #[educe(1)] A }
: rejected 1:38: syntax error

one rank twice in a variant
#[educe(Ord)] enum E { A, B(#[educe(Ord(rank = 1))] u8, #[educe(Ord(rank = 1))] u8) }
: rejected 1:69: the rank `1` is repeatedly used

one rank twice in a variant with names
#[educe(PartialOrd)] enum E { A { #[educe(PartialOrd(rank = 7))] a: u8, b: u8, #[educe(PartialOrd(rank(0x7)))] c: u8 } }
: rejected 1:99: the rank `7` is repeatedly used

the rank of the first field of a variant where none is set
#[educe(Ord)] enum E { A(u8), B { a: u8, #[educe(Ord(rank = -9223372036854775808))] b: u8 } }
: rejected 1:54: the rank `-9223372036854775808` is repeatedly used

a fault at a field of a variant
#[educe(PartialEq)] enum E { A(u8), B(#[educe(PartialEq(ignore = 1))] u8) }
: rejected 1:66: expected `ignore = false`

two variants of one name
#[educe(PartialEq)] enum E { A, B, r#A(u8) }
: rejected 1:36: the name `r#A` is defined more than once

two fields of one name in a variant
#[educe(PartialEq)] enum E { A { a: u8 }, B { a: u8, a: u8 } }
: rejected 1:54: the name `a` is defined more than once

two variants with the same ranks
#[educe(Ord)] enum E { A(#[educe(Ord(rank = 1))] u8, u8), B(#[educe(Ord(rank = 1))] u8, u8) }
: expands

an ignored field of a variant takes no rank
#[educe(Ord)] enum E { A(#[educe(Ord(rank = 1))] u8, #[educe(Ord(rank = 1, ignore))] u8) }
: expands

one name in two variants
#[educe(PartialEq)] enum E { A { a: u8 }, B { a: u8 } }
: expands

an empty list at a variant
#[educe(PartialEq)] enum E { #[educe()] #[serde(skip)] A }
: expands
"#;

#[test]
fn what_variants_say_is_answered(rt: HostRuntime) -> Result<(), Fail> {
    check_table(rt.alloc(), VARIANTS)
}
