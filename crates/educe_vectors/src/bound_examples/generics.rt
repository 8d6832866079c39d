//! Worked examples of generic parameters: the headers of impls, and what the types of fields ask (documentation
//! of `educe`, Trait Bounds; Rust Reference, Generic parameters).

use crate::tables::check_table;
use std::test::Fail;

static WHOLE: &str = r#"
a container hands on what is asked
#[educe(PartialEq)] struct S<T> { a: Vec<Box<T>> }
: writes # [ automatically_derived ] impl < T > :: core :: cmp :: PartialEq for S < T > where T : :: core :: cmp :: PartialEq { fn eq ( & self , other : & Self ) -> :: core :: primitive :: bool { if :: core :: cmp :: PartialEq :: ne ( & self . a , & other . a ) { return false ; } true } }

a type of another name is asked itself
#[educe(PartialEq)] struct S<T> { a: Wrapper<T> }
: writes # [ automatically_derived ] impl < T > :: core :: cmp :: PartialEq for S < T > where Wrapper < T > : :: core :: cmp :: PartialEq { fn eq ( & self , other : & Self ) -> :: core :: primitive :: bool { if :: core :: cmp :: PartialEq :: ne ( & self . a , & other . a ) { return false ; } true } }

a box of the struct itself
#[educe(PartialEq)] struct S<T> { a: Box<S<T>> }
: writes # [ automatically_derived ] impl < T > :: core :: cmp :: PartialEq for S < T > where T : :: core :: cmp :: PartialEq { fn eq ( & self , other : & Self ) -> :: core :: primitive :: bool { if :: core :: cmp :: PartialEq :: ne ( & self . a , & other . a ) { return false ; } true } }

a marker asks nothing
#[educe(PartialEq)] struct S<T> { a: PhantomData<T> }
: writes # [ automatically_derived ] impl < T > :: core :: cmp :: PartialEq for S < T > { fn eq ( & self , other : & Self ) -> :: core :: primitive :: bool { if :: core :: cmp :: PartialEq :: ne ( & self . a , & other . a ) { return false ; } true } }

a map is asked itself
#[educe(PartialEq)] struct S<K, V> { a: HashMap<K, V> }
: writes # [ automatically_derived ] impl < K , V > :: core :: cmp :: PartialEq for S < K , V > where HashMap < K , V > : :: core :: cmp :: PartialEq { fn eq ( & self , other : & Self ) -> :: core :: primitive :: bool { if :: core :: cmp :: PartialEq :: ne ( & self . a , & other . a ) { return false ; } true } }

an order inherits what equality asks
#[educe(PartialEq, PartialOrd)] struct S<T> { a: T }
: writes # [ automatically_derived ] impl < T > :: core :: cmp :: PartialEq for S < T > where T : :: core :: cmp :: PartialEq { fn eq ( & self , other : & Self ) -> :: core :: primitive :: bool { if :: core :: cmp :: PartialEq :: ne ( & self . a , & other . a ) { return false ; } true } }
# [ automatically_derived ] impl < T > :: core :: cmp :: PartialOrd for S < T > where T : :: core :: cmp :: PartialOrd , T : :: core :: cmp :: PartialEq { fn partial_cmp ( & self , other : & Self , ) -> :: core :: option :: Option < :: core :: cmp :: Ordering > { match :: core :: cmp :: PartialOrd :: partial_cmp ( & self . a , & other . a ) { :: core :: option :: Option :: Some ( :: core :: cmp :: Ordering :: Equal ) => ( ) , :: core :: option :: Option :: Some ( :: core :: cmp :: Ordering :: Greater ) => return :: core :: option :: Option :: Some ( :: core :: cmp :: Ordering :: Greater ) , :: core :: option :: Option :: Some ( :: core :: cmp :: Ordering :: Less ) => return :: core :: option :: Option :: Some ( :: core :: cmp :: Ordering :: Less ) , :: core :: option :: Option :: None => return :: core :: option :: Option :: None , } :: core :: option :: Option :: Some ( :: core :: cmp :: Ordering :: Equal ) } }

a predicate for each parameter
#[educe(PartialEq(bound(*)))] struct S<T> { a: u8 }
: writes # [ automatically_derived ] impl < T > :: core :: cmp :: PartialEq for S < T > where T : :: core :: cmp :: PartialEq { fn eq ( & self , other : & Self ) -> :: core :: primitive :: bool { if :: core :: cmp :: PartialEq :: ne ( & self . a , & other . a ) { return false ; } true } }

an enum with parameters
#[educe(PartialEq, PartialOrd, Ord)] enum E<'a, T, const N: usize> { Leaf, Node(Box<E<'a, T, N>>, &'a T), Items { x: [u8; N] } }
: writes # [ automatically_derived ] impl < 'a , T , const N : usize > :: core :: cmp :: PartialEq for E < 'a , T , N > where T : :: core :: cmp :: PartialEq , & 'a T : :: core :: cmp :: PartialEq , [ u8 ; N ] : :: core :: cmp :: PartialEq { fn eq ( & self , other : & Self ) -> :: core :: primitive :: bool { match self { Self :: Leaf => { if let Self :: Leaf = other { } else { return false ; } } Self :: Node ( _s_0 , _s_1 , ) => { if let Self :: Node ( _o_0 , _o_1 , ) = other { if :: core :: cmp :: PartialEq :: ne ( _s_0 , _o_0 ) { return false ; } if :: core :: cmp :: PartialEq :: ne ( _s_1 , _o_1 ) { return false ; } } else { return false ; } } Self :: Items { x : _s_x , } => { if let Self :: Items { x : _o_x , } = other { if :: core :: cmp :: PartialEq :: ne ( _s_x , _o_x ) { return false ; } } else { return false ; } } } true } }
# [ automatically_derived ] impl < 'a , T , const N : usize > :: core :: cmp :: PartialOrd for E < 'a , T , N > where T : :: core :: cmp :: PartialOrd , & 'a T : :: core :: cmp :: PartialOrd , [ u8 ; N ] : :: core :: cmp :: PartialOrd , T : :: core :: cmp :: PartialEq , & 'a T : :: core :: cmp :: PartialEq , [ u8 ; N ] : :: core :: cmp :: PartialEq { fn partial_cmp ( & self , other : & Self , ) -> :: core :: option :: Option < :: core :: cmp :: Ordering > { let discriminant = | this : & Self | -> :: core :: primitive :: isize { match this { Self :: Leaf => const { 0 } , Self :: Node ( .. ) => const { let base : :: core :: primitive :: isize = 0 ; base . wrapping_add ( 1usize as :: core :: primitive :: isize ) } , Self :: Items { .. } => const { let base : :: core :: primitive :: isize = 0 ; base . wrapping_add ( 2usize as :: core :: primitive :: isize ) } , } } ; match :: core :: cmp :: Ord :: cmp ( & discriminant ( self ) , & discriminant ( other ) ) { :: core :: cmp :: Ordering :: Equal => { match self { Self :: Leaf => { return :: core :: option :: Option :: Some ( :: core :: cmp :: Ordering :: Equal ) ; } Self :: Node ( _s_0 , _s_1 , ) => { if let Self :: Node ( _o_0 , _o_1 , ) = other { match :: core :: cmp :: PartialOrd :: partial_cmp ( _s_0 , _o_0 ) { :: core :: option :: Option :: Some ( :: core :: cmp :: Ordering :: Equal ) => ( ) , :: core :: option :: Option :: Some ( :: core :: cmp :: Ordering :: Greater ) => return :: core :: option :: Option :: Some ( :: core :: cmp :: Ordering :: Greater ) , :: core :: option :: Option :: Some ( :: core :: cmp :: Ordering :: Less ) => return :: core :: option :: Option :: Some ( :: core :: cmp :: Ordering :: Less ) , :: core :: option :: Option :: None => return :: core :: option :: Option :: None , } match :: core :: cmp :: PartialOrd :: partial_cmp ( _s_1 , _o_1 ) { :: core :: option :: Option :: Some ( :: core :: cmp :: Ordering :: Equal ) => ( ) , :: core :: option :: Option :: Some ( :: core :: cmp :: Ordering :: Greater ) => return :: core :: option :: Option :: Some ( :: core :: cmp :: Ordering :: Greater ) , :: core :: option :: Option :: Some ( :: core :: cmp :: Ordering :: Less ) => return :: core :: option :: Option :: Some ( :: core :: cmp :: Ordering :: Less ) , :: core :: option :: Option :: None => return :: core :: option :: Option :: None , } } } Self :: Items { x : _s_x , } => { if let Self :: Items { x : _o_x , } = other { match :: core :: cmp :: PartialOrd :: partial_cmp ( _s_x , _o_x ) { :: core :: option :: Option :: Some ( :: core :: cmp :: Ordering :: Equal ) => ( ) , :: core :: option :: Option :: Some ( :: core :: cmp :: Ordering :: Greater ) => return :: core :: option :: Option :: Some ( :: core :: cmp :: Ordering :: Greater ) , :: core :: option :: Option :: Some ( :: core :: cmp :: Ordering :: Less ) => return :: core :: option :: Option :: Some ( :: core :: cmp :: Ordering :: Less ) , :: core :: option :: Option :: None => return :: core :: option :: Option :: None , } } } } :: core :: option :: Option :: Some ( :: core :: cmp :: Ordering :: Equal ) } , :: core :: cmp :: Ordering :: Greater => { :: core :: option :: Option :: Some ( :: core :: cmp :: Ordering :: Greater ) } , :: core :: cmp :: Ordering :: Less => { :: core :: option :: Option :: Some ( :: core :: cmp :: Ordering :: Less ) } , } } }
# [ automatically_derived ] impl < 'a , T , const N : usize > :: core :: cmp :: Ord for E < 'a , T , N > where T : :: core :: cmp :: Ord , & 'a T : :: core :: cmp :: Ord , [ u8 ; N ] : :: core :: cmp :: Ord , T : :: core :: cmp :: PartialOrd , & 'a T : :: core :: cmp :: PartialOrd , [ u8 ; N ] : :: core :: cmp :: PartialOrd , T : :: core :: cmp :: PartialEq , & 'a T : :: core :: cmp :: PartialEq , [ u8 ; N ] : :: core :: cmp :: PartialEq { fn cmp ( & self , other : & Self ) -> :: core :: cmp :: Ordering { let discriminant = | this : & Self | -> :: core :: primitive :: isize { match this { Self :: Leaf => const { 0 } , Self :: Node ( .. ) => const { let base : :: core :: primitive :: isize = 0 ; base . wrapping_add ( 1usize as :: core :: primitive :: isize ) } , Self :: Items { .. } => const { let base : :: core :: primitive :: isize = 0 ; base . wrapping_add ( 2usize as :: core :: primitive :: isize ) } , } } ; match :: core :: cmp :: Ord :: cmp ( & discriminant ( self ) , & discriminant ( other ) ) { :: core :: cmp :: Ordering :: Equal => { match self { Self :: Leaf => { return :: core :: cmp :: Ordering :: Equal ; } Self :: Node ( _s_0 , _s_1 , ) => { if let Self :: Node ( _o_0 , _o_1 , ) = other { match :: core :: cmp :: Ord :: cmp ( _s_0 , _o_0 ) { :: core :: cmp :: Ordering :: Equal => ( ) , :: core :: cmp :: Ordering :: Greater => return :: core :: cmp :: Ordering :: Greater , :: core :: cmp :: Ordering :: Less => return :: core :: cmp :: Ordering :: Less , } match :: core :: cmp :: Ord :: cmp ( _s_1 , _o_1 ) { :: core :: cmp :: Ordering :: Equal => ( ) , :: core :: cmp :: Ordering :: Greater => return :: core :: cmp :: Ordering :: Greater , :: core :: cmp :: Ordering :: Less => return :: core :: cmp :: Ordering :: Less , } } } Self :: Items { x : _s_x , } => { if let Self :: Items { x : _o_x , } = other { match :: core :: cmp :: Ord :: cmp ( _s_x , _o_x ) { :: core :: cmp :: Ordering :: Equal => ( ) , :: core :: cmp :: Ordering :: Greater => return :: core :: cmp :: Ordering :: Greater , :: core :: cmp :: Ordering :: Less => return :: core :: cmp :: Ordering :: Less , } } } } :: core :: cmp :: Ordering :: Equal } , :: core :: cmp :: Ordering :: Greater => :: core :: cmp :: Ordering :: Greater , :: core :: cmp :: Ordering :: Less => :: core :: cmp :: Ordering :: Less , } } }
"#;

#[test]
fn whole_impls_are_written(rt: HostRuntime) -> Result<(), Fail> {
    check_table(rt.alloc(), WHOLE)
}

static UNCONDITIONAL: &str = r#"
raw pointers
#[educe(PartialEq)] struct S<T> { a: *const T, b: *mut Vec<T> }
: holds impl < T > :: core :: cmp :: PartialEq for S < T > { fn eq

function pointers
#[educe(PartialEq)] struct S<T, U> { a: fn(T) -> U, b: for<'a> unsafe extern "C" fn(x: &'a T) }
: holds impl < T , U > :: core :: cmp :: PartialEq for S < T , U > { fn eq

a marker in a module
#[educe(PartialEq)] struct S<T>(core::marker::PhantomData<T>);
: holds impl < T > :: core :: cmp :: PartialEq for S < T > { fn eq

a marker behind `::`
#[educe(PartialEq)] struct S<T>(::core::marker::PhantomData<T>);
: holds impl < T > :: core :: cmp :: PartialEq for S < T > { fn eq

a marker in a container
#[educe(PartialEq)] struct S<T, U>(Vec<PhantomData<T>>, Option<*const U>);
: holds impl < T , U > :: core :: cmp :: PartialEq for S < T , U > { fn eq

a pointer that is never null, for all three
#[educe(PartialEq, PartialOrd, Ord)] struct S<T>(NonNull<T>);
: holds impl < T > :: core :: cmp :: PartialEq for S < T > { fn eq
: holds impl < T > :: core :: cmp :: PartialOrd for S < T > { fn partial_cmp
: holds impl < T > :: core :: cmp :: Ord for S < T > { fn cmp

a discriminant, for equality alone
#[educe(PartialEq, PartialOrd, Ord)] struct S<T>(Discriminant<T>);
: holds impl < T > :: core :: cmp :: PartialEq for S < T > { fn eq
: holds impl < T > :: core :: cmp :: PartialOrd for S < T > where Discriminant < T > : :: core :: cmp :: PartialOrd { fn partial_cmp
: holds impl < T > :: core :: cmp :: Ord for S < T > where Discriminant < T > : :: core :: cmp :: Ord , Discriminant < T > : :: core :: cmp :: PartialOrd { fn cmp

a reference is asked itself
#[educe(PartialEq, PartialOrd, Ord)] struct S<'a, T>(&'a T);
: holds impl < 'a , T > :: core :: cmp :: PartialEq for S < 'a , T > where & 'a T : :: core :: cmp :: PartialEq { fn eq
: holds impl < 'a , T > :: core :: cmp :: PartialOrd for S < 'a , T > where & 'a T : :: core :: cmp :: PartialOrd , & 'a T : :: core :: cmp :: PartialEq { fn partial_cmp
: holds impl < 'a , T > :: core :: cmp :: Ord for S < 'a , T > where & 'a T : :: core :: cmp :: Ord , & 'a T : :: core :: cmp :: PartialOrd , & 'a T : :: core :: cmp :: PartialEq { fn cmp

a name of another trait's table is asked itself
#[educe(PartialEq, PartialOrd, Ord)] struct S<'a, T>(Weak<T>, Cow<'a, T>, AtomicPtr<T>);
: holds impl < 'a , T > :: core :: cmp :: PartialEq for S < 'a , T > where Weak < T > : :: core :: cmp :: PartialEq , Cow < 'a , T > : :: core :: cmp :: PartialEq , AtomicPtr < T > : :: core :: cmp :: PartialEq { fn eq
: holds impl < 'a , T > :: core :: cmp :: PartialOrd for S < 'a , T > where Weak < T > : :: core :: cmp :: PartialOrd , Cow < 'a , T > : :: core :: cmp :: PartialOrd , AtomicPtr < T > : :: core :: cmp :: PartialOrd , Weak < T > : :: core :: cmp :: PartialEq , Cow < 'a , T > : :: core :: cmp :: PartialEq , AtomicPtr < T > : :: core :: cmp :: PartialEq { fn partial_cmp
: holds impl < 'a , T > :: core :: cmp :: Ord for S < 'a , T > where Weak < T > : :: core :: cmp :: Ord , Cow < 'a , T > : :: core :: cmp :: Ord , AtomicPtr < T > : :: core :: cmp :: Ord , Weak < T > : :: core :: cmp :: PartialOrd , Cow < 'a , T > : :: core :: cmp :: PartialOrd , AtomicPtr < T > : :: core :: cmp :: PartialOrd , Weak < T > : :: core :: cmp :: PartialEq , Cow < 'a , T > : :: core :: cmp :: PartialEq , AtomicPtr < T > : :: core :: cmp :: PartialEq { fn cmp

a marker of a parameter is asked itself
#[educe(PartialEq)] struct S<T>(T::PhantomData);
: holds impl < T > :: core :: cmp :: PartialEq for S < T > where T :: PhantomData : :: core :: cmp :: PartialEq { fn eq

a marker behind a self type is asked itself
#[educe(PartialEq)] struct S<T>(<T as A>::PhantomData);
: holds impl < T > :: core :: cmp :: PartialEq for S < T > where < T as A >:: PhantomData : :: core :: cmp :: PartialEq { fn eq

a raw name is another name
#[educe(PartialEq)] struct S<T>(r#PhantomData<T>);
: holds impl < T > :: core :: cmp :: PartialEq for S < T > where r#PhantomData < T > : :: core :: cmp :: PartialEq { fn eq

a parameter of the marker's name
#[educe(PartialEq)] struct S<PhantomData>(PhantomData);
: holds impl < PhantomData > :: core :: cmp :: PartialEq for S < PhantomData > where PhantomData : :: core :: cmp :: PartialEq { fn eq
"#;

#[test]
fn some_types_ask_nothing(rt: HostRuntime) -> Result<(), Fail> {
    check_table(rt.alloc(), UNCONDITIONAL)
}

static WITHOUT: &str = r#"
no type with a parameter
#[educe(PartialEq)] struct S<T> { a: u8, b: Vec<u8>, c: (u8, [u8; 3]), d: fn(u8), e: Wrapper<u8> }
: holds impl < T > :: core :: cmp :: PartialEq for S < T > { fn eq

lifetimes are none
#[educe(PartialEq)] struct S<'a> { a: Wrapper<'a>, b: &'a str }
: holds impl < 'a > :: core :: cmp :: PartialEq for S < 'a > { fn eq

`Self` is none
#[educe(PartialEq)] struct S<T> { a: Option<Box<Self>>, b: T }
: holds impl < T > :: core :: cmp :: PartialEq for S < T > where T : :: core :: cmp :: PartialEq { fn eq

a parameter's name behind another segment
#[educe(PartialEq)] struct S<T> { a: a::T, b: a::T<u8> }
: holds impl < T > :: core :: cmp :: PartialEq for S < T > { fn eq

a parameter's name behind `::`
#[educe(PartialEq)] struct S<T> { a: ::T, b: ::T::A }
: holds impl < T > :: core :: cmp :: PartialEq for S < T > { fn eq

a parameter's name as that of a binding
#[educe(PartialEq)] struct S<T> { a: Box<dyn Iterator<T = u8>> }
: holds impl < T > :: core :: cmp :: PartialEq for S < T > { fn eq

a parameter's name as a lifetime
#[educe(PartialEq)] struct S<'T, T> { a: Wrapper<'T>, b: &'T u8 }
: holds impl < 'T , T > :: core :: cmp :: PartialEq for S < 'T , T > { fn eq

a parameter's name in a string
#[educe(PartialEq)] struct S<const N: usize> { a: Wrapper<"N"> }
: holds impl < const N : usize > :: core :: cmp :: PartialEq for S < N > { fn eq
"#;

#[test]
fn types_without_parameters_ask_nothing(rt: HostRuntime) -> Result<(), Fail> {
    check_table(rt.alloc(), WITHOUT)
}

static FORWARDING: &str = r#"
each container
#[educe(PartialEq)] struct S<A, B, C, D, E, F, G, H, I, J, K, L, M, N, O, P>(Option<A>, Result<B, C>, Box<D>, Vec<E>, VecDeque<F>, LinkedList<G>, BTreeMap<H, I>, BTreeSet<J>, Arc<K>, Rc<L>, RefCell<M>, Wrapping<N>, Reverse<O>, Saturating<P>);
: holds impl < A , B , C , D , E , F , G , H , I , J , K , L , M , N , O , P > :: core :: cmp :: PartialEq for S < A , B , C , D , E , F , G , H , I , J , K , L , M , N , O , P > where A : :: core :: cmp :: PartialEq , B : :: core :: cmp :: PartialEq , C : :: core :: cmp :: PartialEq , D : :: core :: cmp :: PartialEq , E : :: core :: cmp :: PartialEq , F : :: core :: cmp :: PartialEq , G : :: core :: cmp :: PartialEq , H : :: core :: cmp :: PartialEq , I : :: core :: cmp :: PartialEq , J : :: core :: cmp :: PartialEq , K : :: core :: cmp :: PartialEq , L : :: core :: cmp :: PartialEq , M : :: core :: cmp :: PartialEq , N : :: core :: cmp :: PartialEq , O : :: core :: cmp :: PartialEq , P : :: core :: cmp :: PartialEq { fn eq

each container, for an order
#[educe(Ord)] struct S<A, B, C, D, E, F, G, H, I, J, K, L, M, N, O, P>(Option<A>, Result<B, C>, Box<D>, Vec<E>, VecDeque<F>, LinkedList<G>, BTreeMap<H, I>, BTreeSet<J>, Arc<K>, Rc<L>, RefCell<M>, Wrapping<N>, Reverse<O>, Saturating<P>);
: holds impl < A , B , C , D , E , F , G , H , I , J , K , L , M , N , O , P > :: core :: cmp :: Ord for S < A , B , C , D , E , F , G , H , I , J , K , L , M , N , O , P > where A : :: core :: cmp :: Ord , B : :: core :: cmp :: Ord , C : :: core :: cmp :: Ord , D : :: core :: cmp :: Ord , E : :: core :: cmp :: Ord , F : :: core :: cmp :: Ord , G : :: core :: cmp :: Ord , H : :: core :: cmp :: Ord , I : :: core :: cmp :: Ord , J : :: core :: cmp :: Ord , K : :: core :: cmp :: Ord , L : :: core :: cmp :: Ord , M : :: core :: cmp :: Ord , N : :: core :: cmp :: Ord , O : :: core :: cmp :: Ord , P : :: core :: cmp :: Ord { fn cmp

no container of a comparison
#[educe(PartialEq)] struct S<A, B, C, D, E, F, G>(HashMap<A, B>, HashSet<C>, BinaryHeap<D>, Cell<E>, Mutex<F>, RwLock<G>);
: holds impl < A , B , C , D , E , F , G > :: core :: cmp :: PartialEq for S < A , B , C , D , E , F , G > where HashMap < A , B > : :: core :: cmp :: PartialEq , HashSet < C > : :: core :: cmp :: PartialEq , BinaryHeap < D > : :: core :: cmp :: PartialEq , Cell < E > : :: core :: cmp :: PartialEq , Mutex < F > : :: core :: cmp :: PartialEq , RwLock < G > : :: core :: cmp :: PartialEq { fn eq

a map with a third argument
#[educe(PartialEq)] struct S<K, V, H>(HashMap<K, V, H>, HashSet<K, H>);
: holds impl < K , V , H > :: core :: cmp :: PartialEq for S < K , V , H > where HashMap < K , V , H > : :: core :: cmp :: PartialEq , HashSet < K , H > : :: core :: cmp :: PartialEq { fn eq

a container in a module
#[educe(PartialEq)] struct S<T>(std::vec::Vec<T>, ::std::boxed::Box<T>, other::Option<T>);
: holds impl < T > :: core :: cmp :: PartialEq for S < T > where T : :: core :: cmp :: PartialEq { fn eq

type arguments alone are parts
#[educe(PartialEq)] struct S<'a, T, U, const N: usize>(Vec<'a, T, Item = U, { N }, 3>);
: holds impl < 'a , T , U , const N : usize > :: core :: cmp :: PartialEq for S < 'a , T , U , N > where T : :: core :: cmp :: PartialEq { fn eq

a container of a constant alone
#[educe(PartialEq)] struct S<const N: usize>(Vec<{ N }>);
: holds impl < const N : usize > :: core :: cmp :: PartialEq for S < N > { fn eq

round arguments are no parts
#[educe(PartialEq)] struct S<T>(Vec(T) -> T);
: holds impl < T > :: core :: cmp :: PartialEq for S < T > where Vec ( T ) -> T : :: core :: cmp :: PartialEq { fn eq

a container behind a self type is asked itself
#[educe(PartialEq)] struct S<T>(<T as A>::Vec<T>);
: holds impl < T > :: core :: cmp :: PartialEq for S < T > where < T as A >:: Vec < T > : :: core :: cmp :: PartialEq { fn eq

arguments of an earlier segment are no parts
#[educe(PartialEq)] struct S<T, U>(a<T>::Vec<U>);
: holds impl < T , U > :: core :: cmp :: PartialEq for S < T , U > where U : :: core :: cmp :: PartialEq { fn eq

a parameter named as a container
#[educe(PartialEq)] struct S<Vec> { a: Vec<u8> }
: holds impl < Vec > :: core :: cmp :: PartialEq for S < Vec > where Vec < u8 > : :: core :: cmp :: PartialEq { fn eq

a parameter named as a container, and a container behind `::`
#[educe(PartialEq)] struct S<Vec> { a: ::Vec<Vec> }
: holds impl < Vec > :: core :: cmp :: PartialEq for S < Vec > where Vec : :: core :: cmp :: PartialEq { fn eq

a constant named as a container
#[educe(PartialEq)] struct S<const Vec: usize> { a: Vec<u8>, b: [u8; Vec] }
: holds impl < const Vec : usize > :: core :: cmp :: PartialEq for S < Vec > where [ u8 ; Vec ] : :: core :: cmp :: PartialEq { fn eq

parts of parts
#[educe(PartialEq)] struct S<T, U>(Result<Option<T>, Rc<[U]>>);
: holds impl < T , U > :: core :: cmp :: PartialEq for S < T , U > where T : :: core :: cmp :: PartialEq , [ U ] : :: core :: cmp :: PartialEq { fn eq
"#;

#[test]
fn containers_hand_on_what_is_asked(rt: HostRuntime) -> Result<(), Fail> {
    check_table(rt.alloc(), FORWARDING)
}

static MENTIONING: &str = r#"
the struct in a tuple
#[educe(PartialEq)] struct S<T>((T, Box<S<T>>));
: holds impl < T > :: core :: cmp :: PartialEq for S < T > where T : :: core :: cmp :: PartialEq { fn eq

parameters come as they are declared
#[educe(PartialEq)] struct S<T, U, V>((V, Box<S<T, U, V>>, T));
: holds impl < T , U , V > :: core :: cmp :: PartialEq for S < T , U , V > where T : :: core :: cmp :: PartialEq , U : :: core :: cmp :: PartialEq , V : :: core :: cmp :: PartialEq { fn eq

`Self` beside a parameter
#[educe(PartialEq)] struct S<T>(Option<(Box<Self>, T)>);
: holds impl < T > :: core :: cmp :: PartialEq for S < T > where T : :: core :: cmp :: PartialEq { fn eq

a path that begins with `Self`
#[educe(PartialEq)] struct S<T>((Self::A, T));
: holds impl < T > :: core :: cmp :: PartialEq for S < T > where T : :: core :: cmp :: PartialEq { fn eq

pointers, functions and markers are passed over
#[educe(PartialEq)] struct S<T, U, V, W, X>((Box<S<T, T, T, T, T>>, *const U, fn(V) -> V, PhantomData<W>, X));
: holds impl < T , U , V , W , X > :: core :: cmp :: PartialEq for S < T , U , V , W , X > where T : :: core :: cmp :: PartialEq , X : :: core :: cmp :: PartialEq { fn eq

a reference is not passed over
#[educe(PartialEq)] struct S<'a, T, U>((&'a S<'a, T, U>, u8));
: holds impl < 'a , T , U > :: core :: cmp :: PartialEq for S < 'a , T , U > where T : :: core :: cmp :: PartialEq , U : :: core :: cmp :: PartialEq { fn eq

the struct in a module
#[educe(PartialEq)] struct S<T>(Wrapper<a::S<T>>);
: holds impl < T > :: core :: cmp :: PartialEq for S < T > where T : :: core :: cmp :: PartialEq { fn eq

the struct behind `::`
#[educe(PartialEq)] struct S<T>(Wrapper<::S<T>>);
: holds impl < T > :: core :: cmp :: PartialEq for S < T > where T : :: core :: cmp :: PartialEq { fn eq

a segment of the struct's name
#[educe(PartialEq)] struct S<T>(Wrapper<a::S::B<T>>);
: holds impl < T > :: core :: cmp :: PartialEq for S < T > where T : :: core :: cmp :: PartialEq { fn eq

the struct as a self type
#[educe(PartialEq)] struct S<T, U>(<S<T, u8> as A<U>>::B);
: holds impl < T , U > :: core :: cmp :: PartialEq for S < T , U > where T : :: core :: cmp :: PartialEq , U : :: core :: cmp :: PartialEq { fn eq

the struct's name behind a self type
#[educe(PartialEq)] struct S<T>(<T as A>::S);
: holds impl < T > :: core :: cmp :: PartialEq for S < T > where < T as A >:: S : :: core :: cmp :: PartialEq { fn eq

the struct's name behind a parameter
#[educe(PartialEq)] struct S<T>(T::S<u8>);
: holds impl < T > :: core :: cmp :: PartialEq for S < T > where T :: S < u8 > : :: core :: cmp :: PartialEq { fn eq

the struct among a parameter's arguments
#[educe(PartialEq)] struct S<T, U>(T::A<S<T, U>>);
: holds impl < T , U > :: core :: cmp :: PartialEq for S < T , U > where T : :: core :: cmp :: PartialEq , U : :: core :: cmp :: PartialEq { fn eq

the struct in a trait object
#[educe(PartialEq)] struct S<T>(Box<dyn A<S<T>>>, T);
: holds impl < T > :: core :: cmp :: PartialEq for S < T > where T : :: core :: cmp :: PartialEq { fn eq

the struct in a binding
#[educe(PartialEq)] struct S<T>(Box<dyn Iterator<Item = S<T>>>);
: holds impl < T > :: core :: cmp :: PartialEq for S < T > where T : :: core :: cmp :: PartialEq { fn eq

the struct in an array
#[educe(PartialEq)] struct S<T, const N: usize>([Box<S<T, N>>; N]);
: holds impl < T , const N : usize > :: core :: cmp :: PartialEq for S < T , N > where T : :: core :: cmp :: PartialEq { fn eq

constants are no type parameters
#[educe(PartialEq)] struct S<const N: usize>(Option<(Box<S<N>>, u8)>);
: holds impl < const N : usize > :: core :: cmp :: PartialEq for S < N > { fn eq

the struct in the length of an array
#[educe(PartialEq)] struct S<T>([T; S::<T>::B]);
: holds impl < T > :: core :: cmp :: PartialEq for S < T > where [ T ; S ::< T >:: B ] : :: core :: cmp :: PartialEq { fn eq

an enum mentions itself
#[educe(PartialEq)] enum Tree<T> { Leaf, Node(Box<(Tree<T>, T, Tree<T>)>) }
: holds impl < T > :: core :: cmp :: PartialEq for Tree < T > where T : :: core :: cmp :: PartialEq { fn eq
"#;

#[test]
fn types_that_mention_the_definition_ask_parameters(rt: HostRuntime) -> Result<(), Fail> {
    check_table(rt.alloc(), MENTIONING)
}

static OTHER: &str = r#"
a tuple, an array and a slice
#[educe(PartialEq)] struct S<T>((T, u8), [T; 3], Box<[T]>);
: holds impl < T > :: core :: cmp :: PartialEq for S < T > where ( T , u8 ) : :: core :: cmp :: PartialEq , [ T ; 3 ] : :: core :: cmp :: PartialEq , [ T ] : :: core :: cmp :: PartialEq { fn eq

brackets are not looked through
#[educe(PartialEq)] struct S<T>((T), Vec<(T)>);
: holds impl < T > :: core :: cmp :: PartialEq for S < T > where ( T ) : :: core :: cmp :: PartialEq { fn eq

references of both kinds
#[educe(PartialEq)] struct S<'a, T: ?Sized>(&'a T, &'a mut T, &'a &'a T);
: holds impl < 'a , T : ? Sized > :: core :: cmp :: PartialEq for S < 'a , T > where & 'a T : :: core :: cmp :: PartialEq , & 'a mut T : :: core :: cmp :: PartialEq , & 'a & 'a T : :: core :: cmp :: PartialEq { fn eq

a length that is a constant
#[educe(PartialEq)] struct S<const N: usize>([u8; N], [[u8; 2]; N + 1]);
: holds impl < const N : usize > :: core :: cmp :: PartialEq for S < N > where [ u8 ; N ] : :: core :: cmp :: PartialEq , [ [ u8 ; 2 ] ; N + 1 ] : :: core :: cmp :: PartialEq { fn eq

a constant argument
#[educe(PartialEq)] struct S<const N: usize, const B: bool>(Wrapper<N>, Wrapper<{ N }>, Wrapper<{ !B }>);
: holds impl < const N : usize , const B : bool > :: core :: cmp :: PartialEq for S < N , B > where Wrapper < N > : :: core :: cmp :: PartialEq , Wrapper < { N } > : :: core :: cmp :: PartialEq , Wrapper < { ! B } > : :: core :: cmp :: PartialEq { fn eq

an associated type
#[educe(PartialEq)] struct S<T: A>(T::B, <T as A>::B, <T>::C, Option<T::B>);
: holds impl < T : A > :: core :: cmp :: PartialEq for S < T > where T :: B : :: core :: cmp :: PartialEq , < T as A >:: B : :: core :: cmp :: PartialEq , < T >:: C : :: core :: cmp :: PartialEq { fn eq

a trait object
#[educe(PartialEq)] struct S<'a, T>(Box<dyn A<T>>, Box<dyn B + C<Item = T> + 'a>, Rc<dyn Fn(T) -> T>);
: holds impl < 'a , T > :: core :: cmp :: PartialEq for S < 'a , T > where dyn A < T > : :: core :: cmp :: PartialEq , dyn B + C < Item = T > + 'a : :: core :: cmp :: PartialEq , dyn Fn ( T ) -> T : :: core :: cmp :: PartialEq { fn eq

a function in another type
#[educe(PartialEq)] struct S<T>(Wrapper<fn(T)>, (fn() -> T, u8));
: holds impl < T > :: core :: cmp :: PartialEq for S < T > where Wrapper < fn ( T ) > : :: core :: cmp :: PartialEq , ( fn ( ) -> T , u8 ) : :: core :: cmp :: PartialEq { fn eq

a parameter with arguments
#[educe(PartialEq)] struct S<T>(T<u8>);
: holds impl < T > :: core :: cmp :: PartialEq for S < T > where T < u8 > : :: core :: cmp :: PartialEq { fn eq
"#;

#[test]
fn other_types_are_asked_themselves(rt: HostRuntime) -> Result<(), Fail> {
    check_table(rt.alloc(), OTHER)
}

static ONCE: &str = r#"
fields of one type
#[educe(PartialEq)] struct S<T>(T, T, Vec<T>, Option<Box<T>>);
: holds impl < T > :: core :: cmp :: PartialEq for S < T > where T : :: core :: cmp :: PartialEq { fn eq

types that differ in a blank
#[educe(PartialEq)] struct S<T>(Wrapper<Vec<T>>, Wrapper< Vec<T> >);
: holds impl < T > :: core :: cmp :: PartialEq for S < T > where Wrapper < Vec < T >> : :: core :: cmp :: PartialEq { fn eq

types that differ in a blank, the other way round
#[educe(PartialEq)] struct S<T>(Wrapper< Vec<T> >, Wrapper<Vec<T>>);
: holds impl < T > :: core :: cmp :: PartialEq for S < T > where Wrapper < Vec < T > > : :: core :: cmp :: PartialEq { fn eq

types that differ in a comma
#[educe(PartialEq)] struct S<T>(Wrapper<T>, Wrapper<T,>);
: holds impl < T > :: core :: cmp :: PartialEq for S < T > where Wrapper < T > : :: core :: cmp :: PartialEq , Wrapper < T ,> : :: core :: cmp :: PartialEq { fn eq

what is asked is ordered by need
#[educe(PartialEq)] struct S<T, U, V>(Vec<V>, (T, U), Option<T>, V);
: holds impl < T , U , V > :: core :: cmp :: PartialEq for S < T , U , V > where V : :: core :: cmp :: PartialEq , ( T , U ) : :: core :: cmp :: PartialEq , T : :: core :: cmp :: PartialEq { fn eq

ranks change the order
#[educe(PartialEq, Ord)] struct S<T, U, V> { #[educe(Ord(rank = 2))] a: T, #[educe(Ord(rank = 1))] b: Vec<U>, c: Wrapper<V> }
: holds impl < T , U , V > :: core :: cmp :: PartialEq for S < T , U , V > where T : :: core :: cmp :: PartialEq , U : :: core :: cmp :: PartialEq , Wrapper < V > : :: core :: cmp :: PartialEq { fn eq
: holds impl < T , U , V > :: core :: cmp :: Ord for S < T , U , V > where Wrapper < V > : :: core :: cmp :: Ord , U : :: core :: cmp :: Ord , T : :: core :: cmp :: Ord { fn cmp

ranks count for each variant
#[educe(Ord)] enum E<T, U, V> { A(#[educe(Ord(rank = 2))] T, #[educe(Ord(rank = 1))] U), B { v: V, #[educe(Ord(rank = -1))] u: [U; 1] } }
: holds impl < T , U , V > :: core :: cmp :: Ord for E < T , U , V > where U : :: core :: cmp :: Ord , T : :: core :: cmp :: Ord , V : :: core :: cmp :: Ord , [ U ; 1 ] : :: core :: cmp :: Ord { fn cmp

variants come as they are written
#[educe(PartialEq)] enum E<T, U> { A { x: Option<U> }, B, C(T, U), D(Wrapper<T>) }
: holds impl < T , U > :: core :: cmp :: PartialEq for E < T , U > where U : :: core :: cmp :: PartialEq , T : :: core :: cmp :: PartialEq , Wrapper < T > : :: core :: cmp :: PartialEq { fn eq

an enum without variants
#[educe(PartialEq, PartialOrd, Ord)] enum E<T> {}
: holds impl < T > :: core :: cmp :: PartialEq for E < T > { fn eq
: holds impl < T > :: core :: cmp :: PartialOrd for E < T > { fn partial_cmp
: holds impl < T > :: core :: cmp :: Ord for E < T > { fn cmp

ignored fields ask nothing
#[educe(PartialEq, PartialOrd, Ord)] struct S<T, U, V> { #[educe(PartialEq(ignore))] a: T, #[educe(Ord(ignore))] b: U, #[educe(PartialOrd = false, Ord = true)] c: V }
: holds impl < T , U , V > :: core :: cmp :: PartialEq for S < T , U , V > where U : :: core :: cmp :: PartialEq , V : :: core :: cmp :: PartialEq { fn eq
: holds impl < T , U , V > :: core :: cmp :: PartialOrd for S < T , U , V > where T : :: core :: cmp :: PartialOrd , U : :: core :: cmp :: PartialEq , V : :: core :: cmp :: PartialEq { fn partial_cmp
: holds impl < T , U , V > :: core :: cmp :: Ord for S < T , U , V > where T : :: core :: cmp :: Ord , V : :: core :: cmp :: Ord , T : :: core :: cmp :: PartialOrd , U : :: core :: cmp :: PartialEq , V : :: core :: cmp :: PartialEq { fn cmp

fields with methods ask nothing
#[educe(PartialEq, PartialOrd, Ord)] struct S<T, U, V> { #[educe(PartialEq(method = m))] a: T, #[educe(Ord(method = m))] b: U, #[educe(PartialOrd(method = m))] c: V }
: holds impl < T , U , V > :: core :: cmp :: PartialEq for S < T , U , V > where U : :: core :: cmp :: PartialEq , V : :: core :: cmp :: PartialEq { fn eq
: holds impl < T , U , V > :: core :: cmp :: PartialOrd for S < T , U , V > where T : :: core :: cmp :: PartialOrd , U : :: core :: cmp :: PartialEq , V : :: core :: cmp :: PartialEq { fn partial_cmp
: holds impl < T , U , V > :: core :: cmp :: Ord for S < T , U , V > where T : :: core :: cmp :: Ord , V : :: core :: cmp :: Ord , T : :: core :: cmp :: PartialOrd , U : :: core :: cmp :: PartialEq , V : :: core :: cmp :: PartialEq { fn cmp
: holds if ! m ( & self . a , & other . a )

a method that spells the trait's function asks nothing
#[educe(Ord)] struct S<T, U> { #[educe(Ord(method(::core::cmp::Ord::cmp)))] a: T, b: U }
: holds impl < T , U > :: core :: cmp :: Ord for S < T , U > where U : :: core :: cmp :: Ord { fn cmp
"#;

#[test]
fn predicates_come_once_and_in_order(rt: HostRuntime) -> Result<(), Fail> {
    check_table(rt.alloc(), ONCE)
}

static HEADERS: &str = r#"
lifetimes come first
#[educe(PartialEq)] struct S<T, 'a, const N: usize, 'b: 'a> { a: &'a T, b: [&'b u8; N] }
: holds impl < 'a , 'b : 'a , T , const N : usize > :: core :: cmp :: PartialEq for S < 'a , 'b , T , N > where & 'a T : :: core :: cmp :: PartialEq , [ & 'b u8 ; N ] : :: core :: cmp :: PartialEq { fn eq

defaults are left out
#[educe(PartialEq)] struct S<T: Clone + A<u8> = Vec<u8>, const N: usize = 3, const M: i8 = -1, U = ()>(T, [U; N]);
: holds impl < T : Clone + A < u8 > , const N : usize , const M : i8 , U > :: core :: cmp :: PartialEq for S < T , N , M , U > where T : :: core :: cmp :: PartialEq , [ U ; N ] : :: core :: cmp :: PartialEq { fn eq

bounds are kept
#[educe(PartialEq)] struct S<'a, 'b: 'a +, T: ?Sized + for<'c> A<'c> + 'a, U:, V>(&'a T, U, Box<V>);
: holds impl < 'a , 'b : 'a + , T : ? Sized + for < 'c > A < 'c > + 'a , U : , V > :: core :: cmp :: PartialEq for S < 'a , 'b , T , U , V > where & 'a T : :: core :: cmp :: PartialEq , U : :: core :: cmp :: PartialEq , V : :: core :: cmp :: PartialEq { fn eq

a trailing comma is left out
#[educe(PartialEq)] struct S<T,>(T) where T: Clone,;
: holds impl < T > :: core :: cmp :: PartialEq for S < T > where T : Clone , T : :: core :: cmp :: PartialEq { fn eq

empty angle brackets are left out
#[educe(PartialEq)] struct S<> { a: u8 }
: holds impl :: core :: cmp :: PartialEq for S { fn eq

declared predicates come first
#[educe(PartialEq)] struct S<'a, T, U> where T: Clone + 'a, U: A<Vec<T>>, { a: Vec<T>, b: Wrapper<U> }
: holds impl < 'a , T , U > :: core :: cmp :: PartialEq for S < 'a , T , U > where T : Clone + 'a , U : A < Vec < T >> , T : :: core :: cmp :: PartialEq , Wrapper < U > : :: core :: cmp :: PartialEq { fn eq

predicates behind a tuple struct
#[educe(PartialEq)] struct S<T>(T) where T: Copy;
: holds impl < T > :: core :: cmp :: PartialEq for S < T > where T : Copy , T : :: core :: cmp :: PartialEq { fn eq

predicates of a unit struct
#[educe(PartialEq)] struct S<T> where T: Copy;
: holds impl < T > :: core :: cmp :: PartialEq for S < T > where T : Copy { fn eq

predicates of an enum
#[educe(PartialEq)] enum E<T> where for<'a> &'a T: A, [T]: Sized, { A(T) }
: holds impl < T > :: core :: cmp :: PartialEq for E < T > where for < 'a > & 'a T : A , [ T ] : Sized , T : :: core :: cmp :: PartialEq { fn eq

predicates of lifetimes
#[educe(PartialEq)] struct S<'a, 'b, T: 'a>(&'a T, &'b u8) where 'b: 'a, 'a:;
: holds impl < 'a , 'b , T : 'a > :: core :: cmp :: PartialEq for S < 'a , 'b , T > where 'b : 'a , 'a : , & 'a T : :: core :: cmp :: PartialEq { fn eq

a lifetime that outlives itself
#[educe(PartialEq)] struct S<'a>(&'a u8) where 'a: 'a;
: holds impl < 'a > :: core :: cmp :: PartialEq for S < 'a > where 'a : 'a { fn eq

predicates without parameters
#[educe(PartialEq, PartialOrd, Ord)] struct S where u8: Copy { a: u8 }
: holds impl :: core :: cmp :: PartialEq for S where u8 : Copy { fn eq
: holds impl :: core :: cmp :: PartialOrd for S where u8 : Copy { fn partial_cmp
: holds impl :: core :: cmp :: Ord for S where u8 : Copy { fn cmp

no predicate behind `where`
#[educe(PartialEq)] struct S<T> where { a: T }
: holds impl < T > :: core :: cmp :: PartialEq for S < T > where T : :: core :: cmp :: PartialEq { fn eq

no predicate behind a tuple struct
#[educe(PartialEq)] struct S<T>(T) where;
: holds impl < T > :: core :: cmp :: PartialEq for S < T > where T : :: core :: cmp :: PartialEq { fn eq

a predicate that is declared already
#[educe(PartialEq)] struct S<T> where T: ::core::cmp::PartialEq { a: T }
: holds impl < T > :: core :: cmp :: PartialEq for S < T > where T : :: core :: cmp :: PartialEq , T : :: core :: cmp :: PartialEq { fn eq

a predicate that is declared twice
#[educe(PartialEq)] struct S<T> where T: A, T: A { a: u8 }
: holds impl < T > :: core :: cmp :: PartialEq for S < T > where T : A , T : A { fn eq

an inherited predicate that is declared already
#[educe(PartialEq, PartialOrd)] struct S<T> where T: ::core::cmp::PartialEq { a: T }
: holds impl < T > :: core :: cmp :: PartialEq for S < T > where T : :: core :: cmp :: PartialEq , T : :: core :: cmp :: PartialEq { fn eq
: holds impl < T > :: core :: cmp :: PartialOrd for S < T > where T : :: core :: cmp :: PartialEq , T : :: core :: cmp :: PartialOrd , T : :: core :: cmp :: PartialEq { fn partial_cmp

raw names
#[educe(PartialEq)] struct r#S<r#T, 'a, r#fn> { a: r#T, b: &'a r#fn }
: holds impl < 'a , r#T , r#fn > :: core :: cmp :: PartialEq for r#S < 'a , r#T , r#fn > where r#T : :: core :: cmp :: PartialEq , & 'a r#fn : :: core :: cmp :: PartialEq { fn eq

a raw name is no parameter's name
#[educe(PartialEq)] struct S<T>(r#T, T);
: holds impl < T > :: core :: cmp :: PartialEq for S < T > where T : :: core :: cmp :: PartialEq { fn eq

letters of another script
#[educe(PartialEq)] struct S<Ж>(Ж);
: holds impl < Ж > :: core :: cmp :: PartialEq for S < Ж > where Ж : :: core :: cmp :: PartialEq { fn eq
"#;

#[test]
fn headers_are_those_of_the_definition(rt: HostRuntime) -> Result<(), Fail> {
    check_table(rt.alloc(), HEADERS)
}
