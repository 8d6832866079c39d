//! What a trait asks of types, and which parameters stand in them (documentation of `educe`, Bounds).

use crate::classes::class_words;
use educe_tests::check_rows;
use std::test::Fail;

/// A struct of one field, and of the type of this field: whether `Clone` asks anything of it, whether it uses parameters
/// of the struct, whether it mentions the struct, the types to which it hands on what is asked, and the type parameters
/// that it names outside of what needs no predicate.
static TYPES: &str = r#"
struct S<T>(T);
struct S<T, U>(T);
struct S<T>([T; 1]);
struct S<T>(Other<T>);
struct S<'a, T>(&'a mut T);
struct S<T>(T::Box<u8>);
struct S<T>(<T as S>::A);
struct S<T>(HashMap<T, u8, X>);
: asked; generic; not recursive; does not hand on; names T

struct S<T, U>((U, &'static T));
: asked; generic; not recursive; does not hand on; names U

struct S<Box>(Box<u8>);
: asked; generic; not recursive; does not hand on; names Box

struct S<const N: usize>([u8; N]);
struct S<const N: usize>(Other<N>);
struct S<const N: usize>(Other<{ N + 1 }>);
: asked; generic; not recursive; does not hand on; names

struct S<T>(u8);
struct S<T>(::T);
struct S<T>(Box);
struct S<'a>(Other<'a>);
: asked; not generic; not recursive; does not hand on; names

struct S<T>(PhantomData<T>);
struct S<T>(a::Arc<T>);
struct S<'a, T>(&'a T);
struct S<T>(*const T);
struct S<T>(fn(T) -> T);
: not asked; generic; not recursive; does not hand on; names

struct S<T>(PhantomData<u8>);
: not asked; not generic; not recursive; does not hand on; names

struct S<T>(Box<T>);
struct S<T>(a::Option<T>);
: asked; generic; not recursive; hands on to T,; names T

struct S<T>(Box<u8>);
: asked; not generic; not recursive; hands on to u8,; names

struct S<T, U, V>(Result<V, T>);
: asked; generic; not recursive; hands on to V, T,; names T V

struct S<T>(Box<S<T>>);
: asked; generic; recursive; hands on to S < T >,; names T

struct S<T>(Other<Self, T>);
struct S<T>(Other<a::S, T>);
: asked; generic; recursive; does not hand on; names T

struct S<T>(Self);
: asked; not generic; recursive; does not hand on; names
"#;

#[test]
fn types_are_asked_of(rt: HostRuntime) -> Result<(), Fail> {
    check_rows(rt.alloc(), class_words, TYPES)
}
