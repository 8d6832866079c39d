//! The keys of fields (Rust Reference, Field access expressions).

use crate::keys::shown_key;
use educe_tests::check_rows;
use std::test::Fail;

/// The name of a field, if it has one, its place and a value, and how the key is printed, bound and
/// initialized with the value.
static KEYS: &str = r#"
0 = x
: 0 _s_0 x ,

4294967295 = 1 + 1
: 4294967295 _s_4294967295 1 + 1 ,

a 3 = x
: a _s_a a : x ,

r#type 0 = f(x)
: r#type _s_type r#type : f ( x ) ,

é 1 =␠
: é _s_é é : ,
"#;

#[test]
fn keys_are_names_or_indices(rt: HostRuntime) -> Result<(), Fail> {
    check_rows(rt.alloc(), shown_key, KEYS)
}
