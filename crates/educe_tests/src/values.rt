//! Comparing one value with what is expected. The values have no memory of their own: that keeps the
//! proof of a test cheap.
ghost use Rattle.std.specs.Prelude.{◌≡◌, IfOk, IsTrue, string_bytes};

use std::fmt::Debug;
use std::test::Fail;

/// What is found is what is expected.
pub fn check_equal<T: Copy + Debug + PartialEq>(found: T, expected: T) -> Result<(), Fail>
    ensures { IfOk result (λ _. IsTrue (T.eq found expected)) }
{
    if found == expected {
        Ok(())
    } else {
        Err(Fail::new(format_args!("found {found:?}, expected {expected:?}")))
    }
}

/// What is found for an input is what is expected.
pub fn check_at<Input, T>(input: Input, found: T, expected: T) -> Result<(), Fail>
where
    Input: Copy + Debug,
    T: Copy + Debug + PartialEq,
    ensures { IfOk result (λ _. IsTrue (T.eq found expected)) }
{
    if found == expected {
        Ok(())
    } else {
        Err(Fail::new(format_args!("at {input:?}: found {found:?}, expected {expected:?}")))
    }
}

/// The text is what is expected.
pub fn check_text(found: String, expected: &str) -> Result<(), Fail>
    ensures { IfOk result (λ _. string_bytes found ≡ expected.now) }
{
    check_equal(found.as_str(), expected)
}
