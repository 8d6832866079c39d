//! What a call answers.
ghost use Rattle.std.specs.Prelude.{◌≡◌, Ok, IfOk};

use educe_tokens::EduceError;
use std::test::Fail;

/// What is found, where it is not rejected.
pub fn found<T: Drop>(answer: Result<T, EduceError>) -> Result<T, Fail>
    ensures { IfOk result (λ x. answer ≡ Ok x) }
{
    match answer {
        Ok(found) => Ok(found),
        Err(error) => Err(Fail::from(error.kind)),
    }
}
