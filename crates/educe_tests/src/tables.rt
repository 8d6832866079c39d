//! Comparing what functions answer with what tables expect.
ghost use Rattle.std.specs.Prelude.{Ok, IfOk, IsTrue};
ghost use Rattle.std.specs.List.{AllByRecursion};

use crate::values::check_at;
use std::alloc::Global;
use std::fmt::Debug;
use std::test::Fail;

/// Compares what a function answers to each input of a table.
pub fn check_answers<Input, Answer, F>(
    alloc: Global,
    answer: F,
    table: &[(Input, Answer)],
) -> Result<(), Fail>
where
    Input: Copy + Debug,
    Answer: Copy + Debug + PartialEq,
    F: Fn(Global, Input) -> Result<Answer, Fail>,
    requires { F.IsAlwaysCallable answer }
    ensures { IfOk result (λ _. AllByRecursion (λ row.
        (found : Answer) × F.post answer alloc row.0 (Ok found) × IsTrue (Answer.eq found row.1))
        table.now) }
{
    for (input, expected) in table {
        let found = answer(alloc, *input)?;
        check_at(*input, found, *expected)?;
    }
    Ok(())
}

/// Compares the text that a function answers to each input of a table.
pub fn check_texts<Input, F>(alloc: Global, answer: F, table: &[(Input, &str)]) -> Result<(), Fail>
where
    Input: Copy + Debug,
    F: Fn(Global, Input) -> Result<String, Fail>,
    requires { F.IsAlwaysCallable answer }
{
    for (input, expected) in table {
        let found = answer(alloc, *input)?;
        check_at(*input, found.as_str(), *expected)?;
    }
    Ok(())
}
