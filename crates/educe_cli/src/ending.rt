//! The program over its arguments and devices, and the exit status that it ends with.
ghost use Rattle.std.specs.Prelude.{◌≡◌, map, drop, string_bytes, IfOk, IsErr, MatchResult};
ghost use Rattle.std.specs.Process.{exit_status};
ghost use Rattle.std.specs.Vec.Iter.{into_iter_items};
ghost use Rattle.educe_core.specs.Devices.{change};
ghost use Rattle.educe_cli.specs.Ending.{EndsAsRun, EndsUnrun};

use educe_core::{Sink, Source, Status, run};
use std::alloc::{AllocError, Global};
use std::env::Args;
use std::io;
use std::io::Eprint;
use std::process::{ExitCode, Termination};

/// The exit status where the arguments can't be taken.
const NO_ARGUMENTS: u8 = 8;

/// How the program ends. Only `run_program` makes one, so `main` answers no other status.
#[derive(Drop)]
pub struct Ending {
    status: u8,
}

impl Termination for Ending {
    fn report<R: Eprint>(self, _rt: &R) -> ExitCode
        ensures { exit_status result ≡ self.status }
    {
        ExitCode::from(self.status)
    }
}

/// The words behind the program's name, which is the first argument.
fn words(alloc: Global, arguments: Args) -> Result<Vec<String>, AllocError>
    ensures { IfOk result (λ words. words.items ≡ drop 1 (into_iter_items arguments)) }
{
    arguments.skip(1).collect(alloc)
}

/// Runs the program over its arguments and devices, and ends with the status of the answer. Where
/// the arguments can't be taken, it ends with 8 and touches no device.
pub fn run_program<S: Source, K: Sink, E: Sink>(
    alloc: Global,
    arguments: io::Result<Args>,
    source: &mut S,
    sink: &mut K,
    notes: &mut E,
) -> Ending
    ensures ended { let reading = change (S.left source.old) (S.left source.new)
        (S.faults source.old) (S.faults source.new) (S.may_fail source.old) in
        let writing = change (K.held sink.old) (K.held sink.new)
        (K.faults sink.old) (K.faults sink.new) (K.may_fail sink.old) in
        let noting = change (E.held notes.old) (E.held notes.new)
        (E.faults notes.old) (E.faults notes.new) (E.may_fail notes.old) in
        MatchResult arguments
        (λ all. EndsAsRun (map string_bytes (drop 1 (into_iter_items all)))
        reading writing noting result.status)
        (λ _. EndsUnrun reading writing noting result.status) }
    ensures unrun { IsErr arguments → result.status ≡ 8 }
{
    let Ok(arguments) = arguments else {
        return Ending {
            status: NO_ARGUMENTS,
        };
    };
    let Ok(words) = words(alloc, arguments) else {
        return Ending {
            status: Status::NoMemory.code(),
        };
    };
    let status = run(alloc, &words, source, sink, notes);
    Ending {
        status: status.code(),
    }
}

#[cfg(test)]
mod tests {
    use super::*;
    use crate::adapters::failing::{FailingReader, FailingWriter};
    use crate::adapters::{Reading, Writing};
    use educe_core::{MemorySink, MemorySource};
    use std::test::Fail;

    /// A definition that is expanded.
    const DEFINITION: &[u8] = b"#[educe(PartialEq)] struct S { a: u8 }";

    /// A definition that is rejected.
    const REFUSED: &[u8] = b"#[educe] struct S;";

    /// The lines that say why.
    const REFUSAL: &[u8] =
        b"1:3: you are using an incorrect format of the `educe` attribute, which should be reformatted as follows:\n    #[educe(Trait1, Trait2, ..., TraitN)]\n";

    /// How the program is called.
    const USAGE: &[u8] = b"usage: educe expand | educe sample N\n";

    /// The arguments of a call with these words.
    fn arguments_of(alloc: Global, words: &[&str]) -> Result<Args, AllocError> {
        let mut arguments = Vec::new(alloc);
        arguments.push(String::from_str(alloc, "educe")?)?;
        for word in words {
            arguments.push(String::from_str(alloc, *word)?)?;
        }
        Ok(arguments.into_iter())
    }

    /// The arguments of the command `expand`.
    fn arguments(alloc: Global) -> Result<Args, AllocError> {
        arguments_of(alloc, &["expand"])
    }

    /// How the program ends over a definition that is rejected.
    fn ending(
        alloc: Global,
        arguments: io::Result<Args>,
        text: &mut MemorySink,
        notes: &mut MemorySink,
    ) -> Result<Ending, AllocError> {
        let mut source = MemorySource::new(alloc, REFUSED, 10, &[])?;
        Ok(run_program(alloc, arguments, &mut source, text, notes))
    }

    #[test]
    fn the_status_is_that_of_the_run(rt: HostRuntime) -> Result<(), Fail> {
        let alloc = rt.alloc();
        let mut text = MemorySink::new(alloc, 10, &[])?;
        let mut notes = MemorySink::new(alloc, 10, &[])?;
        let found = ending(alloc, Ok(arguments(alloc)?), &mut text, &mut notes)?;
        assert_eq!(rt; found.status, 1);
        assert_eq!(rt; text.bytes(), b"".as_slice());
        assert_eq!(rt; notes.bytes(), REFUSAL);
        Ok(())
    }

    /// How a call with these words ends, and its notes.
    fn noted(alloc: Global, words: &[&str]) -> Result<(u8, MemorySink), AllocError> {
        let mut text = MemorySink::new(alloc, 100, &[])?;
        let mut notes = MemorySink::new(alloc, 100, &[])?;
        let arguments = Ok(arguments_of(alloc, words)?);
        let found = ending(alloc, arguments, &mut text, &mut notes)?;
        Ok((found.status, notes))
    }

    #[test]
    fn without_a_command_the_usage_is_a_note(rt: HostRuntime) -> Result<(), Fail> {
        let (status, notes) = noted(rt.alloc(), &[])?;
        assert_eq!(rt; status, 2);
        assert_eq!(rt; notes.bytes(), USAGE);
        Ok(())
    }

    #[test]
    fn a_request_for_help_shows_the_usage(rt: HostRuntime) -> Result<(), Fail> {
        let (status, notes) = noted(rt.alloc(), &["--help"])?;
        assert_eq!(rt; status, 2);
        assert_eq!(rt; notes.bytes(), USAGE);
        Ok(())
    }

    /// The status over a reader of which the call of this number fails, and a writer that does not.
    fn status_at(alloc: Global, failing: u64) -> Result<u8, AllocError> {
        let mut source = Reading::new(FailingReader::new(DEFINITION, failing));
        let mut text = MemorySink::new(alloc, 10, &[])?;
        let mut notes = MemorySink::new(alloc, 10, &[])?;
        let arguments = Ok(arguments(alloc)?);
        Ok(run_program(alloc, arguments, &mut source, &mut text, &mut notes).status)
    }

    #[test]
    fn a_failed_read_is_the_answer_where_the_reader_goes_on(rt: HostRuntime) -> Result<(), Fail> {
        assert_eq!(rt; status_at(rt.alloc(), 0)?, 3);
        assert_eq!(rt; status_at(rt.alloc(), 1)?, 3);
        assert_eq!(rt; status_at(rt.alloc(), 2)?, 0);
        Ok(())
    }

    #[test]
    fn a_failed_write_is_the_answer_where_the_writer_goes_on(rt: HostRuntime) -> Result<(), Fail> {
        let alloc = rt.alloc();
        let mut source = MemorySource::new(alloc, DEFINITION, 10, &[])?;
        let mut text = Writing::new(FailingWriter::new(Vec::new(alloc), 2));
        let mut notes = MemorySink::new(alloc, 10, &[])?;
        let arguments = Ok(arguments(alloc)?);
        let found = run_program(alloc, arguments, &mut source, &mut text, &mut notes);
        assert_eq!(rt; found.status, 4);
        Ok(())
    }

    #[test]
    fn a_refusal_goes_to_standard_error(rt: HostRuntime) -> Result<(), Fail> {
        let alloc = rt.alloc();
        let mut text = MemorySink::new(alloc, 10, &[])?;
        let mut notes: Writing<io::Stderr> = Writing::new(rt.stderr());
        let mut source = MemorySource::new(alloc, REFUSED, 10, &[])?;
        let arguments = Ok(arguments(alloc)?);
        let found = run_program(alloc, arguments, &mut source, &mut text, &mut notes);
        assert_eq!(rt; found.status, 1);
        assert_eq!(rt; text.bytes(), b"".as_slice());
        Ok(())
    }

    #[test]
    fn without_arguments_the_status_is_8(rt: HostRuntime) -> Result<(), Fail> {
        let alloc = rt.alloc();
        let mut text = MemorySink::new(alloc, 10, &[])?;
        let mut notes = MemorySink::new(alloc, 10, &[])?;
        let untaken = Err(io::Error::from(io::ErrorKind::InvalidData));
        let found = ending(alloc, untaken, &mut text, &mut notes)?;
        assert_eq!(rt; found.status, 8);
        assert_eq!(rt; found.report(&rt), ExitCode::from(8));
        Ok(())
    }
}
