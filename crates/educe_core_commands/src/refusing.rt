//! How a rejection is shown.
ghost use Rattle.std.specs.Prelude.{◌≡◌, ◌≢◌, ◌≤◌, length, IfOk, IsCharBoundary, string_bytes};
ghost use Rattle.educe_tokens.specs.Message.{HasWords};
ghost use Rattle.educe_core_devices.specs.Devices.{change};
ghost use Rattle.educe_core_commands.specs.Commands.{Refuses, refusal_line};

use educe_core_devices::{Sink, Status, deliver};
use educe_tokens::{EduceError, Kind, SOURCE_LIMIT};
use std::alloc::{AllocError, Global};

/// The place and the message of a rejection, as a line.
fn show(alloc: Global, source: &str, error: &EduceError) -> Result<String, AllocError>
    requires limit { length source.now ≤ SOURCE_LIMIT }
    requires kind { error.now.kind ≢ Kind.Alloc }
    requires words { HasWords error.now.kind error.now.words }
    requires placed { IsCharBoundary source.now error.now.span.start }
    ensures { IfOk result (λ line. string_bytes line ≡ refusal_line source.now error.now) }
{
    let (line, column) = error.span.line_column(source);
    let message = error.message(alloc)?;
    format!(in alloc; "{line}:{column}: {message}\n")
}

/// Writes the line of a rejection of the source, unless the rejection is out of memory.
pub fn refuse<E: Sink>(alloc: Global, source: &str, error: EduceError, notes: &mut E) -> Status
    requires limit { length source.now ≤ SOURCE_LIMIT }
    requires words { HasWords error.kind error.words }
    requires placed { IsCharBoundary source.now error.span.start }
    ensures { Refuses (change (E.held notes.old) (E.held notes.new)
        (E.faults notes.old) (E.faults notes.new) (E.may_fail notes.old))
        source.now error result }
{
    if error.kind == Kind::Alloc {
        return Status::NoMemory;
    }
    match show(alloc, source, &error) {
        Ok(line) => deliver(notes, line.as_str(), Status::Refused(error)),
        Err(_) => Status::NoMemory,
    }
}
