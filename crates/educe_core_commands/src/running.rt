//! How a command is run: its input is read or given, and its output or a note is written.
ghost use Rattle.std.specs.Prelude.{◌≡◌, ◌≤◌, ℕ, List, length};
ghost use Rattle.educe_core_devices.specs.Devices.{TakesAtMost, change};
ghost use Rattle.educe_core_commands.specs.Commands.{Answers, AnswersInput, IsWithinLimit, read, given};

use crate::command::Command;
use crate::refusing::refuse;
use educe_core_devices::{Sink, Source, Status, Stopped, deliver, read_input};
use educe_tokens::SOURCE_LIMIT;
use std::alloc::Global;

/// The note on an input past the limit.
const TOO_LONG: &str = "the input is longer than 131072 bytes\n";

/// The note on an input that is no text.
const NOT_UTF8: &str = "the input is not UTF-8\n";

/// Writes what the command answers to an input.
fn answer<C: Command, K: Sink, E: Sink>(
    alloc: Global,
    command: &C,
    input: &str,
    sink: &mut K,
    notes: &mut E,
) -> Status
    requires { length input.now ≤ 131_072 }
    ensures { AnswersInput (C.meaning command.now) input.now
        (change (K.held sink.old) (K.held sink.new)
        (K.faults sink.old) (K.faults sink.new) (K.may_fail sink.old))
        (change (E.held notes.old) (E.held notes.new)
        (E.faults notes.old) (E.faults notes.new) (E.may_fail notes.old)) result }
{
    match command.output(alloc, input) {
        Ok(text) => deliver(sink, text.as_str(), Status::Done),
        Err(error) => refuse(alloc, input, error, notes),
    }
}

/// Reads the input, and writes what the command answers to it, or a note.
fn read_and_answer<C: Command, S: Source, K: Sink, E: Sink>(
    alloc: Global,
    command: &C,
    source: &mut S,
    sink: &mut K,
    notes: &mut E,
) -> Status
    requires { (C.meaning command.now).origin ≡ read }
    ensures answer { Answers (C.meaning command.now)
        (change (S.left source.old) (S.left source.new)
        (S.faults source.old) (S.faults source.new) (S.may_fail source.old))
        (change (K.held sink.old) (K.held sink.new)
        (K.faults sink.old) (K.faults sink.new) (K.may_fail sink.old))
        (change (E.held notes.old) (E.held notes.new)
        (E.faults notes.old) (E.faults notes.new) (E.may_fail notes.old)) result }
    ensures most { TakesAtMost 131_073 (S.left source.old) (S.left source.new) }
{
    let input = match read_input(alloc, source) {
        Ok(input) => input,
        Err(Stopped::Failed) => return Status::ReadFault,
        Err(Stopped::NoMemory) => return Status::NoMemory,
    };
    if input.len() > SOURCE_LIMIT {
        return deliver(notes, TOO_LONG, Status::TooLong);
    }
    let Ok(text) = str::from_utf8(&input) else {
        return deliver(notes, NOT_UTF8, Status::NotUtf8);
    };
    answer(alloc, command, text, sink, notes)
}

/// Runs a command: its input is what the words have, or what is read, and its output or a note is
/// written. An input past the limit is read up to its first byte that is too many.
pub fn run_command<C: Command, S: Source, K: Sink, E: Sink>(
    alloc: Global,
    command: &C,
    source: &mut S,
    sink: &mut K,
    notes: &mut E,
) -> Status
    requires { IsWithinLimit (C.meaning command.now).origin }
    ensures answer { Answers (C.meaning command.now)
        (change (S.left source.old) (S.left source.new)
        (S.faults source.old) (S.faults source.new) (S.may_fail source.old))
        (change (K.held sink.old) (K.held sink.new)
        (K.faults sink.old) (K.faults sink.new) (K.may_fail sink.old))
        (change (E.held notes.old) (E.held notes.new)
        (E.faults notes.old) (E.faults notes.new) (E.may_fail notes.old)) result }
    ensures most { TakesAtMost 131_073 (S.left source.old) (S.left source.new) }
    // The source is not touched where the words have the input.
    ensures untouched { (text : List ℕ) → (C.meaning command.now).origin ≡ given text →
        (S.left source.new ≡ S.left source.old) × (S.faults source.new ≡ S.faults source.old) }
{
    match command.given(alloc) {
        Ok(Some(text)) => answer(alloc, command, text.as_str(), sink, notes),
        Ok(None) => read_and_answer(alloc, command, source, sink, notes),
        Err(_) => Status::NoMemory,
    }
}
