//! The program as a function of its words and devices.
ghost use Rattle.std.specs.Prelude.{◌≡◌, ◌≢◌, ◌⊎◌, ◌<◌, ◌≤◌, ℕ, List, map, length, string_bytes, IsTrue, IsUtf8, IfSome};
ghost use Rattle.educe_core_devices.specs.Devices.{Rose, TakesAtMost, change};
ghost use Rattle.educe_core_devices.specs.Status.{IsUnlessStopped};
ghost use Rattle.educe_core_commands.specs.Commands.{RunAnswers, OfInput, read, given};
ghost use Rattle.educe_core.specs.Spoken.{IsSpoken, meaning, usage_line};

use crate::spoken::{Spoken, command_of};
use educe_core_commands::run_command;
use educe_core_devices::{Sink, Source, Status, deliver};
use educe_tokens::{EduceError, Kind};
use std::alloc::Global;

/// The note on words that are no command.
const USAGE: &str = "usage: educe expand | educe sample N\n";

/// Runs the command that the words are, or notes how the program is called.
fn run_words<S: Source, K: Sink, E: Sink>(
    alloc: Global,
    words: &Vec<String>,
    source: &mut S,
    sink: &mut K,
    notes: &mut E,
) -> Status
    ensures answer { RunAnswers IsSpoken meaning usage_line (map string_bytes words.now.items)
        (change (S.left source.old) (S.left source.new)
        (S.faults source.old) (S.faults source.new) (S.may_fail source.old))
        (change (K.held sink.old) (K.held sink.new)
        (K.faults sink.old) (K.faults sink.new) (K.may_fail sink.old))
        (change (E.held notes.old) (E.held notes.new)
        (E.faults notes.old) (E.faults notes.new) (E.may_fail notes.old)) result }
    ensures most { TakesAtMost 131_073 (S.left source.old) (S.left source.new) }
    ensures untouched { (c : Spoken) (text : List ℕ) → IsSpoken c (map string_bytes words.now.items) →
        (meaning c).origin ≡ given text →
        (S.left source.new ≡ S.left source.old) × (S.faults source.new ≡ S.faults source.old) }
{
    match command_of(words) {
        Some(command) => run_command(alloc, &command, source, sink, notes),
        None => deliver(notes, USAGE, Status::Usage),
    }
}

/// Runs the program: the words exclude its name, notes are for the user. Words that are no command
/// answer `Usage`; `sample` makes its input from its number, and the other commands read theirs.
pub fn run<S: Source, K: Sink, E: Sink>(
    alloc: Global,
    words: &Vec<String>,
    source: &mut S,
    sink: &mut K,
    notes: &mut E,
) -> Status
    // When each answer comes, and what the sink and the notes gain.
    ensures answer { RunAnswers IsSpoken meaning usage_line (map string_bytes words.now.items)
        (change (S.left source.old) (S.left source.new)
        (S.faults source.old) (S.faults source.new) (S.may_fail source.old))
        (change (K.held sink.old) (K.held sink.new)
        (K.faults sink.old) (K.faults sink.new) (K.may_fail sink.old))
        (change (E.held notes.old) (E.held notes.new)
        (E.faults notes.old) (E.faults notes.new) (E.may_fail notes.old)) result }
    // Where a condition holds, no other answer comes but a fault or out of memory.
    ensures usage { ((c : Spoken) → IsSpoken c (map string_bytes words.now.items) → ⊥) →
        IsUnlessStopped Status.Usage result }
    ensures too_long { (c : Spoken) → IsSpoken c (map string_bytes words.now.items) →
        (meaning c).origin ≡ read → IfSome (S.left source.old) (λ input.
        131_072 < length input → IsUnlessStopped Status.TooLong result) }
    ensures not_utf8 { (c : Spoken) → IsSpoken c (map string_bytes words.now.items) →
        (meaning c).origin ≡ read → IfSome (S.left source.old) (λ input.
        length input ≤ 131_072 → ¬ (IsUtf8 input) → IsUnlessStopped Status.NotUtf8 result) }
    ensures valid { (c : Spoken) → IsSpoken c (map string_bytes words.now.items) →
        OfInput (meaning c).origin (S.left source.old) (λ input.
        (meaning c).IsValid input → IsUnlessStopped Status.Done result) }
    ensures caused { (c : Spoken) → IsSpoken c (map string_bytes words.now.items) →
        OfInput (meaning c).origin (S.left source.old) (λ input.
        (e : EduceError) → e.kind ≢ Kind.Alloc → (meaning c).IsCause input e → result ≢ Status.Done) }
    // A fault is the answer only where a device failed that might, and wherever its count is
    // greater after the run.
    ensures read_fault { result ≡ Status.ReadFault →
        Rose (S.faults source.old) (S.faults source.new) × IsTrue (S.may_fail source.old) }
    ensures source_faults { S.faults source.old < S.faults source.new →
        result ≡ Status.ReadFault }
    ensures write_fault { result ≡ Status.WriteFault →
        (Rose (K.faults sink.old) (K.faults sink.new) × IsTrue (K.may_fail sink.old))
        ⊎ (Rose (E.faults notes.old) (E.faults notes.new) × IsTrue (E.may_fail notes.old)) }
    ensures sink_faults { K.faults sink.old < K.faults sink.new → result ≡ Status.WriteFault }
    ensures notes_faults { E.faults notes.old < E.faults notes.new → result ≡ Status.WriteFault }
    ensures most { TakesAtMost 131_073 (S.left source.old) (S.left source.new) }
    // A command whose words have its input leaves the source alone.
    ensures untouched { (c : Spoken) (text : List ℕ) → IsSpoken c (map string_bytes words.now.items) →
        (meaning c).origin ≡ given text →
        (S.left source.new ≡ S.left source.old) × (S.faults source.new ≡ S.faults source.old) }
{
    run_words(alloc, words, source, sink, notes)
}
