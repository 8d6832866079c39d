//! Worked examples of inputs past the limit or not UTF-8, and of devices that fail.

use crate::program::{Case, run_words, shown};
use educe_core::{MemorySink, MemorySource};
use educe_tests::check_at;
use std::alloc::Global;
use std::test::Fail;

/// A struct of one field.
const DEFINITION: &[u8] = b"#[educe(PartialEq)] struct S { a: u8 }";

/// What a struct of one field is expanded to.
const ONE_FIELD: &str =
    "# [ automatically_derived ] impl :: core :: cmp :: PartialEq for S { fn eq ( & self , other : & Self ) -> :: core :: primitive :: bool { if :: core :: cmp :: PartialEq :: ne ( & self . a , & other . a ) { return false ; } true } }\n";

/// The note on an input past the limit.
const TOO_LONG: &str = "the input is longer than 131072 bytes\n";

/// The run over so many blanks, and a source of which the call of this number fails, if it comes.
fn check_blanks(alloc: Global, count: usize, call: u32, code: u8, notes: &str) -> Result<(), Fail> {
    let spaces = vec![in alloc; b' '; count]?;
    let failing = [call];
    let case = Case {
        failing_reads: &failing,
        ..Case::of(&spaces, code, "", notes)
    };
    case.check(alloc)
}

#[test]
fn blanks_up_to_the_limit_are_no_definition(rt: HostRuntime) -> Result<(), Fail> {
    let alloc = rt.alloc();
    check_blanks(alloc, 131_072, 13_108, 3, "")?;
    check_blanks(alloc, 131_072, 13_109, 1, "1:1: syntax error\n")
}

#[test]
fn a_byte_too_many_is_too_long_and_no_other_is_read(rt: HostRuntime) -> Result<(), Fail> {
    let alloc = rt.alloc();
    check_blanks(alloc, 131_073, 13_107, 3, "")?;
    check_blanks(alloc, 131_073, 13_108, 5, TOO_LONG)?;
    check_blanks(alloc, 140_000, 13_108, 5, TOO_LONG)
}

#[test]
fn the_byte_ff_is_not_utf8(rt: HostRuntime) -> Result<(), Fail> {
    Case::of(b"\xff", 6, "", "the input is not UTF-8\n").check(rt.alloc())
}

/// The run over a source of which the call of this number fails: nothing is written.
fn check_read(alloc: Global, input: &[u8], call: u32) -> Result<(), Fail> {
    let failing = [call];
    let case = Case {
        failing_reads: &failing,
        ..Case::of(input, 3, "", "")
    };
    case.check(alloc)
}

#[test]
fn a_failed_read_is_no_end(rt: HostRuntime) -> Result<(), Fail> {
    let alloc = rt.alloc();
    for call in 0..5 {
        check_read(alloc, DEFINITION, call)?;
    }
    for call in 0..2 {
        check_read(alloc, b"\xff", call)?;
    }
    check_read(alloc, b"", 0)
}

#[test]
fn no_read_comes_behind_the_one_that_finds_the_end(rt: HostRuntime) -> Result<(), Fail> {
    let behind = Case {
        failing_reads: &[5],
        ..Case::of(DEFINITION, 0, ONE_FIELD, "")
    };
    behind.check(rt.alloc())
}

/// The front of a text that the calls before one of this number write, which move ten bytes each.
fn front(text: &str, call: u32) -> Result<&str, Fail> {
    let end = (call as usize).saturating_mul(10);
    Ok(shown(text.as_bytes().get(..end).ok_or(text)?))
}

/// The run with these words over a sink of which the call of this number fails: it holds what came before.
fn check_write<'a>(
    alloc: Global,
    words: &'a [&'a str],
    input: &'a [u8],
    text: &'a str,
    call: u32,
) -> Result<(), Fail> {
    let failing = [call];
    let case = Case {
        words,
        failing_writes: &failing,
        ..Case::of(input, 4, front(text, call)?, "")
    };
    case.check(alloc)
}

/// The run with these words, which writes a text in so many calls, over sinks of which each call fails in turn,
/// and then the one behind the last, which does not come.
pub(crate) fn check_writes<'a>(
    alloc: Global,
    words: &'a [&'a str],
    input: &'a [u8],
    text: &'a str,
    count: u32,
) -> Result<(), Fail> {
    for call in 0..count {
        check_write(alloc, words, input, text, call)?;
    }
    let failing = [count];
    let case = Case {
        words,
        failing_writes: &failing,
        ..Case::of(input, 0, text, "")
    };
    case.check(alloc)
}

#[test]
fn a_failed_write_is_a_fault(rt: HostRuntime) -> Result<(), Fail> {
    check_writes(rt.alloc(), &["expand"], DEFINITION, ONE_FIELD, 24)
}

/// The run with these words over notes of which the call of this number fails: they hold what came before.
fn check_note<'a>(
    alloc: Global,
    words: &'a [&'a str],
    input: &'a [u8],
    notes: &'a str,
    call: u32,
) -> Result<(), Fail> {
    let failing = [call];
    let case = Case {
        words,
        failing_notes: &failing,
        ..Case::of(input, 4, "", front(notes, call)?)
    };
    case.check(alloc)
}

/// The run with these words, whose notes are written in so many calls, of which each fails in turn.
fn check_notes<'a>(
    alloc: Global,
    words: &'a [&'a str],
    input: &'a [u8],
    notes: &'a str,
    count: u32,
) -> Result<(), Fail> {
    for call in 0..count {
        check_note(alloc, words, input, notes, call)?;
    }
    Ok(())
}

#[test]
fn a_failed_note_is_a_fault(rt: HostRuntime) -> Result<(), Fail> {
    let alloc = rt.alloc();
    let expand = ["expand"];
    let usage = "usage: educe expand | educe sample N\n";
    check_notes(alloc, &["expnd"], b"", usage, 4)?;
    check_notes(alloc, &["sample", "0"], b"", usage, 4)?;
    check_notes(alloc, &expand, b"", "1:1: syntax error\n", 2)?;
    check_notes(alloc, &expand, b"\xff", "the input is not UTF-8\n", 3)?;
    let spaces = vec![in alloc; b' '; 131_073]?;
    check_notes(alloc, &expand, &spaces, TOO_LONG, 4)
}

#[test]
fn notes_of_four_bytes_hold_what_came_before_a_fault(rt: HostRuntime) -> Result<(), Fail> {
    let alloc = rt.alloc();
    let source = MemorySource::new(alloc, b"", 10, &[]);
    let mut text = MemorySink::new(alloc, 10, &[])?;
    let mut notes = MemorySink::new(alloc, 4, &[1])?;
    let code = run_words(alloc, &["expand"], source, &mut text, &mut notes)?;
    check_at("code", code, 4)?;
    check_at("text", shown(text.bytes()), "")?;
    check_at("notes", shown(notes.bytes()), "1:1:")
}
