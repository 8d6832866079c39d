//! Runs over devices in memory.
ghost use Rattle.std.specs.Prelude.{◌≤◌};

use educe_core::{MemorySink, MemorySource, Sink, Source, run};
use educe_tests::check_at;
use std::alloc::{AllocError, Global};
use std::test::Fail;

/// What a run answers and writes.
#[derive(Drop)]
pub struct Outcome {
    pub code: u8,
    pub text: MemorySink,
    pub notes: MemorySink,
}

/// The text that bytes are, or `no text`.
pub fn shown(bytes: &[u8]) -> &str {
    match str::from_utf8(bytes) {
        Ok(text) => text,
        Err(_) => "no text",
    }
}

/// The exit status of a run with these words.
pub fn run_words<S: Source + Drop, K: Sink, E: Sink>(
    alloc: Global,
    words: &[&str],
    source: Result<S, AllocError>,
    sink: &mut K,
    notes: &mut E,
) -> Result<u8, AllocError> {
    let mut source = source?;
    let mut owned = Vec::new(alloc);
    for word in words {
        owned.push(String::from_str(alloc, *word)?)?;
    }
    Ok(run(alloc, &owned, &mut source, sink, notes).code())
}

/// A run with these words over devices of which the calls of these numbers fail, and what it answers.
#[derive(Clone, Copy)]
pub struct Case<'a> {
    pub words: &'a [&'a str],
    pub input: &'a [u8],
    pub failing_reads: &'a [u32],
    pub failing_writes: &'a [u32],
    pub failing_notes: &'a [u32],
    pub code: u8,
    pub text: &'a str,
    pub notes: &'a str,
}

impl<'a> Case<'a> {
    /// The run of `expand` in which no call fails.
    pub fn of(input: &'a [u8], code: u8, text: &'a str, notes: &'a str) -> Case<'a> {
        Case {
            words: &["expand"],
            input,
            failing_reads: &[],
            failing_writes: &[],
            failing_notes: &[],
            code,
            text,
            notes,
        }
    }

    /// The exit status of the run, whose reads take at most ten bytes.
    fn exit_code(
        &self,
        alloc: Global,
        text: &mut MemorySink,
        notes: &mut MemorySink,
    ) -> Result<u8, AllocError> {
        let source = MemorySource::new(alloc, self.input, 10, self.failing_reads);
        run_words(alloc, self.words, source, text, notes)
    }

    /// The run over devices whose calls move at most ten bytes.
    pub fn outcome(&self, alloc: Global) -> Result<Outcome, AllocError> {
        let mut text = MemorySink::new(alloc, 10, self.failing_writes)?;
        let mut notes = MemorySink::new(alloc, 10, self.failing_notes)?;
        let code = self.exit_code(alloc, &mut text, &mut notes)?;
        Ok(Outcome { code, text, notes })
    }

    /// The run answers so.
    pub fn check(&self, alloc: Global) -> Result<(), Fail> {
        let found = self.outcome(alloc)?;
        let input = shown(self.input);
        check_at(input, found.code, self.code)?;
        check_at(input, shown(found.text.bytes()), self.text)?;
        check_at(input, shown(found.notes.bytes()), self.notes)
    }
}
