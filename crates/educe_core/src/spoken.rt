//! The commands of the program: the words of each, and what it writes.
ghost use Rattle.std.specs.Prelude.{◌≡◌, ◌≢◌, ◌<◌, ◌≤◌, ◌↔◌, [], ◌∷◌, length, slice_index, map, IsTrue, string_bytes, IfOk, IfErr, IsCharBoundary};
ghost use Rattle.educe_tokens.specs.Message.{HasWords};
ghost use Rattle.educe_core.specs.Headline.{IsCause, IsValid};
ghost use Rattle.educe_core.specs.Sample.{IsSampleLine};
ghost use Rattle.educe_core.specs.Spoken.{IsCount, IsSpokenBy, IsExpansionText};

use crate::expansion::expand;
use crate::sample::{sample_line, sample_text};
use educe_core_commands::Command;
use educe_tokens::{EduceError, Kind};
use std::alloc::{AllocError, Global};

/// A command of the program, as its words say it.
#[derive(Clone, Copy, Debug, PartialEq, Eq)]
pub enum Spoken {
    /// The impls of the definition that is read.
    Expand,
    /// A line about the impls of a definition with so many variants.
    Sample(u16),
}

/// Whether the first byte of a word is above that of the digit 0, so neither that digit nor a sign.
fn begins_above_zero(word: &str) -> bool
    ensures { IsTrue result ↔ (48 < slice_index word.now 0) }
{
    match word.as_bytes() {
        [first, ..] => *first > b'0',
        [] => false,
    }
}

/// The number from 1 to 1000 that a word is.
fn count_of(word: &str) -> Option<u16>
    ensures { IsCount word.now result }
{
    if !begins_above_zero(word) {
        return None;
    }
    match word.parse::<u16>() {
        Ok(count) if count <= 1000 => Some(count),
        _ => None,
    }
}

/// The command that one word is.
fn command_of_one(word: &str) -> Option<Spoken>
    ensures { IsSpokenBy (word.now ∷ []) result }
{
    if word == "expand" {
        Some(Spoken::Expand)
    } else {
        None
    }
}

/// The command that two words are.
fn command_of_two(word: &str, number: &str) -> Option<Spoken>
    ensures { IsSpokenBy (word.now ∷ number.now ∷ []) result }
{
    if word != "sample" {
        return None;
    }
    match count_of(number) {
        Some(count) => Some(Spoken::Sample(count)),
        None => None,
    }
}

/// The command that the words are. It takes no memory.
pub fn command_of(words: &[String]) -> Option<Spoken>
    ensures { IsSpokenBy (map string_bytes words.now) result }
{
    match words {
        [word] => command_of_one(word.as_str()),
        [word, number] => command_of_two(word.as_str(), number.as_str()),
        _ => None,
    }
}

/// The text of the impls of a definition.
fn expanded_text(alloc: Global, input: &str) -> Result<String, EduceError>
    requires { length input.now ≤ 131_072 }
    ensures done { IfOk result (λ text. IsExpansionText input.now (string_bytes text)) }
    ensures cause { IfErr result (IsCause input.now) }
    ensures valid { IsValid input.now → IfErr result (λ e. e.kind ≡ Kind.Alloc) }
    ensures invalid { IfOk result (λ _. (e : EduceError) → e.kind ≢ Kind.Alloc → IsCause input.now e → ⊥) }
    ensures words { IfErr result (λ e. HasWords e.kind e.words) }
    ensures placed { IfErr result (λ e. IsCharBoundary input.now e.span.start) }
{
    match expand(alloc, input) {
        Ok(expansion) => Ok(expansion.into_text()),
        Err(error) => Err(error),
    }
}

/// The line about the impls of a definition.
fn sampled_line(alloc: Global, count: u16, input: &str) -> Result<String, EduceError>
    requires { length input.now ≤ 131_072 }
    ensures done { IfOk result (λ line. IsSampleLine count input.now (string_bytes line)) }
    ensures cause { IfErr result (IsCause input.now) }
    ensures valid { IsValid input.now → IfErr result (λ e. e.kind ≡ Kind.Alloc) }
    ensures invalid { IfOk result (λ _. (e : EduceError) → e.kind ≢ Kind.Alloc → IsCause input.now e → ⊥) }
    ensures words { IfErr result (λ e. HasWords e.kind e.words) }
    ensures placed { IfErr result (λ e. IsCharBoundary input.now e.span.start) }
{
    match expand(alloc, input) {
        Ok(expansion) => match sample_line(alloc, count, input, &expansion) {
            Ok(line) => Ok(line),
            Err(_) => Err(EduceError::alloc(alloc)),
        },
        Err(error) => Err(error),
    }
}

impl Command for Spoken {
    ghost use Rattle.educe_core.specs.Spoken.{meaning};

    ghost meaning = { meaning };

    fn given(&self, alloc: Global) -> Result<Option<String>, AllocError> {
        match self {
            Spoken::Expand => Ok(None),
            Spoken::Sample(count) => match sample_text(alloc, *count) {
                Ok(text) => Ok(Some(text)),
                Err(error) => Err(error),
            },
        }
    }

    fn output(&self, alloc: Global, input: &str) -> Result<String, EduceError> {
        match self {
            Spoken::Expand => expanded_text(alloc, input),
            Spoken::Sample(count) => sampled_line(alloc, *count, input),
        }
    }
}
