//! The choice of the fewest `_` after which a name clashes with no word.
ghost use Rattle.std.specs.Prelude.{◌≡◌, ◌++◌, ℕ, ◌<◌, ◌≤◌, ◌^◌, ◌||◌, true, false, length, slice_index_or, IfOk};
ghost use Rattle.std.specs.List.{All};
ghost use Rattle.educe_names.specs.Chosen.{underscored, clash, IsFewest};

use crate::letters::{Letters, strip_first};
use std::alloc::{AllocError, Global};

/// How a word clashes with a text.
#[derive(Clone, Copy, Debug, PartialEq, Eq)]
pub enum Clash {
    /// The word is the text.
    Whole,
    /// The word begins with the text.
    Front,
}

/// The least number of `_` after which a name clashes with no word of two lists. Takes one pass over
/// the words.
pub fn fewest(
    alloc: Global,
    how: Clash,
    words: &[Letters],
    more: &[Letters],
    name: &[char],
) -> Result<usize, AllocError>
    ensures { IfOk result (IsFewest how (words.now ++ more.now) name.now) }
{
    let most = larger(longest(words), longest(more));
    let mut taken = vec![in alloc; false; most + 1]?;
    for word in words {
        mark(&mut taken, how, word.as_slice(), name);
    }
    for word in more {
        mark(&mut taken, how, word.as_slice(), name);
    }
    Ok(first_free(&taken))
}

/// The length of the longest word. A name behind more `_` clashes with none.
fn longest(words: &[Letters]) -> usize
    ensures all { All (λ word. length word ≤ result) words.now }
    ensures small { result < 2 ^ 63 }
{
    let mut most = 0;
    for word in words {
        most = larger(most, word.as_slice().len());
    }
    most
}

/// The larger of two numbers.
fn larger(a: usize, b: usize) -> usize
    ensures first { a ≤ result }
    ensures second { b ≤ result }
    ensures small { a < 2 ^ 63 → b < 2 ^ 63 → result < 2 ^ 63 }
{
    if a < b { b } else { a }
}

/// Marks each number of `_` behind which the name clashes with the word.
fn mark(taken: &mut [bool], how: Clash, word: &[char], name: &[char])
    ensures { (k : ℕ) → k < length taken.old → slice_index_or taken.new k false
        ≡ (slice_index_or taken.old k false || clash how word.now (underscored k name.now)) }
{
    let mut rest = word;
    for k in 0..taken.len() {
        taken[k] = clashes_or(taken[k], how, rest, name);
        match strip_first(rest, '_') {
            Some(more) => rest = more,
            None => return,
        }
    }
}

/// Whether a mark is set already, or the word clashes with the text.
fn clashes_or(set: bool, how: Clash, word: &[char], text: &[char]) -> bool
    ensures { result ≡ (set || clash how word.now text.now) }
{
    set || clashes(how, word, text)
}

/// Whether the word clashes with the text.
fn clashes(how: Clash, word: &[char], text: &[char]) -> bool
    ensures { result ≡ clash how word.now text.now }
{
    match how {
        Clash::Whole => word == text,
        Clash::Front => word.starts_with(text),
    }
}

/// The first place that is not marked, or else the place behind the last.
fn first_free(taken: &[bool]) -> usize
    ensures within { result ≤ length taken.now }
    ensures free { result < length taken.now → slice_index_or taken.now result false ≡ false }
    ensures least { (k : ℕ) → k < result → slice_index_or taken.now k false ≡ true }
{
    for (k, taken) in taken.iter().enumerate() {
        if !*taken {
            return k;
        }
    }
    taken.len()
}
