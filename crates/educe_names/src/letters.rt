//! Texts as lists of characters.
ghost use Rattle.std.specs.Prelude.{◌≡◌, ◌∷◌, IfOk, IfSome, IfNone, chars};

use std::alloc::{AllocError, Global};
use std::marker::Model;

/// The characters of a text, which contracts see as a list.
#[derive(Drop)]
pub struct Letters {
    items: Vec<char>,
}

impl Model for Letters {
    ghost use Rattle.std.specs.Prelude.{ℕ, List};

    ghost Value = { List ℕ };

    ghost view = { λ letters. letters.items.items };
}

impl Letters {
    /// The text of these characters.
    pub fn new(items: Vec<char>) -> Letters
        ensures { result ≡ items.items }
    {
        Letters { items }
    }

    /// The characters of a text.
    pub fn from_str(alloc: Global, text: &str) -> Result<Letters, AllocError>
        ensures { IfOk result (λ letters. letters ≡ chars text.now) }
    {
        let items: Vec<char> = text.chars().collect(alloc)?;
        Ok(Letters { items })
    }

    /// A copy of characters.
    pub fn from_slice(alloc: Global, letters: &[char]) -> Result<Letters, AllocError>
        ensures { IfOk result (λ copy. copy ≡ letters.now) }
    {
        let items = letters.to_vec(alloc)?;
        Ok(Letters { items })
    }

    /// The characters as a slice.
    pub fn as_slice(&self) -> &[char]
        ensures { result.now ≡ self.now }
    {
        self.items.as_slice()
    }
}

/// The rest of the characters after the first, where that is the given one.
pub fn strip_first(letters: &[char], first: char) -> Option<&[char]>
    ensures some { IfSome result (λ rest. letters.now ≡ first ∷ rest.now) }
    ensures none { IfNone result ((rest : _) → ¬ (letters.now ≡ first ∷ rest)) }
{
    match letters {
        [own, rest @ ..] if *own == first => Some(rest),
        _ => None,
    }
}
