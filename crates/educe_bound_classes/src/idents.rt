//! Ordered sets of texts.
ghost use Rattle.std.specs.Prelude.{◌≡◌, [], ◌∷◌, OnOk, OnErr, chars};
ghost use Rattle.std.specs.List.{AllByRecursion};
ghost use Rattle.std.specs.Str.{IsUtf8};
ghost use Rattle.educe_bound_classes.specs.Texts.{texts_of, has_text, AddsTexts};

use educe_tokens::Spelling;
use std::alloc::{AllocError, Global};
use std::collections::BTreeSet;
use std::marker::Model;

/// An ordered set of borrowed texts. A contract sees the texts as a list.
#[derive(Drop)]
pub struct IdentSet<'a> {
    texts: BTreeSet<&'a str>,
}

impl<'a> Model for IdentSet<'a> {
    ghost use Rattle.std.specs.Prelude.{ℕ, List};
    ghost use Rattle.std.specs.List.{AllByRecursion};
    ghost use Rattle.std.specs.Str.{IsUtf8};
    ghost use Rattle.educe_bound_classes.specs.Texts.{texts_of};

    ghost Value = { List (List ℕ) };

    ghost view = { λ set. texts_of set.texts.keys };

    ghost invariant = { λ set. AllByRecursion (λ text. IsUtf8 text.now) set.texts.keys };
}

impl<'a> IdentSet<'a> {
    /// The empty set. It takes no memory.
    pub fn new(alloc: Global) -> Self
        ensures { result ≡ [] }
    {
        IdentSet {
            texts: BTreeSet::new(alloc),
        }
    }

    /// Whether the text is in the set.
    pub fn contains(&self, text: &str) -> bool
        ensures { result ≡ has_text self.now (chars text.now) }
    {
        self.texts.contains(text)
    }

    /// The texts.
    pub(crate) fn texts(&self) -> &BTreeSet<&'a str>
        ensures same { texts_of result.now.keys ≡ self.now }
        ensures utf8 { AllByRecursion (λ text. IsUtf8 text.now) result.now.keys }
    {
        &self.texts
    }

    /// Adds a text.
    pub(crate) fn insert(&mut self, text: &'a Spelling) -> Result<(), AllocError>
        ensures ok { OnOk result (AddsTexts (text.now ∷ []) self.old self.new) }
        ensures err { OnErr result (self.new ≡ self.old) }
    {
        self.texts.insert(text.as_str())?;
        Ok(())
    }
}
