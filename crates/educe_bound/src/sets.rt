//! Sets of predicates.
ghost use Rattle.std.specs.Prelude.{◌≡◌, [], IfOk, OnOk, OnErr};
ghost use Rattle.educe_tokens.specs.Prefix.{HasPrefix};
ghost use Rattle.educe_bound_classes.specs.Deriving.{AreDistinct, Extends, Has};
ghost use Rattle.educe_bound.specs.Predicates.{key_of, keys_of, AreRead};
ghost use Rattle.educe_bound.specs.Sets as spec;

use educe_syntax::{Duplicate, Predicates, WherePredicate};
use educe_tokens::{Numbers, Seq};
use educe_tokens_interner::{Interner, Keyed};
use std::alloc::{AllocError, Global};
use std::marker::Model;

/// Predicates in the order in which they were inserted, no two of equal tokens: spans and jointness make
/// no difference (documentation of `educe`, Bounds). A contract sees the list.
#[derive(Drop)]
pub struct PredicateSet {
    alloc: Global,
    interner: Interner,
    list: Predicates,
    numbers: Numbers,
}

impl Model for PredicateSet {
    ghost use Rattle.std.specs.Prelude.{◌≡◌, List};
    ghost use Rattle.educe_syntax.specs.WherePredicate.{WherePredicate};
    ghost use Rattle.educe_bound_classes.specs.Deriving.{AreDistinct};
    ghost use Rattle.educe_bound.specs.Predicates.{keys_of};
    ghost use Rattle.educe_bound.specs.Sets.{tokens_of, places};

    ghost Value = { List WherePredicate };

    ghost view = { λ set. set.list };

    ghost invariant = { λ set. (set.interner ≡ tokens_of set.list) × (set.numbers ≡ places set.list) × AreDistinct (keys_of set.list) };
}

impl PredicateSet {
    /// The set without predicates. It takes no memory.
    pub fn new(alloc: Global) -> PredicateSet
        ensures { result ≡ [] }
    {
        PredicateSet {
            alloc,
            interner: Interner::new(alloc),
            list: Seq::new(alloc),
            numbers: Seq::new(alloc),
        }
    }

    /// The predicates, lent.
    pub fn list(&self) -> &Predicates
        ensures list { result.now ≡ self.now }
        ensures distinct { AreDistinct (keys_of result.now) }
    {
        &self.list
    }

    /// The number of each predicate, in their order: its place, since none is there twice.
    pub fn numbers(&self) -> &Numbers
        ensures { result.now ≡ spec.places self.now }
    {
        &self.numbers
    }

    /// The predicates, by value.
    pub fn into_list(self) -> Predicates
        ensures list { result ≡ self }
        ensures distinct { AreDistinct (keys_of result) }
    {
        self.list
    }

    /// Inserts a predicate: true if no equal one was there, and then it is the last. Where memory fails,
    /// nothing changes.
    pub fn insert(&mut self, predicate: &WherePredicate) -> Result<bool, AllocError>
        ensures ok { IfOk result (λ new. spec.Inserts self.old predicate.now new self.new) }
        ensures err { OnErr result (self.new ≡ self.old) }
    {
        let tokens = Keyed::new(self.alloc, predicate.written.tokens().as_slice())?;
        match self.interner.find_keyed(&tokens) {
            Some(_) => Ok(false),
            None => self.add(predicate, tokens),
        }
    }

    /// Adds a predicate that is not there yet, whose tokens these are.
    fn add(&mut self, predicate: &WherePredicate, tokens: Keyed<'_>) -> Result<bool, AllocError>
        requires new { Has (keys_of self.old) (key_of predicate.now) → ⊥ }
        requires tokens { tokens ≡ predicate.now.written.tokens }
        ensures ok { IfOk result (λ new. spec.Inserts self.old predicate.now new self.new) }
        ensures err { OnErr result (self.new ≡ self.old) }
    {
        let place = self.list.len();
        let copy = predicate.duplicate(self.alloc)?;
        self.numbers.push(place)?;
        match self.list.push(copy) {
            Ok(_) => match self.interner.add(tokens) {
                Ok(_) => Ok(true),
                Err(_) => {
                    self.numbers.pop();
                    self.list.pop();
                    Err(AllocError)
                }
            },
            Err(_) => {
                self.numbers.pop();
                Err(AllocError)
            }
        }
    }
}

/// Inserts the predicates one after the other: those that are not there yet are appended. Where memory
/// fails, what was there is a prefix of what is there.
pub fn extend_where_predicates(own: &mut PredicateSet, extra: &Predicates) -> Result<(), AllocError>
    ensures ok { OnOk result (Extends (keys_of own.old) (keys_of extra.now) (keys_of own.new)) }
    ensures kept { HasPrefix own.old own.new }
    ensures read { AreRead own.old → AreRead extra.now → OnOk result (AreRead own.new) }
{
    for predicate in extra.as_slice() {
        own.insert(predicate)?;
    }
    Ok(())
}
