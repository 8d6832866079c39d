//! What handlers note for those that follow.
ghost use Rattle.std.specs.Prelude.{◌≡◌, [], ◌∷◌, ◌++◌, OnOk, OnErr};
ghost use Rattle.educe_tokens.specs.Prefix.{HasPrefix};
ghost use Rattle.educe_bound_classes.specs.Deriving.{Extends};
ghost use Rattle.educe_bound.specs.Predicates.{keys_of, AreRead};
ghost use Rattle.educe_bound_traits.specs.Traits as traits;
ghost use Rattle.educe_meaning.specs.Handlers as spec;

use educe_bound::{PredicateSet, Trait, extend_where_predicates, same_trait};
use educe_syntax::Predicates;
use educe_tokens::Seq;
use std::alloc::{AllocError, Global};
use std::marker::Model;

/// What the handler of a trait noted: the predicates that its impl has besides those of the
/// definition (documentation of `educe`, Bounds).
#[derive(Drop)]
pub struct Noted {
    which: Trait,
    predicates: Predicates,
}

impl Model for Noted {
    ghost use Rattle.educe_meaning.specs.Handlers as spec;

    ghost Value = { spec.Noted };

    ghost view = { λ noted. record { which = noted.which; added = noted.predicates } };
}

impl Noted {
    /// What is noted of a trait.
    fn new(which: Trait, predicates: Predicates) -> Noted
        ensures { result ≡ record { which = which; added = predicates } }
    {
        Noted { which, predicates }
    }

    /// Whether it is noted of this trait.
    fn is_of(&self, which: Trait) -> bool
        ensures { result ≡ traits.same_trait self.now.which which }
    {
        same_trait(self.which, which)
    }

    /// Appends, one after the other, those of the predicates that are not there yet.
    fn add_to(&self, own: &mut PredicateSet) -> Result<(), AllocError>
        ensures ok { OnOk result (Extends (keys_of own.old) (keys_of self.now.added) (keys_of own.new)) }
        ensures kept { HasPrefix own.old own.new }
        ensures read { AreRead own.old → AreRead self.now.added → OnOk result (AreRead own.new) }
    {
        extend_where_predicates(own, &self.predicates)
    }
}

/// What the handlers of one definition noted, in the order in which they ran: the predicates that
/// later impls inherit (documentation of `educe`, Bounds).
#[derive(Drop)]
pub struct TraitHandlerContext {
    noted: Seq<Noted>,
}

impl Model for TraitHandlerContext {
    ghost use Rattle.std.specs.Prelude.{List};
    ghost use Rattle.educe_meaning.specs.Handlers as spec;

    ghost Value = { List spec.Noted };

    ghost view = { λ context. context.noted };
}

impl TraitHandlerContext {
    /// The context of a definition that no handler was run on.
    pub fn new(alloc: Global) -> TraitHandlerContext
        ensures { result ≡ [] }
    {
        TraitHandlerContext {
            noted: Seq::new(alloc),
        }
    }

    /// Notes that the handler of a trait ran, and which predicates its impl adds.
    pub fn note_predicates(
        &mut self,
        which: Trait,
        predicates: Predicates,
    ) -> Result<(), AllocError>
        ensures ok { OnOk result (self.new ≡ self.old ++ record { which = which; added = predicates } ∷ []) }
        ensures err { OnErr result (self.new ≡ self.old) }
    {
        self.noted.push(Noted::new(which, predicates))
    }

    /// Appends the predicates that are noted of a trait, as far as they are not there yet.
    fn inherit(&self, which: Trait, own: &mut PredicateSet) -> Result<(), AllocError>
        ensures ok { OnOk result (Extends (keys_of own.old) (spec.noted_of which self.now) (keys_of own.new)) }
        ensures kept { HasPrefix own.old own.new }
        ensures read { spec.AreNotedRead self.now → AreRead own.old → OnOk result (AreRead own.new) }
    {
        for noted in self.noted.as_slice() {
            if noted.is_of(which) {
                return noted.add_to(own);
            }
        }
        Ok(())
    }

    /// Appends the predicates that are noted of these traits, as far as they are not there yet, those of
    /// one trait behind those of the one before (documentation of `educe`, Bounds).
    pub fn inherit_from(
        &self,
        prerequisites: &[Trait],
        own: &mut PredicateSet,
    ) -> Result<(), AllocError>
        ensures ok { OnOk result (Extends (keys_of own.old) (spec.inherited_from self.now prerequisites.now) (keys_of own.new)) }
        ensures kept { HasPrefix own.old own.new }
        ensures read { spec.AreNotedRead self.now → AreRead own.old → OnOk result (AreRead own.new) }
    {
        for which in prerequisites {
            self.inherit(*which, own)?;
        }
        Ok(())
    }
}
