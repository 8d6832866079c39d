//! Laws of bounds that don't depend on a call: each function does nothing, and its contract is the
//! law.
ghost use Rattle.educe_bound_classes.specs.Needs.{AlwaysSuffice, AreAlwaysMinimal, AreAlwaysDistinct};

/// Each type can be derived from the predicates of the automatic mode, and without any one of them
/// one of the types can't. They are pairwise distinct.
pub fn automatic_laws()
    ensures suffice { AlwaysSuffice }
    ensures minimal { AreAlwaysMinimal }
    ensures distinct { AreAlwaysDistinct }
{}
