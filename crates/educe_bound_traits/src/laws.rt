//! Laws that don't depend on a call: the function does nothing, and its contract is the law.
ghost use Rattle.std.specs.Prelude.{◌≡◌};
ghost use Rattle.educe_bound_traits.specs.Traits as spec;
ghost use Rattle.educe_bound_traits.specs.declared.traits.TheConstants.Trait.{VARIANTS};

/// The constant `Trait::VARIANTS` is the list of the nine traits in their fixed order.
pub fn trait_laws()
    ensures variants { VARIANTS ≡ spec.variants }
{}
