//! Laws of types and ranges that don't depend on a call: each function does nothing, and its
//! contract is the law.
ghost use Rattle.std.specs.Prelude.{◌≡◌};
ghost use Rattle.educe_discriminants.specs.Types as spec;
ghost use Rattle.educe_discriminants.specs.declared.discriminant_type.TheConstants.DiscriminantType.{VARIANTS};
ghost use Rattle.educe_discriminants.specs.Ranges.{RangeLaws};

/// The constant `DiscriminantType::VARIANTS` is the list of the twelve types, signed ones first.
pub fn type_list_laws()
    ensures variants { VARIANTS ≡ spec.types }
{}

/// The result of `wrapping_add` is the sum, where that is in the range of the type.
pub fn range_laws()
    ensures { RangeLaws }
{}
