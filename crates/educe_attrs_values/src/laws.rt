//! The laws of values: a function that does nothing, whose contract is the laws.
ghost use Rattle.educe_attrs_values.specs.Laws.{ValueLaws};
ghost use Rattle.educe_attrs_values.specs.declared.kind.ValueKind.{ValueKind};

/// For each kind, every meta gives exactly one value or has a cause of rejection.
pub fn value_laws()
    ensures { (k : ValueKind) → ValueLaws k }
{}
