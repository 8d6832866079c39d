//! The law of interners: a function that does nothing, whose contract is the law.
ghost use Rattle.educe_tokens_interner.specs.Interned.{SameExactly, NumbersStay};

/// Two lists have the same number exactly where they are equal, and a number once given stays.
pub fn interning_laws()
    ensures same { SameExactly }
    ensures stay { NumbersStay }
{}
