//! Laws of texts that hold with no call: the function does nothing, and its contract is the law.
ghost use Rattle.educe_core.specs.Laws.{ExpansionLaws};

/// A text without a cause of a rejection is valid, and a valid text has none. A text that is no
/// definition has one cause.
pub fn expansion_laws()
    ensures { ExpansionLaws }
{}
