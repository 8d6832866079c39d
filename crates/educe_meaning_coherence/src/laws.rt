//! The law of coherence, which holds with no call: the function does nothing, and its contract is the law.
ghost use Rattle.educe_meaning_coherence.specs.Coherence.{CoherenceLaws};

/// Where the functions of items evaluate to what their traits mean, they fit together: if the settings
/// match, then over each table that is lawful on the values that it covers, `eq` is an equivalence, `cmp`
/// a total order that is Equal exactly where `eq` is true, `partial_cmp` is `Some` of `cmp`, and equal
/// values feed a hasher the same parts; `partial_cmp` agrees with `eq` where `Ord` is not listed too; and
/// a table that answers by number meets these premises (documentation of `std`, `Eq`, `PartialOrd`, `Ord`,
/// `Hash`).
pub fn coherence_laws()
    ensures { CoherenceLaws }
{}
