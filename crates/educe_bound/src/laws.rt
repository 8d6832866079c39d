//! The law of predicates: a function that does nothing, whose contract is the law.
ghost use Rattle.educe_bound.specs.Laws.{PredicateLaws};

/// The predicates that bounds ask for are readings of their tokens.
pub fn predicate_laws()
    ensures { PredicateLaws }
{}
