//! Laws of visits: each function does nothing, and its contract is the law.
ghost use Rattle.educe_grammar.specs.Expressions.{expr_path};
ghost use Rattle.educe_grammar.specs.Generics.{generic_param, predicate};
ghost use Rattle.educe_grammar.specs.Types.{any_type};
ghost use Rattle.educe_syntax_self.specs.Laws.{VisitLaws};

/// The result of each visit exists, and is the reading of its tokens with one more of the budget.
pub fn visit_laws()
    ensures types { VisitLaws any_type }
    ensures paths { VisitLaws expr_path }
    ensures params { VisitLaws generic_param }
    ensures predicates { VisitLaws predicate }
{}
