//! Laws of parsing: each function does nothing, and its contract is the law.
ghost use Rattle.educe_grammar.specs.Attributes as attributes;
ghost use Rattle.educe_grammar.specs.Definitions as definitions;
ghost use Rattle.educe_grammar.specs.Expressions as expressions;
ghost use Rattle.educe_grammar.specs.Generics as generics;
ghost use Rattle.educe_grammar.specs.Names as names;
ghost use Rattle.educe_grammar.specs.Within.{PartLaws};
ghost use Rattle.educe_syntax.specs.Laws.{RuleLaws, DefinitionLaws, PlaceLaws, TypeLaw};

/// Each list of tokens has one reading by a rule, or one cause of rejection; never both.
pub fn rule_laws()
    ensures name { RuleLaws names.name }
    ensures path { RuleLaws expressions.expr_path }
    ensures expression { RuleLaws expressions.expression }
    ensures predicates { RuleLaws generics.predicates }
    ensures metas { RuleLaws attributes.metas }
    ensures definition { RuleLaws definitions.definition }
{}

/// Each list of tokens is one definition whose names are distinct, or has one cause of rejection;
/// never both. Each part of a parsed definition is the reading of its tokens.
pub fn definition_laws()
    ensures { DefinitionLaws }
{}

/// The parts of a parsed tree lie at the places of its tokens.
pub fn place_laws()
    ensures { PlaceLaws }
{}

/// The tokens of a part are tokens of the whole that it is parsed from.
pub fn part_laws()
    ensures { PartLaws }
{}

/// A type depends only on the kinds and spellings of its tokens.
pub fn type_laws()
    ensures { TypeLaw }
{}
