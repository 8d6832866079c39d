//! Laws of generated text.
ghost use Rattle.std.specs.Prelude.{◌≡◌, true};
ghost use Rattle.educe_text.specs.FirstSets.{any_tokens, decides};
ghost use Rattle.educe_text.specs.Laws.{TextLaws, steps};

/// The laws of rules, at one rule with a lookahead; they are proved of all rules. That the lookahead
/// of this one decides is computed.
pub fn text_laws()
    ensures laws { TextLaws steps any_tokens }
    ensures decided { decides steps any_tokens ≡ true }
{}
