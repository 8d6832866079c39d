//! Templates that are kept as their text.
ghost use Rattle.std.specs.Prelude.{IsTrue};
ghost use Rattle.educe_tokens.specs.Quote.{is_template, quoted};
ghost use Rattle.educe_tokens.specs.Spelled.{are_spelled};

/// The text of a template, which stands for its tokens.
#[derive(Drop)]
pub struct KeptTemplate {
    pub text: &'static str,
    pub ghost is_template: { IsTrue (is_template text.now) },
    pub ghost spelled: { IsTrue (are_spelled (quoted text.now)) },
}
