//! Texts, compared by their characters.
ghost use Rattle.std.specs.Prelude.{◌≡◌, chars};
ghost use Rattle.std.specs.Str.{bytes_eq};

use educe_tokens::Spelling;

/// Whether a spelling is this text.
pub fn is_text(spelling: &Spelling, text: &str) -> bool
    ensures { result ≡ bytes_eq spelling.now (chars text.now) }
{
    spelling.is(text)
}
