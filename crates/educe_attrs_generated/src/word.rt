//! Paths that are one word.
ghost use Rattle.std.specs.Prelude.{◌≡◌, chars};
ghost use Rattle.educe_bound_traits.specs.OneWord.{is_one_word};

use educe_syntax::MetaPath;

/// Whether the path is this one word, compared by spelling: `r#` counts.
pub fn is_one_word(path: &MetaPath, word: &str) -> bool
    ensures { result ≡ is_one_word (chars word.now) path.now.written.tokens }
{
    educe_attrs_values::is_one_word(path.written.tokens().as_slice(), word)
}
