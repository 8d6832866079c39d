//! Words compared by spelling.
ghost use Rattle.std.specs.Prelude.{◌≡◌, chars};
ghost use Rattle.educe_bound_traits.specs.OneWord as spec;

use educe_grammar::Terminal;
use educe_tokens::Token;
use educe_tree::is_spelled;

/// Whether the token is the word, compared by spelling: `r#` counts.
pub fn is_word(token: &Token, word: &str) -> bool
    ensures { result ≡ spec.is_word (chars word.now) token.now }
{
    Terminal::AnyWord.accepts(token) && is_spelled(&token.spelling, word)
}

/// Whether the tokens are only this word, compared by spelling: `r#` counts.
pub fn is_one_word(tokens: &[Token], word: &str) -> bool
    ensures { result ≡ spec.is_one_word (chars word.now) tokens.now }
{
    match tokens {
        [token] => is_word(token, word),
        _ => false,
    }
}
