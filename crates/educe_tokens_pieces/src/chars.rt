//! Classes of characters (Rust Reference, Whitespace; Identifiers; Punctuation).
ghost use Rattle.std.specs.Prelude.{◌≡◌, ◌==◌};
ghost use Rattle.educe_tokens_pieces.specs.Chars.{begins, is_blank, is_punct, is_word_start, is_slash_or_star};

use unicode_ident::is_xid_start;

/// Whether the character is a blank: U+0009 to U+000D, U+0020, U+0085, U+200E, U+200F, U+2028 or
/// U+2029 (Rust Reference, Whitespace).
pub fn is_blank(c: char) -> bool
    ensures { result ≡ is_blank c }
{
    matches!(
        c,
        '\t'..='\r' | ' ' | '\u{85}' | '\u{200E}' | '\u{200F}' | '\u{2028}' | '\u{2029}'
    )
}

/// Whether the character is a punctuation character (Rust Reference, Punctuation).
pub fn is_punct(c: char) -> bool
    ensures { result ≡ is_punct c }
{
    matches!(
        c,
        '!' | '#'
            | '$'
            | '%'
            | '&'
            | '*'
            | '+'
            | ','
            | '-'
            | '.'
            | '/'
            | ':'
            | ';'
            | '<'
            | '='
            | '>'
            | '?'
            | '@'
            | '^'
            | '|'
            | '~'
    )
}

/// Whether the character may begin a word: XID_Start or `_` (Rust Reference, Identifiers).
pub fn is_word_start(c: char) -> bool
    ensures { result ≡ is_word_start c }
{
    is_xid_start(c) || c == '_'
}

/// Whether the text begins with this character, as a quote or a `#` (Rust Reference, Character and
/// string literals).
pub fn begins_with(text: &[char], mark: char) -> bool
    ensures { result ≡ begins (λ c. c == mark) text.now }
{
    matches!(text, [c, ..] if *c == mark)
}

/// Whether the text begins with `/` or `*`, which open a comment behind a `/` (Rust Reference,
/// Comments).
pub fn begins_slash_or_star(text: &[char]) -> bool
    ensures { result ≡ begins is_slash_or_star text.now }
{
    matches!(text, [c, ..] if matches!(*c, '/' | '*'))
}
