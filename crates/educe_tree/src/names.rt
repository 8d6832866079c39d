//! Names and keywords (Rust Reference, Keywords).
ghost use Rattle.std.specs.Prelude.{◌≡◌, chars, encode_utf8_all};
ghost use Rattle.std.specs.Str.{bytes_eq};
ghost use Rattle.std.specs.List.{list_any};
ghost use Rattle.educe_tree.specs.Names as spec;

use educe_tokens::{Spelling, Token, TokenKind};

/// The strict and reserved keywords of the edition 2021.
const KEYWORDS: [&str; 51] = [
    "abstract", "as", "async", "await", "become", "box", "break", "const", "continue", "crate",
    "do", "dyn", "else", "enum", "extern", "false", "final", "fn", "for", "if", "impl", "in",
    "let", "loop", "macro", "match", "mod", "move", "mut", "override", "priv", "pub", "ref",
    "return", "self", "Self", "static", "struct", "super", "trait", "true", "try", "type",
    "typeof", "unsafe", "unsized", "use", "virtual", "where", "while", "yield",
];

/// Whether the text has exactly the characters of the word.
pub fn is_spelled(text: &Spelling, word: &str) -> bool
    ensures { result ≡ bytes_eq (chars word.now) text.now }
{
    text.is(word)
}

/// Whether the text is one of the words.
fn is_one_of(text: &Spelling, words: &[&str]) -> bool
    ensures { result ≡ list_any (λ word. bytes_eq (chars word.now) text.now) words.now }
{
    words.iter().any(|word| is_spelled(text, word))
}

/// Whether the text is a keyword.

fn is_keyword(text: &Spelling) -> bool
    ensures { result ≡ spec.is_keyword text.now }
{
    is_one_of(text, &KEYWORDS)
}

/// Whether the token is a name: an identifier that is neither `_` nor a keyword.
#[tactic(auto, using(crate::proofs::Words::chars_underscore))]
pub fn is_name(token: &Token) -> bool
    ensures { result ≡ spec.is_name token.now.kind token.now.spelling }
{
    match token.kind {
        TokenKind::Ident => !is_spelled(&token.spelling, "_") && !is_keyword(&token.spelling),
        _ => false,
    }
}

/// The text without a leading `r#` (Rust Reference, Raw identifiers).
pub fn unraw(text: &Spelling) -> &str
    ensures chars { chars result.now ≡ spec.unraw text.now }
    ensures bytes { result.now ≡ encode_utf8_all (spec.unraw text.now) }
{
    let text = text.as_str();
    text.strip_prefix("r#").unwrap_or(text)
}
