//! Words: identifiers, raw ones among them, and lifetimes (Rust Reference, Identifiers; Lifetimes
//! and loop labels).
ghost use Rattle.std.specs.Prelude.{◌≡◌, ◌≤◌, length, IfSome};
ghost use Rattle.educe_tokens_pieces.specs.Chars.{begins};
ghost use Rattle.educe_tokens_pieces.specs.Words.{is_never_raw, touches_word, touches_lifetime, continue_len, word_len, raw_word_len};
ghost use Rattle.educe_tokens_pieces.specs.Pieces.{ends_word_before};

use crate::chars::is_word_start;
use unicode_ident::is_xid_continue;

/// Whether the text is one of the words that may not be raw (Rust Reference, Identifiers).
#[tactic(auto, unfolding(crate::specs::Words::is_never_raw))]
fn is_never_raw(text: &[char]) -> bool
    ensures { result ≡ is_never_raw text.now }
{
    text == ['c', 'r', 'a', 't', 'e'].as_slice()
        || text == ['s', 'e', 'l', 'f'].as_slice()
        || text == ['s', 'u', 'p', 'e', 'r'].as_slice()
        || text == ['S', 'e', 'l', 'f'].as_slice()
        || text == ['_'].as_slice()
}

/// How many characters at the front go on with a word: XID_Continue (Rust Reference, Identifiers).
pub fn continue_len(text: &[char]) -> usize
    ensures value { result ≡ continue_len text.now }
    ensures within { result ≤ length text.now }
{
    text.iter().take_while(|c| is_xid_continue(**c)).count()
}

/// How many characters the word at the front has, where one is there (Rust Reference, Identifiers).
pub fn word_len(text: &[char]) -> Option<usize>
    ensures value { result ≡ word_len text.now }
    ensures within { IfSome result (λ len. len ≤ length text.now) }
{
    let (first, rest) = text.split_first()?;
    if is_word_start(*first) {
        Some(1 + continue_len(rest))
    } else {
        None
    }
}

/// How many characters the word behind `r#` has, where it may be raw (Rust Reference, Raw
/// identifiers).
pub fn raw_word_len(text: &[char]) -> Option<usize>
    ensures value { result ≡ raw_word_len text.now }
    ensures within { IfSome result (λ len. len ≤ length text.now) }
{
    match word_len(text) {
        Some(len) => {
            if is_never_raw(&text[..len]) {
                None
            } else {
                Some(len)
            }
        }
        None => None,
    }
}

/// Whether no character follows that goes on with a word (Rust Reference, Identifiers).
pub fn ends_word_before(rest: &[char]) -> bool
    ensures { result ≡ ends_word_before rest.now }
{
    match rest {
        [c, ..] => !is_xid_continue(*c),
        _ => true,
    }
}

/// Whether what follows makes a word before it no piece: a character that goes on with it, `"`,
/// `'` or `#` (Rust Reference, Reserved prefixes).
pub fn touches_word(rest: &[char]) -> bool
    ensures { result ≡ begins touches_word rest.now }
{
    match rest {
        [c, ..] => is_xid_continue(*c) || matches!(*c, '"' | '\'' | '#'),
        _ => false,
    }
}

/// Whether what follows makes a lifetime before it no piece: a character that goes on with it, or
/// `'` (Rust Reference, Lifetimes and loop labels).
pub fn touches_lifetime(rest: &[char]) -> bool
    ensures { result ≡ begins touches_lifetime rest.now }
{
    match rest {
        [c, ..] => is_xid_continue(*c) || *c == '\'',
        _ => false,
    }
}
