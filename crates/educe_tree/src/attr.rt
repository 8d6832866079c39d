//! Attributes (Rust Reference, Attributes).
ghost use Rattle.std.specs.Prelude.{◌≡◌, ◌↔◌, List, IsTrue, IfOk, IfSome, IfNone, chars};
ghost use Rattle.std.specs.List.{flat_map};
ghost use Rattle.std.specs.String.{string_bytes};
ghost use Rattle.educe_tree.specs.Words.{IsWord, IsOneWord};

use crate::expr::Expr;
use crate::to_tokens::AsWritten;
use educe_tokens::{Seq, Span, Token, TokenKind, Written};
use std::alloc::{AllocError, Global};

/// An outer attribute: what stands between `#[` and `]`, or a comment of documentation (Rust
/// Reference, Attributes).
#[derive(Drop)]
pub struct Attribute {
    pub meta: Meta,
}

/// Attributes in their order.
pub type Attributes = Seq<Attribute>;

/// What an attribute says, or one item of a list in it (Rust Reference, Meta item attribute
/// syntax). Each span is the whole meta's.
#[derive(Drop)]
pub enum Meta {
    /// A path alone.
    Word(MetaPath),
    /// A path and a bracket pair, both brackets included.
    List(MetaPath, Written, Span),
    /// A path and the expression behind `=`.
    NameValue(MetaPath, Expr, Span),
    /// A comment of documentation (Rust Reference, Doc comments).
    Doc(Token),
    /// A path and tokens that are not read, the first of which is `=`.
    Unread(MetaPath, Written, Span),
}

/// Metas in their order.
pub type Metas = Seq<Meta>;

/// The path that a meta begins with (Rust Reference, Simple paths).
#[derive(Drop)]
pub struct MetaPath {
    pub written: Written,
}

impl MetaPath {
    /// The one word that the path is; none where it is not one word without a leading `::`.
    pub fn get_ident(&self) -> Option<&Token>
        ensures some { IfSome result (λ word. IsWord self.now.written.tokens word.now) }
        ensures none { IfNone result ((word : Token) → ¬ IsWord self.now.written.tokens word) }
    {
        match self.written.tokens().as_slice() {
            [token] if matches!(token.kind, TokenKind::Ident) => Some(token),
            _ => None,
        }
    }

    /// Whether the path is this one word.
    pub fn is_ident(&self, name: &str) -> bool
        ensures { IsTrue result ↔ IsOneWord self.now.written.tokens (chars name.now) }
    {
        match self.get_ident() {
            Some(word) => word.spelling.is(name),
            None => false,
        }
    }
}

/// The spellings of a path's tokens one behind the other, without blanks.
pub fn path_to_string(alloc: Global, path: &MetaPath) -> Result<String, AllocError>
    ensures { IfOk result (λ text. chars (string_bytes text) ≡ flat_map (λ token. token.spelling) path.now.written.tokens) }
{
    let mut text = String::new(alloc);
    for token in path.written.tokens().as_slice() {
        text.push_str(token.spelling.as_str())?;
    }
    Ok(text)
}

impl AsWritten for MetaPath {
    ghost held = { λ path. path.written };

    fn written(&self) -> &Written {
        &self.written
    }
}
