//! Expressions (Rust Reference, Expressions).

use crate::path::Path;
use crate::to_tokens::AsWritten;
use crate::ty::Ty;
use educe_tokens::Written;

/// An expression, with its tokens as they were written (Rust Reference, Expressions).
#[derive(Drop)]
pub struct Expr {
    pub form: ExprForm,
    pub written: Written,
}

/// The form of an expression.
#[derive(Clone, Copy, Debug, PartialEq, Eq)]
pub enum ExprForm {
    /// One literal (Rust Reference, Literal expressions).
    Literal,
    /// `true` or `false`
    Truth,
    /// A minus and one literal (Rust Reference, Negation operators).
    Negated,
    /// A path (Rust Reference, Path expressions).
    Path,
    /// Any other expression.
    Other,
}

/// A path that stands as an expression, such as the name of a function, with its tokens; the type
/// is that of a qualified path (Rust Reference, Path expressions).
#[derive(Drop)]
pub struct ExprPath {
    pub self_type: Option<Ty>,
    pub path: Path,
    pub written: Written,
}

impl AsWritten for Expr {
    ghost held = { λ expr. expr.written };

    fn written(&self) -> &Written {
        &self.written
    }
}

impl AsWritten for ExprPath {
    ghost held = { λ path. path.written };

    fn written(&self) -> &Written {
        &self.written
    }
}
