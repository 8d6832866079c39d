//! A field that takes part in what a trait does.
use educe_syntax::{ExprPath, Field};
use educe_tokens::Span;

/// How a field is treated.
#[derive(Clone, Copy)]
pub enum How<'a> {
    /// By the trait's own function.
    Plainly,
    /// By a method.
    ByMethod(&'a ExprPath),
    /// By a method that `PartialOrd` takes from `Ord`, which returns an `Ordering`.
    ByOrder(&'a ExprPath),
}

/// A field that takes part in what a trait does, its place among the fields of its case, counted from
/// 0, its rank, where that stands, whether it is reversed, and how it is treated.
#[derive(Clone, Copy)]
pub struct Ranked<'f, 's> {
    pub field: &'f Field,
    pub place: usize,
    pub rank: i64,
    pub rank_span: Span,
    pub reverse: bool,
    pub how: How<'s>,
}
