//! What the readers of values answer.
ghost use Rattle.educe_attrs_values.specs.Metas.{IsNamed};

use crate::answers::{answer, only_meta};
use crate::words::{Worded, span_words};
use educe_attrs_values::{
    IdentOrBool, ValueKind, meta_2_bool, meta_2_bool_allow_path, meta_2_expr, meta_2_ident,
    meta_2_ident_and_bool, meta_2_isize, meta_2_path,
};
use educe_bound::Bound;
use educe_syntax::{Expr, ExprPath, Ident, Meta, text_of_tree};
use educe_tests::{check_rows, found};
use educe_tokens::EduceError;
use std::alloc::Global;
use std::test::Fail;

impl Worded for bool {
    fn words(&self, alloc: Global) -> Result<String, Fail> {
        Ok(format!(in alloc; "{self}")?)
    }
}

impl Worded for i64 {
    fn words(&self, alloc: Global) -> Result<String, Fail> {
        Ok(format!(in alloc; "{self}")?)
    }
}

impl Worded for Ident {
    fn words(&self, alloc: Global) -> Result<String, Fail> {
        Ok(text_of_tree(alloc, self)?)
    }
}

impl Worded for ExprPath {
    fn words(&self, alloc: Global) -> Result<String, Fail> {
        Ok(text_of_tree(alloc, self)?)
    }
}

impl Worded for Expr {
    fn words(&self, alloc: Global) -> Result<String, Fail> {
        Ok(text_of_tree(alloc, self)?)
    }
}

impl Worded for IdentOrBool {
    fn words(&self, alloc: Global) -> Result<String, Fail> {
        match self {
            IdentOrBool::Ident(name) => name.words(alloc),
            IdentOrBool::Bool(truth) => truth.words(alloc),
        }
    }
}

/// What the meta has as its value of the kind.
fn value(alloc: Global, kind: ValueKind, source: &str, meta: &Meta) -> Result<String, Fail>
    requires { IsNamed meta.now }
{
    match kind {
        ValueKind::Ident => answer(alloc, source, meta_2_ident(alloc, meta)),
        ValueKind::Name => answer(alloc, source, meta_2_ident_and_bool(alloc, meta)),
        ValueKind::Truth => answer(alloc, source, meta_2_bool(alloc, meta)),
        ValueKind::Flag => answer(alloc, source, meta_2_bool_allow_path(alloc, meta)),
        ValueKind::Path => answer(alloc, source, meta_2_path(alloc, meta)),
        ValueKind::Integer => answer(alloc, source, meta_2_isize(alloc, meta)),
        ValueKind::Expr => answer(alloc, source, meta_2_expr(alloc, meta)),
        ValueKind::Bound => answer(alloc, source, Bound::from_meta(alloc, meta)),
    }
}

/// What the one meta that a text is has as its value of the kind.
fn read(alloc: Global, kind: ValueKind, source: &str) -> Result<String, Fail> {
    let meta = only_meta(alloc, source)?;
    let words = value(alloc, kind, source, &meta);
    drop(meta);
    words
}

/// What each meta of a table has as its value of the kind.
pub(crate) fn check_values(alloc: Global, kind: ValueKind, table: &str) -> Result<(), Fail> {
    check_rows(alloc, |alloc, source| read(alloc, kind, source), table)
}

/// The place of the name that the one meta that a text is has as its value.
pub(crate) fn read_place(alloc: Global, source: &str) -> Result<String, Fail> {
    let meta = only_meta(alloc, source)?;
    let read = found(meta_2_ident(alloc, &meta));
    drop(meta);
    span_words(alloc, read?.span)
}

/// The rejection that is answered.
fn refusal<T: Drop>(answered: Result<T, EduceError>) -> Result<EduceError, Fail> {
    match answered {
        Ok(_) => Err(Fail::from("it is read")),
        Err(error) => Ok(error),
    }
}

/// The place at which the one meta that a text is has no name or truth value.
pub(crate) fn refused_place(alloc: Global, source: &str) -> Result<String, Fail> {
    let meta = only_meta(alloc, source)?;
    let error = refusal(meta_2_ident_and_bool(alloc, &meta));
    drop(meta);
    span_words(alloc, error?.span)
}
