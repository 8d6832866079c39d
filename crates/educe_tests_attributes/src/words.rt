//! What attributes say, in words.

use educe_attrs::debug::{FieldName, TypeName};
use educe_attrs::{clone, copy, debug, default, ord, partial_eq, partial_ord};
use educe_bound::Bound;
use educe_syntax::{Expr, ExprPath, Predicates, ToTokens, text_of_tree};
use educe_tokens::Span;
use std::alloc::{AllocError, Global};
use std::test::Fail;

/// What has words for what it says.
pub(crate) trait Worded {
    /// The words.
    fn words(&self, alloc: Global) -> Result<String, Fail>;
}

/// A word, and trees with a comma behind each.
pub(crate) fn tree_words<T: ToTokens>(
    alloc: Global,
    word: &str,
    trees: &[T],
) -> Result<String, AllocError> {
    let mut words = String::from_str(alloc, word)?;
    for tree in trees {
        let text = text_of_tree(alloc, tree)?;
        write!(words, " {text},")?;
    }
    Ok(words)
}

/// Predicates, with a comma behind each.
pub(crate) fn predicates_words(
    alloc: Global,
    predicates: &Predicates,
) -> Result<String, AllocError> {
    tree_words(alloc, "bounds", predicates.as_slice())
}

impl Worded for Bound {
    fn words(&self, alloc: Global) -> Result<String, Fail> {
        match self {
            Bound::Disabled => Ok(String::from_str(alloc, "no bounds")?),
            Bound::Auto => Ok(String::from_str(alloc, "needed bounds")?),
            Bound::All => Ok(String::from_str(alloc, "all bounds")?),
            Bound::Custom(predicates) => Ok(predicates_words(alloc, predicates)?),
        }
    }
}

impl Worded for TypeName {
    fn words(&self, alloc: Global) -> Result<String, Fail> {
        match self {
            TypeName::Disable => Ok(String::from_str(alloc, "no name")?),
            TypeName::Default => Ok(String::from_str(alloc, "own name")?),
            TypeName::Custom(name) => {
                let name = text_of_tree(alloc, name)?;
                Ok(format!(in alloc; "name {name}")?)
            }
        }
    }
}

impl Worded for FieldName {
    fn words(&self, alloc: Global) -> Result<String, Fail> {
        match self {
            FieldName::Default => Ok(String::from_str(alloc, "own name")?),
            FieldName::Custom(name) => {
                let name = text_of_tree(alloc, name)?;
                Ok(format!(in alloc; "name {name}")?)
            }
        }
    }
}

/// The method of a field.
fn method_words(alloc: Global, method: &Option<ExprPath>) -> Result<String, Fail> {
    match method {
        Some(path) => {
            let path = text_of_tree(alloc, path)?;
            Ok(format!(in alloc; "method {path}")?)
        }
        None => Ok(String::from_str(alloc, "no method")?),
    }
}

/// The default value.
fn value_words(alloc: Global, value: &Option<Expr>) -> Result<String, Fail> {
    match value {
        Some(value) => {
            let value = text_of_tree(alloc, value)?;
            Ok(format!(in alloc; "value {value}")?)
        }
        None => Ok(String::from_str(alloc, "no value")?),
    }
}

/// Whether a field is kept.
fn kept(ignore: bool) -> &'static str {
    if ignore { "ignored" } else { "kept" }
}

/// Whether a place is marked.
fn marked(flag: bool) -> &'static str {
    if flag { "marked" } else { "not marked" }
}

/// A place in the text.
pub(crate) fn span_words(alloc: Global, span: Span) -> Result<String, Fail> {
    let Span { start, end } = span;
    Ok(format!(in alloc; "at {start} to {end}")?)
}

/// A rank, and its place where it is given.
fn rank_words(alloc: Global, rank: i64, place: Option<Span>) -> Result<String, Fail> {
    match place {
        Some(span) => {
            let place = span_words(alloc, span)?;
            Ok(format!(in alloc; "rank {rank} {place}")?)
        }
        None => Ok(format!(in alloc; "rank {rank}")?),
    }
}

impl Worded for clone::TypeAttribute {
    fn words(&self, alloc: Global) -> Result<String, Fail> {
        self.bound.words(alloc)
    }
}

impl Worded for clone::FieldAttribute {
    fn words(&self, alloc: Global) -> Result<String, Fail> {
        method_words(alloc, &self.method)
    }
}

impl Worded for copy::FieldAttribute {
    fn words(&self, alloc: Global) -> Result<String, Fail> {
        Ok(String::from_str(alloc, "nothing")?)
    }
}

impl Worded for partial_eq::FieldAttribute {
    fn words(&self, alloc: Global) -> Result<String, Fail> {
        let kept = kept(self.ignore);
        let method = method_words(alloc, &self.method)?;
        Ok(format!(in alloc; "{kept}; {method}")?)
    }
}

/// Whether the answer on the field is turned round.
fn direction(reverse: bool) -> &'static str {
    if reverse { "; reversed" } else { "" }
}

impl Worded for ord::FieldAttribute {
    fn words(&self, alloc: Global) -> Result<String, Fail> {
        let kept = kept(self.ignore);
        let method = method_words(alloc, &self.method)?;
        let rank = rank_words(alloc, self.rank, self.rank_span)?;
        let direction = direction(self.reverse);
        Ok(format!(in alloc; "{kept}; {method}; {rank}{direction}")?)
    }
}

/// What the method of a partial order returns.
fn returned(ordering: bool) -> &'static str {
    if ordering { " of `Ord`" } else { "" }
}

impl Worded for partial_ord::FieldAttribute {
    fn words(&self, alloc: Global) -> Result<String, Fail> {
        let kept = kept(self.ignore);
        let method = method_words(alloc, &self.method)?;
        let of = returned(self.method_returns_ordering);
        let rank = rank_words(alloc, self.rank, self.rank_span)?;
        let direction = direction(self.reverse);
        Ok(format!(in alloc; "{kept}; {method}{of}; {rank}{direction}")?)
    }
}

/// Whether the names of fields are shown.
fn named(named_field: bool) -> &'static str {
    if named_field {
        "named fields"
    } else {
        "fields without names"
    }
}

impl Worded for debug::TypeAttribute {
    fn words(&self, alloc: Global) -> Result<String, Fail> {
        let name = self.name.words(alloc)?;
        let named = named(self.named_field);
        let bound = self.bound.words(alloc)?;
        Ok(format!(in alloc; "{name}; {named}; {bound}")?)
    }
}

impl Worded for debug::FieldAttribute {
    fn words(&self, alloc: Global) -> Result<String, Fail> {
        let name = self.name.words(alloc)?;
        let kept = kept(self.ignore);
        let method = method_words(alloc, &self.method)?;
        Ok(format!(in alloc; "{name}; {kept}; {method}")?)
    }
}

/// Whether there is a function `new`.
fn made(new: bool) -> &'static str {
    if new { "new" } else { "no new" }
}

impl Worded for default::TypeAttribute {
    fn words(&self, alloc: Global) -> Result<String, Fail> {
        let marked = marked(self.flag);
        let made = made(self.new);
        let value = value_words(alloc, &self.expression)?;
        let bound = self.bound.words(alloc)?;
        let place = span_words(alloc, self.span)?;
        Ok(format!(in alloc; "{marked}; {made}; {value}; {bound}; {place}")?)
    }
}

impl Worded for default::FieldAttribute {
    fn words(&self, alloc: Global) -> Result<String, Fail> {
        let marked = marked(self.flag);
        let value = value_words(alloc, &self.expression)?;
        let place = span_words(alloc, self.span)?;
        Ok(format!(in alloc; "{marked}; {value}; {place}")?)
    }
}
