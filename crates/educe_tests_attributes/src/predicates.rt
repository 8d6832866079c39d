//! The predicates that bounds ask for, and lists of predicates and parameters.

use crate::answers::only_meta;
use crate::defaults::only_type;
use crate::words::{predicates_words, tree_words};
use educe_bound::{
    Bound, PredicateSet, Trait, exceptions_of, extend_where_predicates, lifetimes_first,
    with_predicates,
};
use educe_syntax::{DeriveInput, Generics, Params, Predicates, Ty, parse_predicates};
use educe_tests::{definition, found, lexed_slice};
use std::alloc::{AllocError, Global};
use std::test::Fail;

/// The words of predicates, which are dropped.
fn listed(alloc: Global, predicates: Predicates) -> Result<String, AllocError> {
    let words = predicates_words(alloc, &predicates);
    drop(predicates);
    words
}

/// The predicates that the bound asks for, for `Clone` and a field of the type.
fn asked(
    alloc: Global,
    bound: &Bound,
    ast: &DeriveInput,
    ty: &Ty,
) -> Result<Predicates, AllocError> {
    bound.into_where_predicates_by_generic_parameters_check_types(
        alloc,
        &ast.generics.params,
        Trait::Clone,
        &[ty],
        &ast.ident,
        &exceptions_of(Trait::Clone),
    )
}

/// The words of the predicates that the bound asks for, and of those by which a field is copied.
fn bound_words(alloc: Global, bound: &Bound, ast: &DeriveInput) -> Result<String, Fail> {
    let ty = only_type(&ast.shape)?;
    let params = &ast.generics.params;
    let asked = listed(alloc, asked(alloc, bound, ast, ty)?)?;
    let copies = bound.packed_copy_predicates(alloc, params, &[ty], &ast.ident)?;
    let copies = listed(alloc, copies)?;
    Ok(format!(in alloc; "{asked}\n{copies}")?)
}

/// The bound that a text asks for.
fn bound(alloc: Global, source: &str) -> Result<Bound, Fail> {
    let meta = only_meta(alloc, source)?;
    let bound = found(Bound::from_meta(alloc, &meta));
    drop(meta);
    bound
}

/// The words of the predicates that a bound asks for in a struct, as in `bound(*) in struct S<T>(T);`.
pub(crate) fn asked_words(alloc: Global, text: &str) -> Result<String, Fail> {
    let (meta, source) = text.split_once(" in ").ok_or(text)?;
    let bound = bound(alloc, meta)?;
    let ast = definition(alloc, source)?;
    let words = bound_words(alloc, &bound, &ast);
    drop(ast);
    drop(bound);
    words
}

/// The parameters as an impl has them.
fn parameters(alloc: Global, params: &Params) -> Result<String, AllocError> {
    let params = lifetimes_first(alloc, params)?;
    let words = tree_words(alloc, "parameters", params.as_slice());
    drop(params);
    words
}

/// The predicates, each once, with those that are not there yet.
fn extended(alloc: Global, own: &Predicates, more: &Predicates) -> Result<String, AllocError> {
    let mut all = PredicateSet::new(alloc);
    extend_where_predicates(&mut all, own)?;
    extend_where_predicates(&mut all, more)?;
    listed(alloc, all.into_list())
}

/// The predicates of the generics with these behind them.
fn appended(alloc: Global, generics: &Generics, more: &Predicates) -> Result<String, AllocError> {
    let generics = with_predicates(alloc, generics, more)?;
    let words = predicates_words(alloc, &generics.predicates);
    drop(generics);
    words
}

/// The parameters, and the predicates with more of them.
fn list_words(alloc: Global, generics: &Generics, more: &Predicates) -> Result<String, AllocError> {
    let parameters = parameters(alloc, &generics.params)?;
    let extended = extended(alloc, &generics.predicates, more)?;
    let appended = appended(alloc, generics, more)?;
    format!(in alloc; "{parameters}\n{extended}\n{appended}")
}

/// The predicates that a text is.
fn predicates(alloc: Global, source: &str) -> Result<Predicates, Fail> {
    found(parse_predicates(alloc, &lexed_slice(alloc, source)?))
}

/// Whether each of the predicates is new when they are inserted one after the other, and the numbers of those that are
/// there then.
fn inserted(alloc: Global, predicates: &Predicates) -> Result<String, AllocError> {
    let mut set = PredicateSet::new(alloc);
    let mut words = String::from_str(alloc, "new:")?;
    for predicate in predicates.as_slice() {
        let new = set.insert(predicate)?;
        write!(words, " {new}")?;
    }
    write!(words, "\nnumbers:")?;
    for number in set.numbers().as_slice() {
        write!(words, " {number}")?;
    }
    drop(set);
    Ok(words)
}

/// What is said of the predicates of a text that are inserted one after the other.
pub(crate) fn inserted_words(alloc: Global, text: &str) -> Result<String, Fail> {
    let predicates = predicates(alloc, text)?;
    let words = inserted(alloc, &predicates);
    drop(predicates);
    Ok(words?)
}

/// The parameters of a struct, and its predicates with more of them, as in `struct S<T> where T: A; and T:
/// B`.
pub(crate) fn generics_words(alloc: Global, text: &str) -> Result<String, Fail> {
    let (source, more) = text.split_once(" and ").ok_or(text)?;
    let more = predicates(alloc, more)?;
    let ast = definition(alloc, source)?;
    let words = list_words(alloc, &ast.generics, &more);
    drop(ast);
    drop(more);
    Ok(words?)
}
