//! What the calls of the classes of types say of the type of a field, by the exceptions of `Clone`.

use crate::defaults::only_type;
use educe_bound::{Trait, exceptions_of};
use educe_bound_classes::{
    BoundExceptions, IdentSet, find_idents_in_type, type_mentions_ident, type_uses_generic_params,
};
use educe_syntax::{DeriveInput, GenericParam, Params, Ty, text_of_tree};
use educe_tests::definition;
use std::alloc::{AllocError, Global};
use std::test::Fail;

/// One of two words.
fn word(is_so: bool, if_so: &'static str, otherwise: &'static str) -> &'static str {
    if is_so { if_so } else { otherwise }
}

/// The types to which the type hands on what is asked, with a comma behind each.
fn handed_on(
    alloc: Global,
    exceptions: &BoundExceptions,
    ty: &Ty,
    params: &Params,
) -> Result<String, AllocError> {
    let Some(types) = exceptions.forwarding_type_arguments(alloc, ty, params)? else {
        return String::from_str(alloc, "does not hand on");
    };
    let mut words = String::from_str(alloc, "hands on to")?;
    for ty in &types {
        let text = text_of_tree(alloc, *ty)?;
        write!(words, " {text},")?;
    }
    Ok(words)
}

/// The names of the type parameters that are in the set.
fn names_in(alloc: Global, params: &Params, set: &IdentSet<'_>) -> Result<String, AllocError> {
    let mut words = String::from_str(alloc, "names")?;
    for param in params.as_slice() {
        if let GenericParam::TypeParam(param) = param {
            let name = param.ident.text.as_str();
            if set.contains(name) {
                write!(words, " {name}")?;
            }
        }
    }
    Ok(words)
}

/// The names of the type parameters that are found in the type.
fn found_names(
    alloc: Global,
    exceptions: &BoundExceptions,
    ty: &Ty,
    params: &Params,
) -> Result<String, AllocError> {
    let mut set = IdentSet::new(alloc);
    let added = find_idents_in_type(alloc, &mut set, ty, exceptions, params);
    let names = names_in(alloc, params, &set);
    drop(set);
    added?;
    names
}

/// What the calls say of the type of a field of the struct.
fn type_words(
    alloc: Global,
    exceptions: &BoundExceptions,
    ast: &DeriveInput,
    ty: &Ty,
) -> Result<String, AllocError> {
    let params = &ast.generics.params;
    let is_free = exceptions.type_is_unconditional(ty, params);
    let asked = word(is_free, "not asked", "asked");
    let uses_params = type_uses_generic_params(ty, params);
    let generic = word(uses_params, "generic", "not generic");
    let mentions = type_mentions_ident(ty, &ast.ident, params);
    let recursive = word(mentions, "recursive", "not recursive");
    let handed_on = handed_on(alloc, exceptions, ty, params)?;
    let names = found_names(alloc, exceptions, ty, params)?;
    format!(in alloc; "{asked}; {generic}; {recursive}; {handed_on}; {names}")
}

/// What the calls say of the type of the only field of the struct.
fn field_words(alloc: Global, ast: &DeriveInput) -> Result<String, Fail> {
    let ty = only_type(&ast.shape)?;
    Ok(type_words(alloc, &exceptions_of(Trait::Clone), ast, ty)?)
}

/// What the calls say of the type of the only field of the struct that a text is.
pub(crate) fn class_words(alloc: Global, source: &str) -> Result<String, Fail> {
    let ast = definition(alloc, source)?;
    let words = field_words(alloc, &ast);
    drop(ast);
    words
}
