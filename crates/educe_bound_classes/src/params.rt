//! Generic parameters by name.
ghost use Rattle.std.specs.Prelude.{◌≡◌, IfOk, OnOk};
ghost use Rattle.educe_bound_classes.specs.Collects.{AddsWhere};
ghost use Rattle.educe_bound_classes.specs.Names.{params_of};
ghost use Rattle.educe_bound_classes.specs.Params as spec;
ghost use Rattle.educe_bound_classes.specs.Texts.{has_text, IsSetOf};
ghost use Rattle.educe_bound_classes.specs.Places.{HasFound};

use crate::idents::IdentSet;
use crate::places::{places_of, type_places};
use educe_tokens::Spelling;
use educe_tree::{GenericParam, Params, is_spelled};
use std::alloc::{AllocError, Global};
use std::collections::{BTreeMap, BTreeSet};
use std::marker::Model;

/// The parameters of a definition, with sorted names, so that a lookup takes no pass over the list.
#[derive(Drop)]
pub struct ParamNames<'a> {
    params: &'a Params,
    types: IdentSet<'a>,
    words: IdentSet<'a>,
    places: BTreeMap<&'a str, Vec<usize>>,
}

impl<'a> Model for ParamNames<'a> {
    ghost use Rattle.std.specs.Prelude.{List};
    ghost use Rattle.std.specs.Borrow.{Bor};
    ghost use Rattle.educe_tree.specs.declared.generics.GenericParam.{GenericParam};
    ghost use Rattle.educe_bound_classes.specs.Params.{is_param, is_type_param};
    ghost use Rattle.educe_bound_classes.specs.Places.{ArePlaced};
    ghost use Rattle.educe_bound_classes.specs.Texts.{IsSetOf};

    ghost Value = { Bor (List GenericParam) };

    ghost view = { λ names. names.params };

    ghost invariant = { λ names. IsSetOf (is_type_param names.params.now) names.types × IsSetOf (is_param names.params.now) names.words × ArePlaced names.params.now names.places };
}

/// Parameters that are searched by name.
#[derive(Clone, Copy)]
pub enum Names<'n, 'a> {
    /// The parameters as they are declared, searched one by one.
    Listed(&'n Params),
    /// The parameters with sorted names.
    Sorted(&'n ParamNames<'a>),
}

/// Whether the parameter is a type or const parameter of this name.
fn is_named(name: &Spelling, param: &GenericParam) -> bool
    ensures { result ≡ spec.is_named name.now param.now }
{
    match param {
        GenericParam::Lifetime(_) => false,
        GenericParam::TypeParam(param) => is_spelled(&param.ident.text, name.as_str()),
        GenericParam::Const(param) => is_spelled(&param.ident.text, name.as_str()),
    }
}

/// Whether the parameter is a type parameter of this name.
fn is_type_named(name: &Spelling, param: &GenericParam) -> bool
    ensures { result ≡ spec.is_type_named name.now param.now }
{
    match param {
        GenericParam::TypeParam(param) => is_spelled(&param.ident.text, name.as_str()),
        _ => false,
    }
}

/// Whether a parameter of the list is a type parameter or a const parameter of this name.
fn has_param(params: &Params, name: &Spelling) -> bool
    ensures { result ≡ spec.is_param params.now name.now }
{
    params.as_slice().iter().any(|param| is_named(name, param))
}

/// Whether a parameter of the list is a type parameter of this name.
fn has_type_param(params: &Params, name: &Spelling) -> bool
    ensures { result ≡ spec.is_type_param params.now name.now }
{
    params
        .as_slice()
        .iter()
        .any(|param| is_type_named(name, param))
}

/// Adds the name of a type parameter.
fn add_type_name<'a>(param: &'a GenericParam, names: &mut IdentSet<'a>) -> Result<(), AllocError>
    ensures ok { OnOk result (AddsWhere (λ text. spec.is_type_named text param.now) names.old names.new) }
{
    match param {
        GenericParam::Lifetime(_) => Ok(()),
        GenericParam::TypeParam(param) => names.insert(&param.ident.text),
        GenericParam::Const(_) => Ok(()),
    }
}

/// Adds the name of a type parameter or of a const parameter.
fn add_name<'a>(param: &'a GenericParam, names: &mut IdentSet<'a>) -> Result<(), AllocError>
    ensures ok { OnOk result (AddsWhere (λ text. spec.is_named text param.now) names.old names.new) }
{
    match param {
        GenericParam::Lifetime(_) => Ok(()),
        GenericParam::TypeParam(param) => names.insert(&param.ident.text),
        GenericParam::Const(param) => names.insert(&param.ident.text),
    }
}

/// The names of the type parameters.
fn type_names<'a>(alloc: Global, params: &'a Params) -> Result<IdentSet<'a>, AllocError>
    ensures { IfOk result (λ names. IsSetOf (spec.is_type_param params.now) names) }
{
    let mut names = IdentSet::new(alloc);
    for param in params.as_slice() {
        add_type_name(param, &mut names)?;
    }
    Ok(names)
}

/// The names of the type parameters and of the const parameters.
fn all_names<'a>(alloc: Global, params: &'a Params) -> Result<IdentSet<'a>, AllocError>
    ensures { IfOk result (λ names. IsSetOf (spec.is_param params.now) names) }
{
    let mut names = IdentSet::new(alloc);
    for param in params.as_slice() {
        add_name(param, &mut names)?;
    }
    Ok(names)
}

impl<'a> ParamNames<'a> {
    /// The parameters with their sorted names.
    pub fn new(alloc: Global, params: &'a Params) -> Result<ParamNames<'a>, AllocError>
        ensures { IfOk result (λ names. names.now ≡ params.now) }
    {
        let types = type_names(alloc, params)?;
        let words = all_names(alloc, params)?;
        let places = type_places(alloc, params)?;
        Ok(ParamNames {
            params,
            types,
            words,
            places,
        })
    }

    /// The parameters, as they are declared.
    pub fn listed(&self) -> &'a Params
        ensures { result.now ≡ self.now.now }
    {
        self.params
    }

    /// The places of the type parameters that were found, in ascending order.
    pub fn found_places(
        &self,
        alloc: Global,
        found: &IdentSet<'_>,
    ) -> Result<BTreeSet<usize>, AllocError>
        ensures { IfOk result (HasFound self.now.now (has_text found.now)) }
    {
        places_of(alloc, &self.places, found.texts())
    }

    /// Whether a type parameter or a const parameter has this name.
    fn has(&self, name: &Spelling) -> bool
        ensures { result ≡ spec.is_param self.now.now name.now }
    {
        self.words.contains(name.as_str())
    }

    /// Whether a type parameter has this name.
    fn has_type(&self, name: &Spelling) -> bool
        ensures { result ≡ spec.is_type_param self.now.now name.now }
    {
        self.types.contains(name.as_str())
    }
}

/// Whether a type or const parameter has this name.
pub fn is_param(names: Names<'_, '_>, name: &Spelling) -> bool
    ensures { result ≡ spec.is_param (params_of names.entry) name.now }
{
    match names {
        Names::Listed(params) => has_param(params, name),
        Names::Sorted(sorted) => sorted.has(name),
    }
}

/// Whether a type parameter has this name.
pub fn is_type_param(names: Names<'_, '_>, name: &Spelling) -> bool
    ensures { result ≡ spec.is_type_param (params_of names.entry) name.now }
{
    match names {
        Names::Listed(params) => has_type_param(params, name),
        Names::Sorted(sorted) => sorted.has_type(name),
    }
}
