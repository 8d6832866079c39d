//! The subjects of the predicates that types need (documentation of the crate `educe`, Bounds).
ghost use Rattle.std.specs.Prelude.{◌≡◌, [], filter, IfOk, OnOk};
ghost use Rattle.std.specs.List.{cons_option, filter_map};
ghost use Rattle.educe_bound_classes.specs.Classes.{plain_of, angle_of, last_types, types_behind, type_name, names_in};
ghost use Rattle.educe_bound_classes.specs.Asked.{Adds, AddsAll, AddsNames, types_of};
ghost use Rattle.educe_bound_classes.specs.Places.{names_at};
ghost use Rattle.educe_bound_classes.specs.Texts.{has_text};

use crate::collect::add_idents;
use crate::exceptions::BoundExceptions;
use crate::idents::IdentSet;
use crate::params::{Names, ParamNames};
use crate::sought::Sought;
use crate::walk::{in_type, uses_params};
use educe_tokens::Spelling;
use educe_tree::{AngleArg, AngleArgs, Args, GenericParam, Ident, Params, Path, Ty, TypeForm};
use std::alloc::{AllocError, Global};

/// The subject of a predicate (documentation of the crate `educe`, Bounds).
#[derive(Clone, Copy)]
pub enum Asked<'a> {
    /// A type.
    Itself(&'a Ty),
    /// The type parameter of this name.
    Param(&'a Ident),
}

/// The context of a derivation: the exceptions of a trait, and the name and parameters of the type
/// it is derived for (documentation of the crate `educe`, Bounds).
#[derive(Drop)]
pub struct Asker<'a> {
    alloc: Global,
    exceptions: &'a BoundExceptions,
    params: ParamNames<'a>,
    name: &'a Spelling,
}

impl<'a> Asker<'a> {
    /// The context of a trait with these exceptions, derived for the type of this name with these
    /// parameters.
    pub fn new(
        alloc: Global,
        exceptions: &'a BoundExceptions,
        params: &'a Params,
        name: &'a Spelling,
    ) -> Result<Asker<'a>, AllocError>
        ensures exceptions { IfOk result (λ asker. asker.exceptions.now ≡ exceptions.now) }
        ensures params { IfOk result (λ asker. asker.params.now ≡ params.now) }
        ensures name { IfOk result (λ asker. asker.name.now ≡ name.now) }
    {
        let names = ParamNames::new(alloc, params)?;
        Ok(Asker {
            alloc,
            exceptions,
            params: names,
            name,
        })
    }
}

/// Appends the subjects that a type needs, by its class (documentation of the crate `educe`, Bounds).
#[cycle(needs)]
pub fn append_needs<'a>(
    asker: &Asker<'a>,
    ty: &'a Ty,
    asked: &mut Vec<Asked<'a>>,
) -> Result<(), AllocError>
    ensures ok { OnOk result (Adds asker.now.exceptions.now asker.now.params.now asker.now.name.now ty.now
        asked.old.items asked.new.items) }
{
    let names = Names::Sorted(&asker.params);
    if asker.exceptions.is_unconditional(ty, names) {
        return Ok(());
    }
    if !uses_params(names, ty) {
        return Ok(());
    }
    if asker.exceptions.is_forwarding(ty, names) {
        return append_parts(asker, ty, asked);
    }
    if in_type(Sought::Derived(names, asker.name), ty) {
        return append_names(asker, ty, asked);
    }
    asked.push(Asked::Itself(ty))?;
    Ok(())
}

/// Adds what is asked of the type parameters that the type names.
fn append_names<'a>(
    asker: &Asker<'a>,
    ty: &'a Ty,
    asked: &mut Vec<Asked<'a>>,
) -> Result<(), AllocError>
    ensures ok { OnOk result (AddsNames (names_in asker.now.params.now asker.now.exceptions.now ty.now) asked.old.items asked.new.items) }
{
    let mut found = IdentSet::new(asker.alloc);
    add_idents(
        asker.exceptions,
        Names::Sorted(&asker.params),
        ty,
        &mut found,
    )?;
    append_found(asker, &found, asked)
}

/// Adds what is asked of the type parameters that were found, in declared order.
fn append_found<'a>(
    asker: &Asker<'a>,
    found: &IdentSet<'_>,
    asked: &mut Vec<Asked<'a>>,
) -> Result<(), AllocError>
    ensures ok { OnOk result (AddsNames (filter (has_text found.now) (filter_map type_name asker.now.params.now))
        asked.old.items asked.new.items) }
{
    let places = asker.params.found_places(asker.alloc, found)?;
    for place in &places {
        append_at(asker.params.listed(), *place, found, asked)?;
    }
    Ok(())
}

/// Adds what is asked of the parameter at the place, where it is a type parameter that was found.
fn append_at<'a>(
    params: &'a Params,
    place: usize,
    found: &IdentSet<'_>,
    asked: &mut Vec<Asked<'a>>,
) -> Result<(), AllocError>
    ensures ok { OnOk result (AddsNames (filter (has_text found.now) (names_at params.now place)) asked.old.items asked.new.items) }
{
    match params.as_slice().get(place) {
        Some(param) => append_name(param, found, asked),
        None => Ok(()),
    }
}

/// Adds what is asked of a parameter, where it is a type parameter that was found.
fn append_name<'a>(
    param: &'a GenericParam,
    found: &IdentSet<'_>,
    asked: &mut Vec<Asked<'a>>,
) -> Result<(), AllocError>
    ensures ok { OnOk result (AddsNames (filter (has_text found.now) (cons_option (type_name param.now) []))
        asked.old.items asked.new.items) }
{
    match param {
        GenericParam::TypeParam(param) => {
            if found.contains(param.ident.text.as_str()) {
                asked.push(Asked::Param(&param.ident))?;
            }
            Ok(())
        }
        GenericParam::Lifetime(_) => Ok(()),
        GenericParam::Const(_) => Ok(()),
    }
}

/// Adds what the types among the arguments of the type need.
#[cycle(needs)]
fn append_parts<'a>(
    asker: &Asker<'a>,
    ty: &'a Ty,
    asked: &mut Vec<Asked<'a>>,
) -> Result<(), AllocError>
    ensures ok { OnOk result (AddsAll asker.now.exceptions.now asker.now.params.now asker.now.name.now
        (types_behind ty.now.form) asked.old.items asked.new.items) }
{
    match &ty.form {
        TypeForm::Path(_, path) => append_path(asker, path, asked),
        _ => Ok(()),
    }
}

/// Adds what the types among the arguments of the last segment need.
#[cycle(needs)]
fn append_path<'a>(
    asker: &Asker<'a>,
    path: &'a Path,
    asked: &mut Vec<Asked<'a>>,
) -> Result<(), AllocError>
    ensures ok { OnOk result (AddsAll asker.now.exceptions.now asker.now.params.now asker.now.name.now
        (last_types path.now) asked.old.items asked.new.items) }
{
    match path.segments.as_slice().last() {
        Some(last) => append_args(asker, &last.args, asked),
        None => Ok(()),
    }
}

/// Adds what the types among the arguments need.
#[cycle(needs)]
fn append_args<'a>(
    asker: &Asker<'a>,
    args: &'a Args,
    asked: &mut Vec<Asked<'a>>,
) -> Result<(), AllocError>
    ensures ok { OnOk result (AddsAll asker.now.exceptions.now asker.now.params.now asker.now.name.now
        (filter_map plain_of (angle_of args.now)) asked.old.items asked.new.items) }
{
    match args {
        Args::Angle(angle) => append_all(asker, angle, asked),
        Args::None => Ok(()),
        Args::Round(_, _) => Ok(()),
    }
}

/// Adds what the types among the arguments need.
#[cycle(needs)]
fn append_all<'a>(
    asker: &Asker<'a>,
    angle: &'a AngleArgs,
    asked: &mut Vec<Asked<'a>>,
) -> Result<(), AllocError>
    ensures ok { OnOk result (AddsAll asker.now.exceptions.now asker.now.params.now asker.now.name.now
        (filter_map plain_of angle.now) asked.old.items asked.new.items) }
{
    for arg in angle.as_slice() {
        match arg {
            AngleArg::Plain(ty) => append_needs(asker, ty, asked)?,
            AngleArg::Lifetime(_) => {}
            AngleArg::Binding(_, _) => {}
            AngleArg::Constant(_) => {}
        }
    }
    Ok(())
}

/// The subjects of the predicates that the types need, in sequence (documentation of the crate
/// `educe`, Bounds).
pub fn needs_of<'a>(
    alloc: Global,
    asker: &Asker<'a>,
    types: &[&'a Ty],
) -> Result<Vec<Asked<'a>>, AllocError>
    ensures { IfOk result (λ asked. AddsAll asker.now.exceptions.now asker.now.params.now asker.now.name.now
        (types_of types.now) [] asked.items) }
{
    let mut asked = Vec::new(alloc);
    for ty in types {
        append_needs(asker, ty, &mut asked)?;
    }
    Ok(asked)
}
