//! The type parameters that a type names, collected in one pass.
ghost use Rattle.std.specs.Prelude.{◌≡◌, false, not, ◌&&◌, OnOk, OnErr};
ghost use Rattle.std.specs.Str.{bytes_eq};
ghost use Rattle.educe_bound_classes.specs.Classes.{names_in};
ghost use Rattle.educe_bound_classes.specs.Collects.{AddsWhere, Collects};
ghost use Rattle.educe_bound_classes.specs.Names.{params_of};
ghost use Rattle.educe_bound_classes.specs.Params.{is_type_param as is_type_param_of};
ghost use Rattle.educe_bound_classes.specs.Paths.{begins_with};
ghost use Rattle.educe_bound_classes.specs.Texts.{AddsTexts, KeepsTexts};
ghost use Rattle.educe_bound_classes.specs.Walk as spec;

use crate::exceptions::BoundExceptions;
use crate::idents::IdentSet;
use crate::params::{Names, ParamNames, is_type_param};
use educe_tokens::Boxed;
use educe_tree::{AngleArg, AngleArgs, Args, Params, Path, Paths, Segment, Ty, TypeForm, Types};
use std::alloc::{AllocError, Global};

/// Whether references are skipped, with `mut` or without it.
fn passes_reference(exceptions: &BoundExceptions, mutable: bool) -> bool
    ensures { result ≡ (not mutable && exceptions.now.shared_references) }
{
    !mutable && exceptions.shared_reference_is_unconditional
}

/// Adds the type parameters that the type names.
#[cycle(collect)]
fn collect_type<'a>(
    exceptions: &BoundExceptions,
    names: Names<'_, '_>,
    ty: &'a Ty,
    set: &mut IdentSet<'a>,
) -> Result<(), AllocError>
    ensures ok { OnOk result (Collects (params_of names.entry) exceptions.now (λ q. spec.in_type q ty.now) set.old set.new) }
    ensures keeps { KeepsTexts set.old set.new }
{
    collect_form(exceptions, names, &ty.form, set)
}

/// Adds the type parameters that the form of a type names.
#[cycle(collect)]
fn collect_form<'a>(
    exceptions: &BoundExceptions,
    names: Names<'_, '_>,
    form: &'a TypeForm,
    set: &mut IdentSet<'a>,
) -> Result<(), AllocError>
    ensures ok { OnOk result (Collects (params_of names.entry) exceptions.now (λ q. spec.in_form q form.now) set.old set.new) }
    ensures keeps { KeepsTexts set.old set.new }
{
    match form {
        TypeForm::Paren(ty) => collect_type(exceptions, names, ty.get(), set),
        TypeForm::Tuple(types) => collect_types(exceptions, names, types, set),
        TypeForm::Never => Ok(()),
        TypeForm::Reference(mutable, ty) => {
            if passes_reference(exceptions, *mutable) {
                return Ok(());
            }
            collect_type(exceptions, names, ty.get(), set)
        }
        TypeForm::Pointer(_) => Ok(()),
        TypeForm::Slice(ty) => collect_type(exceptions, names, ty.get(), set),
        TypeForm::Array(ty, _) => collect_type(exceptions, names, ty.get(), set),
        TypeForm::Path(self_type, path) => {
            collect_optional(exceptions, names, self_type, set)?;
            collect_path(exceptions, names, path, set)
        }
        TypeForm::FnPtr(_, _) => Ok(()),
        TypeForm::TraitObject(paths) => collect_paths(exceptions, names, paths, set),
    }
}

/// Adds the type parameters that the types name.
#[cycle(collect)]
fn collect_types<'a>(
    exceptions: &BoundExceptions,
    names: Names<'_, '_>,
    types: &'a Types,
    set: &mut IdentSet<'a>,
) -> Result<(), AllocError>
    ensures ok { OnOk result (Collects (params_of names.entry) exceptions.now (λ q. spec.in_types q types.now) set.old set.new) }
    ensures keeps { KeepsTexts set.old set.new }
{
    for ty in types.as_slice() {
        collect_type(exceptions, names, ty, set)?;
    }
    Ok(())
}

/// Adds the type parameters that the type names, if there is one.
#[cycle(collect)]
fn collect_optional<'a>(
    exceptions: &BoundExceptions,
    names: Names<'_, '_>,
    found: &'a Option<Boxed<Ty>>,
    set: &mut IdentSet<'a>,
) -> Result<(), AllocError>
    ensures ok { OnOk result (Collects (params_of names.entry) exceptions.now (λ q. spec.in_optional q found.now) set.old set.new) }
    ensures keeps { KeepsTexts set.old set.new }
{
    match found {
        Some(ty) => collect_type(exceptions, names, ty.get(), set),
        None => Ok(()),
    }
}

/// Adds the type parameters that the path names.
#[cycle(collect)]
fn collect_path<'a>(
    exceptions: &BoundExceptions,
    names: Names<'_, '_>,
    path: &'a Path,
    set: &mut IdentSet<'a>,
) -> Result<(), AllocError>
    ensures ok { OnOk result (Collects (params_of names.entry) exceptions.now (λ q. spec.in_path q false path.now) set.old set.new) }
    ensures keeps { KeepsTexts set.old set.new }
{
    if exceptions.is_unconditional_path(path, names) {
        return Ok(());
    }
    collect_first(names, path, set)?;
    collect_segments(exceptions, names, path.segments.as_slice(), set)
}

/// Adds the name of the first segment, where it is a type parameter.
fn collect_first<'a>(
    names: Names<'_, '_>,
    path: &'a Path,
    set: &mut IdentSet<'a>,
) -> Result<(), AllocError>
    ensures ok { OnOk result (AddsWhere (λ text. is_type_param_of (params_of names.entry) text && begins_with
        (λ name. bytes_eq text name) path.now) set.old set.new) }
    ensures keeps { KeepsTexts set.old set.new }
{
    match path.segments.as_slice().first() {
        Some(first) => {
            if !path.leading && is_type_param(names, &first.ident.text) {
                set.insert(&first.ident.text)?;
            }
            Ok(())
        }
        None => Ok(()),
    }
}

/// Adds the type parameters that the arguments of segments name.
#[cycle(collect)]
fn collect_segments<'a>(
    exceptions: &BoundExceptions,
    names: Names<'_, '_>,
    segments: &'a [Segment],
    set: &mut IdentSet<'a>,
) -> Result<(), AllocError>
    ensures ok { OnOk result (Collects (params_of names.entry) exceptions.now (λ q. spec.in_segments q segments.now) set.old set.new) }
    ensures keeps { KeepsTexts set.old set.new }
{
    for segment in segments {
        collect_args(exceptions, names, &segment.args, set)?;
    }
    Ok(())
}

/// Adds the type parameters that the paths name.
#[cycle(collect)]
fn collect_paths<'a>(
    exceptions: &BoundExceptions,
    names: Names<'_, '_>,
    paths: &'a Paths,
    set: &mut IdentSet<'a>,
) -> Result<(), AllocError>
    ensures ok { OnOk result (Collects (params_of names.entry) exceptions.now (λ q. spec.in_paths q paths.now) set.old set.new) }
    ensures keeps { KeepsTexts set.old set.new }
{
    for path in paths.as_slice() {
        collect_path(exceptions, names, path, set)?;
    }
    Ok(())
}

/// Adds the type parameters that the arguments of a segment name.
#[cycle(collect)]
fn collect_args<'a>(
    exceptions: &BoundExceptions,
    names: Names<'_, '_>,
    args: &'a Args,
    set: &mut IdentSet<'a>,
) -> Result<(), AllocError>
    ensures ok { OnOk result (Collects (params_of names.entry) exceptions.now (λ q. spec.in_args q args.now) set.old set.new) }
    ensures keeps { KeepsTexts set.old set.new }
{
    match args {
        Args::None => Ok(()),
        Args::Angle(angle) => collect_angle(exceptions, names, angle, set),
        Args::Round(inputs, output) => {
            collect_types(exceptions, names, inputs, set)?;
            collect_optional(exceptions, names, output, set)
        }
    }
}

/// Adds the type parameters that the arguments in angle brackets name.
#[cycle(collect)]
fn collect_angle<'a>(
    exceptions: &BoundExceptions,
    names: Names<'_, '_>,
    angle: &'a AngleArgs,
    set: &mut IdentSet<'a>,
) -> Result<(), AllocError>
    ensures ok { OnOk result (Collects (params_of names.entry) exceptions.now (λ q. spec.in_angle q angle.now) set.old set.new) }
    ensures keeps { KeepsTexts set.old set.new }
{
    for arg in angle.as_slice() {
        collect_arg(exceptions, names, arg, set)?;
    }
    Ok(())
}

/// Adds the type parameters that one generic argument names.
#[cycle(collect)]
fn collect_arg<'a>(
    exceptions: &BoundExceptions,
    names: Names<'_, '_>,
    arg: &'a AngleArg,
    set: &mut IdentSet<'a>,
) -> Result<(), AllocError>
    ensures ok { OnOk result (Collects (params_of names.entry) exceptions.now (λ q. spec.in_arg q arg.now) set.old set.new) }
    ensures keeps { KeepsTexts set.old set.new }
{
    match arg {
        AngleArg::Lifetime(_) => Ok(()),
        AngleArg::Plain(ty) => collect_type(exceptions, names, ty, set),
        AngleArg::Binding(_, ty) => collect_type(exceptions, names, ty, set),
        AngleArg::Constant(_) => Ok(()),
    }
}

/// Adds the texts of the type parameters that a type names, which are found by their names.
pub(crate) fn add_idents<'a>(
    exceptions: &BoundExceptions,
    names: Names<'_, '_>,
    ty: &'a Ty,
    set: &mut IdentSet<'a>,
) -> Result<(), AllocError>
    ensures ok { OnOk result (AddsTexts (names_in (params_of names.entry) exceptions.now ty.now) set.old set.new) }
    ensures keeps { KeepsTexts set.old set.new }
{
    collect_type(exceptions, names, ty, set)
}

/// Adds the names of the type parameters that a type names outside of what needs no predicate by
/// these exceptions: for these a type asks that mentions the derived type (documentation of the
/// crate `educe`, Bounds).
pub fn find_idents_in_type<'a>(
    alloc: Global,
    set: &mut IdentSet<'a>,
    ty: &'a Ty,
    exceptions: &BoundExceptions,
    params: &'a Params,
) -> Result<(), AllocError>
    ensures ok { OnOk result (AddsTexts (names_in params.now exceptions.now ty.now) set.old set.new) }
    ensures err { OnErr result (KeepsTexts set.old set.new) }
{
    let names = ParamNames::new(alloc, params)?;
    add_idents(exceptions, Names::Sorted(&names), ty, set)
}
