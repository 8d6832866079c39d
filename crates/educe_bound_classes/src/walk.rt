//! The search in types: for paths, and for words in array lengths and constants.
ghost use Rattle.std.specs.Prelude.{◌≡◌};
ghost use Rattle.educe_bound_classes.specs.Names.{params_of};
ghost use Rattle.educe_bound_classes.specs.Questions.{uses_params as uses_params_of};
ghost use Rattle.educe_bound_classes.specs.Sought.{sought_by};
ghost use Rattle.educe_bound_classes.specs.Classes.{mentions_named};
ghost use Rattle.educe_bound_classes.specs.Walk as spec;

use crate::params::Names;
use crate::sought::{Sought, is_sought_at, is_sought_in};
use educe_tokens::Boxed;
use educe_tree::{AngleArg, AngleArgs, Args, Ident, Params, Path, Paths, Ty, TypeForm, Types};

/// Whether the answer is yes somewhere in the type.
#[cycle(walk)]
#[tactic(auto, using(crate::proofs::Walks::walk_laws))]
pub fn in_type(sought: Sought<'_, '_>, ty: &Ty) -> bool
    ensures { result ≡ spec.in_type (sought_by sought.entry) ty.now }
{
    in_form(sought, &ty.form)
}

/// Whether the answer is yes somewhere in the form of a type.
#[cycle(walk)]
#[tactic(auto, using(crate::proofs::Walks::walk_laws))]
fn in_form(sought: Sought<'_, '_>, form: &TypeForm) -> bool
    ensures { result ≡ spec.in_form (sought_by sought.entry) form.now }
{
    match form {
        TypeForm::Paren(ty) => in_type(sought, ty.get()),
        TypeForm::Tuple(types) => in_types(sought, types),
        TypeForm::Never => false,
        TypeForm::Reference(_, ty) => in_type(sought, ty.get()),
        TypeForm::Pointer(ty) => in_type(sought, ty.get()),
        TypeForm::Slice(ty) => in_type(sought, ty.get()),
        TypeForm::Array(ty, length) => is_sought_in(sought, length) || in_type(sought, ty.get()),
        TypeForm::Path(self_type, path) => {
            in_optional(sought, self_type) || in_path(sought, self_type.is_some(), path)
        }
        TypeForm::FnPtr(inputs, output) => {
            in_types(sought, inputs) || in_optional(sought, output)
        }
        TypeForm::TraitObject(paths) => in_paths(sought, paths),
    }
}

/// Whether the answer is yes somewhere in one of the types.
#[cycle(walk)]
#[tactic(auto, using(crate::proofs::Walks::walk_laws))]
fn in_types(sought: Sought<'_, '_>, types: &Types) -> bool
    ensures { result ≡ spec.in_types (sought_by sought.entry) types.now }
{
    for ty in types.as_slice() {
        if in_type(sought, ty) {
            return true;
        }
    }
    false
}

/// Whether the answer is yes somewhere in the type, if there is one.
#[cycle(walk)]
#[tactic(auto, using(crate::proofs::Walks::walk_laws))]
fn in_optional(sought: Sought<'_, '_>, found: &Option<Boxed<Ty>>) -> bool
    ensures { result ≡ spec.in_optional (sought_by sought.entry) found.now }
{
    match found {
        Some(ty) => in_type(sought, ty.get()),
        None => false,
    }
}

/// Whether the answer is yes somewhere in the path, which may follow a self type.
#[cycle(walk)]
#[tactic(auto, using(crate::proofs::Walks::walk_laws))]
fn in_path(sought: Sought<'_, '_>, behind: bool, path: &Path) -> bool
    ensures { result ≡ spec.in_path (sought_by sought.entry) behind path.now }
{
    if is_sought_at(sought, behind, path) {
        return true;
    }
    for segment in path.segments.as_slice() {
        if in_args(sought, &segment.args) {
            return true;
        }
    }
    false
}

/// Whether the answer is yes somewhere in one of the paths.
#[cycle(walk)]
#[tactic(auto, using(crate::proofs::Walks::walk_laws))]
fn in_paths(sought: Sought<'_, '_>, paths: &Paths) -> bool
    ensures { result ≡ spec.in_paths (sought_by sought.entry) paths.now }
{
    for path in paths.as_slice() {
        if in_path(sought, false, path) {
            return true;
        }
    }
    false
}

/// Whether the answer is yes somewhere in the arguments of a segment.
#[cycle(walk)]
#[tactic(auto, using(crate::proofs::Walks::walk_laws))]
fn in_args(sought: Sought<'_, '_>, args: &Args) -> bool
    ensures { result ≡ spec.in_args (sought_by sought.entry) args.now }
{
    match args {
        Args::None => false,
        Args::Angle(angle) => in_angle(sought, angle),
        Args::Round(inputs, output) => { in_types(sought, inputs) || in_optional(sought, output) }
    }
}

/// Whether the answer is yes somewhere in the arguments in angle brackets.
#[cycle(walk)]
#[tactic(auto, using(crate::proofs::Walks::walk_laws))]
fn in_angle(sought: Sought<'_, '_>, angle: &AngleArgs) -> bool
    ensures { result ≡ spec.in_angle (sought_by sought.entry) angle.now }
{
    for arg in angle.as_slice() {
        if in_arg(sought, arg) {
            return true;
        }
    }
    false
}

/// Whether the answer is yes somewhere in one generic argument.
#[cycle(walk)]
#[tactic(auto, using(crate::proofs::Walks::walk_laws))]
fn in_arg(sought: Sought<'_, '_>, arg: &AngleArg) -> bool
    ensures { result ≡ spec.in_arg (sought_by sought.entry) arg.now }
{
    match arg {
        AngleArg::Lifetime(_) => false,
        AngleArg::Plain(ty) => in_type(sought, ty),
        AngleArg::Binding(_, ty) => in_type(sought, ty),
        AngleArg::Constant(written) => is_sought_in(sought, written),
    }
}

/// Whether the type uses type or const parameters.
pub(crate) fn uses_params(names: Names<'_, '_>, ty: &Ty) -> bool
    ensures { result ≡ uses_params_of (params_of names.entry) ty.now }
{
    in_type(Sought::Parameter(names), ty)
}

/// Whether the type uses type or const parameters (documentation of the crate `educe`, Bounds).
pub fn type_uses_generic_params(ty: &Ty, params: &Params) -> bool
    ensures { result ≡ uses_params_of params.now ty.now }
{
    uses_params(Names::Listed(params), ty)
}

/// Whether the type mentions the derived type of this name (documentation of the crate `educe`,
/// Bounds).
pub fn type_mentions_ident(ty: &Ty, ident: &Ident, params: &Params) -> bool
    ensures { result ≡ mentions_named params.now ident.now.text ty.now }
{
    in_type(Sought::Derived(Names::Listed(params), &ident.text), ty)
}
