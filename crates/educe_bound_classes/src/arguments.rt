//! The arguments of the segments of paths.
ghost use Rattle.std.specs.Prelude.{◌≡◌, IfOk, count_by};
ghost use Rattle.std.specs.List.{filter_map};
ghost use Rattle.educe_bound_classes.specs.Asked.{types_of};
ghost use Rattle.educe_bound_classes.specs.Classes as spec;

use educe_tree::{AngleArg, AngleArgs, Args, Ty};
use std::alloc::{AllocError, Global};

/// Whether the argument is a type.
#[tactic(auto, unfolding(crate::specs::Classes::is_plain))]
fn is_plain(arg: &AngleArg) -> bool
    ensures { result ≡ spec.is_plain arg.now }
{
    match arg {
        AngleArg::Plain(_) => true,
        _ => false,
    }
}

/// How many of the arguments are types.
fn plain_count(angle: &AngleArgs) -> usize
    ensures { result ≡ count_by spec.is_plain angle.now }
{
    let mut count = 0;
    for arg in angle.as_slice() {
        if is_plain(arg) {
            count += 1;
        }
    }
    count
}

/// How many types stand among the arguments in angle brackets.
#[tactic(auto, using(crate::proofs::ClassLaws::class_laws))]
pub fn type_count(args: &Args) -> usize
    ensures { result ≡ spec.type_count args.now }
{
    match args {
        Args::Angle(angle) => plain_count(angle),
        _ => 0,
    }
}

/// Whether there is an angle list.
pub fn has_angle(args: &Args) -> bool
    ensures { result ≡ spec.has_angle args.now }
{
    match args {
        Args::Angle(_) => true,
        _ => false,
    }
}

/// The types among the arguments in angle brackets.
pub fn args_types<'a>(alloc: Global, args: &'a Args) -> Result<Vec<&'a Ty>, AllocError>
    ensures { IfOk result (λ types. types_of types.items ≡ filter_map spec.plain_of (spec.angle_of args.now)) }
{
    match args {
        Args::Angle(angle) => plain_types(alloc, angle),
        _ => Ok(Vec::new(alloc)),
    }
}

/// The types among the arguments.
fn plain_types<'a>(alloc: Global, angle: &'a AngleArgs) -> Result<Vec<&'a Ty>, AllocError>
    ensures { IfOk result (λ types. types_of types.items ≡ filter_map spec.plain_of angle.now) }
{
    let mut types = Vec::new(alloc);
    for arg in angle.as_slice() {
        match arg {
            AngleArg::Plain(ty) => types.push(ty)?,
            AngleArg::Lifetime(_) => {}
            AngleArg::Binding(_, _) => {}
            AngleArg::Constant(_) => {}
        }
    }
    Ok(types)
}
