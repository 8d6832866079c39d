//! Copies of paths.
ghost use Rattle.std.specs.Prelude.{◌≡◌, IfOk};

use crate::copies::duplicate::Duplicate;
use crate::copies::ty::{duplicate_optional, duplicate_ty, duplicate_types};
use crate::path::{AngleArg, AngleArgs, Args, Path, Paths, Segment};
use educe_tokens::Seq;
use std::alloc::{AllocError, Global};

/// An equal path in memory of its own.
#[cycle(duplicate)]
pub fn duplicate_path(alloc: Global, path: &Path) -> Result<Path, AllocError>
    ensures { IfOk result (λ copy. copy ≡ path.now) }
{
    let mut segments = Seq::new(alloc);
    for segment in path.segments.as_slice() {
        segments.push(duplicate_segment(alloc, segment)?)?;
    }
    Ok(Path {
        leading: path.leading,
        segments,
    })
}

/// An equal segment in memory of its own.
#[cycle(duplicate)]
fn duplicate_segment(alloc: Global, segment: &Segment) -> Result<Segment, AllocError>
    ensures { IfOk result (λ copy. copy ≡ segment.now) }
{
    let ident = segment.ident.duplicate(alloc)?;
    let args = duplicate_args(alloc, &segment.args)?;
    Ok(Segment { ident, args })
}

/// Equal arguments in memory of their own.
#[cycle(duplicate)]
fn duplicate_args(alloc: Global, args: &Args) -> Result<Args, AllocError>
    ensures { IfOk result (λ copies. copies ≡ args.now) }
{
    match args {
        Args::None => Ok(Args::None),
        Args::Angle(angle) => Ok(Args::Angle(duplicate_angle_args(alloc, angle)?)),
        Args::Round(inputs, output) => {
            let inputs = duplicate_types(alloc, inputs)?;
            let output = duplicate_optional(alloc, output)?;
            Ok(Args::Round(inputs, output))
        }
    }
}

/// An equal argument in memory of its own.
#[cycle(duplicate)]
fn duplicate_angle_arg(alloc: Global, arg: &AngleArg) -> Result<AngleArg, AllocError>
    ensures { IfOk result (λ copy. copy ≡ arg.now) }
{
    match arg {
        AngleArg::Lifetime(lifetime) => Ok(AngleArg::Lifetime(lifetime.duplicate(alloc)?)),
        AngleArg::Plain(ty) => Ok(AngleArg::Plain(duplicate_ty(alloc, ty)?)),
        AngleArg::Binding(ident, ty) => {
            let ident = ident.duplicate(alloc)?;
            let ty = duplicate_ty(alloc, ty)?;
            Ok(AngleArg::Binding(ident, ty))
        }
        AngleArg::Constant(written) => Ok(AngleArg::Constant(written.duplicate()?)),
    }
}

/// Equal arguments in memory of their own.
#[cycle(duplicate)]
fn duplicate_angle_args(alloc: Global, angle: &AngleArgs) -> Result<AngleArgs, AllocError>
    ensures { IfOk result (λ copies. copies ≡ angle.now) }
{
    let mut copies = Seq::new(alloc);
    for arg in angle.as_slice() {
        copies.push(duplicate_angle_arg(alloc, arg)?)?;
    }
    Ok(copies)
}

/// Equal paths in memory of their own.
#[cycle(duplicate)]
pub fn duplicate_paths(alloc: Global, paths: &Paths) -> Result<Paths, AllocError>
    ensures { IfOk result (λ copies. copies ≡ paths.now) }
{
    let mut copies = Seq::new(alloc);
    for path in paths.as_slice() {
        copies.push(duplicate_path(alloc, path)?)?;
    }
    Ok(copies)
}

impl Duplicate for Path {
    fn duplicate(&self, alloc: Global) -> Result<Path, AllocError> {
        duplicate_path(alloc, self)
    }
}

impl Duplicate for Segment {
    fn duplicate(&self, alloc: Global) -> Result<Segment, AllocError> {
        duplicate_segment(alloc, self)
    }
}

impl Duplicate for Args {
    fn duplicate(&self, alloc: Global) -> Result<Args, AllocError> {
        duplicate_args(alloc, self)
    }
}

impl Duplicate for AngleArg {
    fn duplicate(&self, alloc: Global) -> Result<AngleArg, AllocError> {
        duplicate_angle_arg(alloc, self)
    }
}
