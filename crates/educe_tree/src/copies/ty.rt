//! Copies of types.
ghost use Rattle.std.specs.Prelude.{◌≡◌, IfOk};

use crate::copies::duplicate::Duplicate;
use crate::copies::path::{duplicate_path, duplicate_paths};
use crate::ty::{Ty, TypeForm, Types};
use educe_tokens::{Boxed, Seq, pair};
use std::alloc::{AllocError, Global};

/// An equal type in memory of its own.
#[cycle(duplicate)]
pub fn duplicate_ty(alloc: Global, ty: &Ty) -> Result<Ty, AllocError>
    ensures { IfOk result (λ copy. copy ≡ ty.now) }
{
    let form = duplicate_form(alloc, &ty.form)?;
    let (form, written) = pair(form, ty.written.duplicate())?;
    Ok(Ty { form, written })
}

/// An equal form in memory of its own.
#[cycle(duplicate)]
fn duplicate_form(alloc: Global, form: &TypeForm) -> Result<TypeForm, AllocError>
    ensures { IfOk result (λ copy. copy ≡ form.now) }
{
    match form {
        TypeForm::Paren(ty) => Ok(TypeForm::Paren(duplicate_boxed(alloc, ty)?)),
        TypeForm::Tuple(types) => Ok(TypeForm::Tuple(duplicate_types(alloc, types)?)),
        TypeForm::Never => Ok(TypeForm::Never),
        TypeForm::Reference(mutable, ty) => {
            Ok(TypeForm::Reference(*mutable, duplicate_boxed(alloc, ty)?))
        }
        TypeForm::Pointer(ty) => Ok(TypeForm::Pointer(duplicate_boxed(alloc, ty)?)),
        TypeForm::Slice(ty) => Ok(TypeForm::Slice(duplicate_boxed(alloc, ty)?)),
        TypeForm::Array(ty, length) => {
            let length = length.duplicate()?;
            Ok(TypeForm::Array(duplicate_boxed(alloc, ty)?, length))
        }
        TypeForm::Path(self_type, path) => {
            let path = duplicate_path(alloc, path)?;
            Ok(TypeForm::Path(duplicate_optional(alloc, self_type)?, path))
        }
        TypeForm::FnPtr(inputs, output) => {
            let inputs = duplicate_types(alloc, inputs)?;
            let output = duplicate_optional(alloc, output)?;
            Ok(TypeForm::FnPtr(inputs, output))
        }
        TypeForm::TraitObject(paths) => {
            Ok(TypeForm::TraitObject(duplicate_paths(alloc, paths)?))
        }
    }
}

/// Equal types in memory of their own.
#[cycle(duplicate)]
pub fn duplicate_types(alloc: Global, types: &Types) -> Result<Types, AllocError>
    ensures { IfOk result (λ copies. copies ≡ types.now) }
{
    let mut copies = Seq::new(alloc);
    for ty in types.as_slice() {
        copies.push(duplicate_ty(alloc, ty)?)?;
    }
    Ok(copies)
}

/// An equal type on the heap.
#[cycle(duplicate)]
fn duplicate_boxed(alloc: Global, ty: &Boxed<Ty>) -> Result<Boxed<Ty>, AllocError>
    ensures { IfOk result (λ copy. copy ≡ ty.now) }
{
    let ty = duplicate_ty(alloc, ty.get())?;
    Boxed::new(alloc, ty)
}

/// An equal type on the heap, where there is one.
#[cycle(duplicate)]
pub fn duplicate_optional(
    alloc: Global,
    found: &Option<Boxed<Ty>>,
) -> Result<Option<Boxed<Ty>>, AllocError>
    ensures { IfOk result (λ copy. copy ≡ found.now) }
{
    match found {
        Some(ty) => {
            let ty = duplicate_ty(alloc, ty.get())?;
            Ok(Some(Boxed::new(alloc, ty)?))
        }
        None => Ok(None),
    }
}

impl Duplicate for Ty {
    fn duplicate(&self, alloc: Global) -> Result<Ty, AllocError> {
        duplicate_ty(alloc, self)
    }
}

impl Duplicate for TypeForm {
    fn duplicate(&self, alloc: Global) -> Result<TypeForm, AllocError> {
        duplicate_form(alloc, self)
    }
}
