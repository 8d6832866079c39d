//! The block of `clone_from`.
ghost use Rattle.std.specs.Prelude.{◌≡◌, length, map, List, false, IfOk};
ghost use Rattle.std.specs.List.{AllZip};
ghost use Rattle.educe_tokens.specs.Appends.{no_place};
ghost use Rattle.educe_syntax.specs.DeriveInput.{DeriveInput};
ghost use Rattle.educe_syntax.specs.FieldShape.{FieldShape};
ghost use Rattle.educe_syntax.specs.Variant.{Variant};
ghost use Rattle.educe_body_values.specs.BuiltIn.{IsBuiltIn};
ghost use Rattle.educe_body_values.specs.declared.callee.BuiltIn.TheVariants as built_in;
ghost use Rattle.educe_bound_traits.specs.declared.traits.Trait.TheVariants.{Clone};
ghost use Rattle.educe_settings.specs.Ranked.{how_of, kept_of};
ghost use Rattle.educe_settings.specs.Cases.{fields_in};
ghost use Rattle.educe_meaning.specs.CloneBodies as spec;
ghost use Rattle.educe_settings.specs.Packed.{AreCopied};
ghost use Rattle.educe_settings.specs.Settings.{settings_of, kept_fields};
ghost use Rattle.educe_make_clone.specs.CloneNames.{names_of};
ghost use Rattle.educe_make_clone.specs.ClonePaths.{AreClonePaths};
ghost use Rattle.educe_make_clone.specs.FromArms.{IsFromArmBlock};

use crate::clone_body::match_on_self;
use crate::clone_names::CloneNames;
use crate::clone_paths::{ClonePaths, assigning};
use educe_attrs::FieldSettings;
use educe_body::{Arm, Arms, Form, Forms, Shared, binding, key_word};
use educe_handlers::{Reading, block_of, called, pattern, read, same_name};
use educe_settings::{How, Ranked};
use educe_syntax::{ExprPath, Ident, Variant};
use educe_tokens::{Boxed, Seq};
use std::alloc::{AllocError, Global};

/// Whether the call for a field that is treated so is handed the field that it changes.
fn hands_over(copied: bool, how: How<'_>) -> bool
    ensures { result ≡ spec.hands_over copied (how_of how.entry) }
{
    match how {
        How::Plainly => !copied,
        How::ByMethod(_) => false,
        How::ByOrder(_) => false,
    }
}

/// The step on a field of a struct. The path is the one that is called where the field has no method.
fn assignment(
    alloc: Global,
    plain: &Shared<ExprPath>,
    source: &Ident,
    copied: bool,
    ranked: &Ranked<'_, '_>,
) -> Result<Form, AllocError>
    requires plain { IsBuiltIn (spec.assigning copied) plain.now }
    requires nowhere { source.now.span ≡ no_place }
    ensures { IfOk result (spec.IsAssignment copied source.now.text (kept_of ranked.now)) }
{
    let key = key_word(alloc, ranked.place, ranked.field)?;
    let path = called(alloc, ranked.how, plain)?;
    let read = read(alloc, Reading::OfBase(source, copied), ranked)?;
    let read = Boxed::new(alloc, read)?;
    let handed = hands_over(copied, ranked.how);
    Ok(Form::AssignField(key, path, read, handed))
}

/// The steps on fields of a struct.
fn assignments(
    alloc: Global,
    plain: &Shared<ExprPath>,
    source: &Ident,
    copied: bool,
    fields: &[Ranked<'_, '_>],
) -> Result<Forms, AllocError>
    requires plain { IsBuiltIn (spec.assigning copied) plain.now }
    requires nowhere { source.now.span ≡ no_place }
    ensures { IfOk result (λ block. AllZip (spec.IsAssignment copied source.now.text) (map kept_of fields.now) block) }
{
    let mut block = Seq::with_capacity(alloc, fields.len())?;
    for ranked in fields {
        block.push(assignment(alloc, plain, source, copied, ranked)?)?;
    }
    Ok(block)
}

/// `let _ = source;`
fn discard(alloc: Global, source: &Ident) -> Result<Forms, AllocError>
    requires { source.now.span ≡ no_place }
    ensures { IfOk result (spec.IsDiscard source.now.text) }
{
    let name = same_name(alloc, source)?;
    block_of(alloc, Form::Discard(name))
}

/// The block for a struct, whose fields are read by copies where they have to be.
pub fn from_struct(
    alloc: Global,
    paths: &ClonePaths,
    names: &CloneNames,
    fields: &[Ranked<'_, '_>],
    copied: bool,
) -> Result<Forms, AllocError>
    requires { AreClonePaths paths.now }
    ensures { (definition : DeriveInput) (shape : FieldShape) → AreCopied definition copied → map kept_of fields.now ≡ kept_fields Clone definition shape.fields →
        IfOk result (spec.IsFromStruct definition (names_of names.now) shape) }
{
    if fields.len() == 0 {
        discard(alloc, &names.source)
    } else {
        let plain = assigning(paths, copied);
        assignments(alloc, plain, &names.source, copied, fields)
    }
}

/// The step on a field of a variant. The path is that of `Clone::clone_from`.
fn through(
    alloc: Global,
    plain: &Shared<ExprPath>,
    names: &CloneNames,
    ranked: &Ranked<'_, '_>,
) -> Result<Form, AllocError>
    requires { IsBuiltIn built_in.CloneFrom plain.now }
    ensures { IfOk result (spec.IsThrough (names_of names.now) (kept_of ranked.now)) }
{
    let target = binding(alloc, names.own.as_str(), ranked.place, ranked.field)?;
    let path = called(alloc, ranked.how, plain)?;
    let read = read(alloc, Reading::Bound(&names.sources), ranked)?;
    let read = Boxed::new(alloc, read)?;
    let handed = hands_over(false, ranked.how);
    Ok(Form::AssignThrough(target, path, read, handed))
}

/// The steps on fields of a variant.
fn throughs(
    alloc: Global,
    plain: &Shared<ExprPath>,
    names: &CloneNames,
    fields: &[Ranked<'_, '_>],
) -> Result<Forms, AllocError>
    requires { IsBuiltIn built_in.CloneFrom plain.now }
    ensures { IfOk result (λ steps. AllZip (spec.IsThrough (names_of names.now)) (map kept_of fields.now) steps) }
{
    let mut steps = Seq::with_capacity(alloc, fields.len())?;
    for ranked in fields {
        steps.push(through(alloc, plain, names, ranked)?)?;
    }
    Ok(steps)
}

/// `*self = ::core::clone::Clone::clone(source);`
fn whole(alloc: Global, plain: &Shared<ExprPath>, source: &Ident) -> Result<Form, AllocError>
    requires plain { IsBuiltIn built_in.Clone plain.now }
    requires nowhere { source.now.span ≡ no_place }
    ensures { IfOk result (spec.IsWhole source.now.text) }
{
    let target = Ident::from_name(alloc, "self")?;
    let name = same_name(alloc, source)?;
    let path = plain.duplicate()?;
    let read = Boxed::new(alloc, Form::Local(name))?;
    Ok(Form::AssignThrough(target, path, read, false))
}

/// What an arm does: if the source is of this variant, the steps on these fields, and else it is cloned
/// as a whole.
fn arm_block(
    alloc: Global,
    paths: &ClonePaths,
    names: &CloneNames,
    variant: &Variant,
    settings: &[FieldSettings],
    fields: &[Ranked<'_, '_>],
) -> Result<Forms, AllocError>
    requires paths { AreClonePaths paths.now }
    requires each { length settings.now ≡ length (fields_in variant.now) }
    ensures { IfOk result (IsFromArmBlock (names_of names.now) variant.now settings.now (map kept_of fields.now)) }
{
    let inner = pattern(alloc, &names.sources, variant, settings)?;
    let value = same_name(alloc, &names.source)?;
    let steps = throughs(alloc, &paths.clone_from, names, fields)?;
    let whole = whole(alloc, &paths.clone, &names.source)?;
    let others = block_of(alloc, whole)?;
    block_of(alloc, Form::IfLet(inner, value, steps, Some(others)))
}

/// The arm of a variant with these fields.
pub fn from_arm(
    alloc: Global,
    paths: &ClonePaths,
    names: &CloneNames,
    variant: &Variant,
    settings: &[FieldSettings],
    fields: &[Ranked<'_, '_>],
) -> Result<Arm, AllocError>
    requires paths { AreClonePaths paths.now }
    requires each { length settings.now ≡ length (fields_in variant.now) }
    ensures { (definition : DeriveInput) →
        settings.now ≡ map (settings_of Clone definition) (fields_in variant.now) →
        map kept_of fields.now ≡ kept_fields Clone definition (fields_in variant.now) →
        IfOk result (spec.IsFromArm definition (names_of names.now) variant.now) }
{
    let pattern = pattern(alloc, &names.own, variant, settings)?;
    let block = arm_block(alloc, paths, names, variant, settings, fields)?;
    Ok(Arm {
        pattern,
        braced: true,
        comma: true,
        block,
    })
}

/// The block for an enum with these arms; without variants there is no value.
pub fn from_enum(alloc: Global, names: &CloneNames, arms: Arms) -> Result<Forms, AllocError>
    ensures { (definition : DeriveInput) (variants : List Variant) →
        AllZip (spec.IsFromArm definition (names_of names.now)) variants arms →
        IfOk result (spec.IsFromEnum definition (names_of names.now) variants) }
{
    if arms.len() == 0 {
        discard(alloc, &names.source)
    } else {
        match_on_self(alloc, arms)
    }
}
