//! The steps of `hash`: each feeds something to the hasher.
ghost use Rattle.std.specs.Prelude.{◌≡◌, map, IfOk};
ghost use Rattle.educe_tokens.specs.Appends.{no_place};
ghost use Rattle.educe_body_values.specs.BuiltIn.{IsBuiltIn};
ghost use Rattle.educe_body_values.specs.declared.callee.BuiltIn.TheVariants.{Hash};
ghost use Rattle.educe_settings.specs.Ranked.{how_of, kept_of};
ghost use Rattle.educe_handlers.specs.Readings.{reading_of, CanRead};
ghost use Rattle.educe_meaning.specs.HashBodies as spec;

use educe_body::{BuiltIn, Form, Forms, Position, Shared, built_in_path};
use educe_handlers::{Reading, block_of, called, read, same_name};
use educe_settings::{How, Ranked};
use educe_syntax::{ExprPath, Ident};
use educe_tokens::{Boxed, Seq};
use std::alloc::{AllocError, Global};

/// The path of `Hash::hash`, which every step without a method calls.
pub fn hash_path(alloc: Global) -> Result<Shared<ExprPath>, AllocError>
    ensures { IfOk result (IsBuiltIn Hash) }
{
    let path = built_in_path(alloc, BuiltIn::Hash)?;
    Shared::new(alloc, path)
}

/// A call that feeds what a form gives to the hasher: `path(fed, state);`
fn feed(
    alloc: Global,
    plain: &Shared<ExprPath>,
    state: &Ident,
    how: How<'_>,
    fed: Form,
) -> Result<Form, AllocError>
    requires plain { IsBuiltIn Hash plain.now }
    requires nowhere { state.now.span ≡ no_place }
    ensures { IfOk result (spec.Feeds state.now.text (how_of how.entry) fed) }
{
    let mut arguments = block_of(alloc, fed)?;
    arguments.push(Form::Local(same_name(alloc, state)?))?;
    let path = called(alloc, how, plain)?;
    let call = Form::Call(path, arguments);
    Ok(Form::HashPart(Boxed::new(alloc, call)?))
}

/// The step on the place of a variant.
pub fn place_step(
    alloc: Global,
    plain: &Shared<ExprPath>,
    state: &Ident,
    place: usize,
) -> Result<Form, AllocError>
    requires plain { IsBuiltIn Hash plain.now }
    requires nowhere { state.now.span ≡ no_place }
    ensures { IfOk result (spec.IsPlaceStep state.now.text place) }
{
    let position = Form::Position(Position { place });
    feed(alloc, plain, state, How::Plainly, position)
}

/// The step on a field, which is read so.
fn step(
    alloc: Global,
    plain: &Shared<ExprPath>,
    state: &Ident,
    reading: Reading<'_>,
    ranked: &Ranked<'_, '_>,
) -> Result<Form, AllocError>
    requires plain { IsBuiltIn Hash plain.now }
    requires nowhere { state.now.span ≡ no_place }
    requires reading { CanRead reading }
    ensures { IfOk result (spec.IsHashStep state.now.text (reading_of reading.entry) (kept_of ranked.now)) }
{
    let fed = read(alloc, reading, ranked)?;
    feed(alloc, plain, state, ranked.how, fed)
}

/// A step on each field, which is read so.
pub fn steps(
    alloc: Global,
    plain: &Shared<ExprPath>,
    state: &Ident,
    reading: Reading<'_>,
    fields: &[Ranked<'_, '_>],
) -> Result<Forms, AllocError>
    requires plain { IsBuiltIn Hash plain.now }
    requires nowhere { state.now.span ≡ no_place }
    requires reading { CanRead reading }
    ensures { IfOk result (spec.AreHashSteps state.now.text (reading_of reading.entry) (map kept_of fields.now)) }
{
    let mut block = Seq::with_capacity(alloc, fields.len())?;
    for ranked in fields {
        block.push(step(alloc, plain, state, reading, ranked)?)?;
    }
    Ok(block)
}
