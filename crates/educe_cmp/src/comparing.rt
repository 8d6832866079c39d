//! The steps of the traits that compare two values.
ghost use Rattle.std.specs.Prelude.{◌≡◌, IfOk, map};
ghost use Rattle.educe_body_values.specs.BuiltIn.{IsBuiltIn};
ghost use Rattle.educe_settings.specs.Ranked.{how_of, kept_of};
ghost use Rattle.educe_handlers.specs.Readings.{reading_of, CanRead};
ghost use Rattle.educe_meaning.specs.Comparing as meaning;
ghost use Rattle.educe_meaning.specs.Steps as spec;

use educe_body::{BuiltIn, Comparison, Form, Forms, Known, Shared, built_in_path};
use educe_handlers::{Reading, called, read};
use educe_settings::{How, Ranked};
use educe_syntax::ExprPath;
use educe_tokens::{Boxed, Seq};
use std::alloc::{AllocError, Global};
use std::cmp::Ordering;

/// The function of the core library by which a trait compares two values of a field.
fn comparison(which: Comparison) -> BuiltIn
    ensures { result ≡ meaning.comparison which }
{
    match which {
        Comparison::PartialEq => BuiltIn::Ne,
        Comparison::PartialOrd => BuiltIn::PartialCmp,
        Comparison::Ord => BuiltIn::Cmp,
    }
}

/// The path of that function, which every step without a method calls.
pub fn comparison_path(alloc: Global, which: Comparison) -> Result<Shared<ExprPath>, AllocError>
    ensures { IfOk result (IsBuiltIn (meaning.comparison which)) }
{
    let path = built_in_path(alloc, comparison(which))?;
    Shared::new(alloc, path)
}

/// A call that compares a field of both values: `path(&self.key, &other.key)`, or of its two
/// variables.
fn compared(
    alloc: Global,
    which: Comparison,
    plain: &Shared<ExprPath>,
    own: Reading<'_>,
    others: Reading<'_>,
    ranked: &Ranked<'_, '_>,
) -> Result<Form, AllocError>
    requires plain { IsBuiltIn (meaning.comparison which) plain.now }
    requires own { CanRead own }
    requires others { CanRead others }
    ensures { IfOk result (spec.IsComparison which (reading_of own.entry) (reading_of others.entry) (kept_of ranked.now)) }
{
    let mut arguments = Seq::with_capacity(alloc, 2)?;
    arguments.push(read(alloc, own, ranked)?)?;
    arguments.push(read(alloc, others, ranked)?)?;
    let path = called(alloc, ranked.how, plain)?;
    Ok(Form::Call(path, arguments))
}

/// What a trait does with a call that compares a field in this way.
fn tested(alloc: Global, which: Comparison, how: How<'_>, call: Form) -> Result<Form, AllocError>
    ensures { IfOk result (λ test. test ≡ spec.tested which (how_of how.entry) call) }
{
    match how {
        How::Plainly => Ok(call),
        How::ByMethod(_) => match which {
            Comparison::PartialEq => Ok(Form::Not(Boxed::new(alloc, call)?)),
            _ => Ok(call),
        },
        How::ByOrder(_) => match which {
            Comparison::PartialEq => Ok(Form::Not(Boxed::new(alloc, call)?)),
            Comparison::PartialOrd => Ok(Form::SomeOf(Boxed::new(alloc, call)?)),
            Comparison::Ord => Ok(call),
        },
    }
}

/// What an order returns where the first value is above the second.
fn if_greater(reverse: bool) -> Ordering
    ensures { result ≡ spec.if_greater reverse }
{
    if reverse {
        Ordering::Less
    } else {
        Ordering::Greater
    }
}

/// What an order returns where the first value is below the second.
fn if_less(reverse: bool) -> Ordering
    ensures { result ≡ spec.if_less reverse }
{
    if reverse {
        Ordering::Greater
    } else {
        Ordering::Less
    }
}

/// What a trait does with the test.
fn step_of(which: Comparison, reverse: bool, test: Boxed<Form>) -> Form
    ensures { result ≡ spec.step_of which reverse test }
{
    let greater = if_greater(reverse);
    let less = if_less(reverse);
    match which {
        Comparison::PartialEq => Form::IfReturn(test),
        Comparison::PartialOrd => Form::MatchOrdering(test, true, None, greater, less),
        Comparison::Ord => Form::MatchOrdering(test, false, None, greater, less),
    }
}

/// The step of a trait on a field.
fn step(
    alloc: Global,
    which: Comparison,
    plain: &Shared<ExprPath>,
    own: Reading<'_>,
    others: Reading<'_>,
    ranked: &Ranked<'_, '_>,
) -> Result<Form, AllocError>
    requires plain { IsBuiltIn (meaning.comparison which) plain.now }
    requires own { CanRead own }
    requires others { CanRead others }
    ensures { IfOk result (spec.IsStep which (reading_of own.entry) (reading_of others.entry) (kept_of ranked.now)) }
{
    let comparison = compared(alloc, which, plain, own, others, ranked)?;
    let test = tested(alloc, which, ranked.how, comparison)?;
    Ok(step_of(which, ranked.reverse, Boxed::new(alloc, test)?))
}

/// What is answered where no step returned.
pub fn neutral(which: Comparison) -> Known
    ensures { result ≡ meaning.neutral which }
{
    match which {
        Comparison::PartialEq => Known::Truth(true),
        Comparison::PartialOrd => Known::PartialOrder(Some(Ordering::Equal)),
        Comparison::Ord => Known::Order(Ordering::Equal),
    }
}

/// A step for each field, which is read so of both values.
pub fn steps(
    alloc: Global,
    which: Comparison,
    plain: &Shared<ExprPath>,
    own: Reading<'_>,
    others: Reading<'_>,
    fields: &[Ranked<'_, '_>],
) -> Result<Forms, AllocError>
    requires plain { IsBuiltIn (meaning.comparison which) plain.now }
    requires own { CanRead own }
    requires others { CanRead others }
    ensures { IfOk result (spec.AreSteps which (reading_of own.entry) (reading_of others.entry) (map kept_of fields.now)) }
{
    let mut block = Seq::with_capacity(alloc, fields.len())?;
    for ranked in fields {
        block.push(step(alloc, which, plain, own, others, ranked)?)?;
    }
    Ok(block)
}
