//! Whether forms are there for what they do to `self`.
ghost use Rattle.std.specs.Prelude.{◌≡◌};
ghost use Rattle.educe_body_values.specs.Changing as spec;

use educe_body_forms::{Arms, Form, Forms, Inits};

/// Whether an assignment or a discard stands in the form, at any depth.
#[cycle(assigns)]
fn assigns(form: &Form) -> bool
    ensures { result ≡ spec.assigns form.now }
{
    match form {
        Form::Call(_, arguments) => any_assigns(arguments),
        Form::Not(inner) => assigns(inner.get()),
        Form::SomeOf(inner) => assigns(inner.get()),
        Form::IfReturn(test) => assigns(test.get()),
        Form::Return(inner) => assigns(inner.get()),
        Form::MatchOrdering(matched, _, held, _, _) => {
            if assigns(matched.get()) {
                return true;
            }
            match held {
                None => false,
                Some(block) => any_assigns(block),
            }
        }
        Form::MatchValue(_, arms) => arms_assign(arms),
        Form::IfLet(_, _, forms, others) => {
            if any_assigns(forms) {
                return true;
            }
            match others {
                None => false,
                Some(others) => any_assigns(others),
            }
        }
        Form::Block(forms) => any_assigns(forms),
        Form::HashPart(inner) => assigns(inner.get()),
        Form::Construct(_, _, inits) => inits_assign(inits),
        Form::Discard(_) => true,
        Form::AssignField(_, _, _, _) => true,
        Form::AssignThrough(_, _, _, _) => true,
        Form::BuilderEntry(_, _, inner, _) => assigns(inner.get()),
        Form::MethodArgument(_, inner, _, _) => assigns(inner.get()),
        Form::Local(_) => false,
        Form::Known(_) => false,
        Form::Reference(_, _) => false,
        Form::BracedCopy(_, _) => false,
        Form::Key(_, _) => false,
        Form::KeyFunction(_, _, _, _) => false,
        Form::Position(_) => false,
        Form::Pasted(_) => false,
        Form::WholeCopy => false,
        Form::Unreachable => false,
        Form::WriteText(_, _) => false,
        Form::HelperType(_, _) => false,
        Form::Builder(_, _, _) => false,
        Form::Finish(_) => false,
    }
}

/// Whether an assignment or a discard stands in one of the forms, at any depth.
#[cycle(assigns)]
pub fn any_assigns(forms: &Forms) -> bool
    ensures { result ≡ spec.any_assigns forms.now }
{
    for form in forms.as_slice() {
        if assigns(form) {
            return true;
        }
    }
    false
}

/// Whether an assignment or a discard stands in the block of one of the arms, at any depth.
#[cycle(assigns)]
fn arms_assign(arms: &Arms) -> bool
    ensures { result ≡ spec.arms_assigning arms.now }
{
    for arm in arms.as_slice() {
        if any_assigns(&arm.block) {
            return true;
        }
    }
    false
}

/// Whether an assignment or a discard stands in one of the initializers, at any depth.
#[cycle(assigns)]
fn inits_assign(inits: &Inits) -> bool
    ensures { result ≡ spec.inits_assigning inits.now }
{
    for init in inits.as_slice() {
        if assigns(&init.value) {
            return true;
        }
    }
    false
}
