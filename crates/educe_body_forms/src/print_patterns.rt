//! The tokens of patterns and of key functions.
ghost use Rattle.std.specs.Prelude.{◌≡◌, [], ◌∷◌, IfOk, OnOk};
ghost use Rattle.educe_tokens.specs.Appends.{Appends, HasPrefix};
ghost use Rattle.educe_body_forms.specs.Printouts.{Prints, each, in_curly};
ghost use Rattle.educe_body_forms.specs.Suffixed.{steps_text, steps_lexeme};
ghost use Rattle.educe_body_forms.specs.Tokens.{binding_printout, key_printout, field_printout, fields_printout, in_form, pattern_printout, typed_base, base_printout, typed_steps, sum_printout, constant_inside, constant_printout, key_arm_printout, match_printout, signature_printout, closure_printout, key_function_printout};

use crate::key_function::{Constant, Distance, KeyArm};
use crate::pattern::{Pattern, PatternField};
use educe_discriminants::DiscriminantType;
use educe_tokens::{Spelling, TokenStream, Word, push_word, quote};
use educe_tree::{Expr, FieldForm, Ident, ToTokens};
use std::alloc::{AllocError, Global};

/// Appends the name that a field is bound to, or `_`.
fn push_binding(
    alloc: Global,
    tokens: &mut TokenStream,
    name: &Option<Ident>,
) -> Result<(), AllocError>
    ensures ok { OnOk result (Prints (binding_printout name.now) tokens.old tokens.new) }
    ensures prefix { HasPrefix tokens.old tokens.new }
{
    match name {
        Some(name) => name.to_tokens(alloc, tokens),
        None => quote(alloc, tokens, "_"),
    }
}

/// Appends the key of a field and a colon, if it has a key.
pub(crate) fn push_key(
    alloc: Global,
    tokens: &mut TokenStream,
    key: &Option<Word>,
) -> Result<(), AllocError>
    ensures ok { OnOk result (Prints (key_printout key.now) tokens.old tokens.new) }
    ensures prefix { HasPrefix tokens.old tokens.new }
{
    match key {
        Some(key) => {
            push_word(alloc, tokens, key)?;
            quote(alloc, tokens, ":")
        }
        None => Ok(()),
    }
}

/// Appends a field of a pattern, with a comma behind it.
fn push_field(
    alloc: Global,
    tokens: &mut TokenStream,
    field: &PatternField,
) -> Result<(), AllocError>
    ensures ok { OnOk result (Prints (field_printout field.now) tokens.old tokens.new) }
    ensures prefix { HasPrefix tokens.old tokens.new }
{
    push_key(alloc, tokens, &field.key)?;
    push_binding(alloc, tokens, &field.name)?;
    quote(alloc, tokens, ",")
}

/// Appends fields of a pattern behind one another.
fn push_each_field(
    alloc: Global,
    tokens: &mut TokenStream,
    fields: &[PatternField],
) -> Result<(), AllocError>
    ensures ok { OnOk result (Prints (each field_printout fields.now) tokens.old tokens.new) }
    ensures prefix { HasPrefix tokens.old tokens.new }
{
    for field in fields {
        push_field(alloc, tokens, field)?;
    }
    Ok(())
}

/// Appends the fields of a pattern, or `..`.
fn push_fields(alloc: Global, tokens: &mut TokenStream, pattern: &Pattern) -> Result<(), AllocError>
    ensures ok { let found = fields_printout pattern.now.rest pattern.now.fields in
        OnOk result (Prints found tokens.old tokens.new) }
    ensures prefix { HasPrefix tokens.old tokens.new }
{
    if pattern.rest {
        quote(alloc, tokens, "..")
    } else {
        push_each_field(alloc, tokens, pattern.fields.as_slice())
    }
}

/// Appends the fields of a pattern in the brackets of its form.
fn push_in_form(
    alloc: Global,
    tokens: &mut TokenStream,
    pattern: &Pattern,
) -> Result<(), AllocError>
    ensures ok { let inside = fields_printout pattern.now.rest pattern.now.fields in
        OnOk result (Prints (in_form pattern.now.form inside) tokens.old tokens.new) }
    ensures prefix { HasPrefix tokens.old tokens.new }
{
    match pattern.form {
        FieldForm::Named => {
            quote(alloc, tokens, "{")?;
            push_fields(alloc, tokens, pattern)?;
            quote(alloc, tokens, "}")
        }
        FieldForm::Unnamed => {
            quote(alloc, tokens, "(")?;
            push_fields(alloc, tokens, pattern)?;
            quote(alloc, tokens, ")")
        }
        FieldForm::Unit => Ok(()),
    }
}

/// Appends a pattern.
pub(crate) fn push_pattern(
    alloc: Global,
    tokens: &mut TokenStream,
    pattern: &Pattern,
) -> Result<(), AllocError>
    ensures ok { OnOk result (Prints (pattern_printout pattern.now) tokens.old tokens.new) }
    ensures prefix { HasPrefix tokens.old tokens.new }
{
    quote(alloc, tokens, "Self ::")?;
    pattern.variant.to_tokens(alloc, tokens)?;
    push_in_form(alloc, tokens, pattern)
}

/// The decimal digits of a number, and `usize`.
fn steps_word(alloc: Global, steps: usize) -> Result<Word, AllocError>
    ensures { IfOk result (λ word. word.text ≡ steps_text steps) }
{
    let mut digits = steps.to_string(alloc)?;
    digits.push_str("usize")?;
    let text = Spelling::from_str(alloc, &digits)?;
    Ok(Word::new(text))
}

/// Appends a number, as an integer of the type `usize`.
pub(crate) fn push_count(
    alloc: Global,
    tokens: &mut TokenStream,
    number: usize,
) -> Result<(), AllocError>
    ensures ok { OnOk result (Appends (steps_lexeme number ∷ []) tokens.old tokens.new) }
    ensures prefix { HasPrefix tokens.old tokens.new }
{
    let word = steps_word(alloc, number)?;
    push_word(alloc, tokens, &word)
}

/// Appends the steps of a distance, in its type.
fn push_steps(
    alloc: Global,
    tokens: &mut TokenStream,
    distance: &Distance,
) -> Result<(), AllocError>
    ensures ok { OnOk result (Prints (typed_steps distance.now) tokens.old tokens.new) }
    ensures prefix { HasPrefix tokens.old tokens.new }
{
    push_count(alloc, tokens, distance.steps)?;
    quote(alloc, tokens, "as")?;
    distance.ty.to_tokens(alloc, tokens)
}

/// Appends the sum of the expression's value and a distance.
fn push_sum(alloc: Global, tokens: &mut TokenStream, distance: &Distance) -> Result<(), AllocError>
    ensures ok { OnOk result (Prints (sum_printout distance.now) tokens.old tokens.new) }
    ensures prefix { HasPrefix tokens.old tokens.new }
{
    distance.base.to_tokens(alloc, tokens)?;
    quote(alloc, tokens, ". wrapping_add")?;
    quote(alloc, tokens, "(")?;
    push_steps(alloc, tokens, distance)?;
    quote(alloc, tokens, ")")
}

/// Appends the name of the expression's value, which is declared with its type.
fn push_typed_base(
    alloc: Global,
    tokens: &mut TokenStream,
    distance: &Distance,
) -> Result<(), AllocError>
    ensures ok { OnOk result (Prints (typed_base distance.now) tokens.old tokens.new) }
    ensures prefix { HasPrefix tokens.old tokens.new }
{
    quote(alloc, tokens, "let")?;
    distance.base.to_tokens(alloc, tokens)?;
    quote(alloc, tokens, ":")?;
    distance.ty.to_tokens(alloc, tokens)
}

/// Appends the declaration of the expression's value.
fn push_base(
    alloc: Global,
    tokens: &mut TokenStream,
    value: &Expr,
    distance: &Distance,
) -> Result<(), AllocError>
    ensures ok { OnOk result (Prints (base_printout value.now distance.now) tokens.old tokens.new) }
    ensures prefix { HasPrefix tokens.old tokens.new }
{
    push_typed_base(alloc, tokens, distance)?;
    quote(alloc, tokens, "=")?;
    value.to_tokens(alloc, tokens)?;
    quote(alloc, tokens, ";")
}

/// Appends what stands in the block of a constant.
fn push_inside(
    alloc: Global,
    tokens: &mut TokenStream,
    constant: &Constant,
) -> Result<(), AllocError>
    ensures ok { let inside = constant_inside constant.now.value constant.now.distance in
        OnOk result (Prints inside tokens.old tokens.new) }
    ensures prefix { HasPrefix tokens.old tokens.new }
{
    let value = constant.value.get();
    match &constant.distance {
        None => value.to_tokens(alloc, tokens),
        Some(distance) => {
            push_base(alloc, tokens, value, distance)?;
            push_sum(alloc, tokens, distance)
        }
    }
}

/// Appends a constant.
fn push_constant(
    alloc: Global,
    tokens: &mut TokenStream,
    constant: &Constant,
) -> Result<(), AllocError>
    ensures ok { OnOk result (Prints (constant_printout constant.now) tokens.old tokens.new) }
    ensures prefix { HasPrefix tokens.old tokens.new }
{
    quote(alloc, tokens, "const")?;
    quote(alloc, tokens, "{")?;
    push_inside(alloc, tokens, constant)?;
    quote(alloc, tokens, "}")
}

/// Appends an arm of a key function.
fn push_key_arm(alloc: Global, tokens: &mut TokenStream, arm: &KeyArm) -> Result<(), AllocError>
    ensures ok { OnOk result (Prints (key_arm_printout arm.now) tokens.old tokens.new) }
    ensures prefix { HasPrefix tokens.old tokens.new }
{
    push_pattern(alloc, tokens, &arm.pattern)?;
    quote(alloc, tokens, "=>")?;
    push_constant(alloc, tokens, &arm.constant)?;
    quote(alloc, tokens, ",")
}

/// Appends arms of a key function behind one another.
fn push_each_key_arm(
    alloc: Global,
    tokens: &mut TokenStream,
    arms: &[KeyArm],
) -> Result<(), AllocError>
    ensures ok { OnOk result (Prints (each key_arm_printout arms.now) tokens.old tokens.new) }
    ensures prefix { HasPrefix tokens.old tokens.new }
{
    for arm in arms {
        push_key_arm(alloc, tokens, arm)?;
    }
    Ok(())
}

/// Appends the arms of a key function in curly brackets.
fn push_key_arms(alloc: Global, tokens: &mut TokenStream, arms: &[KeyArm]) -> Result<(), AllocError>
    ensures ok { OnOk result (Prints (in_curly (each key_arm_printout arms.now)) tokens.old tokens.new) }
    ensures prefix { HasPrefix tokens.old tokens.new }
{
    quote(alloc, tokens, "{")?;
    push_each_key_arm(alloc, tokens, arms)?;
    quote(alloc, tokens, "}")
}

/// Appends the match of a key function on its parameter.
fn push_key_match(
    alloc: Global,
    tokens: &mut TokenStream,
    this: &Ident,
    arms: &[KeyArm],
) -> Result<(), AllocError>
    ensures ok { OnOk result (Prints (match_printout this.now arms.now) tokens.old tokens.new) }
    ensures prefix { HasPrefix tokens.old tokens.new }
{
    quote(alloc, tokens, "match")?;
    this.to_tokens(alloc, tokens)?;
    push_key_arms(alloc, tokens, arms)
}

/// Appends what stands before the block of a key function's closure.
fn push_signature(
    alloc: Global,
    tokens: &mut TokenStream,
    this: &Ident,
    ty: DiscriminantType,
) -> Result<(), AllocError>
    ensures ok { OnOk result (Prints (signature_printout this.now ty) tokens.old tokens.new) }
    ensures prefix { HasPrefix tokens.old tokens.new }
{
    quote(alloc, tokens, "|")?;
    this.to_tokens(alloc, tokens)?;
    quote(alloc, tokens, ": & Self | ->")?;
    ty.to_tokens(alloc, tokens)
}

/// Appends the closure that a key function is.
fn push_closure(
    alloc: Global,
    tokens: &mut TokenStream,
    this: &Ident,
    ty: DiscriminantType,
    arms: &[KeyArm],
) -> Result<(), AllocError>
    ensures ok { OnOk result (Prints (closure_printout this.now ty arms.now) tokens.old tokens.new) }
    ensures prefix { HasPrefix tokens.old tokens.new }
{
    push_signature(alloc, tokens, this, ty)?;
    quote(alloc, tokens, "{")?;
    push_key_match(alloc, tokens, this, arms)?;
    quote(alloc, tokens, "}")
}

/// Appends a key function.
pub(crate) fn push_key_function(
    alloc: Global,
    tokens: &mut TokenStream,
    function: &Ident,
    this: &Ident,
    ty: DiscriminantType,
    arms: &[KeyArm],
) -> Result<(), AllocError>
    ensures ok { let found = key_function_printout function.now this.now ty arms.now in
        OnOk result (Prints found tokens.old tokens.new) }
    ensures prefix { HasPrefix tokens.old tokens.new }
{
    quote(alloc, tokens, "let")?;
    function.to_tokens(alloc, tokens)?;
    quote(alloc, tokens, "=")?;
    push_closure(alloc, tokens, this, ty, arms)?;
    quote(alloc, tokens, ";")
}
