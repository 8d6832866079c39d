//! The tokens of forms.
ghost use Rattle.std.specs.Prelude.{◌++◌, OnOk, codes};
ghost use Rattle.std.specs.List.{flat_map};
ghost use Rattle.educe_tokens.specs.Appends.{Appends, HasPrefix};
ghost use Rattle.educe_tokens.specs.Quote.{quoted};
ghost use Rattle.educe_tokens.proofs.Printable.{well_formed_from, ends_apart_from, lexes_back_from};
ghost use Rattle.educe_body_forms.specs.Printing.{comma_before, separated};
ghost use Rattle.educe_body_forms.specs.Printouts.{Prints, name, each, in_round, in_curly};
ghost use Rattle.educe_body_forms.specs.Tokens.{in_some, discard_printout, lent_field_printout, result_printout, place_and_value, field_assignment, through_assignment, block_arms, known_printout, self_printout, construct_printout, in_form, form_printout, form_lexemes, in_braces, comma_where, arm_printout, init_printout, equal_arm, match_value_printout, if_let_head, if_let_printout, else_printout};
ghost use Rattle.educe_body_forms.specs.ShownPrintouts.{entry_rest, argument_rest, wrapped};

use crate::form::{Arm, Form, Forms, Init, Inits, Known};
use crate::pattern::Pattern;
use crate::print_arguments::{push_argument_start, push_method_closure, push_wrapper};
use crate::print_orders::{push_arm_block, push_order, push_other_arms, push_some_order};
use crate::print_patterns::{push_key, push_key_function, push_pattern};
use crate::print_places::{
    push_braced_copy, push_key_call, push_lent_field, push_own_field, push_position, push_reference,
};
use crate::print_shown::{
    push_builder, push_entry_front, push_entry_start, push_finish, push_helper, push_write_text,
};
use crate::shown::{ArgumentNames, EntryKey};
use educe_tokens::{TokenStream, Word, Written, append_written, quote};
use educe_tree::{ExprPath, FieldForm, Ident, ToTokens};
use std::alloc::{AllocError, Global};
use std::cmp::Ordering;

impl ToTokens for Known {
    ghost lexemes_of = { λ known. (known_printout known).tokens };

    ghost well_formed = { λ known. well_formed_from (known_printout known).printable };

    ghost ends_apart = { λ known. ends_apart_from (known_printout known).printable };

    ghost lexes_back = { λ known. lexes_back_from (known_printout known).printable };

    fn to_tokens(&self, alloc: Global, tokens: &mut TokenStream) -> Result<(), AllocError> {
        match self {
            Known::Truth(true) => quote(alloc, tokens, "true"),
            Known::Truth(false) => quote(alloc, tokens, "false"),
            Known::Order(order) => push_order(alloc, tokens, *order),
            Known::PartialOrder(None) => quote(
                alloc,
                tokens,
                ":: core :: option :: Option :: None",
            ),
            Known::PartialOrder(Some(order)) => push_some_order(alloc, tokens, *order),
        }
    }
}

impl ToTokens for Form {
    ghost lexemes_of = { form_lexemes };

    ghost well_formed = { λ form. well_formed_from (form_printout form).printable };

    ghost ends_apart = { λ form. ends_apart_from (form_printout form).printable };

    ghost lexes_back = { λ form. lexes_back_from (form_printout form).printable };

    #[cycle(print)]
    fn to_tokens(&self, alloc: Global, tokens: &mut TokenStream) -> Result<(), AllocError> {
        match self {
            Form::Local(name) => name.to_tokens(alloc, tokens),
            Form::Known(known) => known.to_tokens(alloc, tokens),
            Form::Reference(base, field) => push_reference(alloc, tokens, base, field),
            Form::BracedCopy(base, field) => push_braced_copy(alloc, tokens, base, field),
            Form::Key(function, value) => push_key_call(alloc, tokens, function, value),
            Form::Call(path, arguments) => push_call(alloc, tokens, path.get(), arguments),
            Form::Not(inner) => push_not(alloc, tokens, inner.get()),
            Form::SomeOf(inner) => push_some(alloc, tokens, inner.get()),
            Form::IfReturn(test) => push_if_return(alloc, tokens, test.get()),
            Form::Return(inner) => push_return(alloc, tokens, inner.get()),
            Form::MatchOrdering(matched, partial, held, greater, less) => {
                push_matched(alloc, tokens, matched.get())?;
                match held {
                    None => push_arm_block(alloc, tokens, *partial, *greater, *less),
                    Some(block) => {
                        push_order_arms(alloc, tokens, *partial, block, *greater, *less)
                    }
                }
            }
            Form::MatchValue(value, arms) => push_match(alloc, tokens, value, arms.as_slice()),
            Form::IfLet(pattern, value, forms, others) => {
                push_if_let(alloc, tokens, pattern, value, forms)?;
                match others {
                    None => Ok(()),
                    Some(others) => push_else(alloc, tokens, others),
                }
            }
            Form::KeyFunction(function, this, ty, arms) => {
                push_key_function(alloc, tokens, function, this, *ty, arms.as_slice())
            }
            Form::Block(forms) => push_block(alloc, tokens, forms),
            Form::HashPart(inner) => push_statement(alloc, tokens, inner.get()),
            Form::Position(position) => push_position(alloc, tokens, *position),
            Form::Construct(variant, form, inits) => {
                push_construct(alloc, tokens, variant, *form, inits)
            }
            Form::Pasted(written) => append_written(alloc, tokens, written),
            Form::WholeCopy => quote(alloc, tokens, "* self"),
            Form::Unreachable => quote(alloc, tokens, ":: core :: unreachable ! ( )"),
            Form::Discard(name) => push_discard(alloc, tokens, name),
            Form::AssignField(key, path, inner, handed) => {
                push_field_assignment(alloc, tokens, *handed, key, path.get(), inner.get())
            }
            Form::AssignThrough(target, path, inner, handed) => {
                push_through_assignment(alloc, tokens, *handed, target, path.get(), inner.get())
            }
            Form::WriteText(formatter, text) => push_write_text(alloc, tokens, formatter, text),
            Form::HelperType(helper, formatter) => push_helper(alloc, tokens, helper, formatter),
            Form::Builder(builder, formatter, opening) => {
                push_builder(alloc, tokens, builder, formatter, opening)
            }
            Form::BuilderEntry(builder, key, inner, by_reference) => {
                push_entry_start(alloc, tokens, builder, key)?;
                push_entry(alloc, tokens, key, *by_reference, inner.get())
            }
            Form::MethodArgument(shared, inner, ty, path) => {
                let names = shared.get();
                push_argument_start(alloc, tokens, names)?;
                push_argument(alloc, tokens, names, inner.get(), ty, path.get())
            }
            Form::Finish(builder) => push_finish(alloc, tokens, builder),
        }
    }
}

/// Appends the opposite of a form.
#[cycle(print)]
fn push_not(alloc: Global, tokens: &mut TokenStream, inner: &Form) -> Result<(), AllocError>
    ensures ok { OnOk result (Prints (form_printout (Form.Not inner.now)) tokens.old tokens.new) }
    ensures prefix { HasPrefix tokens.old tokens.new }
{
    quote(alloc, tokens, "!")?;
    inner.to_tokens(alloc, tokens)
}

/// Appends an `if` that returns false.
#[cycle(print)]
fn push_if_return(alloc: Global, tokens: &mut TokenStream, test: &Form) -> Result<(), AllocError>
    ensures ok { OnOk result (Prints (form_printout (Form.IfReturn test.now)) tokens.old tokens.new) }
    ensures prefix { HasPrefix tokens.old tokens.new }
{
    quote(alloc, tokens, "if")?;
    test.to_tokens(alloc, tokens)?;
    quote(alloc, tokens, "{ return false ; }")
}

/// Appends a statement that returns a form.
#[cycle(print)]
fn push_return(alloc: Global, tokens: &mut TokenStream, inner: &Form) -> Result<(), AllocError>
    ensures ok { OnOk result (Prints (form_printout (Form.Return inner.now)) tokens.old tokens.new) }
    ensures prefix { HasPrefix tokens.old tokens.new }
{
    quote(alloc, tokens, "return")?;
    inner.to_tokens(alloc, tokens)?;
    quote(alloc, tokens, ";")
}

/// Appends a form that stands as a statement.
#[cycle(print)]
fn push_statement(alloc: Global, tokens: &mut TokenStream, inner: &Form) -> Result<(), AllocError>
    ensures ok { OnOk result (Prints (form_printout (Form.HashPart inner.now)) tokens.old tokens.new) }
    ensures prefix { HasPrefix tokens.old tokens.new }
{
    inner.to_tokens(alloc, tokens)?;
    quote(alloc, tokens, ";")
}

/// Appends what stands behind the method that adds an entry to a builder.
#[cycle(print)]
fn push_entry(
    alloc: Global,
    tokens: &mut TokenStream,
    key: &EntryKey,
    by_reference: bool,
    value: &Form,
) -> Result<(), AllocError>
    ensures ok { let found = entry_rest key.now by_reference (form_printout value.now) in
        OnOk result (Prints found tokens.old tokens.new) }
    ensures prefix { HasPrefix tokens.old tokens.new }
{
    quote(alloc, tokens, "(")?;
    push_entry_front(alloc, tokens, key, by_reference)?;
    value.to_tokens(alloc, tokens)?;
    quote(alloc, tokens, ")")?;
    quote(alloc, tokens, ";")
}

/// Appends the block that makes the argument of a method, and what stands behind it.
#[cycle(print)]
fn push_argument(
    alloc: Global,
    tokens: &mut TokenStream,
    names: &ArgumentNames,
    value: &Form,
    ty: &Written,
    path: &ExprPath,
) -> Result<(), AllocError>
    ensures ok { let found = argument_rest names.now (form_printout value.now) ty.now path.now.written in
        OnOk result (Prints found tokens.old tokens.new) }
    ensures prefix { HasPrefix tokens.old tokens.new }
{
    quote(alloc, tokens, "{")?;
    push_wrapper(alloc, tokens, names)?;
    push_wrapped(alloc, tokens, names, value, ty, path)?;
    quote(alloc, tokens, "}")?;
    quote(alloc, tokens, ";")
}

/// Appends a form and the method that is called on it, as a value of the type that wraps both.
#[cycle(print)]
fn push_wrapped(
    alloc: Global,
    tokens: &mut TokenStream,
    names: &ArgumentNames,
    value: &Form,
    ty: &Written,
    path: &ExprPath,
) -> Result<(), AllocError>
    ensures ok { let found = wrapped names.now (form_printout value.now) ty.now path.now.written in
        OnOk result (Prints found tokens.old tokens.new) }
    ensures prefix { HasPrefix tokens.old tokens.new }
{
    names.wrapper.to_tokens(alloc, tokens)?;
    quote(alloc, tokens, "(")?;
    value.to_tokens(alloc, tokens)?;
    quote(alloc, tokens, ",")?;
    push_method_closure(alloc, tokens, names, ty, path)?;
    quote(alloc, tokens, ")")
}

/// Appends what stands before the arms of a match on an order.
#[cycle(print)]
fn push_matched(alloc: Global, tokens: &mut TokenStream, matched: &Form) -> Result<(), AllocError>
    ensures ok { let found = quoted (codes "match") ++ form_lexemes matched.now in
        OnOk result (Appends found tokens.old tokens.new) }
    ensures prefix { HasPrefix tokens.old tokens.new }
{
    quote(alloc, tokens, "match")?;
    matched.to_tokens(alloc, tokens)
}

/// Appends a statement that does nothing with a name.
fn push_discard(alloc: Global, tokens: &mut TokenStream, ident: &Ident) -> Result<(), AllocError>
    ensures ok { OnOk result (Prints (discard_printout ident.now) tokens.old tokens.new) }
    ensures prefix { HasPrefix tokens.old tokens.new }
{
    quote(alloc, tokens, "let _ =")?;
    ident.to_tokens(alloc, tokens)?;
    quote(alloc, tokens, ";")
}

/// Appends a form in round brackets.
#[cycle(print)]
fn push_in_round(alloc: Global, tokens: &mut TokenStream, inner: &Form) -> Result<(), AllocError>
    ensures ok { OnOk result (Prints (in_round (form_printout inner.now)) tokens.old tokens.new) }
    ensures prefix { HasPrefix tokens.old tokens.new }
{
    quote(alloc, tokens, "(")?;
    inner.to_tokens(alloc, tokens)?;
    quote(alloc, tokens, ")")
}

/// Appends what stands behind the place of an assignment: `= path(value);`
#[cycle(print)]
fn push_result(
    alloc: Global,
    tokens: &mut TokenStream,
    path: &ExprPath,
    value: &Form,
) -> Result<(), AllocError>
    ensures ok { let found = result_printout path.now.written (form_printout value.now) in
        OnOk result (Prints found tokens.old tokens.new) }
    ensures prefix { HasPrefix tokens.old tokens.new }
{
    quote(alloc, tokens, "=")?;
    append_written(alloc, tokens, &path.written)?;
    push_in_round(alloc, tokens, value)?;
    quote(alloc, tokens, ";")
}

/// Appends a field of `self` and a form as the arguments of a call.
#[cycle(print)]
fn push_field_and_value(
    alloc: Global,
    tokens: &mut TokenStream,
    key: &Word,
    value: &Form,
) -> Result<(), AllocError>
    ensures ok { let found = place_and_value (lent_field_printout key.now) (form_printout value.now) in
        OnOk result (Prints found tokens.old tokens.new) }
    ensures prefix { HasPrefix tokens.old tokens.new }
{
    quote(alloc, tokens, "(")?;
    push_lent_field(alloc, tokens, key)?;
    quote(alloc, tokens, ",")?;
    value.to_tokens(alloc, tokens)?;
    quote(alloc, tokens, ")")
}

/// Appends an assignment to a field of `self`; where the truth value holds, the call is handed the
/// field.
#[cycle(print)]
fn push_field_assignment(
    alloc: Global,
    tokens: &mut TokenStream,
    handed: bool,
    key: &Word,
    path: &ExprPath,
    value: &Form,
) -> Result<(), AllocError>
    ensures ok { let found = field_assignment handed key.now path.now.written (form_printout value.now) in
        OnOk result (Prints found tokens.old tokens.new) }
    ensures prefix { HasPrefix tokens.old tokens.new }
{
    if handed {
        append_written(alloc, tokens, &path.written)?;
        push_field_and_value(alloc, tokens, key, value)?;
        quote(alloc, tokens, ";")
    } else {
        push_own_field(alloc, tokens, key)?;
        push_result(alloc, tokens, path, value)
    }
}

/// Appends a name and a form as the arguments of a call.
#[cycle(print)]
fn push_name_and_value(
    alloc: Global,
    tokens: &mut TokenStream,
    target: &Ident,
    value: &Form,
) -> Result<(), AllocError>
    ensures ok { let found = place_and_value (name target.now) (form_printout value.now) in
        OnOk result (Prints found tokens.old tokens.new) }
    ensures prefix { HasPrefix tokens.old tokens.new }
{
    quote(alloc, tokens, "(")?;
    target.to_tokens(alloc, tokens)?;
    quote(alloc, tokens, ",")?;
    value.to_tokens(alloc, tokens)?;
    quote(alloc, tokens, ")")
}

/// Appends an assignment through a name; where the truth value holds, the call is handed the name.
#[cycle(print)]
fn push_through_assignment(
    alloc: Global,
    tokens: &mut TokenStream,
    handed: bool,
    target: &Ident,
    path: &ExprPath,
    value: &Form,
) -> Result<(), AllocError>
    ensures ok { let found = through_assignment handed target.now path.now.written (form_printout value.now) in
        OnOk result (Prints found tokens.old tokens.new) }
    ensures prefix { HasPrefix tokens.old tokens.new }
{
    if handed {
        append_written(alloc, tokens, &path.written)?;
        push_name_and_value(alloc, tokens, target, value)?;
        quote(alloc, tokens, ";")
    } else {
        quote(alloc, tokens, "*")?;
        target.to_tokens(alloc, tokens)?;
        push_result(alloc, tokens, path, value)
    }
}

/// Appends the arms of a match on an order, with a block for `Equal`, in curly brackets.
#[cycle(print)]
fn push_order_arms(
    alloc: Global,
    tokens: &mut TokenStream,
    partial: bool,
    block: &Forms,
    greater: Ordering,
    less: Ordering,
) -> Result<(), AllocError>
    ensures ok { let found = block_arms partial (in_curly (each form_printout block.now)) greater less in
        OnOk result (Prints (in_curly found) tokens.old tokens.new) }
    ensures prefix { HasPrefix tokens.old tokens.new }
{
    quote(alloc, tokens, "{")?;
    push_equal_arm(alloc, tokens, block)?;
    push_other_arms(alloc, tokens, partial, greater, less)?;
    quote(alloc, tokens, "}")
}

/// Appends the arm for `Equal`.
#[cycle(print)]
fn push_equal_arm(alloc: Global, tokens: &mut TokenStream, block: &Forms) -> Result<(), AllocError>
    ensures ok { let found = equal_arm (in_curly (each form_printout block.now)) in
        OnOk result (Prints found tokens.old tokens.new) }
    ensures prefix { HasPrefix tokens.old tokens.new }
{
    push_order(alloc, tokens, Ordering::Equal)?;
    quote(alloc, tokens, "=>")?;
    push_block(alloc, tokens, block)?;
    quote(alloc, tokens, ",")
}

/// Appends a match on a value.
#[cycle(print)]
fn push_match(
    alloc: Global,
    tokens: &mut TokenStream,
    value: &Ident,
    arms: &[Arm],
) -> Result<(), AllocError>
    ensures ok { OnOk result (Prints (match_value_printout value.now arms.now) tokens.old tokens.new) }
    ensures prefix { HasPrefix tokens.old tokens.new }
{
    quote(alloc, tokens, "match")?;
    value.to_tokens(alloc, tokens)?;
    push_arms(alloc, tokens, arms)
}

/// Appends arms in curly brackets.
#[cycle(print)]
fn push_arms(alloc: Global, tokens: &mut TokenStream, arms: &[Arm]) -> Result<(), AllocError>
    ensures ok { OnOk result (Prints (in_curly (each arm_printout arms.now)) tokens.old tokens.new) }
    ensures prefix { HasPrefix tokens.old tokens.new }
{
    quote(alloc, tokens, "{")?;
    push_each_arm(alloc, tokens, arms)?;
    quote(alloc, tokens, "}")
}

/// Appends arms behind one another.
#[cycle(print)]
fn push_each_arm(alloc: Global, tokens: &mut TokenStream, arms: &[Arm]) -> Result<(), AllocError>
    ensures ok { OnOk result (Prints (each arm_printout arms.now) tokens.old tokens.new) }
    ensures prefix { HasPrefix tokens.old tokens.new }
{
    for arm in arms {
        push_arm(alloc, tokens, arm)?;
    }
    Ok(())
}

/// Appends an arm.
#[cycle(print)]
fn push_arm(alloc: Global, tokens: &mut TokenStream, arm: &Arm) -> Result<(), AllocError>
    ensures ok { OnOk result (Prints (arm_printout arm.now) tokens.old tokens.new) }
    ensures prefix { HasPrefix tokens.old tokens.new }
{
    push_pattern(alloc, tokens, &arm.pattern)?;
    quote(alloc, tokens, "=>")?;
    push_in_braces(alloc, tokens, arm.braced, &arm.block)?;
    push_comma_where(alloc, tokens, arm.comma)
}

/// Appends forms behind one another; where the truth value holds, in curly brackets.
#[cycle(print)]
fn push_in_braces(
    alloc: Global,
    tokens: &mut TokenStream,
    braced: bool,
    forms: &Forms,
) -> Result<(), AllocError>
    ensures ok { let found = in_braces braced (each form_printout forms.now) in
        OnOk result (Prints found tokens.old tokens.new) }
    ensures prefix { HasPrefix tokens.old tokens.new }
{
    if braced {
        push_block(alloc, tokens, forms)
    } else {
        push_forms(alloc, tokens, forms)
    }
}

/// Appends a comma where the truth value holds, and else nothing.
fn push_comma_where(alloc: Global, tokens: &mut TokenStream, comma: bool) -> Result<(), AllocError>
    ensures ok { OnOk result (Prints (comma_where comma) tokens.old tokens.new) }
    ensures prefix { HasPrefix tokens.old tokens.new }
{
    if comma {
        quote(alloc, tokens, ",")
    } else {
        Ok(())
    }
}

/// Appends what stands before the block of an `if let`.
fn push_if_let_head(
    alloc: Global,
    tokens: &mut TokenStream,
    pattern: &Pattern,
    value: &Ident,
) -> Result<(), AllocError>
    ensures ok { OnOk result (Prints (if_let_head pattern.now value.now) tokens.old tokens.new) }
    ensures prefix { HasPrefix tokens.old tokens.new }
{
    quote(alloc, tokens, "if let")?;
    push_pattern(alloc, tokens, pattern)?;
    quote(alloc, tokens, "=")?;
    value.to_tokens(alloc, tokens)
}

/// Appends an `if let`, without what stands behind its block.
#[cycle(print)]
fn push_if_let(
    alloc: Global,
    tokens: &mut TokenStream,
    pattern: &Pattern,
    value: &Ident,
    forms: &Forms,
) -> Result<(), AllocError>
    ensures ok { let block = in_curly (each form_printout forms.now) in
        OnOk result (Prints (if_let_printout pattern.now value.now block) tokens.old tokens.new) }
    ensures prefix { HasPrefix tokens.old tokens.new }
{
    push_if_let_head(alloc, tokens, pattern, value)?;
    push_block(alloc, tokens, forms)
}

/// Appends `else` and forms in curly brackets.
#[cycle(print)]
fn push_else(alloc: Global, tokens: &mut TokenStream, forms: &Forms) -> Result<(), AllocError>
    ensures ok { let block = in_curly (each form_printout forms.now) in
        OnOk result (Prints (else_printout block) tokens.old tokens.new) }
    ensures prefix { HasPrefix tokens.old tokens.new }
{
    quote(alloc, tokens, "else")?;
    push_block(alloc, tokens, forms)
}

/// Appends a call.
#[cycle(print)]
fn push_call(
    alloc: Global,
    tokens: &mut TokenStream,
    path: &ExprPath,
    arguments: &Forms,
) -> Result<(), AllocError>
    ensures ok { let form = Form.Call path.now arguments.now in
        OnOk result (Prints (form_printout form) tokens.old tokens.new) }
    ensures prefix { HasPrefix tokens.old tokens.new }
{
    path.to_tokens(alloc, tokens)?;
    quote(alloc, tokens, "(")?;
    push_arguments(alloc, tokens, arguments)?;
    quote(alloc, tokens, ")")
}

/// Appends `Self`, or the path of a variant.
fn push_self(
    alloc: Global,
    tokens: &mut TokenStream,
    variant: &Option<Ident>,
) -> Result<(), AllocError>
    ensures ok { OnOk result (Prints (self_printout variant.now) tokens.old tokens.new) }
    ensures prefix { HasPrefix tokens.old tokens.new }
{
    match variant {
        Some(variant) => {
            quote(alloc, tokens, "Self ::")?;
            variant.to_tokens(alloc, tokens)
        }
        None => quote(alloc, tokens, "Self"),
    }
}

/// Appends a value that is built.
#[cycle(print)]
fn push_construct(
    alloc: Global,
    tokens: &mut TokenStream,
    variant: &Option<Ident>,
    form: FieldForm,
    inits: &Inits,
) -> Result<(), AllocError>
    ensures ok { let found = construct_printout variant.now form (each init_printout inits.now) in
        OnOk result (Prints found tokens.old tokens.new) }
    ensures prefix { HasPrefix tokens.old tokens.new }
{
    push_self(alloc, tokens, variant)?;
    push_inits_in_form(alloc, tokens, form, inits)
}

/// Appends the fields of a value that is built in the brackets of its form.
#[cycle(print)]
fn push_inits_in_form(
    alloc: Global,
    tokens: &mut TokenStream,
    form: FieldForm,
    inits: &Inits,
) -> Result<(), AllocError>
    ensures ok { let found = in_form form (each init_printout inits.now) in
        OnOk result (Prints found tokens.old tokens.new) }
    ensures prefix { HasPrefix tokens.old tokens.new }
{
    match form {
        FieldForm::Named => {
            quote(alloc, tokens, "{")?;
            push_inits(alloc, tokens, inits)?;
            quote(alloc, tokens, "}")
        }
        FieldForm::Unnamed => {
            quote(alloc, tokens, "(")?;
            push_inits(alloc, tokens, inits)?;
            quote(alloc, tokens, ")")
        }
        FieldForm::Unit => Ok(()),
    }
}

/// Appends the fields of a value that is built behind one another.
#[cycle(print)]
fn push_inits(alloc: Global, tokens: &mut TokenStream, inits: &Inits) -> Result<(), AllocError>
    ensures ok { OnOk result (Prints (each init_printout inits.now) tokens.old tokens.new) }
    ensures prefix { HasPrefix tokens.old tokens.new }
{
    for init in inits.as_slice() {
        push_init(alloc, tokens, init)?;
    }
    Ok(())
}

/// Appends a field of a value that is built, with a comma behind it.
#[cycle(print)]
fn push_init(alloc: Global, tokens: &mut TokenStream, init: &Init) -> Result<(), AllocError>
    ensures ok { OnOk result (Prints (init_printout init.now) tokens.old tokens.new) }
    ensures prefix { HasPrefix tokens.old tokens.new }
{
    push_key(alloc, tokens, &init.key)?;
    init.value.to_tokens(alloc, tokens)?;
    quote(alloc, tokens, ",")
}

/// Appends a form in `Some`.
#[cycle(print)]
fn push_some(alloc: Global, tokens: &mut TokenStream, inner: &Form) -> Result<(), AllocError>
    ensures ok { OnOk result (Prints (in_some (form_printout inner.now)) tokens.old tokens.new) }
    ensures prefix { HasPrefix tokens.old tokens.new }
{
    quote(alloc, tokens, ":: core :: option :: Option :: Some")?;
    push_in_round(alloc, tokens, inner)
}

/// Appends forms with commas between.
#[cycle(print)]
fn push_arguments(
    alloc: Global,
    tokens: &mut TokenStream,
    arguments: &Forms,
) -> Result<(), AllocError>
    ensures ok { OnOk result (Prints (separated form_printout arguments.now) tokens.old tokens.new) }
    ensures prefix { HasPrefix tokens.old tokens.new }
{
    for (i, form) in arguments.as_slice().iter().enumerate() {
        push_comma(alloc, tokens, i)?;
        form.to_tokens(alloc, tokens)?;
    }
    Ok(())
}

/// Appends a comma before the item at an index, but none before the first.
pub fn push_comma(alloc: Global, tokens: &mut TokenStream, index: usize) -> Result<(), AllocError>
    ensures ok { OnOk result (Appends (comma_before index) tokens.old tokens.new) }
    ensures prefix { HasPrefix tokens.old tokens.new }
{
    if index == 0 {
        Ok(())
    } else {
        quote(alloc, tokens, ",")
    }
}

/// Appends forms in curly brackets.
#[cycle(print)]
pub fn push_block(alloc: Global, tokens: &mut TokenStream, forms: &Forms) -> Result<(), AllocError>
    ensures ok { let found = in_curly (each form_printout forms.now) in
        OnOk result (Prints found tokens.old tokens.new) }
    ensures prefix { HasPrefix tokens.old tokens.new }
{
    quote(alloc, tokens, "{")?;
    push_forms(alloc, tokens, forms)?;
    quote(alloc, tokens, "}")
}

/// Appends forms behind one another.
#[cycle(print)]
fn push_forms(alloc: Global, tokens: &mut TokenStream, forms: &Forms) -> Result<(), AllocError>
    ensures ok { OnOk result (Appends (flat_map form_lexemes forms.now) tokens.old tokens.new) }
    ensures prefix { HasPrefix tokens.old tokens.new }
{
    for form in forms.as_slice() {
        form.to_tokens(alloc, tokens)?;
    }
    Ok(())
}
