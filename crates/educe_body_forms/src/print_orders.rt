//! The tokens of orders, and of the arms that match on them.
ghost use Rattle.std.specs.Prelude.{OnOk};
ghost use Rattle.educe_tokens.specs.Appends.{HasPrefix};
ghost use Rattle.educe_body_forms.specs.Printouts.{Prints, in_curly};
ghost use Rattle.educe_body_forms.specs.Tokens.{order_printout, in_some, answer_printout, returning_arm, none_arm, step_arms, given_printout, giving_arm, other_arms};

use educe_tokens::{TokenStream, quote};
use std::alloc::{AllocError, Global};
use std::cmp::Ordering;

/// Appends the path of an order.
pub(crate) fn push_order(
    alloc: Global,
    tokens: &mut TokenStream,
    order: Ordering,
) -> Result<(), AllocError>
    ensures ok { OnOk result (Prints (order_printout order) tokens.old tokens.new) }
    ensures prefix { HasPrefix tokens.old tokens.new }
{
    match order {
        Ordering::Less => quote(alloc, tokens, ":: core :: cmp :: Ordering :: Less"),
        Ordering::Equal => quote(alloc, tokens, ":: core :: cmp :: Ordering :: Equal"),
        Ordering::Greater => quote(alloc, tokens, ":: core :: cmp :: Ordering :: Greater"),
    }
}

/// Appends an order in `Some`.
pub(crate) fn push_some_order(
    alloc: Global,
    tokens: &mut TokenStream,
    order: Ordering,
) -> Result<(), AllocError>
    ensures ok { OnOk result (Prints (in_some (order_printout order)) tokens.old tokens.new) }
    ensures prefix { HasPrefix tokens.old tokens.new }
{
    quote(alloc, tokens, ":: core :: option :: Option :: Some")?;
    quote(alloc, tokens, "(")?;
    push_order(alloc, tokens, order)?;
    quote(alloc, tokens, ")")
}

/// Appends an order as `cmp` answers it, or with true as `partial_cmp` does.
fn push_answer(
    alloc: Global,
    tokens: &mut TokenStream,
    partial: bool,
    order: Ordering,
) -> Result<(), AllocError>
    ensures ok { OnOk result (Prints (answer_printout partial order) tokens.old tokens.new) }
    ensures prefix { HasPrefix tokens.old tokens.new }
{
    if partial {
        push_some_order(alloc, tokens, order)
    } else {
        push_order(alloc, tokens, order)
    }
}

/// Appends an arm that returns an order.
fn push_returning_arm(
    alloc: Global,
    tokens: &mut TokenStream,
    partial: bool,
    pattern: Ordering,
    order: Ordering,
) -> Result<(), AllocError>
    ensures ok { OnOk result (Prints (returning_arm partial pattern order) tokens.old tokens.new) }
    ensures prefix { HasPrefix tokens.old tokens.new }
{
    push_answer(alloc, tokens, partial, pattern)?;
    quote(alloc, tokens, "=> return")?;
    push_answer(alloc, tokens, partial, order)?;
    quote(alloc, tokens, ",")
}

/// Appends the arm for no order, which only a partial order has.
fn push_none_arm(alloc: Global, tokens: &mut TokenStream, partial: bool) -> Result<(), AllocError>
    ensures ok { OnOk result (Prints (none_arm partial) tokens.old tokens.new) }
    ensures prefix { HasPrefix tokens.old tokens.new }
{
    if partial {
        quote(
            alloc,
            tokens,
            ":: core :: option :: Option :: None => return :: core :: option :: Option :: None ,",
        )
    } else {
        Ok(())
    }
}

/// Appends the arms of a step.
fn push_arms(
    alloc: Global,
    tokens: &mut TokenStream,
    partial: bool,
    greater: Ordering,
    less: Ordering,
) -> Result<(), AllocError>
    ensures ok { OnOk result (Prints (step_arms partial greater less) tokens.old tokens.new) }
    ensures prefix { HasPrefix tokens.old tokens.new }
{
    push_answer(alloc, tokens, partial, Ordering::Equal)?;
    quote(alloc, tokens, "=> ( ) ,")?;
    push_returning_arm(alloc, tokens, partial, Ordering::Greater, greater)?;
    push_returning_arm(alloc, tokens, partial, Ordering::Less, less)?;
    push_none_arm(alloc, tokens, partial)
}

/// Appends the arms of a step in curly brackets.
pub(crate) fn push_arm_block(
    alloc: Global,
    tokens: &mut TokenStream,
    partial: bool,
    greater: Ordering,
    less: Ordering,
) -> Result<(), AllocError>
    ensures ok { let found = in_curly (step_arms partial greater less) in
        OnOk result (Prints found tokens.old tokens.new) }
    ensures prefix { HasPrefix tokens.old tokens.new }
{
    quote(alloc, tokens, "{")?;
    push_arms(alloc, tokens, partial, greater, less)?;
    quote(alloc, tokens, "}")
}

/// Appends an order that an arm gives.
fn push_given(
    alloc: Global,
    tokens: &mut TokenStream,
    partial: bool,
    order: Ordering,
) -> Result<(), AllocError>
    ensures ok { OnOk result (Prints (given_printout partial order) tokens.old tokens.new) }
    ensures prefix { HasPrefix tokens.old tokens.new }
{
    if partial {
        quote(alloc, tokens, "{")?;
        push_some_order(alloc, tokens, order)?;
        quote(alloc, tokens, "}")
    } else {
        push_order(alloc, tokens, order)
    }
}

/// Appends an arm that gives an order.
fn push_giving_arm(
    alloc: Global,
    tokens: &mut TokenStream,
    partial: bool,
    pattern: Ordering,
    order: Ordering,
) -> Result<(), AllocError>
    ensures ok { OnOk result (Prints (giving_arm partial pattern order) tokens.old tokens.new) }
    ensures prefix { HasPrefix tokens.old tokens.new }
{
    push_order(alloc, tokens, pattern)?;
    quote(alloc, tokens, "=>")?;
    push_given(alloc, tokens, partial, order)?;
    quote(alloc, tokens, ",")
}

/// Appends the arms for `Greater` and `Less` that give their orders.
pub(crate) fn push_other_arms(
    alloc: Global,
    tokens: &mut TokenStream,
    partial: bool,
    greater: Ordering,
    less: Ordering,
) -> Result<(), AllocError>
    ensures ok { OnOk result (Prints (other_arms partial greater less) tokens.old tokens.new) }
    ensures prefix { HasPrefix tokens.old tokens.new }
{
    push_giving_arm(alloc, tokens, partial, Ordering::Greater, greater)?;
    push_giving_arm(alloc, tokens, partial, Ordering::Less, less)
}
