//! The links between the operands of an expression: operators and casts (Rust Reference, Operator
//! expressions).
ghost use Rattle.std.specs.Prelude.{◌≡◌, true};
ghost use Rattle.educe_grammar.specs.Expressions as spec;

use educe_grammar::{Ending, Link, Operator};
use educe_tree::ExprForm;

/// Whether `&&` or `||` stands between two comparisons (Rust Reference, Expression precedence).
#[tactic(auto, unfolding(educe_grammar::specs::Expressions::compares_once))]
fn compares_once(links: &[Link]) -> bool
    ensures { result ≡ spec.compares_once true links.now }
{
    let mut may_compare = true;
    for link in links {
        match link {
            Link::Binary(Operator::Joins) => may_compare = true,
            Link::Binary(Operator::Compares | Operator::Less) => {
                if !may_compare {
                    return false;
                }
                may_compare = false;
            }
            _ => {}
        }
    }
    true
}

/// Whether the operator begins with `<`, and is not `<=`.
fn begins_with_less(link: Link) -> bool
    ensures { result ≡ spec.begins_with_less link }
{
    matches!(link, Link::Binary(Operator::Less | Operator::ShiftsLeft))
}

/// Whether the one may stand before the other (Rust Reference, Type cast expressions).
fn may_stand_before(link: Link, next: Link) -> bool
    ensures { result ≡ spec.may_stand_before link next }
{
    match link {
        Link::Cast(Ending::Name) => !begins_with_less(next),
        _ => true,
    }
}

/// Whether no `<` and no `<<` stands behind a cast to a type that ends with a name (Rust Reference,
/// Type cast expressions).
#[tactic(auto, unfolding(educe_grammar::specs::Expressions::casts_end))]
fn casts_end(links: &[Link]) -> bool
    ensures { result ≡ spec.casts_end links.now }
{
    for index in 1..links.len() {
        if !may_stand_before(links[index - 1], links[index]) {
            return false;
        }
    }
    true
}

/// Whether the links of an expression may follow one another (Rust Reference, Expression
/// precedence).
pub fn links_fit(links: &[Link]) -> bool
    ensures { result ≡ spec.links_fit links.now }
{
    compares_once(links) && casts_end(links)
}

/// The form of an expression with this first operand and these links.
pub fn linked_form(operand: ExprForm, links: &[Link]) -> ExprForm
    ensures { result ≡ spec.linked_form (operand, links.now) }
{
    match links {
        [] => operand,
        _ => ExprForm::Other,
    }
}
