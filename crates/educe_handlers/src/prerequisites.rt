//! The traits whose predicates an impl inherits.
ghost use Rattle.std.specs.Prelude.{◌≡◌, OnOk};
ghost use Rattle.educe_tokens.specs.Prefix.{HasPrefix};
ghost use Rattle.educe_bound.specs.Predicates.{keys_of, AreRead};
ghost use Rattle.educe_meaning.specs.Handlers.{AreNotedRead, inherited_from};
ghost use Rattle.educe_meaning.specs.Headers as spec;

use crate::context::TraitHandlerContext;
use educe_bound::{Bound, PredicateSet, Trait};
use std::alloc::AllocError;

/// The traits whose added predicates the impl of a trait inherits, where they are listed
/// (documentation of `educe`, Bounds).
fn prerequisites(which: Trait) -> &'static [Trait]
    ensures { result.now ≡ spec.prerequisites which }
{
    match which {
        Trait::Copy => &[Trait::Clone],
        Trait::Eq => &[Trait::PartialEq],
        Trait::PartialOrd => &[Trait::PartialEq],
        Trait::Ord => &[Trait::Eq, Trait::PartialOrd],
        _ => &[],
    }
}

/// Adds the predicates that an impl inherits, under the automatic bound alone.
pub fn inherit(
    which: Trait,
    bound: &Bound,
    ctx: &TraitHandlerContext,
    own: &mut PredicateSet,
) -> Result<(), AllocError>
    ensures ok { OnOk result (spec.Inherits bound.now (keys_of own.old)
        (inherited_from ctx.now (spec.prerequisites which)) (keys_of own.new)) }
    ensures kept { HasPrefix own.old own.new }
    ensures read { AreNotedRead ctx.now → AreRead own.old → OnOk result (AreRead own.new) }
{
    match bound {
        Bound::Disabled => Ok(()),
        Bound::Auto => ctx.inherit_from(prerequisites(which), own),
        Bound::All => Ok(()),
        Bound::Custom(_) => Ok(()),
    }
}
