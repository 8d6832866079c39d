//! The metas of the `educe` lists of a place.
ghost use Rattle.std.specs.Prelude.{◌≡◌, []};
ghost use Rattle.educe_attrs_values.specs.Chains.{Gives};
ghost use Rattle.educe_attrs_places.specs.Lists as spec;

use educe_attrs_rows::metas_in_pair;
use educe_attrs_values::{Stop, is_one_word};
use educe_syntax::{Attribute, Meta, MetaPath, Metas};
use educe_tokens::Seq;
use std::alloc::Global;

/// Whether the path is `educe` (documentation of `educe`, Traits).
#[tactic(auto, using(crate::proofs::Texts::chars_educe))]
pub fn is_educe(path: &MetaPath) -> bool
    ensures { result ≡ spec.is_educe path.now }
{
    is_one_word(path.written.tokens().as_slice(), "educe")
}

/// The metas of an `educe` list; any other attribute of a place has none.
fn metas_of(alloc: Global, meta: &Meta) -> Result<Metas, Stop>
    ensures { Gives Stop.Memory (spec.metas_of meta.now) result }
{
    match meta {
        Meta::Word(_) => Ok(Seq::new(alloc)),
        Meta::List(path, written, _) => {
            if is_educe(path) {
                metas_in_pair(alloc, written.tokens())
            } else {
                Ok(Seq::new(alloc))
            }
        }
        Meta::NameValue(_, _, _) => Ok(Seq::new(alloc)),
        Meta::Doc(_) => Ok(Seq::new(alloc)),
        Meta::Unread(_, _, _) => Ok(Seq::new(alloc)),
    }
}

/// The metas of the `educe` lists of a place, as one list.
pub fn all_metas(alloc: Global, attributes: &[Attribute]) -> Result<Metas, Stop>
    ensures { Gives Stop.Memory (spec.all_metas [] attributes.now) result }
{
    let mut found = Seq::new(alloc);
    for attribute in attributes {
        let more = metas_of(alloc, &attribute.meta)?;
        found.append(more)?;
    }
    Ok(found)
}
