//! The functions of structs.
ghost use Rattle.std.specs.Prelude.{List, map, IfOk, IfSome};
ghost use Rattle.std.specs.Option.{option_copied};
ghost use Rattle.educe_body.specs.Held.{AreWordsOf};
ghost use Rattle.educe_syntax.specs.Field.{Field};
ghost use Rattle.educe_settings.specs.Ranked.{kept_of};
ghost use Rattle.educe_meaning.specs.Blocks as spec;
ghost use Rattle.educe_meaning.specs.Comparisons.{trait_of};
ghost use Rattle.educe_settings.specs.Packed.{AreCopied};
ghost use Rattle.educe_settings.specs.Settings.{kept_fields};
ghost use Rattle.educe_settings.specs.Order.{IsInOrder};

use crate::comparing::{comparison_path, neutral, steps};
use educe_body::{Body, Comparison, Form, InputWords};
use educe_handlers::{Reading, parameter};
use educe_settings::Ranked;
use educe_syntax::{DeriveInput, Ident};
use educe_tokens::{Seq, Word};
use std::alloc::{AllocError, Global};

/// The body of a comparison of a struct, over its fields in the order of the trait, which are read by
/// copies where they have to be.
pub fn struct_body(
    alloc: Global,
    which: Comparison,
    ast: &DeriveInput,
    copied: bool,
    fields: &[Ranked<'_, '_>],
    words: Option<&InputWords>,
) -> Result<Body, AllocError>
    requires copied { AreCopied ast.now copied }
    requires words { IfSome (option_copied words) (AreWordsOf ast.now.tokens) }
    ensures { (all : List Field) → IsInOrder (trait_of which) (kept_fields (trait_of which) ast.now all) (map kept_of fields.now) →
        IfOk result (spec.IsStructBody which ast.now all) }
{
    let own = Ident::from_name(alloc, "self")?;
    let other = parameter(alloc, ast, words, "other")?;
    let plain = comparison_path(alloc, which)?;
    let (first, second) = (
        Reading::OfBase(&own, copied),
        Reading::OfBase(&other, copied),
    );
    let mut block = steps(alloc, which, &plain, first, second, fields)?;
    block.push(Form::Known(neutral(which)))?;
    let mut params = Seq::new(alloc);
    params.push(Word::new(other.text))?;
    Ok(Body { params, block })
}
