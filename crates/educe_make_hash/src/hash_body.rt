//! The body of `hash`.
ghost use Rattle.std.specs.Prelude.{◌≡◌, IfOk, IfErr, IfSome};
ghost use Rattle.std.specs.Option.{option_copied};
ghost use Rattle.educe_body.specs.Held.{AreWordsOf};
ghost use Rattle.educe_attrs.specs.Causes.{NoCause, OfStop};
ghost use Rattle.educe_bound_traits.specs.declared.traits.Trait.TheVariants.{Hash};
ghost use Rattle.educe_settings.specs.Handled.{OfShape};
ghost use Rattle.educe_meaning.specs.HashBodies.{IsHashForms, IsHashBody};
ghost use Rattle.educe_settings.specs.Packed.{AreCopied};
ghost use Rattle.educe_settings.specs.Listed as listing;
ghost use Rattle.educe_make_hash.specs.HashNames.{names_of};

use crate::hash_cases::{enum_block, struct_block};
use crate::hash_names::HashNames;
use educe_attrs::Stop;
use educe_body::{Body, Forms, InputWords};
use educe_settings::Task;
use educe_syntax::Shape;
use educe_tokens::{Seq, Word};
use std::alloc::Global;

/// The block of `hash`. Fields are read by copies where they have to be. It is rejected exactly where an
/// attribute of a variant or a field is wrong, or memory fails.
fn forms(alloc: Global, task: Task<'_, '_>, names: &HashNames, copied: bool) -> Result<Forms, Stop>
    requires hashes { task.trait_ ≡ Hash }
    requires listed { task.listed.now ≡ listing.listed task.ast.now }
    requires copied { AreCopied task.ast.now copied }
    ensures ok { IfOk result (IsHashForms task.entry.ast.now (names_of names.now) task.entry.ast.now.shape) }
    ensures uncaused { IfOk result (λ _. NoCause (OfShape task.entry.trait_ task.entry.ast.now task.entry.ast.now.shape)) }
    ensures err { IfErr result (λ s. OfStop (OfShape task.entry.trait_ task.entry.ast.now task.entry.ast.now.shape) s) }
{
    match &task.ast.shape {
        Shape::Struct(shape) => {
            struct_block(alloc, task, names, shape.fields.as_slice(), copied)
        }
        Shape::Enum(variants) => enum_block(alloc, task, names, variants.as_slice()),
    }
}

/// The body of `hash`.
pub fn body(
    alloc: Global,
    task: Task<'_, '_>,
    copied: bool,
    words: Option<&InputWords>,
) -> Result<Body, Stop>
    requires hashes { task.trait_ ≡ Hash }
    requires listed { task.listed.now ≡ listing.listed task.ast.now }
    requires copied { AreCopied task.ast.now copied }
    requires words { IfSome (option_copied words) (AreWordsOf task.ast.now.tokens) }
    ensures ok { IfOk result (IsHashBody task.entry.ast.now) }
    ensures uncaused { IfOk result (λ _. NoCause (OfShape task.entry.trait_ task.entry.ast.now task.entry.ast.now.shape)) }
    ensures err { IfErr result (λ s. OfStop (OfShape task.entry.trait_ task.entry.ast.now task.entry.ast.now.shape) s) }
{
    let names = HashNames::choose(alloc, task.ast, words)?;
    let block = forms(alloc, task, &names, copied)?;
    let mut params = Seq::new(alloc);
    params.push(Word::new(names.state.text))?;
    params.push(Word::new(names.hasher.text))?;
    Ok(Body { params, block })
}
