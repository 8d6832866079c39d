//! From a definition to its items, by phases.
ghost use Rattle.std.specs.Prelude.{◌≡◌, IfOk, IfErr};
ghost use Rattle.std.specs.List.{AllByRecursion};
ghost use Rattle.educe_tokens.specs.Message.{HasWords};
ghost use Rattle.educe_syntax.specs.Parsed as parsed;
ghost use Rattle.educe_syntax.specs.Refusal.{IsDefinition};
ghost use Rattle.educe_attrs.specs.Causes.{NoCause, OfStop};
ghost use Rattle.educe_attrs.specs.Listing.{IsListing};
ghost use Rattle.educe_core.specs.Headline.{IsHandlerCause};
ghost use Rattle.educe_meaning.specs.Blocks.{OneEach, EachEvaluates, HasTightBounds};
ghost use Rattle.educe_settings.specs.Handled.{IsListedCause};
ghost use Rattle.educe_settings.specs.Listed as listing;
ghost use Rattle.educe_settings.specs.Said.{AreAllSaid};
ghost use Rattle.educe_meaning_coherence.specs.Coherence.{IsCoherent};

use crate::composition::blocks;
use educe_attrs::{Stop, error_of, type_listing};
use educe_body::Items;
use educe_bound::Traits;
use educe_syntax::DeriveInput;
use educe_tokens::{EduceError, Token};
use std::alloc::Global;

/// Where the last token ends, and 0 where there is none.
fn end_of(tokens: &[Token]) -> u32
    ensures { result ≡ parsed.end_of tokens.now }
{
    match tokens.last() {
        Some(token) => token.span.end,
        None => 0,
    }
}

/// The traits that a definition lists, as they are written.
fn listed_traits(alloc: Global, ast: &DeriveInput) -> Result<Traits, Stop>
    ensures listed { IfOk result (λ listed. listed ≡ listing.listed ast.now) }
    ensures lists { IfOk result (λ _. IsListing ast.now.attrs (listing.listed ast.now)) }
    ensures uncaused { IfOk result (λ _. NoCause (listing.IsListingCause ast.now)) }
    ensures err { IfErr result (λ s. OfStop (listing.IsListingCause ast.now) s) }
{
    let end = end_of(ast.tokens.as_slice());
    type_listing(alloc, ast.attrs.as_slice(), end)
}

/// The items of a definition, by phases: what it lists, and the handlers of what it lists.
fn items_of(alloc: Global, ast: &DeriveInput) -> Result<Items, Stop>
    requires { IsDefinition ast.now.tokens ast.now }
    ensures one_each { IfOk result (OneEach ast.now) }
    ensures said { IfOk result (λ _. AreAllSaid ast.now) }
    ensures evaluates { IfOk result (AllByRecursion (EachEvaluates ast.now)) }
    ensures bounded { IfOk result (AllByRecursion (HasTightBounds ast.now)) }
    ensures coherent { IfOk result (IsCoherent ast.now) }
    ensures lists { IfOk result (λ _. IsListing ast.now.attrs (listing.listed ast.now)) }
    ensures listing { IfOk result (λ _. NoCause (listing.IsListingCause ast.now)) }
    ensures uncaused { IfOk result (λ _. NoCause (IsListedCause ast.now)) }
    ensures err { IfErr result (λ s. OfStop (IsHandlerCause ast.now) s) }
{
    let listed = listed_traits(alloc, ast)?;
    blocks(alloc, ast, listed.as_slice())
}

/// The items of a definition: one block for each listed trait, in the fixed order. A definition is
/// rejected where what it lists is, and then where a handler of a listed trait rejects it (documentation
/// of `educe`, Traits).
pub fn derive_input_handler(alloc: Global, ast: &DeriveInput) -> Result<Items, EduceError>
    // The definition is the value of its tokens, as those that are read from a text.
    requires { IsDefinition ast.now.tokens ast.now }
    ensures one_each { IfOk result (OneEach ast.now) }
    // The settings of each field, by which its items are made, are what its attributes say.
    ensures said { IfOk result (λ _. AreAllSaid ast.now) }
    ensures evaluates { IfOk result (AllByRecursion (EachEvaluates ast.now)) }
    ensures bounded { IfOk result (AllByRecursion (HasTightBounds ast.now)) }
    ensures coherent { IfOk result (IsCoherent ast.now) }
    ensures lists { IfOk result (λ _. IsListing ast.now.attrs (listing.listed ast.now)) }
    // No cause stands in any phase.
    ensures listing { IfOk result (λ _. NoCause (listing.IsListingCause ast.now)) }
    ensures uncaused { IfOk result (λ _. NoCause (IsListedCause ast.now)) }
    ensures err { IfErr result (IsHandlerCause ast.now) }
    // Its rejection has the words of its message.
    ensures words { IfErr result (λ e. HasWords e.kind e.words) }
{
    match items_of(alloc, ast) {
        Ok(items) => Ok(items),
        Err(stop) => Err(error_of(alloc, stop)),
    }
}
