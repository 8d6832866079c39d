//! A linter of definitions: each is to be documented.
#![tactic(auto)]

ghost use Rattle.std.specs.Prelude.{◌≡◌, IfOk};
ghost use Rattle.std.specs.List.{list_any};
ghost use Rattle.educe_linter.specs.Documentation.{is_documentation};
ghost use Rattle.educe_syntax.specs.Definitions.{definition};
ghost use Rattle.educe_syntax.specs.Parsed.{IsWhole};

#[cfg(test)]
mod tests;

use educe_syntax::{Attribute, DeriveInput, Meta, parse_derive_input};
use educe_tokens::{EduceError, TokenSlice};
use std::alloc::Global;

/// Whether one of the attributes is documentation.
fn is_documented(attributes: &[Attribute]) -> bool
    ensures { result ≡ list_any is_documentation attributes.now }
{
    attributes
        .iter()
        .any(|attribute| matches!(attribute.meta, Meta::Doc(_)))
}

/// The definition that the tokens are, and whether it is documented.
pub fn linted(alloc: Global, tokens: &TokenSlice) -> Result<(DeriveInput, bool), EduceError>
    ensures reads { IfOk result (λ found. IsWhole definition tokens.now found.0) }
    ensures documented { IfOk result (λ found. found.1 ≡ list_any is_documentation found.0.attrs) }
{
    let ast = parse_derive_input(alloc, tokens)?;
    let documented = is_documented(ast.attrs.as_slice());
    Ok((ast, documented))
}
