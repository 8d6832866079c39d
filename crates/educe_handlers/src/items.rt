//! Impls and their functions.
ghost use Rattle.std.specs.Prelude.{◌≡◌, IsTrue, IfOk};
ghost use Rattle.educe_tokens.specs.Quote.{is_ascii_name};
ghost use Rattle.educe_tokens.specs.WrittenLexemes.{written_lexemes};
ghost use Rattle.educe_attrs.specs.Lints.{lints, impl_attributes};
ghost use Rattle.educe_meaning.specs.Blocks.{IsFunction, IsImpl};
ghost use Rattle.educe_meaning.specs.Headers.{IsHeader};

use educe_attrs::{generated_impl_attributes, generated_lint_attributes};
use educe_body::{Body, Function, Functions, ImplItem};
use educe_bound::Trait;
use educe_syntax::{DeriveInput, Duplicate, Generics};
use educe_tokens::{Seq, Word, Written};
use std::alloc::{AllocError, Global};

/// The attributes of the impls that are generated for a definition.
fn attributes(alloc: Global, ast: &DeriveInput) -> Result<Written, AllocError>
    ensures { IfOk result (λ attributes. written_lexemes attributes ≡ impl_attributes ast.now.attrs) }
{
    let tokens = generated_impl_attributes(alloc, &ast.attrs)?;
    Ok(Written::new(tokens))
}

/// The attributes of items that are no impls of traits: those that set the levels of lints.
pub fn lint_attributes(alloc: Global, ast: &DeriveInput) -> Result<Written, AllocError>
    ensures { IfOk result (λ attributes. written_lexemes attributes ≡ lints ast.now.attrs) }
{
    let tokens = generated_lint_attributes(alloc, &ast.attrs)?;
    Ok(Written::new(tokens))
}

/// One function of this ASCII name, with this body.
pub fn function(alloc: Global, name: &str, body: Body) -> Result<Functions, AllocError>
    requires { IsTrue (is_ascii_name name.now) }
    ensures { IfOk result (λ functions. IsFunction name.now (λ own. own ≡ body) functions) }
{
    let name = Word::from_name(alloc, name)?;
    let mut functions = Seq::new(alloc);
    functions.push(Function { name, body })?;
    Ok(functions)
}

/// The impl of a trait for a definition, with these generics and these functions.
pub fn impl_item(
    alloc: Global,
    which: Trait,
    ast: &DeriveInput,
    generics: Generics,
    functions: Functions,
) -> Result<ImplItem, AllocError>
    requires { IsHeader which ast.now generics }
    ensures { IfOk result (λ item. IsImpl which ast.now (λ own. own ≡ functions) item) }
{
    let attributes = attributes(alloc, ast)?;
    let ident = ast.ident.duplicate(alloc)?;
    Ok(ImplItem {
        which,
        attributes,
        generics,
        ident,
        functions,
    })
}
