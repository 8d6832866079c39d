//! Bodies and blocks of one form.
ghost use Rattle.std.specs.Prelude.{◌≡◌, [], ◌∷◌, IfOk};
ghost use Rattle.std.specs.Option.{option_copied};
ghost use Rattle.educe_tokens.specs.Appends.{no_place};
ghost use Rattle.educe_meaning.specs.Arms.{IsName};

use educe_body::{Body, Form, Forms};
use educe_syntax::{Duplicate, Ident};
use educe_tokens::Seq;
use std::alloc::{AllocError, Global};

/// The block that is this form.
pub fn block_of(alloc: Global, form: Form) -> Result<Forms, AllocError>
    ensures { IfOk result (λ block. block ≡ form ∷ []) }
{
    let mut block = Seq::with_capacity(alloc, 1)?;
    block.push(form)?;
    Ok(block)
}

/// The body with no parameter whose block is this form.
pub fn body_of(alloc: Global, form: Form) -> Result<Body, AllocError>
    ensures params { IfOk result (λ body. body.params ≡ []) }
    ensures block { IfOk result (λ body. body.block ≡ form ∷ []) }
{
    let block = block_of(alloc, form)?;
    let params = Seq::new(alloc);
    Ok(Body { params, block })
}

/// The name of a variant, if there is one.
pub fn name_of(alloc: Global, name: Option<&Ident>) -> Result<Option<Ident>, AllocError>
    ensures { IfOk result (λ copy. copy ≡ option_copied name.entry) }
{
    match name {
        Some(name) => Ok(Some(name.duplicate(alloc)?)),
        None => Ok(None),
    }
}

/// A copy of a name, which is at no place either.
pub fn same_name(alloc: Global, name: &Ident) -> Result<Ident, AllocError>
    requires { name.now.span ≡ no_place }
    ensures { IfOk result (IsName name.now.text) }
{
    name.duplicate(alloc)
}
