//! The items of `Default`.
ghost use Rattle.std.specs.Prelude.{◌≡◌, ◌∷◌, unwrap_or, false, IfOk, codes};
ghost use Rattle.educe_syntax.specs.DeriveInput.{DeriveInput};
ghost use Rattle.educe_bound_traits.specs.declared.traits.Trait.TheVariants as derived;
ghost use Rattle.educe_meaning.specs.Blocks.{IsDefaultBlock, IsFunction, AreNew, IsNew};
ghost use Rattle.educe_settings.specs.Defaults as said;
ghost use Rattle.educe_meaning.specs.Handlers.{IsReady};
ghost use Rattle.educe_meaning.specs.Headers.{ImplAdds};
ghost use Rattle.educe_meaning.specs.Making as spec;
ghost use Rattle.educe_settings.specs.SeenTypes.{read_of, touched_of};
ghost use Rattle.educe_settings.specs.Settings as settings;
ghost use Rattle.educe_settings.specs.Types.{AreUnread};
ghost use Rattle.educe_make_default.specs.MadeForms.{IsMadeForm, new_items};

use educe_attrs::Values;
use educe_body::{Form, Functions, ImplItem, Item, Items};
use educe_bound::{Bound, Trait};
use educe_handlers::{
    TraitHandlerContext, body_of, function, impl_alone, impl_of, lint_attributes,
};
use educe_settings::{SeenTypes, Task, bound_said};
use educe_syntax::{DeriveInput, Duplicate, Expr, Generics, Predicates};
use educe_tokens::{Span, Written};
use std::alloc::{AllocError, Global};

/// What the attributes of the type say: its bound, whether there is a function `new`, its value, and where
/// they stand.
pub struct Own {
    pub bound: Bound,
    pub has_new: bool,
    pub value: Option<Expr>,
    pub span: Span,
}

/// What the attributes of the type say, by these settings.
pub fn own_of(values: Values) -> Own
    ensures bound { result.bound ≡ settings.bound_said values.bound }
    ensures new { result.has_new ≡ unwrap_or values.new false }
    ensures value { result.value ≡ values.expression }
    ensures span { result.span ≡ values.span }
{
    let Values {
        bound,
        new,
        expression,
        span,
        ..
    } = values;
    Own {
        bound: bound_said(bound),
        has_new: new.unwrap_or(false),
        value: expression,
        span,
    }
}

/// The function `default` with this form.
fn default_function(alloc: Global, form: Form) -> Result<Functions, AllocError>
    ensures { (definition : DeriveInput) → IsMadeForm definition form →
        IfOk result (IsFunction (codes "default") (spec.IsDefaultBody definition)) }
{
    let body = body_of(alloc, form)?;
    function(alloc, "default", body)
}

/// The impl that holds `new`, which returns the default value, with these generics.
fn new_item(alloc: Global, ast: &DeriveInput, generics: Generics) -> Result<ImplItem, AllocError>
    ensures { IfOk result (IsNew ast.now generics) }
{
    let text = Written::from_template(
        alloc,
        "< Self as :: core :: default :: Default > :: default ( )",
    )?;
    let body = body_of(alloc, Form::Pasted(text))?;
    let functions = function(alloc, "new", body)?;
    let attributes = lint_attributes(alloc, ast)?;
    let ident = ast.ident.duplicate(alloc)?;
    Ok(ImplItem {
        which: Trait::Default,
        attributes,
        generics,
        ident,
        functions,
    })
}

/// The impl that holds `new`, where the type asks for it.
fn new_if(
    alloc: Global,
    ast: &DeriveInput,
    generics: &Generics,
    has_new: bool,
) -> Result<Option<ImplItem>, AllocError>
    ensures { IfOk result (λ new. AreNew has_new ast.now generics.now (new_items new)) }
{
    if has_new {
        Ok(Some(new_item(alloc, ast, generics.duplicate(alloc)?)?))
    } else {
        Ok(None)
    }
}

/// The items that are these impls.
fn both_impls(alloc: Global, item: ImplItem, new: Option<ImplItem>) -> Result<Items, AllocError>
    ensures { IfOk result (λ items. items ≡ Item.Impl item ∷ new_items new) }
{
    let mut items = impl_alone(alloc, item)?;
    match new {
        Some(new) => {
            items.push(Item::New(new))?;
            Ok(items)
        }
        None => Ok(items),
    }
}

/// The block of `Default` with this bound and this form of `default`, and the predicates that its impl
/// adds: the impl of `Default`, and with true the one that holds `new`.
pub fn make_default(
    alloc: Global,
    ast: &DeriveInput,
    listed: &[Trait],
    bound: &Bound,
    form: Form,
    types: &SeenTypes<'_>,
    has_new: bool,
    ctx: &TraitHandlerContext,
) -> Result<(Items, Predicates), AllocError>
    requires ready { IsReady derived.Default ast.now listed.now ctx.now }
    requires bound { settings.IsBoundOf derived.Default ast.now bound.now }
    requires form { IsMadeForm ast.now form }
    requires types { AreUnread (said.default_types ast.now) (read_of types.now) (touched_of types.now) }
    requires new { has_new ≡ spec.has_new ast.now }
    ensures block { IfOk result (λ found. IsDefaultBlock ast.now found.0) }
    ensures added { IfOk result (λ found. ImplAdds ast.now derived.Default found.1) }
{
    let trait_ = Trait::Default;
    let task = Task {
        trait_,
        ast,
        listed,
    };
    let functions = default_function(alloc, form)?;
    let (item, added) = impl_of(alloc, task, bound, types, functions, ctx)?;
    let new = new_if(alloc, ast, &item.generics, has_new)?;
    let items = both_impls(alloc, item, new)?;
    Ok((items, added))
}
