//! What handlers ask before they make their items, and their parts for structs and for enums.
ghost use Rattle.std.specs.Prelude.{◌≡◌, [], false, IsTrue, IfOk, List};
ghost use Rattle.educe_meaning.specs.Handlers.{IsReady, Noted};
ghost use Rattle.educe_settings.specs.Listed as listing;
ghost use Rattle.educe_settings.specs.Rows.{is_order};
ghost use Rattle.educe_syntax.specs.Refusal.{IsDefinition};
ghost use Rattle.educe_syntax.specs.Shape.{Shape};

use super::readings::{read_definition, spelled};
use educe_attrs::{Stop, Trait, Traits, error_of, is_listed, type_listing};
use educe_cmp::{EqHandler, OrdHandler, PartialEqHandler, PartialOrdHandler};
use educe_handlers::{EnumPart, StructPart, TraitHandler, TraitHandlerContext};
use educe_make::{CloneHandler, CopyHandler, DebugHandler, DefaultHandler, HashHandler};
use educe_settings::{Task, has_custom_method, settings_of_cases};
use educe_settings_types::can_use_bitwise_copy;
use educe_syntax::{DeriveInput, Shape};
use educe_tests::{check_at, check_equal, check_rows};
use educe_tokens::Seq;
use std::alloc::Global;
use std::test::Fail;

/// What is answered, where nothing is rejected.
fn unstopped<T: Drop>(alloc: Global, answer: Result<T, Stop>) -> Result<T, Fail>
    ensures { IfOk result (λ x. answer ≡ Ok x) }
{
    match answer {
        Ok(found) => Ok(found),
        Err(stop) => Err(Fail::from(error_of(alloc, stop).kind)),
    }
}

/// The traits that a definition lists.
fn listed_traits(alloc: Global, ast: &DeriveInput) -> Result<Traits, Fail>
    ensures { IfOk result (λ listed. listed ≡ listing.listed ast.now) }
{
    unstopped(alloc, type_listing(alloc, ast.attrs.as_slice(), 0))
}

/// Whether `clone` copies values as a whole, by what the fields say.
fn copies_by_fields(alloc: Global, task: Task<'_, '_>) -> Result<bool, Fail>
    requires listed { task.listed.now ≡ listing.listed task.ast.now }
    requires unranked { is_order task.trait_ ≡ false }
{
    let settings = unstopped(alloc, settings_of_cases(alloc, task))?;
    let has_method = has_custom_method(settings.as_slice());
    drop(settings);
    unstopped(alloc, can_use_bitwise_copy(alloc, task, has_method))
}

/// Whether `clone` copies values as a whole, by what the fields of the definition that a text is say, in
/// words.
fn copies(alloc: Global, source: &str) -> Result<String, Fail> {
    let ast = read_definition(alloc, source)?;
    let traits = listed_traits(alloc, &ast)?;
    let task = Task {
        trait_: Trait::Clone,
        ast: &ast,
        listed: traits.as_slice(),
    };
    let copies = copies_by_fields(alloc, task);
    drop(traits);
    drop(ast);
    let words = if copies? {
        "as a whole"
    } else {
        "field by field"
    };
    Ok(String::from_str(alloc, words)?)
}

static COPIES: &str = r#"
#[educe(Clone, Copy)] struct S<T> { a: u8 }
#[educe(Copy, Clone)] enum E { A, B(u8) }
#[educe(Clone, Copy(bound(u8: A)))] enum E { A, B(u8) }
: as a whole

#[educe(Clone)] struct S { a: u8 }
#[educe(Clone, Copy)] struct S<T> { a: Option<T> }
#[educe(Clone, Copy)] struct S<const N: usize>([u8; N]);
#[educe(Clone, Copy)] enum E { A, B(#[educe(Clone(method = m))] u8) }
#[educe(Clone, Copy(bound(u8: A)))] struct S<T> { a: u8 }
: field by field
"#;

#[test]
fn some_values_are_copied_as_a_whole(rt: HostRuntime) -> Result<(), Fail> {
    check_rows(rt.alloc(), copies, COPIES)
}

/// Whether a definition that lists these traits lists this one alone, so that no handler runs before its
/// own.
fn is_alone<H: TraitHandler>(ast: &DeriveInput, listed: &[Trait]) -> bool
    requires read { IsDefinition ast.now.tokens ast.now }
    requires listed { listed.now ≡ listing.listed ast.now }
    ensures { IsTrue result → (noted : List Noted) → noted ≡ [] → IsReady H.TRAIT ast.now listed.now noted }
{
    if listed.len() != 1 {
        return false;
    }
    is_listed(listed, H::TRAIT)
}

/// What a handler, or a part of one, adds to no items, as text. No handler ran before it.
fn added<H: TraitHandler>(
    alloc: Global,
    ast: &DeriveInput,
    listed: &[Trait],
) -> Result<String, Fail>
    requires ready { (noted : List Noted) → noted ≡ [] → IsReady H.TRAIT ast.now listed.now noted }
    requires takes { IsTrue (H.takes ast.now.shape) }
{
    let mut ctx = TraitHandlerContext::new(alloc);
    let mut items = Seq::new(alloc);
    let answered = H::trait_meta_handler(alloc, ast, &mut ctx, &mut items, listed, None);
    drop(ctx);
    match answered {
        Ok(()) => Ok(spelled(alloc, items)?),
        Err(stop) => Err(Fail::from(error_of(alloc, stop).kind)),
    }
}

/// Compares what a handler and its part for the shape of the definition add.
fn check_part<H: TraitHandler>(
    alloc: Global,
    ast: &DeriveInput,
    listed: &[Trait],
) -> Result<(), Fail>
    requires ready { (noted : List Noted) → noted ≡ [] → IsReady H.TRAIT ast.now listed.now noted }
    requires takes { IsTrue (H.takes ast.now.shape) }
{
    let part = match &ast.shape {
        Shape::Struct(_) => added::<StructPart<H>>(alloc, ast, listed)?,
        Shape::Enum(_) => added::<EnumPart<H>>(alloc, ast, listed)?,
    };
    let whole = added::<H>(alloc, ast, listed)?;
    let has_impl = whole.contains("# [ automatically_derived ] impl");
    check_at(whole.as_str(), has_impl, true)?;
    check_equal(part.as_str(), whole.as_str())
}

/// Compares what a handler and its part add for the definition that a text is, which lists the trait of the
/// handler alone.
fn check_source<H: TraitHandler>(alloc: Global, source: &str) -> Result<(), Fail>
    requires { (shape : Shape) → IsTrue (H.takes shape) }
{
    let ast = read_definition(alloc, source)?;
    let traits = listed_traits(alloc, &ast)?;
    let listed = traits.as_slice();
    let checked = if is_alone::<H>(&ast, listed) {
        check_part::<H>(alloc, &ast, listed)
    } else {
        Err(Fail::from(source))
    };
    drop(traits);
    drop(ast);
    checked
}

/// Compares what a handler and its parts add for a struct and for an enum.
fn check_parts<H: TraitHandler>(alloc: Global) -> Result<(), Fail>
    requires { (shape : Shape) → IsTrue (H.takes shape) }
{
    let name = H::TRAIT.name();
    let of_struct = format!(in alloc; "#[educe({name})] struct S<T>(T, u8);")?;
    check_source::<H>(alloc, &of_struct)?;
    let of_enum = format!(in alloc; "#[educe({name})] enum E<T> {{ A(T, u8) }}")?;
    check_source::<H>(alloc, &of_enum)
}

#[test]
fn a_part_adds_what_its_handler_adds(rt: HostRuntime) -> Result<(), Fail> {
    let alloc = rt.alloc();
    check_parts::<DebugHandler>(alloc)?;
    check_parts::<CloneHandler>(alloc)?;
    check_parts::<CopyHandler>(alloc)?;
    check_parts::<PartialEqHandler>(alloc)?;
    check_parts::<EqHandler>(alloc)?;
    check_parts::<PartialOrdHandler>(alloc)?;
    check_parts::<OrdHandler>(alloc)?;
    check_parts::<HashHandler>(alloc)?;
    check_parts::<DefaultHandler>(alloc)
}
