//! The sample: a definition of so many variants, and the line about its expansion.
ghost use Rattle.std.specs.Prelude.{◌≡◌, length, count_by, string_bytes, IfOk, OnOk, ◌++◌};
ghost use Rattle.educe_core.specs.Expansion.{text_of_expansion, items_of_expansion, token_count_of_expansion};
ghost use Rattle.educe_core.specs.Sample as spec;

use crate::expansion::Expansion;
use educe_body::Item;
use std::alloc::{AllocError, Global};

/// The sample of so many variants.
pub fn sample_text(alloc: Global, count: u16) -> Result<String, AllocError>
    ensures { IfOk result (λ text. string_bytes text ≡ spec.sample_text count) }
{
    let mut text = String::from_str(
        alloc,
        "#[educe(PartialEq, PartialOrd, Ord, Hash)] #[repr(u16)] enum Sample<T> {",
    )?;
    for place in 0..count {
        let variant = variant(alloc, place)?;
        text.push_str(variant.as_str())?;
    }
    text.push_str(" }")?;
    Ok(text)
}

/// The variant at a place of the sample, from 0.
fn variant(alloc: Global, place: u16) -> Result<String, AllocError>
    ensures { IfOk result (λ text. string_bytes text ≡ spec.sample_variant place) }
{
    if place % 3 == 0 {
        format!(in alloc; " V{place},")
    } else if place % 3 == 1 {
        format!(in alloc; " V{place}(u32, T),")
    } else {
        format!(in alloc;
            " V{place} {{ #[educe(PartialOrd(rank = 2), Ord(rank = 2), Hash(ignore))] a: u32, b: T }},"
        )
    }
}

/// Whether the item is the implementation of a trait.
#[tactic(auto, unfolding(crate::specs::Sample::is_impl))]
fn is_impl(item: &Item) -> bool
    ensures { result ≡ spec.is_impl item.now }
{
    match item {
        Item::Impl(_) => true,
        Item::New(_) | Item::FieldCheck(_) | Item::Marker(_) => false,
    }
}

/// How many of the items are implementations of traits.
fn impl_count(items: &[Item]) -> usize
    ensures { result ≡ count_by spec.is_impl items.now }
{
    let mut count = 0;
    for item in items {
        if is_impl(item) {
            count += 1;
        }
    }
    count
}

/// The line with these numbers.
fn numbers_line(
    alloc: Global,
    count: u16,
    bytes: usize,
    tokens: usize,
    impls: usize,
    written: usize,
) -> Result<String, AllocError>
    ensures { IfOk result (λ line. string_bytes line ≡ spec.sample_line count bytes tokens impls written) }
{
    format!(in alloc;
        "sample {count}: {bytes} bytes, {tokens} tokens, {impls} impls, {written} bytes out\n"
    )
}

/// The line about the expansion of an input.
pub fn sample_line(
    alloc: Global,
    count: u16,
    input: &str,
    expansion: &Expansion,
) -> Result<String, AllocError>
    ensures { IfOk result (λ line. string_bytes line ≡ spec.sample_line count (length input.now)
        (token_count_of_expansion expansion.now) (count_by spec.is_impl (items_of_expansion expansion.now))
        (length (text_of_expansion expansion.now))) }
{
    let bytes = input.len();
    let tokens = expansion.token_count();
    let impls = impl_count(expansion.items().as_slice());
    let written = expansion.text().len();
    numbers_line(alloc, count, bytes, tokens, impls, written)
}
