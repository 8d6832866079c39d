//! The types of fields, distinguished by their tokens, and default values of these types.
ghost use Rattle.std.specs.Prelude.{◌≡◌, ◌++◌, IsTrue, IfOk};
ghost use Rattle.std.specs.List.{flat_map};
ghost use Rattle.std.specs.Cmp.Lexicographic.{pointwise};
ghost use Rattle.std.specs.Option.{option_copied};
ghost use Rattle.std.specs.Str.{bytes_eq};
ghost use Rattle.educe_body_values.specs.Callees.{spellings, texts, are_ascii};
ghost use Rattle.educe_body_values.specs.Types as spec;

use crate::scoping::names_bound;
use educe_body_forms::is_text;
use educe_body_values::{Binding, Callee};
use educe_tokens::{Spelling, Token, TokenStream, Written, append_written, text};
use educe_tree::{DeriveInput, Field, Shape, Variant};
use std::alloc::{AllocError, Global};

/// What stands behind the type in `< T as :: core :: default :: Default > :: default ( )`.
const BEHIND_TYPE: [&str; 16] = [
    "as", ":", ":", "core", ":", ":", "default", ":", ":", "Default", ">", ":", ":", "default",
    "(", ")",
];

/// Whether tokens are spelled as others.
fn same_spelled(tokens: &[Token], others: &[Token]) -> bool
    ensures { result ≡ pointwise bytes_eq (spellings tokens.now) (spellings others.now) }
{
    if tokens.len() != others.len() {
        return false;
    }
    for i in 0..tokens.len() {
        if !is_text(&tokens[i].spelling, others[i].spelling.as_str()) {
            return false;
        }
    }
    true
}

/// Whether tokens are spelled as these words of ASCII characters.
fn are_words(tokens: &[Token], words: &[&str]) -> bool
    requires { IsTrue (are_ascii words.now) }
    ensures { result ≡ pointwise bytes_eq (spellings tokens.now) (texts words.now) }
{
    if tokens.len() != words.len() {
        return false;
    }
    for i in 0..tokens.len() {
        if !tokens[i].spelling.spells(words[i]) {
            return false;
        }
    }
    true
}

/// Whether tokens are those of a type, and then those behind it in a call of `Default::default`.
fn is_type_call(tokens: &[Token], ty: &[Token]) -> bool
    ensures { result ≡ pointwise bytes_eq (spellings tokens.now) (spellings ty.now ++ spec.behind_type) }
{
    if tokens.len() < ty.len() {
        return false;
    }
    let (front, back) = tokens.split_at(ty.len());
    same_spelled(front, ty) && are_words(back, &BEHIND_TYPE)
}

/// Whether tokens call `Default::default` for the type of others.
fn is_default_call(tokens: &[Token], ty: &[Token]) -> bool
    ensures { result ≡ pointwise bytes_eq (spellings tokens.now) (spec.default_call (spellings ty.now)) }
{
    if tokens.is_empty() {
        return false;
    }
    let (first, rest) = tokens.split_at(1);
    are_words(first, &["<"]) && is_type_call(rest, ty)
}

/// The tokens of a field's type.
fn type_tokens(field: &Field) -> &[Token]
    ensures { spellings result.now ≡ spec.type_spellings field.now }
{
    field.ty.written.tokens().as_slice()
}

/// The place of the first of these fields whose type has these tokens; without one, how many there
/// are.
fn first_place(fields: &[Field], ty: &[Token]) -> usize
    ensures { result ≡ spec.first_place fields.now (spellings ty.now) }
{
    for (place, field) in fields.iter().enumerate() {
        if same_spelled(type_tokens(field), ty) {
            return place;
        }
    }
    fields.len()
}

/// The place of the first field whose type has these tokens, counted over the fields of all variants, one
/// variant behind the other; without one, how many fields there are. A place of 2^64 or more is none.
fn place_among(variants: &[Variant], ty: &[Token]) -> Option<usize>
    ensures { let fields = flat_map (λ v. v.fields.fields) variants.now in
        spec.IsPlace (spec.first_place fields (spellings ty.now)) result }
{
    let mut before: usize = 0;
    for variant in variants {
        let fields = variant.fields.fields.as_slice();
        let place = first_place(fields, ty);
        let Some(sum) = before.checked_add(place) else {
            return None;
        };
        if place < fields.len() {
            return Some(sum);
        }
        before = sum;
    }
    Some(before)
}

/// The place of a type among those of all fields of a definition.
fn type_place(ast: &DeriveInput, ty: &[Token]) -> Option<usize>
    ensures { spec.IsPlace (spec.type_place ast.now (spellings ty.now)) result }
{
    match &ast.shape {
        Shape::Struct(shape) => Some(first_place(shape.fields.as_slice(), ty)),
        Shape::Enum(variants) => place_among(variants.as_slice(), ty),
    }
}

/// `Default::default` of the type at a place.
fn default_of(place: Option<usize>) -> Option<Callee>
    ensures { (n : _) → spec.IsPlace n place → result ≡ spec.default_of n }
{
    match place {
        Some(place) if place <= u32::MAX as usize => Some(Callee::Default(place as u32)),
        _ => None,
    }
}

/// The text of tokens, as what is called.
fn written_callee(alloc: Global, written: &Written) -> Result<Option<Callee>, AllocError>
    ensures { IfOk result (λ callee. callee ≡ spec.written_callee written.now) }
{
    let mut tokens = TokenStream::new(alloc);
    append_written(alloc, &mut tokens, written)?;
    let text = text(alloc, &tokens)?;
    Ok(Some(Callee::Written(Spelling::from_str(alloc, &text)?)))
}

/// What tokens call that stand in a field's initializer, or in none.
fn text_callee(
    alloc: Global,
    ast: &DeriveInput,
    field: Option<&Field>,
    written: &Written,
) -> Result<Option<Callee>, AllocError>
    ensures { IfOk result (λ callee.
        callee ≡ spec.text_callee ast.now (option_copied field.entry) written.now) }
{
    if let Some(field) = field {
        if is_default_call(written.tokens().as_slice(), type_tokens(field)) {
            return Ok(default_of(type_place(ast, type_tokens(field))));
        }
    }
    written_callee(alloc, written)
}

/// What tokens call where these names are in scope: tokens that have one of them among their identifiers call
/// nothing.
pub(crate) fn pasted_callee(
    alloc: Global,
    ast: &DeriveInput,
    field: Option<&Field>,
    names: &[Binding],
    written: &Written,
) -> Result<Option<Callee>, AllocError>
    ensures { IfOk result (λ callee.
        callee ≡ spec.pasted_callee ast.now (option_copied field.entry) names.now written.now) }
{
    if names_bound(names, written.tokens().as_slice()) {
        return Ok(None);
    }
    text_callee(alloc, ast, field, written)
}
