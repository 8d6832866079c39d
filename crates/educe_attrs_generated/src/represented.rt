//! What the `repr` lists of a type hold (Rust Reference, Representations).
ghost use Rattle.std.specs.Prelude.{◌≡◌, IfOk};
ghost use Rattle.educe_discriminants.specs.declared.discriminant_type.DiscriminantType.{DiscriminantType};
ghost use Rattle.educe_attrs_generated.specs.Represented as spec;

use crate::word::is_one_word;
use educe_attrs_values::inside;
use educe_discriminants::DiscriminantType;
use educe_syntax::{Attributes, Meta, Metas, Terminal, parse_metas};
use educe_tokens::{Kind, Seq, Token, TokenSlice};
use std::alloc::{AllocError, Global};

/// The metas in a bracket pair.
fn metas_inside(alloc: Global, tokens: &TokenSlice) -> Result<Metas, AllocError>
    ensures { IfOk result (spec.HoldsMetas tokens.now) }
{
    let inner = inside(tokens)?;
    match parse_metas(alloc, &inner) {
        Ok(metas) => Ok(metas),
        Err(error) => match error.kind {
            Kind::Alloc => Err(AllocError),
            _ => Ok(Seq::new(alloc)),
        },
    }
}

/// The metas that an attribute holds as a `repr` list.
#[tactic(auto, using(crate::proofs::Words::chars_repr))]
fn represents(alloc: Global, meta: &Meta) -> Result<Metas, AllocError>
    ensures { IfOk result (spec.Represents meta.now) }
{
    match meta {
        Meta::List(path, written, _) => {
            if is_one_word(path, "repr") {
                metas_inside(alloc, written.tokens())
            } else {
                Ok(Seq::new(alloc))
            }
        }
        _ => Ok(Seq::new(alloc)),
    }
}

/// The metas that the `repr` lists among the attributes hold, in written order. A list that is no
/// list of metas holds none. Fails only where memory runs out.
pub(crate) fn representation(alloc: Global, attributes: &Attributes) -> Result<Metas, AllocError>
    ensures { IfOk result (spec.AreHeld attributes.now) }
{
    let mut held = Seq::new(alloc);
    for attribute in attributes.as_slice() {
        held.append(represents(alloc, &attribute.meta)?)?;
    }
    Ok(held)
}

/// The integer type of this name, where the tokens are one word.
fn type_of_word(tokens: &[Token]) -> Option<DiscriminantType>
    ensures { result ≡ spec.type_of_word tokens.now }
{
    match tokens {
        [word] if Terminal::AnyWord.accepts(word) => {
            DiscriminantType::parse_str(word.spelling.as_str())
        }
        _ => None,
    }
}

/// The integer type that a meta names.
fn type_of(meta: &Meta) -> Option<DiscriminantType>
    ensures { result ≡ spec.type_of meta.now }
{
    match meta {
        Meta::Word(path) => type_of_word(path.written.tokens().as_slice()),
        _ => None,
    }
}

/// The last integer type that the metas name; `isize` where they name none.
fn last_type(metas: &[Meta]) -> DiscriminantType
    ensures { result ≡ spec.last_type metas.now }
{
    metas
        .iter()
        .filter_map(|meta| type_of(meta))
        .last()
        .unwrap_or(DiscriminantType::ISize)
}

/// The type of an enum's discriminants: the last integer type in its `repr` lists, or `isize` (Rust
/// Reference, Primitive representations). A list that is no list of metas names none. Fails only
/// when out of memory.
pub fn discriminant_type(
    alloc: Global,
    attributes: &Attributes,
) -> Result<DiscriminantType, AllocError>
    ensures found { IfOk result (spec.IsDiscriminantType attributes.now) }
    ensures only { IfOk result (λ found. (ty : DiscriminantType) → spec.IsDiscriminantType attributes.now ty → ty ≡ found) }
{
    let held = representation(alloc, attributes)?;
    Ok(last_type(held.as_slice()))
}
