//! The types that discriminants have (Rust Reference, Enumerations; Primitive representations).
ghost use Rattle.std.specs.Prelude.{◌≡◌, ◌-◌, ◌^◌, pos, ◌+ℤ◌, IfSome, chars};
ghost use mir.Val.{bits};
ghost use Rattle.educe_tokens.proofs.Printable.{well_formed_from, ends_apart_from, lexes_back_from};
ghost use Rattle.educe_discriminants.specs.declared.discriminant_type.DiscriminantType.{DiscriminantType};
ghost use Rattle.educe_discriminants.specs.Types as spec;
ghost use Rattle.educe_discriminants.specs.Ranges.{wrapped};
ghost use Rattle.educe_discriminants.specs.Printed.{primitive_lexemes, primitive_printable};

use crate::number::Number;
use educe_tokens::{TokenStream, quote};
use educe_tree::ToTokens;
use std::alloc::{AllocError, Global};

/// An integer type that the discriminants of an enum may have (Rust Reference, Primitive
/// representations). `isize` and `usize` have 64 bits here.
#[derive(Clone, Copy, Debug, PartialEq, Eq)]
pub enum DiscriminantType {
    ISize,
    I8,
    I16,
    I32,
    I64,
    I128,
    USize,
    U8,
    U16,
    U32,
    U64,
    U128,
}

impl DiscriminantType {
    /// All discriminant types, signed ones first.
    pub const VARIANTS: [DiscriminantType; 12] = [
        DiscriminantType::ISize,
        DiscriminantType::I8,
        DiscriminantType::I16,
        DiscriminantType::I32,
        DiscriminantType::I64,
        DiscriminantType::I128,
        DiscriminantType::USize,
        DiscriminantType::U8,
        DiscriminantType::U16,
        DiscriminantType::U32,
        DiscriminantType::U64,
        DiscriminantType::U128,
    ];

    /// The type of this name; none where no type has it (Rust Reference, Numeric types).
    pub fn parse_str(name: &str) -> Option<DiscriminantType>
        ensures value { result ≡ spec.type_named (chars name.now) }
        ensures named { IfSome result (λ ty. chars name.now ≡ spec.name_of ty) }
        ensures only { (ty : DiscriminantType) → chars name.now ≡ spec.name_of ty → result ≡ Some ty }
    {
        for ty in &DiscriminantType::VARIANTS {
            if name == ty.as_str() {
                return Some(*ty);
            }
        }
        None
    }

    /// The name of the type (Rust Reference, Numeric types).
    #[tactic(auto, using(crate::proofs::Words::integer_names))]
    pub fn as_str(&self) -> &'static str
        ensures chars { chars result.now ≡ spec.name_of self.now }
        ensures bytes { result.now ≡ spec.name_of self.now }
    {
        match self {
            DiscriminantType::ISize => "isize",
            DiscriminantType::I8 => "i8",
            DiscriminantType::I16 => "i16",
            DiscriminantType::I32 => "i32",
            DiscriminantType::I64 => "i64",
            DiscriminantType::I128 => "i128",
            DiscriminantType::USize => "usize",
            DiscriminantType::U8 => "u8",
            DiscriminantType::U16 => "u16",
            DiscriminantType::U32 => "u32",
            DiscriminantType::U64 => "u64",
            DiscriminantType::U128 => "u128",
        }
    }

    /// The largest number of the type's bits, read with no sign: each bit is 1.
    fn mask(self) -> u128
        ensures { result ≡ 2 ^ bits (spec.width self) - 1 }
    {
        match self {
            DiscriminantType::I8 | DiscriminantType::U8 => u8::MAX as u128,
            DiscriminantType::I16 | DiscriminantType::U16 => u16::MAX as u128,
            DiscriminantType::I32 | DiscriminantType::U32 => u32::MAX as u128,
            DiscriminantType::ISize
            | DiscriminantType::USize
            | DiscriminantType::I64
            | DiscriminantType::U64 => u64::MAX as u128,
            DiscriminantType::I128 | DiscriminantType::U128 => u128::MAX,
        }
    }

    /// Whether the type has numbers below 0.
    fn is_signed(self) -> bool
        ensures { result ≡ spec.is_signed self }
    {
        match self {
            DiscriminantType::ISize
            | DiscriminantType::I8
            | DiscriminantType::I16
            | DiscriminantType::I32
            | DiscriminantType::I64
            | DiscriminantType::I128 => true,
            DiscriminantType::USize
            | DiscriminantType::U8
            | DiscriminantType::U16
            | DiscriminantType::U32
            | DiscriminantType::U64
            | DiscriminantType::U128 => false,
        }
    }

    /// The number that is `steps` further than the given one in the range of the type, wrapping
    /// around at its end (documentation of the primitive integer types, `wrapping_add`).
    pub fn wrapping_add(self, number: Number, steps: usize) -> Number
        ensures { result ≡ wrapped self (number +ℤ pos steps) }
    {
        let mask = self.mask();
        let bits = number.low_bits().wrapping_add(steps as u128) & mask;
        if self.is_signed() && bits > mask / 2 {
            Number::negated(mask - bits + 1)
        } else {
            Number::new(bits)
        }
    }
}

impl ToTokens for DiscriminantType {
    ghost lexemes_of = { primitive_lexemes };

    ghost well_formed = { λ ty. well_formed_from (primitive_printable ty) };

    ghost ends_apart = { λ ty. ends_apart_from (primitive_printable ty) };

    ghost lexes_back = { λ ty. lexes_back_from (primitive_printable ty) };

    /// Appends the absolute path of the type, which no name of the input can shadow.
    fn to_tokens(&self, alloc: Global, tokens: &mut TokenStream) -> Result<(), AllocError> {
        quote(alloc, tokens, ":: core :: primitive ::")?;
        quote(alloc, tokens, self.as_str())
    }
}
