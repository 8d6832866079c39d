//! Whole numbers that are larger than those of one integer type.
ghost use Rattle.std.specs.Prelude.{◌≡◌, ◌^◌, pos, neg_ℤ, Some, refl};
ghost use Rattle.std.specs.Int.{int_rem_euclid};
ghost use Rattle.std.specs.Ordering.{int_cmp, int_eq};
ghost use Rattle.std.specs.Cmp.{partial_equiv_from_equiv, int_eq_equiv, int_cmp_total, signed_po};

use std::cmp::Ordering;
use std::marker::Model;

/// A whole number between -2^128 and 2^128, as written by a literal or its negation. A contract
/// sees the number.
#[derive(Clone, Copy)]
pub struct Number {
    /// Whether the number is below 0.
    is_negative: bool,
    /// The number, or how far it is below -1.
    magnitude: u128,
}

impl Model for Number {
    ghost use Rattle.std.specs.Prelude.{ℤ};
    ghost use Rattle.std.specs.Int.{complement_if};

    ghost Value = { ℤ };

    ghost use Rattle.educe_discriminants.specs.Numbers.{fields_of, fields_of-complement_if};

    ghost view = { λ n. complement_if n.is_negative n.magnitude };

    ghost inverse = { fields_of };

    ghost inverse_ok = { λ n h. fields_of-complement_if n };
}

impl Number {
    /// A number that is not negative.
    pub fn new(magnitude: u128) -> Number
        ensures { result ≡ pos magnitude }
    {
        Number {
            is_negative: false,
            magnitude,
        }
    }

    /// The negation of a number.
    pub fn negated(magnitude: u128) -> Number
        ensures { result ≡ neg_ℤ (pos magnitude) }
    {
        if magnitude == 0 {
            Number::new(0)
        } else {
            Number {
                is_negative: true,
                magnitude: magnitude - 1,
            }
        }
    }

    /// The number's lowest 128 bits in two's complement.
    pub(crate) fn low_bits(self) -> u128
        ensures { pos result ≡ int_rem_euclid self (pos (2 ^ 128)) }
    {
        if self.is_negative {
            !self.magnitude
        } else {
            self.magnitude
        }
    }
}

impl From<i128> for Number {
    ghost use Rattle.std.specs.Prelude.{◌≡◌};

    ghost from_gives = { λ number found. found ≡ number };

    fn from(number: i128) -> Number {
        if number < 0 {
            Number::negated(number.unsigned_abs())
        } else {
            Number::new(number.unsigned_abs())
        }
    }
}

impl PartialEq for Number {
    ghost eq = { int_eq };

    ghost laws = { partial_equiv_from_equiv int_eq_equiv };

    fn eq(&self, other: &Number) -> bool {
        self.cmp(other).is_eq()
    }
}

impl Eq for Number {
    ghost laws = { int_eq_equiv };
}

impl PartialOrd for Number {
    ghost partial_cmp = { λ a b. Some (int_cmp a b) };

    ghost laws = { signed_po };

    fn partial_cmp(&self, other: &Number) -> Option<Ordering> {
        Some(self.cmp(other))
    }
}

impl Ord for Number {
    ghost cmp = { int_cmp };

    ghost total = { int_cmp_total };

    ghost matches_partial_cmp = { λ a b. refl };

    ghost matches_eq = { λ a b. refl };

    fn cmp(&self, other: &Number) -> Ordering {
        match (self.is_negative, other.is_negative) {
            (false, false) => self.magnitude.cmp(&other.magnitude),
            (false, true) => Ordering::Greater,
            (true, false) => Ordering::Less,
            (true, true) => other.magnitude.cmp(&self.magnitude),
        }
    }
}
