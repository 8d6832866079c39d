//! The values that an attribute sets.
ghost use Rattle.std.specs.Prelude.{◌≡◌};
ghost use Rattle.educe_attrs_rows.specs.Settings as spec;

use crate::param::Param;
use educe_attrs_values::{IdentOrBool, WherePredicatesOrBool};
use educe_syntax::{Expr, ExprPath};
use educe_tokens::Span;

/// A rank, and the place of the whole parameter.
#[derive(Clone, Copy, Debug, PartialEq, Eq)]
pub struct Rank {
    pub number: i64,
    pub span: Span,
}

/// The values that an attribute of a trait sets, one for each parameter that it gives.
#[derive(Drop)]
pub struct Values {
    pub name: Option<IdentOrBool>,
    pub named_field: Option<bool>,
    pub new: Option<bool>,
    pub expression: Option<Expr>,
    pub ignore: Option<bool>,
    pub method: Option<ExprPath>,
    pub rank: Option<Rank>,
    pub reverse: Option<bool>,
    pub bound: Option<WherePredicatesOrBool>,
    /// The attribute is the trait alone, or an empty list.
    pub flag: bool,
    /// The span of the whole attribute; 0 to 0 where there is none.
    pub span: Span,
}

impl Values {
    /// The values where there is no attribute.
    pub fn none() -> Values
        ensures { result ≡ spec.no_values }
    {
        Values::at(Span::NONE)
    }

    /// The values of an attribute with this span, none of which is set yet.
    pub fn at(span: Span) -> Values
        ensures { result ≡ spec.values_at span }
    {
        Values {
            name: None,
            named_field: None,
            new: None,
            expression: None,
            ignore: None,
            method: None,
            rank: None,
            reverse: None,
            bound: None,
            flag: false,
            span,
        }
    }

    /// Whether the parameter has a value.
    pub fn has(&self, param: Param) -> bool
        ensures { result ≡ spec.has param self.now }
    {
        match param {
            Param::Name => self.name.is_some(),
            Param::NamedField => self.named_field.is_some(),
            Param::New => self.new.is_some(),
            Param::Expression => self.expression.is_some(),
            Param::Ignore => self.ignore.is_some(),
            Param::Method => self.method.is_some(),
            Param::Rank => self.rank.is_some(),
            Param::Reverse => self.reverse.is_some(),
            Param::Bound => self.bound.is_some(),
        }
    }
}
