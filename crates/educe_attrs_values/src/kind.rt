//! The kinds of values.
ghost use Rattle.std.specs.Prelude.{◌≡◌};
ghost use Rattle.educe_attrs_values.specs.Kinds as spec;

/// The kinds of values that parameters have (documentation of `educe`, Traits).
#[derive(Clone, Copy, Debug, PartialEq, Eq)]
pub enum ValueKind {
    /// A name, or a string of one.
    Ident,
    /// A name, a string of one, `true`, `false`, or an empty string.
    Name,
    /// `true` or `false`
    Truth,
    /// `true` or `false`; the parameter alone means `true`.
    Flag,
    /// A path of an expression, or a string of one.
    Path,
    /// An integer of 64 bits, or a string of a decimal one.
    Integer,
    /// An expression.
    Expr,
    /// `true`, `false`, or a string of predicates; in brackets also `*` and predicates.
    Bound,
}

impl ValueKind {
    /// The sample of the kind that messages show.
    pub fn sample(self) -> &'static str
        ensures { result.now ≡ spec.sample self }
    {
        match self {
            ValueKind::Ident => "Ident",
            ValueKind::Name => "Ident",
            ValueKind::Truth => "false",
            ValueKind::Flag => "false",
            ValueKind::Path => "Path",
            ValueKind::Integer => "integer",
            ValueKind::Expr => "Expr",
            ValueKind::Bound => "false",
        }
    }
}
