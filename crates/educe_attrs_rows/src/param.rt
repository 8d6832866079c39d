//! The parameters of traits.
ghost use Rattle.std.specs.Prelude.{◌≡◌, chars};
ghost use Rattle.educe_attrs_rows.specs.Params as spec;

/// A parameter in the list of a trait (documentation of `educe`, each trait's section).
#[derive(Clone, Copy, Debug, PartialEq, Eq)]
pub enum Param {
    Name,
    NamedField,
    New,
    Expression,
    Ignore,
    Method,
    Rank,
    Reverse,
    Bound,
}

impl Param {
    /// All parameters.
    pub const VARIANTS: [Param; 9] = [
        Param::Name,
        Param::NamedField,
        Param::New,
        Param::Expression,
        Param::Ignore,
        Param::Method,
        Param::Rank,
        Param::Reverse,
        Param::Bound,
    ];

    /// The word that names the parameter.
    #[tactic(auto, using(crate::proofs::Texts::chars_name, crate::proofs::Texts::chars_named_field, crate::proofs::Texts::chars_new, crate::proofs::Texts::chars_expression, crate::proofs::Texts::chars_ignore, crate::proofs::Texts::chars_method, crate::proofs::Texts::chars_rank, crate::proofs::Texts::chars_reverse, crate::proofs::Texts::chars_bound))]
    pub fn word(self) -> &'static str
        ensures { chars result.now ≡ spec.word_of self }
    {
        match self {
            Param::Name => "name",
            Param::NamedField => "named_field",
            Param::New => "new",
            Param::Expression => "expression",
            Param::Ignore => "ignore",
            Param::Method => "method",
            Param::Rank => "rank",
            Param::Reverse => "reverse",
            Param::Bound => "bound",
        }
    }

    /// The alternative word that names the parameter; the word itself where it has none.
    #[tactic(auto, using(crate::proofs::Texts::chars_rename, crate::proofs::Texts::chars_expr))]
    pub fn alias(self) -> &'static str
        ensures { chars result.now ≡ spec.alias_of self }
    {
        match self {
            Param::Name => "rename",
            Param::Expression => "expr",
            other => other.word(),
        }
    }
}
