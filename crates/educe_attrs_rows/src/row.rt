//! Rows: the forms of a trait's attribute that a place allows.
ghost use Rattle.std.specs.Prelude.{◌≡◌, find};
ghost use Rattle.educe_attrs_rows.specs.Rows as spec;

use crate::param::Param;
use educe_attrs_values::is_one_word;
use educe_syntax::MetaPath;

/// What may stand after `=`.
#[derive(Clone, Copy, Debug, PartialEq, Eq)]
pub enum Equals {
    Nothing,
    /// `true` or `false`: whether the field is not ignored.
    Truth,
    /// An identifier: the name that is shown.
    Ident,
    /// The name that is shown, or whether the field is not ignored.
    Name,
    /// An expression: the default value.
    Expr,
}

/// What the value of `name` may be.
#[derive(Clone, Copy, Debug, PartialEq, Eq)]
pub enum NameKind {
    /// An identifier.
    Ident,
    /// An identifier, or a truth value, of which the usage line shows this one.
    Name(bool),
}

/// The forms of a trait's attribute that a place allows (documentation of `educe`, each trait's
/// section). A row without any is empty: the attribute is not allowed there.
#[derive(Clone, Copy, Debug, PartialEq, Eq)]
pub struct Row {
    /// The trait alone, or an empty list.
    pub flag: bool,
    pub equals: Equals,
    pub name: Option<NameKind>,
    /// The truth value that the usage line shows, where the parameter is allowed.
    pub named_field: Option<bool>,
    pub new: bool,
    pub expression: bool,
    pub ignore: bool,
    pub method: bool,
    pub rank: bool,
    pub reverse: bool,
    pub bound: bool,
}

impl Row {
    /// The row that allows no form; other rows extend it.
    pub const EMPTY: Row = Row {
        flag: false,
        equals: Equals::Nothing,
        name: None,
        named_field: None,
        new: false,
        expression: false,
        ignore: false,
        method: false,
        rank: false,
        reverse: false,
        bound: false,
    };

    /// Whether the parameter is allowed in the list.
    fn allows(&self, param: Param) -> bool
        ensures { result ≡ spec.allows self.now param }
    {
        match param {
            Param::Name => self.name.is_some(),
            Param::NamedField => self.named_field.is_some(),
            Param::New => self.new,
            Param::Expression => self.expression,
            Param::Ignore => self.ignore,
            Param::Method => self.method,
            Param::Rank => self.rank,
            Param::Reverse => self.reverse,
            Param::Bound => self.bound,
        }
    }

    /// Whether neither `name` nor `named_field` is allowed in the list.
    fn has_no_name(&self) -> bool
        ensures { result ≡ spec.has_no_name self.now }
    {
        self.name.is_none() && self.named_field.is_none()
    }

    /// Whether no parameter but `name` and `named_field` is allowed in the list.
    fn has_no_param(&self) -> bool
        ensures { result ≡ spec.has_no_param self.now }
    {
        !self.new
            && !self.expression
            && !self.ignore
            && !self.method
            && !self.rank
            && !self.reverse
            && !self.bound
    }

    /// Whether no form is allowed at the place.
    pub fn is_empty(&self) -> bool
        ensures { result ≡ spec.is_empty self.now }
    {
        !self.flag
            && matches!(self.equals, Equals::Nothing)
            && self.has_no_name()
            && self.has_no_param()
    }

    /// Whether the path is a word of the parameter, and the row allows the parameter.
    fn names(&self, path: &MetaPath, param: Param) -> bool
        ensures { result ≡ spec.names self.now path.now param }
    {
        let tokens = path.written.tokens().as_slice();
        self.allows(param)
            && (is_one_word(tokens, param.word()) || is_one_word(tokens, param.alias()))
    }

    /// The first of these parameters that the path names and the row allows.
    fn first_named(&self, params: &[Param], path: &MetaPath) -> Option<Param>
        ensures { result ≡ find (spec.names self.now path.now) params.now }
    {
        for param in params {
            if self.names(path, *param) {
                return Some(*param);
            }
        }
        None
    }

    /// The parameter of the row that the path names.
    pub fn param_of(&self, path: &MetaPath) -> Option<Param>
        ensures { result ≡ spec.param_of self.now path.now }
    {
        self.first_named(&Param::VARIANTS, path)
    }
}
