//! Generic parameters and where clauses (Rust Reference, Generic parameters).

use crate::ident::Ident;
use crate::lifetime::Lifetime;
use crate::to_tokens::AsWritten;
use educe_tokens::{Seq, Written};

/// The parameters of a definition and the predicates of its where clause (Rust Reference, Generic
/// parameters).
#[derive(Drop)]
pub struct Generics {
    pub params: Params,
    pub predicates: Predicates,
}

/// A generic parameter (Rust Reference, Generic parameters).
#[derive(Drop)]
pub enum GenericParam {
    /// `'a: 'b`
    Lifetime(LifetimeParam),
    /// `T: Bound`
    TypeParam(TypeParam),
    /// `const N: usize`
    Const(ConstParam),
}

/// Parameters in their order.
pub type Params = Seq<GenericParam>;

/// The parameter of a lifetime, with its tokens (Rust Reference, Generic parameters).
#[derive(Drop)]
pub struct LifetimeParam {
    pub lifetime: Lifetime,
    pub written: Written,
}

/// The parameter of a type, with its tokens without the default (Rust Reference, Generic
/// parameters).
#[derive(Drop)]
pub struct TypeParam {
    pub ident: Ident,
    pub written: Written,
}

/// The parameter of a constant, with its tokens without the default (Rust Reference, Const
/// generics).
#[derive(Drop)]
pub struct ConstParam {
    pub ident: Ident,
    pub written: Written,
}

/// A predicate of a where clause, with its tokens (Rust Reference, Where clauses).
#[derive(Drop)]
pub struct WherePredicate {
    pub written: Written,
}

/// Predicates in their order.
pub type Predicates = Seq<WherePredicate>;

impl AsWritten for GenericParam {
    ghost use Rattle.educe_tree.specs.Params.{written_of};

    ghost held = { written_of };

    fn written(&self) -> &Written {
        match self {
            GenericParam::Lifetime(param) => &param.written,
            GenericParam::TypeParam(param) => &param.written,
            GenericParam::Const(param) => &param.written,
        }
    }
}

impl AsWritten for LifetimeParam {
    ghost held = { λ param. param.written };

    fn written(&self) -> &Written {
        &self.written
    }
}

impl AsWritten for TypeParam {
    ghost held = { λ param. param.written };

    fn written(&self) -> &Written {
        &self.written
    }
}

impl AsWritten for ConstParam {
    ghost held = { λ param. param.written };

    fn written(&self) -> &Written {
        &self.written
    }
}

impl AsWritten for WherePredicate {
    ghost held = { λ predicate. predicate.written };

    fn written(&self) -> &Written {
        &self.written
    }
}
