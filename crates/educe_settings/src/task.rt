//! What the functions of a handler are asked for.
use educe_bound::Trait;
use educe_syntax::DeriveInput;

/// A trait, the definition that it is derived for, and the traits that this lists.
#[derive(Clone, Copy)]
pub struct Task<'d, 'l> {
    /// The trait that is derived.
    pub trait_: Trait,
    pub ast: &'d DeriveInput,
    /// The traits that the definition lists.
    pub listed: &'l [Trait],
}
