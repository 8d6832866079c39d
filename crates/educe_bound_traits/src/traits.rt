//! The traits that can be derived.
ghost use Rattle.std.specs.Prelude.{◌≡◌, ◌↔◌, ◌≤◌, IsTrue, Some, IfSome, chars, nat_le};
ghost use Rattle.std.specs.List.{list_all};
ghost use Rattle.educe_tree.specs.Words.{IsOneWord};
ghost use Rattle.educe_bound_traits.specs.Named.{trait_named};
ghost use Rattle.educe_bound_traits.specs.Traits as spec;

use crate::named::first_named;
use educe_tokens::Seq;
use educe_tree::MetaPath;

/// A trait that can be derived (documentation of `educe`, Traits).
#[derive(Clone, Copy, Debug, PartialEq, Eq, Hash)]
pub enum Trait {
    Debug,
    Clone,
    Copy,
    PartialEq,
    Eq,
    PartialOrd,
    Ord,
    Hash,
    Default,
}

/// A list of traits, in the order in which they are given (documentation of `educe`, Traits).
pub type Traits = Seq<Trait>;

impl Trait {
    /// The traits in their fixed order, in which items are written.
    pub const VARIANTS: [Trait; 9] = [
        Trait::Debug,
        Trait::Clone,
        Trait::Copy,
        Trait::PartialEq,
        Trait::Eq,
        Trait::PartialOrd,
        Trait::Ord,
        Trait::Hash,
        Trait::Default,
    ];

    /// The name of the trait, as attributes spell it.
    #[tactic(auto, using(crate::proofs::Words::trait_names))]
    pub fn name(self) -> &'static str
        ensures { chars result.now ≡ spec.text_of self }
    {
        match self {
            Trait::Debug => "Debug",
            Trait::Clone => "Clone",
            Trait::Copy => "Copy",
            Trait::PartialEq => "PartialEq",
            Trait::Eq => "Eq",
            Trait::PartialOrd => "PartialOrd",
            Trait::Ord => "Ord",
            Trait::Hash => "Hash",
            Trait::Default => "Default",
        }
    }

    /// The trait whose name the path is, compared by spelling: `r#Debug` and `::Debug` name none.
    #[tactic(auto, using(crate::proofs::Apart::named_only))]
    pub fn from_path(path: &MetaPath) -> Option<Trait>
        ensures value { result ≡ trait_named path.now }
        ensures named { IfSome result (λ which. IsOneWord path.now.written.tokens (spec.text_of which)) }
        ensures only { (which : Trait) → IsOneWord path.now.written.tokens (spec.text_of which) → result ≡ Some which }
    {
        first_named(&Trait::VARIANTS, path)
    }

    /// The place of the trait in the fixed order, from 0 on.
    fn place(self) -> u8
        ensures { result ≡ spec.place self }
    {
        match self {
            Trait::Debug => 0,
            Trait::Clone => 1,
            Trait::Copy => 2,
            Trait::PartialEq => 3,
            Trait::Eq => 4,
            Trait::PartialOrd => 5,
            Trait::Ord => 6,
            Trait::Hash => 7,
            Trait::Default => 8,
        }
    }
}

/// Whether both are the same trait.
#[tactic(auto, using(crate::proofs::Apart::same_is))]
pub fn same_trait(a: Trait, b: Trait) -> bool
    ensures value { result ≡ spec.same_trait a b }
    ensures equal { IsTrue result ↔ (a ≡ b) }
{
    a.place() == b.place()
}

/// The number of times that the trait occurs in the list.
fn count_of(which: Trait, names: &[Trait]) -> usize
    ensures { result ≡ spec.count_of which names.now }
{
    names
        .iter()
        .filter(|name| same_trait(which, **name))
        .count()
}

/// Whether the trait occurs at most once in the list.
fn is_single(which: Trait, names: &[Trait]) -> bool
    ensures { result ≡ nat_le (spec.count_of which names.now) 1 }
{
    count_of(which, names) <= 1
}

/// Whether each of the traits occurs at most once in the list.
fn are_single(traits: &[Trait], names: &[Trait]) -> bool
    ensures { result ≡ list_all (λ which. nat_le (spec.count_of which names.now) 1) traits.now }
{
    traits.iter().all(|which| is_single(*which, names))
}

/// Whether no trait occurs twice in the list.
pub fn each_once(names: &[Trait]) -> bool
    ensures { result ≡ spec.each_once names.now }
{
    are_single(&Trait::VARIANTS, names)
}

/// Whether the trait occurs in the list.
pub fn is_listed(listed: &[Trait], which: Trait) -> bool
    ensures { result ≡ spec.is_listed listed.now which }
{
    listed.iter().any(|name| same_trait(which, *name))
}

/// Whether each of the traits occurs in the list.
pub fn all_listed(listed: &[Trait], names: &[Trait]) -> bool
    ensures { result ≡ spec.all_listed listed.now names.now }
{
    names.iter().all(|name| is_listed(listed, *name))
}
