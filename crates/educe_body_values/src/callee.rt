//! Which functions paths name.
ghost use Rattle.std.specs.Prelude.{◌≡◌, IfOk, map, chars, codes};
ghost use Rattle.std.specs.Str.{bytes_eq};
ghost use Rattle.std.specs.Cmp.Lexicographic.{pointwise};
ghost use Rattle.educe_tokens.specs.Same.{AreSameTokens};
ghost use Rattle.educe_tree.specs.declared.expr.ExprPath.{ExprPath};
ghost use Rattle.educe_body_values.specs.Answering.{same_callee};
ghost use Rattle.educe_body_values.specs.Callees.{built_in, as_callee, text_of_path, first_named, path_of, segment_is, spellings};

use educe_body_forms::is_text;
use educe_tokens::{Spelling, Token};
use educe_tree::{ExprPath, text_of_tree};
use std::alloc::{AllocError, Global};

/// A function of the core library that generated code calls.
#[derive(Clone, Copy, Debug, PartialEq, Eq)]
pub enum BuiltIn {
    /// `PartialEq::ne`
    Ne,
    /// `Ord::cmp`
    Cmp,
    /// `PartialOrd::partial_cmp`
    PartialCmp,
    /// `Hash::hash`
    Hash,
    /// `Clone::clone`
    Clone,
    /// `Clone::clone_from`
    CloneFrom,
}

/// What is called.
#[derive(Drop)]
pub enum Callee {
    /// `PartialEq::ne`
    Ne,
    /// `Ord::cmp`
    Cmp,
    /// `PartialOrd::partial_cmp`
    PartialCmp,
    /// `Hash::hash`
    Hash,
    /// `Clone::clone`
    Clone,
    /// `Clone::clone_from`
    CloneFrom,
    /// `Default::default` of the type at this place, counted over all fields of the definition.
    Default(u32),
    /// What a user's text names: the function of a path, or the number of an expression. The text is
    /// that of its tokens with one space between any two, but none behind a joint punct, as in
    /// `a :: b`.
    Written(Spelling),
}

/// The built-in functions, each behind the words of its path, as in `::core::cmp::PartialEq::ne`.
const BUILT_IN: [([&str; 4], BuiltIn); 6] = [
    (["core", "cmp", "PartialEq", "ne"], BuiltIn::Ne),
    (["core", "cmp", "Ord", "cmp"], BuiltIn::Cmp),
    (
        ["core", "cmp", "PartialOrd", "partial_cmp"],
        BuiltIn::PartialCmp,
    ),
    (["core", "hash", "Hash", "hash"], BuiltIn::Hash),
    (["core", "clone", "Clone", "clone"], BuiltIn::Clone),
    (["core", "clone", "Clone", "clone_from"], BuiltIn::CloneFrom),
];

impl BuiltIn {
    /// The function as what is called.
    pub fn callee(self) -> Callee
        ensures { result ≡ as_callee self }
    {
        match self {
            BuiltIn::Ne => Callee::Ne,
            BuiltIn::Cmp => Callee::Cmp,
            BuiltIn::PartialCmp => Callee::PartialCmp,
            BuiltIn::Hash => Callee::Hash,
            BuiltIn::Clone => Callee::Clone,
            BuiltIn::CloneFrom => Callee::CloneFrom,
        }
    }
}

impl Callee {
    /// A copy of the callee.
    pub fn duplicate(&self, alloc: Global) -> Result<Callee, AllocError>
        ensures { IfOk result (λ callee. callee ≡ self.now) }
    {
        match self {
            Callee::Ne => Ok(Callee::Ne),
            Callee::Cmp => Ok(Callee::Cmp),
            Callee::PartialCmp => Ok(Callee::PartialCmp),
            Callee::Hash => Ok(Callee::Hash),
            Callee::Clone => Ok(Callee::Clone),
            Callee::CloneFrom => Ok(Callee::CloneFrom),
            Callee::Default(place) => Ok(Callee::Default(*place)),
            Callee::Written(text) => Ok(Callee::Written(text.duplicate(alloc)?)),
        }
    }

    /// Whether both are one callee.
    pub fn is(&self, other: &Callee) -> bool
        ensures { result ≡ same_callee self.now other.now }
    {
        match (self, other) {
            (Callee::Ne, Callee::Ne) => true,
            (Callee::Cmp, Callee::Cmp) => true,
            (Callee::PartialCmp, Callee::PartialCmp) => true,
            (Callee::Hash, Callee::Hash) => true,
            (Callee::Clone, Callee::Clone) => true,
            (Callee::CloneFrom, Callee::CloneFrom) => true,
            (Callee::Default(own), Callee::Default(place)) => own == place,
            (Callee::Written(own), Callee::Written(text)) => is_text(own, text.as_str()),
            _ => false,
        }
    }
}

/// The function that a path names, if it is built in: the path has its tokens, jointness and spans
/// aside.
pub fn built_in(path: &ExprPath) -> Option<BuiltIn>
    ensures named { result ≡ built_in path.now }
    // A path of the same tokens names the same function.
    ensures same { (other : ExprPath) → AreSameTokens path.now.written.tokens other.written.tokens →
        built_in other ≡ result }
{
    named(path.written.tokens().as_slice(), &BUILT_IN)
}

/// The text of a path.
pub fn text_of_path(alloc: Global, path: &ExprPath) -> Result<Spelling, AllocError>
    ensures { IfOk result (λ text. text ≡ text_of_path path.now) }
{
    let text = text_of_tree(alloc, path)?;
    Spelling::from_str(alloc, &text)
}

/// The function of the first path that is spelled as the tokens.
#[tactic(auto, unfolding(crate::specs::Callees::first_named))]
fn named(tokens: &[Token], known: &[([&str; 4], BuiltIn)]) -> Option<BuiltIn>
    ensures { result ≡ first_named known.now (spellings tokens.now) }
{
    for (words, which) in known {
        if is_spelled(tokens, words) {
            return Some(*which);
        }
    }
    None
}

/// Whether the tokens are the path of these words, each behind `::`.
fn is_spelled(tokens: &[Token], words: &[&str]) -> bool
    ensures { let path = path_of (map (λ word. chars word.now) words.now) in
        result ≡ pointwise bytes_eq (spellings tokens.now) path }
{
    let mut rest = tokens;
    for word in words {
        if rest.len() < 3 {
            return false;
        }
        if !is_segment(&rest[0], &rest[1], &rest[2], word) {
            return false;
        }
        rest = &rest[3..];
    }
    rest.is_empty()
}

/// Whether the tokens are `::` and the word.
fn is_segment(first: &Token, second: &Token, name: &Token, word: &str) -> bool
    ensures { result ≡ segment_is first.now second.now name.now (chars word.now) }
{
    is_colon(first) && is_colon(second) && is_text(&name.spelling, word)
}

fn is_colon(token: &Token) -> bool
    ensures { result ≡ bytes_eq token.now.spelling (codes ":") }
{
    is_text(&token.spelling, ":")
}
