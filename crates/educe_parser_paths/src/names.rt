//! Names and lifetimes (Rust Reference, Identifiers; Lifetimes and loop labels).
ghost use Rattle.std.specs.Prelude.{◌≡◌, ℕ, IfOk};
ghost use Rattle.educe_tokens.specs.TokenKind.TheVariants as kind;
ghost use Rattle.educe_grammar.specs.Ahead.{one};
ghost use Rattle.educe_grammar.specs.Combining.{at, flag};
ghost use Rattle.educe_grammar.specs.declared.terminal.Terminal.TheVariants as terminal;
ghost use Rattle.educe_grammar.specs.Names as spec;
ghost use Rattle.educe_grammar.specs.NotedReads.{read};
ghost use Rattle.educe_grammar.specs.Steps.{Gives};

use educe_grammar::{ParseError, ParseStream, Terminal};
use educe_tokens::Token;
use educe_tree::{Ident, Lifetime};
use std::alloc::{AllocError, Global};

/// The name that an identifier is.
#[tactic(auto, using(crate::proofs::Idents::ident_spelled))]
fn ident_of(alloc: Global, token: &Token) -> Result<Ident, AllocError>
    requires { token.now.kind ≡ kind.Ident }
    ensures text { IfOk result (λ ident. ident.text ≡ token.now.spelling) }
    ensures span { IfOk result (λ ident. ident.span ≡ token.now.span) }
{
    let text = token.spelling.duplicate(alloc)?;
    Ok(Ident {
        text,
        span: token.span,
    })
}

/// A name (Rust Reference, Identifiers).
#[tactic(auto, using(crate::proofs::Idents::name_kind), unfolding(educe_grammar::specs::Noting::run, educe_grammar::specs::Names::name))]
pub fn name(alloc: Global, input: &mut ParseStream<'_>) -> Result<Ident, ParseError>
    ensures { (budget : ℕ) → Gives (read budget spec.name input.old) result input.new }
{
    let token = input.cursor.expect(Terminal::Name)?;
    Ok(ident_of(alloc, token)?)
}

/// The name of a segment, which may be `self`, `Self`, `super` or `crate` (Rust Reference, Paths).
#[tactic(auto, using(crate::proofs::Idents::segment_kind), unfolding(educe_grammar::specs::Noting::run, educe_grammar::specs::Names::segment_name))]
pub fn segment_name(alloc: Global, input: &mut ParseStream<'_>) -> Result<Ident, ParseError>
    ensures { (budget : ℕ) → Gives (read budget spec.segment_name input.old) result input.new }
{
    let token = input.cursor.expect(Terminal::PathSegment)?;
    Ok(ident_of(alloc, token)?)
}

/// The lifetime that a token is.
#[tactic(auto, using(crate::proofs::Idents::lifetime_spelled))]
fn lifetime_of(alloc: Global, token: &Token) -> Result<Lifetime, AllocError>
    requires { token.now.kind ≡ kind.Lifetime }
    ensures text { IfOk result (λ lifetime. lifetime.text ≡ token.now.spelling) }
    ensures span { IfOk result (λ lifetime. lifetime.span ≡ token.now.span) }
{
    let text = token.spelling.duplicate(alloc)?;
    Ok(Lifetime {
        text,
        span: token.span,
    })
}

/// A lifetime (Rust Reference, Lifetimes and loop labels).
#[tactic(auto, using(crate::proofs::Idents::lifetime_kind_of), unfolding(educe_grammar::specs::Noting::run, educe_grammar::specs::Names::lifetime))]
pub fn lifetime(alloc: Global, input: &mut ParseStream<'_>) -> Result<Lifetime, ParseError>
    ensures { (budget : ℕ) → Gives (read budget spec.lifetime input.old) result input.new }
{
    let token = input.cursor.expect(Terminal::Lifetime)?;
    Ok(lifetime_of(alloc, token)?)
}

/// A lifetime, where one comes next, of which nothing is kept.
#[tactic(auto, unfolding(educe_grammar::proofs::Opened::rules, educe_grammar::specs::Names::lifetime))]
pub fn skip_lifetime(input: &mut ParseStream<'_>) -> bool
    ensures { (budget : ℕ) → read budget (flag (at (one terminal.Lifetime)) spec.lifetime) input.old ≡ Ok (result, input.new) }
{
    input.cursor.eat(Terminal::Lifetime)
}
