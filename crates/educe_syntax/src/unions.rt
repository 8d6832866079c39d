//! Unions, which are not supported (Rust Reference, Unions).
ghost use Rattle.std.specs.Prelude.{◌≡◌, ◌≢◌, ◌⊎◌, ◌↔◌, List, ◌∷◌, IsTrue, Ok, Err, IfOk, IfErr, IfSome, IfNone};
ghost use Rattle.educe_tokens.specs.declared.error.Kind.TheVariants.{Alloc};
ghost use Rattle.educe_tokens.specs.declared.token.Token.{Token};
ghost use Rattle.educe_tokens.specs.Refusals.{placeless};
ghost use Rattle.educe_grammar.specs.Attributes as attributes;
ghost use Rattle.educe_grammar.specs.Combining.{unit};
ghost use Rattle.educe_grammar.specs.declared.parse_error.ParseError.TheVariants.{Memory};
ghost use Rattle.educe_grammar.specs.Definitions as definitions;
ghost use Rattle.educe_grammar.specs.NotedReads.{read};
ghost use Rattle.educe_grammar.specs.Parsed.{depth_limit};
ghost use Rattle.educe_grammar.specs.Reads as plain;
ghost use Rattle.educe_grammar.specs.Refusal.{IsUnion, IsUnionWord, union_of};
ghost use Rattle.educe_grammar.specs.Rules.{both};
ghost use Rattle.educe_grammar.specs.Steps.{Gives};

use crate::knot::DEPTH_LIMIT;
use educe_grammar::{ParseError, ParseStream};
use educe_parser_definitions::{attributes, visibility};
use educe_tokens::{EduceError, Kind, Token, TokenKind, TokenSlice};
use std::alloc::{AllocError, Global};

/// Parses what stands before the item of a definition: attributes and a visibility.
#[tactic(auto, unfolding(educe_grammar::specs::Noting::run))]
fn head(alloc: Global, input: &mut ParseStream<'_>, budget: u8) -> Result<(), ParseError>
    ensures { Gives (read budget (unit (both attributes.attributes definitions.visibility)) input.old) result input.new }
{
    attributes(alloc, input, budget)?;
    visibility(alloc, input, budget)
}

/// The tokens after the attributes and the visibility.
fn behind_head(alloc: Global, tokens: &TokenSlice) -> Result<&[Token], ParseError>
    ensures ok { let outcome = plain.read depth_limit (unit (both attributes.attributes definitions.visibility)) tokens.now in
        IfOk result (λ rest. outcome ≡ Ok (tt, rest.now)) }
    ensures err { let outcome = plain.read depth_limit (unit (both attributes.attributes definitions.visibility)) tokens.now in
        IfErr result (λ e. e ≢ Memory → outcome ≡ Err e) }
{
    let mut input = ParseStream::new(alloc, tokens);
    head(alloc, &mut input, DEPTH_LIMIT)?;
    Ok(input.cursor.rest())
}

/// Whether the token is the word `union`, which is no keyword (Rust Reference, Keywords).
fn is_union(word: &Token) -> bool
    ensures { IsTrue result ↔ IsUnionWord word.now }
{
    match word.kind {
        TokenKind::Ident => word.spelling.is("union"),
        _ => false,
    }
}

/// The first token, if it is the word `union`.
fn first_union(tokens: &[Token]) -> Option<&Token>
    ensures some { IfSome result (λ word. IsUnionWord word.now × ((more : List Token) × (tokens.now ≡ word.now ∷ more))) }
    ensures none { IfNone result ((word : Token) (more : List Token) → tokens.now ≡ word ∷ more → IsUnionWord word → ⊥) }
{
    match tokens {
        [word, ..] if is_union(word) => Some(word),
        [_, ..] => None,
        [] => None,
    }
}

/// The word `union`, if the tokens begin as a union.
pub fn union_word<'a>(
    alloc: Global,
    tokens: &'a TokenSlice,
) -> Result<Option<&'a Token>, AllocError>
    ensures some { IfOk result (λ found. IfSome found (λ word. IsUnion tokens.now word.now)) }
    ensures none { IfOk result (λ found. IfNone found ((word : Token) → IsUnion tokens.now word → ⊥)) }
{
    match behind_head(alloc, tokens) {
        Ok(rest) => Ok(first_union(rest)),
        Err(ParseError::Memory) => Err(AllocError),
        Err(ParseError::Syntax(_)) => Ok(None),
        Err(ParseError::TooDeep(_)) => Ok(None),
    }
}

/// The error for a union, at its keyword.
pub fn union_error(alloc: Global, word: &Token) -> EduceError
    ensures { (result ≡ placeless Alloc) ⊎ (result ≡ union_of word.now) }
{
    EduceError::citing(alloc, Kind::NotCarried, word.span, &word.spelling)
}
