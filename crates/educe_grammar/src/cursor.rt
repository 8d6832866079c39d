//! A cursor over a list of tokens, which contracts see as the tokens that are left.
ghost use Rattle.std.specs.Prelude.{◌≡◌, ◌+◌, ◌-◌, ◌^◌, ◌<◌, Bool, length, drop, if◌then◌else◌, IfOk, OnErr};
ghost use Rattle.educe_tokens.specs.declared.token.Token.{Token};
ghost use Rattle.educe_tokens.specs.Brackets as brackets;
ghost use Rattle.educe_grammar.specs.Ahead as ahead;
ghost use Rattle.educe_grammar.specs.Operators.{operator_at};
ghost use Rattle.educe_grammar.specs.Running.{skip_if};
ghost use Rattle.educe_grammar.specs.Steps as spec;
ghost use Rattle.educe_grammar.specs.Steps.{Lends, Eats, Passes, Opens, Operates};
ghost use Rattle.educe_grammar.specs.Terminals.{accepts};

use crate::operator::{Operator, operator_at};
use crate::parse_error::ParseError;
use crate::terminal::Terminal;
use educe_tokens::{Bracket, Token, TokenKind, TokenSlice};
use std::alloc::AllocError;
use std::marker::Model;

fn same_bracket(a: Bracket, b: Bracket) -> bool
    ensures { result ≡ brackets.same_bracket a b }
{
    match (a, b) {
        (Bracket::Round, Bracket::Round) => true,
        (Bracket::Square, Bracket::Square) => true,
        (Bracket::Curly, Bracket::Curly) => true,
        _ => false,
    }
}

/// Whether the token is an opening bracket of this kind.
fn opens(bracket: Bracket, token: &Token) -> bool
    ensures { result ≡ ahead.opens bracket token.now }
{
    match token.kind {
        TokenKind::Start(other) => same_bracket(bracket, other),
        _ => false,
    }
}

/// Whether the token is a closing bracket of this kind.
fn closes(bracket: Bracket, token: &Token) -> bool
    ensures { result ≡ ahead.closes bracket token.now }
{
    match token.kind {
        TokenKind::Stop(other) => same_bracket(bracket, other),
        _ => false,
    }
}

/// Whether the token is a documentation comment.
fn documents(token: &Token) -> bool
    ensures { result ≡ ahead.documents token.now }
{
    match token.kind {
        TokenKind::Doc => true,
        _ => false,
    }
}

/// Whether the token is this punctuation character.
fn is_sign(c: char, token: &Token) -> bool
    ensures { result ≡ ahead.is_sign c token.now.kind }
{
    match token.kind {
        TokenKind::Punct(d, _) => d == c,
        _ => false,
    }
}

/// Whether the token is this punctuation character, joint with the next token.
fn is_joint(c: char, token: &Token) -> bool
    ensures { result ≡ ahead.is_joint c token.now.kind }
{
    match token.kind {
        TokenKind::Punct(d, joint) => d == c && joint,
        _ => false,
    }
}

/// The unread tokens of a list.
#[derive(Drop)]
pub struct Cursor<'a> {
    tokens: &'a TokenSlice,
    rest: &'a [Token],
}

impl<'a> Model for Cursor<'a> {
    ghost use Rattle.std.specs.Prelude.{◌≡◌, ◌-◌, List, length, drop};
    ghost use Rattle.educe_tokens.specs.declared.token.Token.{Token};

    ghost Value = { List Token };

    ghost view = { λ cursor. cursor.rest.now };

    ghost invariant = { λ cursor. cursor.rest.now ≡ drop (length cursor.tokens.now - length cursor.rest.now) cursor.tokens.now };
}

impl<'a> Cursor<'a> {
    /// A cursor at the first token.
    pub fn new(tokens: &'a TokenSlice) -> Cursor<'a>
        ensures { result ≡ tokens.now }
    {
        Cursor {
            tokens,
            rest: tokens.as_slice(),
        }
    }

    /// A second cursor at this place.
    pub fn mark(&self) -> Cursor<'a>
        ensures { result ≡ self.now }
    {
        Cursor {
            tokens: self.tokens,
            rest: self.rest,
        }
    }

    /// The tokens that are left.
    pub fn rest(&self) -> &'a [Token]
        ensures { result.now ≡ self.now }
    {
        self.rest
    }

    /// The number of tokens that are left.
    pub fn left(&self) -> usize
        ensures count { result ≡ length self.now }
        ensures fits { result + 1 < 2 ^ 64 }
    {
        self.rest.len()
    }

    /// The syntax error at this place.
    pub fn refuse(&self) -> ParseError
        ensures { result ≡ ParseError.Syntax (length self.now) }
    {
        ParseError::Syntax(self.rest.len())
    }

    /// Whether the next token is one of the terminal.
    #[tactic(auto, unfolding(crate::specs::Ahead::sees))]
    pub fn sees(&self, asked: Terminal) -> bool
        ensures { result ≡ ahead.sees (accepts asked) self.now }
    {
        match self.rest {
            [first, ..] => asked.accepts(first),
            [] => false,
        }
    }

    /// Whether the next token is an opening bracket of this kind (Rust Reference, Delimiters).
    #[tactic(auto, unfolding(crate::specs::Ahead::sees))]
    pub fn opens(&self, bracket: Bracket) -> bool
        ensures { result ≡ ahead.sees (ahead.opens bracket) self.now }
    {
        match self.rest {
            [first, ..] => opens(bracket, first),
            [] => false,
        }
    }

    /// Whether the next token is a closing bracket of this kind (Rust Reference, Delimiters).
    #[tactic(auto, unfolding(crate::specs::Ahead::sees))]
    pub fn closes(&self, bracket: Bracket) -> bool
        ensures { result ≡ ahead.sees (ahead.closes bracket) self.now }
    {
        match self.rest {
            [first, ..] => closes(bracket, first),
            [] => false,
        }
    }

    /// Whether the next token is a documentation comment (Rust Reference, Doc comments).
    #[tactic(auto, unfolding(crate::specs::Ahead::sees))]
    pub fn documents(&self) -> bool
        ensures { result ≡ ahead.sees ahead.documents self.now }
    {
        match self.rest {
            [first, ..] => documents(first),
            [] => false,
        }
    }

    /// Whether the next tokens are the operator of these two puncts (Rust Reference, Punctuation).
    #[tactic(auto, unfolding(crate::specs::Ahead::begins_pair))]
    pub fn begins_pair(&self, c: char, d: char) -> bool
        ensures { result ≡ ahead.begins_pair c d self.now }
    {
        match self.rest {
            [first, second, ..] => is_joint(c, first) && is_sign(d, second),
            _ => false,
        }
    }

    /// Whether the next token is the punct `c`, which is not the first half of the operator `cd`
    /// (Rust Reference, Punctuation).
    #[tactic(auto, unfolding(crate::specs::Ahead::begins_lone))]
    pub fn begins_lone(&self, c: char, d: char) -> bool
        ensures { result ≡ ahead.begins_lone c d self.now }
    {
        match self.rest {
            [first, ..] => is_sign(c, first) && !self.begins_pair(c, d),
            [] => false,
        }
    }

    /// Whether no token is left.
    #[tactic(auto, unfolding(crate::specs::Ahead::at_end))]
    pub fn at_end(&self) -> bool
        ensures { result ≡ ahead.at_end self.now }
    {
        self.rest.is_empty()
    }

    /// Advances by this number of tokens, or to the end where there are fewer.
    fn skip(&mut self, count: usize)
        ensures { self.new ≡ drop count self.old }
    {
        let count = count.min(self.rest.len());
        self.rest = &self.rest[count..];
    }

    /// A cursor that is this number of tokens further, or at the end where there are fewer.
    pub fn behind(&self, count: usize) -> Cursor<'a>
        ensures { result ≡ drop count self.now }
    {
        let mut cursor = self.mark();
        cursor.skip(count);
        cursor
    }

    /// Takes the next token, where the caller has seen that it is one of the terminal.
    #[tactic(auto, unfolding(crate::specs::Ahead::sees, crate::specs::Steps::expect))]
    fn take_if(&mut self, seen: bool) -> Result<&'a Token, ParseError>
        ensures taken { (test : Token → Bool) → seen ≡ ahead.sees test self.old → Lends (spec.expect test self.old) result self.new }
        ensures stays { OnErr result (self.new ≡ self.old) }
    {
        match self.rest {
            [first, ..] if seen => {
                self.skip(1);
                Ok(first)
            }
            _ => Err(self.refuse()),
        }
    }

    /// Takes a token of the terminal, and rejects any other.
    pub fn expect(&mut self, asked: Terminal) -> Result<&'a Token, ParseError>
        ensures taken { Lends (spec.expect (accepts asked) self.old) result self.new }
        ensures stays { OnErr result (self.new ≡ self.old) }
    {
        self.take_if(self.sees(asked))
    }

    /// Takes an opening bracket of this kind, and rejects any other token.
    pub fn expect_open(&mut self, bracket: Bracket) -> Result<&'a Token, ParseError>
        ensures taken { Lends (spec.expect (ahead.opens bracket) self.old) result self.new }
        ensures stays { OnErr result (self.new ≡ self.old) }
    {
        self.take_if(self.opens(bracket))
    }

    /// Takes a closing bracket of this kind, and rejects any other token.
    pub fn expect_close(&mut self, bracket: Bracket) -> Result<&'a Token, ParseError>
        ensures taken { Lends (spec.expect (ahead.closes bracket) self.old) result self.new }
        ensures stays { OnErr result (self.new ≡ self.old) }
    {
        self.take_if(self.closes(bracket))
    }

    /// Takes a documentation comment, and rejects any other token.
    pub fn expect_doc(&mut self) -> Result<&'a Token, ParseError>
        ensures taken { Lends (spec.expect ahead.documents self.old) result self.new }
        ensures stays { OnErr result (self.new ≡ self.old) }
    {
        self.take_if(self.documents())
    }

    /// Takes the operator of these two puncts, and rejects any other token.
    pub fn skip_pair(&mut self, c: char, d: char) -> Result<(), ParseError>
        ensures taken { Passes (skip_if (ahead.begins_pair c d self.old) 2 self.old) result self.new }
        ensures stays { OnErr result (self.new ≡ self.old) }
    {
        if !self.begins_pair(c, d) {
            return Err(self.refuse());
        }
        self.skip(2);
        Ok(())
    }

    /// Takes the punct `c`, where it is not the first half of the operator `cd`, and rejects any
    /// other token.
    pub fn skip_lone(&mut self, c: char, d: char) -> Result<(), ParseError>
        ensures taken { Passes (skip_if (ahead.begins_lone c d self.old) 1 self.old) result self.new }
        ensures stays { OnErr result (self.new ≡ self.old) }
    {
        if !self.begins_lone(c, d) {
            return Err(self.refuse());
        }
        self.skip(1);
        Ok(())
    }

    /// Takes a token of the terminal, if it comes next, and returns whether it did.
    pub fn eat(&mut self, asked: Terminal) -> bool
        ensures seen { result ≡ ahead.sees (accepts asked) self.old }
        ensures taken { Eats (spec.expect (accepts asked) self.old) result self.old self.new }
        ensures rest { self.new ≡ (if result then drop 1 self.old else self.old) }
    {
        let seen = self.sees(asked);
        if seen {
            self.skip(1);
        }
        seen
    }

    /// Takes the operator of these two puncts, if it comes next, and returns whether it did.
    pub fn eat_pair(&mut self, c: char, d: char) -> bool
        ensures seen { result ≡ ahead.begins_pair c d self.old }
        ensures rest { self.new ≡ (if result then drop 2 self.old else self.old) }
    {
        let seen = self.begins_pair(c, d);
        if seen {
            self.skip(2);
        }
        seen
    }

    /// Takes the punct `c`, if it comes next and is not the first half of the operator `cd`, and
    /// returns whether it did.
    pub fn eat_lone(&mut self, c: char, d: char) -> bool
        ensures seen { result ≡ ahead.begins_lone c d self.old }
        ensures rest { self.new ≡ (if result then drop 1 self.old else self.old) }
    {
        let seen = self.begins_lone(c, d);
        if seen {
            self.skip(1);
        }
        seen
    }

    /// Takes the longest binary operator that comes next (Rust Reference, Operator expressions).
    pub fn operator(&mut self) -> Result<Operator, ParseError>
        ensures taken { Operates (operator_at self.old) result self.old self.new }
        ensures stays { OnErr result (self.new ≡ self.old) }
    {
        match operator_at(self.rest) {
            Some((operator, count)) => {
                self.skip(count);
                Ok(operator)
            }
            None => Err(self.refuse()),
        }
    }

    /// The budget inside of what was just taken, at whose start `left` tokens were left.
    #[tactic(auto, unfolding(crate::specs::Steps::enter))]
    fn enter(&self, budget: u8, left: usize) -> Result<u8, ParseError>
        ensures outcome { Passes (spec.enter budget left self.now) result self.now }
        ensures below { IfOk result (λ below. below + 1 ≡ budget) }
        ensures one_less { IfOk result (λ below. below ≡ budget - 1) }
    {
        if budget == 0 {
            return Err(ParseError::TooDeep(left));
        }
        Ok(budget - 1)
    }

    /// Takes an opening bracket of this kind, and returns the budget inside (Rust Reference,
    /// Delimiters).
    pub fn open(&mut self, budget: u8, bracket: Bracket) -> Result<u8, ParseError>
        ensures outcome { Opens (spec.expect (ahead.opens bracket) self.old) budget self.old result self.new }
        ensures below { IfOk result (λ below. below + 1 ≡ budget) }
        ensures one_less { IfOk result (λ below. below ≡ budget - 1) }
    {
        let left = self.left();
        self.expect_open(bracket)?;
        self.enter(budget, left)
    }

    /// Takes `<`, which is not half of `<=`, and returns the budget inside (Rust Reference, Generic
    /// arguments).
    pub fn open_angle(&mut self, budget: u8) -> Result<u8, ParseError>
        ensures outcome { Opens (skip_if (ahead.begins_lone 60 61 self.old) 1 self.old) budget self.old result self.new }
        ensures below { IfOk result (λ below. below + 1 ≡ budget) }
        ensures one_less { IfOk result (λ below. below ≡ budget - 1) }
    {
        let left = self.left();
        self.skip_lone('<', '=')?;
        self.enter(budget, left)
    }

    /// Takes a token of the terminal, and returns the budget of what nests under it.
    pub fn open_under(&mut self, budget: u8, asked: Terminal) -> Result<u8, ParseError>
        ensures outcome { Opens (spec.expect (accepts asked) self.old) budget self.old result self.new }
        ensures below { IfOk result (λ below. below + 1 ≡ budget) }
        ensures one_less { IfOk result (λ below. below ≡ budget - 1) }
    {
        let left = self.left();
        self.expect(asked)?;
        self.enter(budget, left)
    }

    /// Takes `->`, and returns the budget of the type after it (Rust Reference, Function pointer
    /// types).
    pub fn open_arrow(&mut self, budget: u8) -> Result<u8, ParseError>
        ensures outcome { Opens (skip_if (ahead.begins_pair 45 62 self.old) 2 self.old) budget self.old result self.new }
        ensures below { IfOk result (λ below. below + 1 ≡ budget) }
        ensures one_less { IfOk result (λ below. below ≡ budget - 1) }
    {
        let left = self.left();
        self.skip_pair('-', '>')?;
        self.enter(budget, left)
    }

    /// The tokens that were read since the other cursor. No token is copied.
    #[tactic(auto, unfolding(crate::specs::Steps::since))]
    pub fn since(&self, start: &Cursor<'_>) -> Result<TokenSlice, AllocError>
        ensures { IfOk result (λ read. read ≡ spec.since start.now self.now) }
    {
        let from = start.tokens.len() - start.rest.len();
        let count = start.rest.len().saturating_sub(self.rest.len());
        start.tokens.part(from, from + count)
    }
}
