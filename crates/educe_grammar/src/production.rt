//! Productions and lookaheads, which the loops take as types, so that no function value is passed
//! at run time.
ghost use Rattle.std.specs.Prelude.{◌≡◌, ℕ};
ghost use Rattle.educe_grammar.specs.Ahead.{Look, sees_any};
ghost use Rattle.educe_grammar.specs.Noting.{Noter};
ghost use Rattle.educe_grammar.specs.Steps.{Gives};

use crate::cursor::Cursor;
use crate::inside::Parts;
use crate::parse_error::ParseError;
use crate::parse_stream::ParseStream;
use std::alloc::Global;

/// The context of a production: an allocator, and where needed the parser of nested parts.
pub trait Context {
    /// The allocator for the trees that are built.
    fn alloc(&self) -> Global;
}

impl Context for Global {
    fn alloc(&self) -> Global {
        *self
    }
}

impl<R> Context for Parts<R> {
    fn alloc(&self) -> Global {
        self.alloc
    }
}

/// A production of the grammar.
pub trait Production<C> {
    /// The tree that the production builds.
    type Tree: Drop;

    // What the production requires of the context, with a budget.
    ghost ready: { C → ℕ → Type 0 };

    // The program that the production runs, with a budget.
    ghost reads: { ℕ → Noter Self.Tree };

    /// Parses the production.
    fn parse(context: &C, input: &mut ParseStream<'_>, budget: u8) -> Result<Self::Tree, ParseError>
        requires { ready context.now budget }
        ensures { Gives (reads budget input.old) result input.new };
}

/// A lookahead: what the tokens may begin with.
pub trait Lookahead {
    // The alternatives that the lookahead accepts.
    ghost look: { Look };

    /// Whether the lookahead accepts the next tokens.
    fn is_next(cursor: &Cursor<'_>) -> bool
        ensures { result ≡ sees_any look cursor.now };
}
