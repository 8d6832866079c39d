//! Errors of the parser.
use std::alloc::AllocError;

/// An error of the parser. Its place is given as the number of tokens that were left to read.
#[derive(Clone, Copy)]
pub enum ParseError {
    /// Out of memory.
    Memory,
    /// The next token fits nothing that may stand here.
    Syntax(usize),
    /// The nesting, or a chain, exceeds its limit.
    TooDeep(usize),
}

impl From<AllocError> for ParseError {
    ghost use Rattle.std.specs.Prelude.{◌≡◌};
    ghost use Rattle.educe_grammar.specs.declared.parse_error.ParseError.TheVariants.{Memory};

    ghost from_gives = { λ _ e. e ≡ Memory };

    fn from(_error: AllocError) -> ParseError {
        ParseError::Memory
    }
}
