//! Trees with the tokens that they were parsed from.
ghost use Rattle.educe_grammar.specs.Noting.{IsCopied, written_by};
ghost use Rattle.educe_grammar.specs.Steps.{Gives};

use crate::parse_error::ParseError;
use crate::parse_stream::ParseStream;
use crate::production::Production;
use educe_tokens::Written;

/// Parses the production, and returns its tree with its tokens as they were written.
pub fn written<C, P: Production<C>>(
    context: &C,
    input: &mut ParseStream<'_>,
    budget: u8,
) -> Result<(P::Tree, Written), ParseError>
    requires ready { P.ready context.now budget }
    requires copied { IsCopied (P.reads budget) }
    ensures { Gives (written_by (P.reads budget) input.old) result input.new }
{
    let start = input.cursor.mark();
    let found = P::parse(context, input, budget)?;
    let tokens = input.cursor.since(&start)?;
    Ok((found, Written::new(tokens)))
}
