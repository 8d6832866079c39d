//! Paths in expressions (Rust Reference, Paths in expressions).
ghost use Rattle.std.specs.Prelude.{◌≡◌};
ghost use Rattle.educe_grammar.specs.Expressions as spec;
ghost use Rattle.educe_grammar.specs.NotedReads.{read};
ghost use Rattle.educe_grammar.specs.Rules as rule;
ghost use Rattle.educe_grammar.specs.Steps.{Gives};
ghost use Rattle.educe_grammar.specs.Combining.{colons, optional, skipping};
ghost use Rattle.educe_grammar.specs.Types.{angle_args, has_no_args};
ghost use Rattle.educe_tree.specs.declared.path.Segment.{out-Segment};

use crate::lookahead::at_turbofish;
use educe_grammar::{Inside, ParseError, ParseStream, Parts, Production, path, written};
use educe_parser_paths::{
    angle_args, is_scope, qualified_path, qualified_self, segment_name, skip_colons,
};
use educe_tokens::{pair, terminated};
use educe_tree::{AngleArgs, Args, ExprPath, Path, Segment, Segments, Ty};

/// A path, and the type that it stands behind, where there is one.
type TypedPath = (Option<Ty>, Path);

/// Whether the segment has no arguments.
fn has_no_args(segment: &Segment) -> bool
    ensures { result ≡ has_no_args (out-Segment segment.now).args }
{
    matches!(segment.args, Args::None)
}

/// Whether no segment has arguments.
fn no_segment_args(segments: &[Segment]) -> bool
    ensures { result ≡ spec.no_segment_args segments.now }
{
    segments.iter().all(|segment| has_no_args(segment))
}

/// Whether the path may name a macro: it has no arguments and is not qualified (Rust Reference,
/// Simple paths).
pub fn is_mod_path(path: &ExprPath) -> bool
    ensures { result ≡ spec.is_mod_path path.now }
{
    path.self_type.is_none() && no_segment_args(path.path.segments.as_slice())
}

/// The arguments of a segment, which stand behind `::` (Rust Reference, Paths in expressions).
#[tactic(auto, unfolding(educe_grammar::proofs::Opened::rules))]
fn turbofish<R: Inside>(
    parts: &Parts<R>,
    input: &mut ParseStream<'_>,
    budget: u8,
) -> Result<Option<AngleArgs>, ParseError>
    requires { R.nests parts.now.inside budget }
    ensures { Gives (read budget (optional spec.at_turbofish (skipping colons angle_args)) input.old) result input.new }
{
    if !at_turbofish(&input.cursor) {
        return Ok(None);
    }
    input.cursor.skip_pair(':', ':')?;
    Ok(Some(angle_args(parts, input, budget)?))
}

/// A segment, with its arguments (Rust Reference, Paths in expressions).
struct ExprSegment;

impl<R: Inside> Production<Parts<R>> for ExprSegment {
    type Tree = Segment;

    ghost ready = { λ parts budget. R.nests parts.inside budget };

    ghost reads = { λ budget. read budget spec.expr_segment };

    #[tactic(auto, unfolding(educe_grammar::proofs::Opened::rules, educe_grammar::specs::Expressions::expr_segment))]
    fn parse(
        parts: &Parts<R>,
        input: &mut ParseStream<'_>,
        budget: u8,
    ) -> Result<Segment, ParseError> {
        let ident = segment_name(parts.alloc, input)?;
        let (ident, found) = pair(ident, turbofish(parts, input, budget))?;
        let args = match found {
            None => Args::None,
            Some(found) => Args::Angle(found),
        };
        Ok(Segment { ident, args })
    }
}

/// The segments of a path (Rust Reference, Paths in expressions).
#[tactic(auto, unfolding(educe_grammar::proofs::Opened::rules))]
fn expr_segments<R: Inside>(
    parts: &Parts<R>,
    input: &mut ParseStream<'_>,
    budget: u8,
) -> Result<Segments, ParseError>
    requires { R.nests parts.now.inside budget }
    ensures { Gives (read budget (rule.path spec.expr_segment) input.old) result input.new }
{
    path::<Parts<R>, ExprSegment>(parts, input, budget)
}

/// A path behind its type, as in `<T as A>::b` (Rust Reference, Qualified paths).
#[tactic(auto, unfolding(educe_grammar::proofs::Opened::rules, educe_grammar::specs::Expressions::qualified_expr_path))]
fn qualified_expr_path<R: Inside>(
    parts: &Parts<R>,
    input: &mut ParseStream<'_>,
    budget: u8,
) -> Result<TypedPath, ParseError>
    requires { R.nests parts.now.inside budget }
    ensures { Gives (read budget spec.qualified_expr_path input.old) result input.new }
{
    let found = qualified_self(parts, input, budget)?;
    let found = terminated(found, input.cursor.skip_pair(':', ':'))?;
    let ((self_type, self_trait), segments) = pair(found, expr_segments(parts, input, budget))?;
    Ok(pair(Some(self_type), qualified_path(self_trait, segments))?)
}

/// A path with no type before it (Rust Reference, Paths in expressions).
#[tactic(auto, unfolding(educe_grammar::proofs::Opened::rules, educe_grammar::specs::Expressions::local_expr_path))]
fn local_expr_path<R: Inside>(
    parts: &Parts<R>,
    input: &mut ParseStream<'_>,
    budget: u8,
) -> Result<TypedPath, ParseError>
    requires { R.nests parts.now.inside budget }
    ensures { Gives (read budget spec.local_expr_path input.old) result input.new }
{
    let leading = skip_colons(input);
    let segments = expr_segments(parts, input, budget)?;
    let path = Path { leading, segments };
    if is_scope(&path) {
        return Err(input.cursor.refuse());
    }
    Ok((None, path))
}

/// A path with or without its type (Rust Reference, Path expressions).
struct AnyExprPath;

impl<R: Inside> Production<Parts<R>> for AnyExprPath {
    type Tree = TypedPath;

    ghost ready = { λ parts budget. R.nests parts.inside budget };

    ghost reads = { λ budget. read budget spec.any_expr_path };

    #[tactic(auto, unfolding(educe_grammar::proofs::Opened::rules, educe_grammar::specs::Expressions::any_expr_path))]
    fn parse(
        parts: &Parts<R>,
        input: &mut ParseStream<'_>,
        budget: u8,
    ) -> Result<TypedPath, ParseError> {
        if input.cursor.begins_lone('<', '=') {
            return qualified_expr_path(parts, input, budget);
        }
        local_expr_path(parts, input, budget)
    }
}

/// A path in an expression, with its tokens (Rust Reference, Path expressions).
#[tactic(auto, using(educe_grammar::proofs::Copied::any_expr_path_copied), unfolding(educe_grammar::proofs::Opened::rules, educe_grammar::specs::Expressions::expr_path))]
pub fn expr_path<R: Inside>(
    parts: &Parts<R>,
    input: &mut ParseStream<'_>,
    budget: u8,
) -> Result<ExprPath, ParseError>
    requires { R.nests parts.now.inside budget }
    ensures { Gives (read budget spec.expr_path input.old) result input.new }
{
    let ((self_type, path), written) = written::<Parts<R>, AnyExprPath>(parts, input, budget)?;
    Ok(ExprPath {
        self_type,
        path,
        written,
    })
}
