//! Paths in types and their arguments (Rust Reference, Paths).
ghost use Rattle.std.specs.Prelude.{◌≡◌, ◌+◌, ℕ, IfOk, map, not};
ghost use Rattle.educe_grammar.specs.Combining.{optional, skipping, flag, word, colons, at_arrow, at_colons, at_word};
ghost use Rattle.educe_grammar.specs.declared.terminal.Keyword.TheVariants as keyword;
ghost use Rattle.educe_grammar.specs.Names as names;
ghost use Rattle.educe_grammar.specs.NotedReads.{read};
ghost use Rattle.educe_grammar.specs.Rules.{types, plains, both, made, lone, arrow, part};
ghost use Rattle.educe_grammar.specs.Steps.{Gives};
ghost use Rattle.educe_grammar.specs.Types as spec;

use crate::lookahead::{at_angle_args, at_binding, at_constant};
use crate::names::{lifetime, name, segment_name};
use educe_grammar::{
    Ending, ExprInside, Inside, Keyword, ParseError, ParseStream, Parts, Production, Terminal,
    TypeInside, Typed, angled, in_angles, in_round, nested, optional_behind, path, written,
};
use educe_tokens::{Boxed, Bracket, Seq, pair, terminated, unit};
use educe_tree::{AngleArg, AngleArgs, Args, Path, Segment, Segments, Ty, TypeForm, Types};
use std::alloc::{AllocError, Global};

/// The arguments of a segment, its ending with them, and whether another segment may follow.
type ArgsRead = (Args, Ending, bool);

/// A segment with its ending, and whether another segment may follow it.
type SegmentRead = (Segment, Ending, bool);

/// The trait of a qualified path with its ending, where there is one.
type SelfTrait = Option<(Path, Ending)>;

/// The arguments in round brackets. Behind a type that ends with a path, `::` continues that path.
fn round_read(alloc: Global, inputs: Types, output: Option<Typed>) -> Result<ArgsRead, AllocError>
    ensures { IfOk result (λ read. read ≡ spec.round_read (inputs, output)) }
{
    let Some((output, ending)) = output else {
        return Ok((Args::Round(inputs, None), Ending::Arguments, true));
    };
    let args = Args::Round(inputs, Some(Boxed::new(alloc, output)?));
    match ending {
        Ending::Closed => Ok((args, Ending::Arguments, true)),
        Ending::Arguments => Ok((args, Ending::Arguments, false)),
        Ending::Name => Ok((args, Ending::Name, false)),
    }
}

/// Whether each segment but the last may be followed by another.
#[tactic(auto, unfolding(educe_grammar::specs::Types::may_follow))]
fn may_follow(found: &[SegmentRead]) -> bool
    ensures { result ≡ spec.may_follow found.now }
{
    let mut rest = found;
    while let [first, behind @ ..] = rest {
        if !behind.is_empty() && !first.2 {
            return false;
        }
        rest = behind;
    }
    true
}

/// The ending of the last segment.
fn last_ending(found: &[SegmentRead]) -> Ending
    ensures { result ≡ spec.last_ending found.now }
{
    match found.last() {
        Some(read) => read.1,
        None => Ending::Closed,
    }
}

/// The segments without their endings.
fn segments_of(alloc: Global, found: Seq<SegmentRead>) -> Result<Segments, AllocError>
    ensures { IfOk result (λ segments. segments ≡ map (λ read. read.0) found) }
{
    let mut segments = Seq::with_capacity(alloc, found.len())?;
    for (segment, _, _) in found.into_items() {
        segments.push(segment)?;
    }
    Ok(segments)
}

/// Whether the segment is one of `self`, `super` and `crate`, and has no arguments.
fn is_scope_segment(segment: &Segment) -> bool
    ensures { result ≡ spec.is_scope_segment segment.now }
{
    let text = &segment.ident.text;
    let is_word = text.spells("self") || text.spells("super") || text.spells("crate");
    is_word && matches!(segment.args, Args::None)
}

/// Whether the path is `self`, `super` or `crate` alone, which is no type.
pub fn is_scope(path: &Path) -> bool
    ensures { result ≡ not (spec.is_path path.now) }
{
    match path.segments.as_slice() {
        [only] => !path.leading && is_scope_segment(only),
        _ => false,
    }
}

/// Whether the segments are one `Self` alone.
fn is_self(leading: bool, segments: &[Segment]) -> bool
    ensures { result ≡ spec.are_self leading segments.now }
{
    match segments {
        [only] => !leading && only.ident.text.spells("Self"),
        _ => false,
    }
}

/// The path of the segments, with its ending.
fn path_read(
    alloc: Global,
    leading: bool,
    found: Seq<SegmentRead>,
) -> Result<(Path, Ending), AllocError>
    ensures { IfOk result (λ read. read ≡ spec.path_read (leading, found)) }
{
    let last = last_ending(found.as_slice());
    let segments = segments_of(alloc, found)?;
    let ending = if is_self(leading, segments.as_slice()) {
        Ending::Name
    } else {
        last
    };
    Ok((Path { leading, segments }, ending))
}

/// The path of a trait's segments, if there is one, and these segments after them (Rust Reference,
/// Qualified paths).
pub fn qualified_path(self_trait: SelfTrait, found: Segments) -> Result<Path, AllocError>
    ensures { IfOk result (λ path. path ≡ spec.qualified_path self_trait found) }
{
    let Some((path, _)) = self_trait else {
        return Ok(Path {
            leading: true,
            segments: found,
        });
    };
    let Path {
        leading,
        mut segments,
    } = path;
    segments.append(found)?;
    Ok(Path { leading, segments })
}

/// The path of these segments after those of the trait, if there is one.
fn path_behind(
    alloc: Global,
    self_trait: SelfTrait,
    found: Seq<SegmentRead>,
) -> Result<Path, AllocError>
    ensures { IfOk result (λ path. path ≡ spec.qualified_path self_trait (map (λ read. read.0) found)) }
{
    let (self_trait, segments) = pair(self_trait, segments_of(alloc, found))?;
    qualified_path(self_trait, segments)
}

/// The qualified path of a type, a trait and these segments, with its ending.
fn qualified_read(
    alloc: Global,
    head: (Ty, SelfTrait),
    found: Seq<SegmentRead>,
) -> Result<(TypeForm, Ending), AllocError>
    ensures { IfOk result (λ read. read ≡ spec.qualified_read (head, found)) }
{
    let (self_type, self_trait) = head;
    let ending = last_ending(found.as_slice());
    let (self_type, path) = pair(self_type, path_behind(alloc, self_trait, found))?;
    let (path, self_type) = pair(path, Boxed::new(alloc, self_type))?;
    Ok((TypeForm::Path(Some(self_type), path), ending))
}

/// The production of a constant argument that is no name (Rust Reference, Const generics).
pub struct Constant;

impl<R: Inside> Production<Parts<R>> for Constant {
    type Tree = ();

    ghost ready = { λ parts budget. R.nests parts.inside budget };

    ghost reads = { λ budget. read budget spec.constant };

    #[tactic(auto, unfolding(educe_grammar::proofs::Opened::rules, educe_grammar::specs::Types::constant))]
    fn parse(parts: &Parts<R>, input: &mut ParseStream<'_>, budget: u8) -> Result<(), ParseError> {
        if input.cursor.eat(Terminal::Literal) {
            return Ok(());
        }
        if input.cursor.eat(Terminal::Sign('-')) {
            return unit(input.cursor.expect(Terminal::Int));
        }
        if input.cursor.eat(Terminal::Truth) {
            return Ok(());
        }
        unit(nested::<Parts<R>, ExprInside>(parts, input, budget, Bracket::Curly))
    }
}

/// A name, `=` and a type (Rust Reference, Generic arguments).
#[tactic(auto, unfolding(educe_grammar::proofs::Opened::rules))]
fn binding<R: Inside>(
    parts: &Parts<R>,
    input: &mut ParseStream<'_>,
    budget: u8,
) -> Result<AngleArg, ParseError>
    requires { R.nests parts.now.inside (budget + 1) }
    ensures { Gives (read budget (made spec.binding_of (both names.name (lone 61 61 (part types)))) input.old) result input.new }
{
    let name = name(parts.alloc, input)?;
    let name = terminated(name, input.cursor.skip_lone('=', '='))?;
    let (name, ty) = pair(name, parts.ty(input, budget))?;
    Ok(AngleArg::Binding(name, ty))
}

/// An argument in angle brackets (Rust Reference, Generic arguments).
struct GenericArg;

impl<R: Inside> Production<Parts<R>> for GenericArg {
    type Tree = AngleArg;

    ghost ready = { λ parts budget. R.nests parts.inside (budget + 1) };

    ghost reads = { λ budget. read budget spec.angle_arg };

    #[tactic(auto, using(educe_grammar::proofs::Copied::constant_copied), unfolding(educe_grammar::proofs::Opened::rules, educe_grammar::specs::Types::angle_arg))]
    fn parse(
        parts: &Parts<R>,
        input: &mut ParseStream<'_>,
        budget: u8,
    ) -> Result<AngleArg, ParseError> {
        if input.cursor.sees(Terminal::Lifetime) {
            return Ok(AngleArg::Lifetime(lifetime(parts.alloc, input)?));
        }
        if at_constant(&input.cursor) {
            let (_, tokens) = written::<Parts<R>, Constant>(parts, input, budget)?;
            return Ok(AngleArg::Constant(tokens));
        }
        if at_binding(&input.cursor) {
            return binding(parts, input, budget);
        }
        Ok(AngleArg::Plain(parts.ty(input, budget)?))
    }
}

/// Arguments in angle brackets (Rust Reference, Generic arguments).
#[tactic(auto, unfolding(educe_grammar::proofs::Opened::rules, educe_grammar::specs::Types::angle_args))]
pub fn angle_args<R: Inside>(
    parts: &Parts<R>,
    input: &mut ParseStream<'_>,
    budget: u8,
) -> Result<AngleArgs, ParseError>
    requires { R.nests parts.now.inside budget }
    ensures { Gives (read budget spec.angle_args input.old) result input.new }
{
    in_angles::<Parts<R>, GenericArg>(parts, input, budget)
}

/// Parses the type after `->`, if there is one (Rust Reference, Function pointer types).
#[tactic(auto, unfolding(educe_grammar::proofs::Opened::rules))]
pub fn output<R: Inside>(
    parts: &Parts<R>,
    input: &mut ParseStream<'_>,
    budget: u8,
) -> Result<Option<Typed>, ParseError>
    requires { R.nests parts.now.inside budget }
    ensures { Gives (read budget (optional at_arrow (arrow (part plains))) input.old) result input.new }
{
    if !input.cursor.begins_pair('-', '>') {
        return Ok(None);
    }
    let below = input.cursor.open_arrow(budget)?;
    Ok(Some(parts.plain(input, below)?))
}

/// `(A, B) -> C`
#[tactic(auto, unfolding(educe_grammar::proofs::Opened::rules, educe_grammar::specs::Types::round_args))]
fn round_args<R: Inside>(
    parts: &Parts<R>,
    input: &mut ParseStream<'_>,
    budget: u8,
) -> Result<(Types, Option<Typed>), ParseError>
    requires { R.nests parts.now.inside budget }
    ensures { Gives (read budget spec.round_args input.old) result input.new }
{
    let inputs = in_round::<Parts<R>, TypeInside>(parts, input, budget)?;
    pair(inputs, output(parts, input, budget))
}

/// The arguments of a segment in a type (Rust Reference, Paths in types).
#[tactic(auto, unfolding(educe_grammar::proofs::Opened::rules, educe_grammar::specs::Types::type_args))]
fn type_args<R: Inside>(
    parts: &Parts<R>,
    input: &mut ParseStream<'_>,
    budget: u8,
) -> Result<ArgsRead, ParseError>
    requires { R.nests parts.now.inside budget }
    ensures { Gives (read budget spec.type_args input.old) result input.new }
{
    if at_angle_args(&input.cursor) {
        input.cursor.eat_pair(':', ':');
        let found = angle_args(parts, input, budget)?;
        return Ok((Args::Angle(found), Ending::Arguments, true));
    }
    if input.cursor.opens(Bracket::Round) {
        let (inputs, output) = round_args(parts, input, budget)?;
        return Ok(round_read(parts.alloc, inputs, output)?);
    }
    Ok((Args::None, Ending::Name, true))
}

/// A segment of a path in a type (Rust Reference, Paths in types).
struct TypeSegment;

impl<R: Inside> Production<Parts<R>> for TypeSegment {
    type Tree = SegmentRead;

    ghost ready = { λ parts budget. R.nests parts.inside budget };

    ghost reads = { λ budget. read budget spec.type_segment };

    #[tactic(auto, unfolding(educe_grammar::proofs::Opened::rules, educe_grammar::specs::Types::type_segment))]
    fn parse(
        parts: &Parts<R>,
        input: &mut ParseStream<'_>,
        budget: u8,
    ) -> Result<SegmentRead, ParseError> {
        let ident = segment_name(parts.alloc, input)?;
        let (ident, (args, ending, may_follow)) = pair(ident, type_args(parts, input, budget))?;
        Ok((Segment { ident, args }, ending, may_follow))
    }
}

/// The segments of a path in a type (Rust Reference, Paths in types).
#[tactic(auto, unfolding(educe_grammar::proofs::Opened::rules, educe_grammar::specs::Types::type_segments))]
fn type_segments<R: Inside>(
    parts: &Parts<R>,
    input: &mut ParseStream<'_>,
    budget: u8,
) -> Result<Seq<SegmentRead>, ParseError>
    requires { R.nests parts.now.inside budget }
    ensures { Gives (read budget spec.type_segments input.old) result input.new }
{
    let found = path::<Parts<R>, TypeSegment>(parts, input, budget)?;
    if !may_follow(found.as_slice()) {
        return Err(input.cursor.refuse());
    }
    Ok(found)
}

/// `::`, if it comes next (Rust Reference, Paths).
#[tactic(auto, unfolding(educe_grammar::proofs::Opened::rules))]
pub fn skip_colons(input: &mut ParseStream<'_>) -> bool
    ensures { (budget : ℕ) → read budget (flag at_colons colons) input.old ≡ Ok (result, input.new) }
{
    input.cursor.eat_pair(':', ':')
}

/// A path in a type (Rust Reference, Paths in types).
#[tactic(auto, unfolding(educe_grammar::proofs::Opened::rules, educe_grammar::specs::Types::type_path))]
pub fn type_path<R: Inside>(
    parts: &Parts<R>,
    input: &mut ParseStream<'_>,
    budget: u8,
) -> Result<(Path, Ending), ParseError>
    requires { R.nests parts.now.inside budget }
    ensures { Gives (read budget spec.type_path input.old) result input.new }
{
    let leading = skip_colons(input);
    let found = type_segments(parts, input, budget)?;
    let (path, ending) = path_read(parts.alloc, leading, found)?;
    if is_scope(&path) {
        return Err(input.cursor.refuse());
    }
    Ok((path, ending))
}

/// The trait of a qualified path (Rust Reference, Qualified paths).
struct TraitPath;

impl<R: Inside> Production<Parts<R>> for TraitPath {
    type Tree = (Path, Ending);

    ghost ready = { λ parts budget. R.nests parts.inside budget };

    ghost reads = { λ budget. read budget spec.type_path };

    fn parse(
        parts: &Parts<R>,
        input: &mut ParseStream<'_>,
        budget: u8,
    ) -> Result<(Path, Ending), ParseError> {
        type_path(parts, input, budget)
    }
}

/// A type, and the trait behind `as` (Rust Reference, Qualified paths).
struct SelfAndTrait;

impl<R: Inside> Production<Parts<R>> for SelfAndTrait {
    type Tree = (Ty, SelfTrait);

    ghost ready = { λ parts budget. R.nests parts.inside (budget + 1) };

    ghost reads = { λ budget. read budget (both (part types) (optional (at_word keyword.As) (skipping (word keyword.As) spec.type_path))) };

    #[tactic(auto, unfolding(educe_grammar::proofs::Opened::rules))]
    fn parse(
        parts: &Parts<R>,
        input: &mut ParseStream<'_>,
        budget: u8,
    ) -> Result<(Ty, SelfTrait), ParseError> {
        let self_type = parts.ty(input, budget)?;
        let word = Terminal::Word(Keyword::As);
        pair(
            self_type,
            optional_behind::<Parts<R>, TraitPath>(parts, input, budget, word),
        )
    }
}

/// The type of a qualified path, and its trait (Rust Reference, Qualified paths).
#[tactic(auto, unfolding(educe_grammar::proofs::Opened::rules, educe_grammar::specs::Types::qualified_self))]
pub fn qualified_self<R: Inside>(
    parts: &Parts<R>,
    input: &mut ParseStream<'_>,
    budget: u8,
) -> Result<(Ty, SelfTrait), ParseError>
    requires { R.nests parts.now.inside budget }
    ensures { Gives (read budget spec.qualified_self input.old) result input.new }
{
    angled::<Parts<R>, SelfAndTrait>(parts, input, budget)
}

/// A qualified path (Rust Reference, Qualified paths).
#[tactic(auto, unfolding(educe_grammar::proofs::Opened::rules, educe_grammar::specs::Types::qualified))]
pub fn qualified<R: Inside>(
    parts: &Parts<R>,
    input: &mut ParseStream<'_>,
    budget: u8,
) -> Result<(TypeForm, Ending), ParseError>
    requires { R.nests parts.now.inside budget }
    ensures { Gives (read budget spec.qualified input.old) result input.new }
{
    let head = qualified_self(parts, input, budget)?;
    let head = terminated(head, input.cursor.skip_pair(':', ':'))?;
    let (head, found) = pair(head, type_segments(parts, input, budget))?;
    Ok(qualified_read(parts.alloc, head, found)?)
}
