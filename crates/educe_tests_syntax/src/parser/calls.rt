//! What the calls answer: trees by their text and their parts, rejections by their place and words.
ghost use Rattle.std.specs.Prelude.{◌≤◌};

use super::{Call, Part, kind_name, within_limit};
use crate::answers::{Asked, check};
use crate::common::{copied, lines, told};
use educe_syntax::{
    DeriveInput, ExprPath, Meta, Metas, Shape, ToTokens, parse_derive_input, parse_expr,
    parse_expr_within, parse_ident, parse_metas, parse_params_within, parse_path,
    parse_path_within, parse_predicates, parse_predicates_within, parse_type_within, text_of_tree,
};
use educe_tests::{check_equal, check_text, definition, first, found, lexed_slice, printed};
use educe_tokens::{EduceError, Seq, Span, TokenSlice};
use std::alloc::{AllocError, Global};
use std::test::Fail;

/// The text of the tree that is answered.
fn read_text<T: ToTokens + Drop>(
    alloc: Global,
    answer: Result<T, EduceError>,
) -> Result<String, Fail> {
    Ok(printed(alloc, found(answer)?)?)
}

/// The texts of the trees that are answered.
fn read_lines<T: ToTokens + Drop>(
    alloc: Global,
    answer: Result<Seq<T>, EduceError>,
) -> Result<String, Fail> {
    Ok(lines(alloc, found(answer)?.as_slice())?)
}

/// The text of what a call with a budget reads.
fn text_within(alloc: Global, part: Part, tokens: &TokenSlice, budget: u32) -> Result<String, Fail>
    requires { budget ≤ 129 }
{
    match part {
        Part::Type => read_text(alloc, parse_type_within(alloc, tokens, budget)),
        Part::Params => read_lines(alloc, parse_params_within(alloc, tokens, budget)),
        Part::Path => read_text(alloc, parse_path_within(alloc, tokens, budget)),
        Part::Predicates => read_lines(alloc, parse_predicates_within(alloc, tokens, budget)),
        Part::Expr => read_text(alloc, parse_expr_within(alloc, tokens, budget)),
    }
}

/// The text of what a call reads.
fn tree_text(alloc: Global, call: Call, tokens: &TokenSlice) -> Result<String, Fail> {
    match call {
        Call::Ident => read_text(alloc, parse_ident(alloc, tokens)),
        Call::Path => read_text(alloc, parse_path(alloc, tokens)),
        Call::Expr => read_text(alloc, parse_expr(alloc, tokens)),
        Call::Predicates => read_lines(alloc, parse_predicates(alloc, tokens)),
        Call::Within(part, budget) => text_within(alloc, part, tokens, within_limit(budget)),
        _ => Err(Fail::from("no such text")),
    }
}

/// The text of what a call reads is this.
fn check_read(alloc: Global, call: Call, source: &str, expected: &str) -> Result<(), Fail> {
    check_text(
        tree_text(alloc, call, &lexed_slice(alloc, source)?)?,
        expected,
    )
}

#[test]
fn trees_have_their_texts(rt: HostRuntime) -> Result<(), Fail> {
    let alloc = rt.alloc();
    check_read(alloc, Call::Ident, "r#fn", "r#fn")?;
    check_read(alloc, Call::Expr, "-a.b(1) + 2", "- a . b ( 1 ) + 2")?;
    check_read(
        alloc,
        Call::Path,
        "<T as A>::b::<C>",
        "< T as A >:: b ::< C >",
    )?;
    check_read(
        alloc,
        Call::Predicates,
        "A: B + 'a, 'a: 'b,",
        "A : B + 'a\n'a : 'b",
    )
}

#[test]
fn parts_are_read_within_a_budget(rt: HostRuntime) -> Result<(), Fail> {
    let alloc = rt.alloc();
    let within = |part| Call::Within(part, 129);
    check_read(alloc, within(Part::Type), "&'a [T; 3]", "& 'a [ T ; 3 ]")?;
    check_read(
        alloc,
        within(Part::Params),
        "'a: 'b, T: A = B, const N: usize = 1,",
        "'a : 'b\nT : A\nconst N : usize",
    )?;
    check_read(alloc, within(Part::Path), "a::b::<C>", "a :: b ::< C >")?;
    check_read(
        alloc,
        within(Part::Predicates),
        "A: B, C: D",
        "A : B\nC : D",
    )?;
    check_read(
        alloc,
        within(Part::Predicates),
        "T : :: core :: marker :: Copy , ( T , T ) : :: core :: clone :: Clone",
        "T : :: core :: marker :: Copy\n( T , T ) : :: core :: clone :: Clone",
    )?;
    check_read(alloc, within(Part::Expr), "a.b(1)", "a . b ( 1 )")
}

/// The path that a text is.
pub(crate) fn path(alloc: Global, text: &str) -> Result<ExprPath, Fail> {
    found(parse_path(alloc, &lexed_slice(alloc, text)?))
}

/// Whether a path has the type of a qualified path, and how many segments it has.
fn path_parts(path: &ExprPath) -> (bool, usize) {
    (path.self_type.is_some(), path.path.segments.len())
}

/// The metas that a text is.
pub(crate) fn metas(alloc: Global, text: &str) -> Result<Metas, Fail> {
    found(parse_metas(alloc, &lexed_slice(alloc, text)?))
}

/// The metas are these three.
fn check_metas(alloc: Global, metas: &[Meta]) -> Result<(), Fail> {
    let [
        Meta::Word(word),
        Meta::List(path, list, _),
        Meta::NameValue(name, value, span),
    ] = metas
    else {
        return Err(Fail::from("not these"));
    };
    check_text(text_of_tree(alloc, word)?, "a")?;
    check_text(text_of_tree(alloc, path)?, "b :: c")?;
    check_text(text_of_tree(alloc, name)?, "f")?;
    check_text(text_of_tree(alloc, value)?, "1 + 2")?;
    check_equal(
        (list.tokens().len(), *span),
        (5, Span { start: 15, end: 24 }),
    )
}

#[test]
fn paths_and_metas_have_their_parts(rt: HostRuntime) -> Result<(), Fail> {
    let alloc = rt.alloc();
    let path = path(alloc, "<T as A>::b::<C>")?;
    let parts = path_parts(&path);
    check_equal(told(path, parts), (true, 2))?;
    let metas = metas(alloc, "a, b::c(d; e), f = 1 + 2")?;
    let checked = check_metas(alloc, metas.as_slice());
    told(metas, checked)
}

/// The fields are these two.
fn check_fields(alloc: Global, shape: &Shape) -> Result<(), Fail> {
    let Shape::Struct(shape) = shape else {
        return Err(Fail::from("no struct"));
    };
    let [first, second] = shape.fields.as_slice() else {
        return Err(Fail::from("not two"));
    };
    check_text(text_of_tree(alloc, &first.ty)?, "Vec < T >")?;
    check_equal(first.span, Span { start: 21, end: 31 })?;
    check_text(text_of_tree(alloc, &second.ty)?, "A")
}

/// How many attributes, parameters and predicates a definition has.
fn counts(ast: &DeriveInput) -> (usize, usize, usize) {
    (
        ast.attrs.len(),
        ast.generics.params.len(),
        ast.generics.predicates.len(),
    )
}

/// The definition has this name, one each of attributes, parameters and predicates, and two fields.
fn check_definition(alloc: Global, ast: &DeriveInput) -> Result<(), Fail> {
    check_equal(ast.ident.text.as_str(), "S")?;
    check_equal(counts(ast), (1, 1, 1))?;
    check_fields(alloc, &ast.shape)
}

/// The field `a` of the type `u8`, where it stands in a text.
fn check_field(alloc: Global, shape: &Shape) -> Result<(), Fail> {
    let Shape::Struct(shape) = shape else {
        return Err(Fail::from("no struct"));
    };
    let field = first(&shape.fields)?;
    check_equal(
        (field.name(), field.span),
        ("a", Span { start: 31, end: 36 }),
    )?;
    check_text(text_of_tree(alloc, &field.ty)?, "u8")
}

/// The definition has the name `S`, where it stands in a text, 14 tokens and that field.
fn check_one_field(alloc: Global, ast: &DeriveInput) -> Result<(), Fail> {
    let found = (ast.ident.text.as_str(), ast.ident.span, ast.tokens.len());
    check_equal(found, ("S", Span { start: 27, end: 28 }, 14))?;
    check_field(alloc, &ast.shape)
}

/// A definition of one field.
const ONE_FIELD: &str = "#[educe(PartialEq)] struct S { a: u8 }";

#[test]
fn definitions_and_their_copies_are_trees(rt: HostRuntime) -> Result<(), Fail> {
    let alloc = rt.alloc();
    let ast = definition(alloc, "#[x] pub struct S<T>(pub Vec<T>, A) where T: B;")?;
    let checked = check_definition(alloc, &ast);
    told(ast, checked)?;
    let ast = definition(alloc, ONE_FIELD)?;
    let checked = check_one_field(alloc, &ast);
    told(ast, checked)?;
    let copy = copied(alloc, definition(alloc, ONE_FIELD)?)?;
    let checked = check_one_field(alloc, &copy);
    told(copy, checked)
}

/// The rejection that is answered.
fn refused<T: Drop>(answer: Result<T, EduceError>) -> Result<EduceError, Fail> {
    match answer {
        Ok(_) => Err(Fail::from("read")),
        Err(error) => Ok(error),
    }
}

/// The kind and the place of a rejection, and the words that it cites.
fn refusal_text(alloc: Global, error: &EduceError) -> Result<String, AllocError> {
    let Span { start, end } = error.span;
    let mut text = format!(in alloc; "{} {start}..{end}", kind_name(error.kind))?;
    for word in error.words.as_slice() {
        write!(text, " {}", word.as_str())?;
    }
    Ok(text)
}

/// How a definition is rejected.
pub(crate) fn definition_refused(alloc: Global, source: &str) -> Result<String, Fail> {
    let tokens = lexed_slice(alloc, source)?;
    let error = refused(parse_derive_input(alloc, &tokens))?;
    Ok(refusal_text(alloc, &error)?)
}

static REFUSALS: &str = r#"
∅
: Syntax 0..0

struct S
: Syntax 8..8

struct S { a: impl X }
: Syntax 14..18

struct S<T, T>;
: DuplicateName 12..13 T

struct S { a: u8, r#a: u8 }
: DuplicateName 18..21 r#a

pub union U { a: u8 }
: NotCarried 4..9 union
"#;

#[test]
fn refusals_have_their_places(rt: HostRuntime) -> Result<(), Fail> {
    check(rt.alloc(), Asked::Refusal, REFUSALS)
}
