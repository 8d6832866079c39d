//! Definitions of structs and enums (Rust Reference, Structs; Enumerations).
ghost use Rattle.std.specs.Prelude.{◌≡◌, ◌+◌, ⊤};
ghost use Rattle.educe_grammar.specs.Combining.{at, at_sign, at_word, behind_colon, leaving, skipping, optional, sign, in_curly};
ghost use Rattle.educe_tokens.specs.Bracket.TheVariants.{Curly};
ghost use Rattle.educe_grammar.specs.Ahead.{start};
ghost use Rattle.educe_grammar.specs.declared.terminal.Keyword.TheVariants as keyword;
ghost use Rattle.educe_grammar.specs.Definitions as spec;
ghost use Rattle.educe_grammar.specs.Generics.{generic_params, where_clause};
ghost use Rattle.educe_grammar.specs.Names as names;
ghost use Rattle.educe_grammar.specs.Names.{mere_token};
ghost use Rattle.educe_grammar.specs.NotedReads.{read};
ghost use Rattle.educe_grammar.specs.Rules.{both, either, made, part, exprs, types};
ghost use Rattle.educe_grammar.specs.Steps.{Gives};
ghost use Rattle.educe_grammar.specs.declared.terminal.Terminal.TheVariants as terminal;

use crate::attribute::{attributes, span_since};
use crate::generics::{colon_type, generic_params, where_clause};
use crate::lookahead::at_scope;
use educe_grammar::{
    ExprInside, Inside, Keyword, ParseError, ParseStream, Parts, Production, Terminal, in_curly,
    in_round, nested, optional_behind, path,
};
use educe_parser_paths::{name, skip_colons};
use educe_tokens::{Bracket, Seq, pair, terminated, unit};
use educe_tree::{
    DeriveInput, Expr, Field, FieldForm, FieldShape, Generics, Ident, Params, Predicates, Shape,
    Ty, Variant, Variants,
};
use std::alloc::Global;

/// What is defined behind the name and the parameters.
type Body = (Shape, Predicates);

/// A name, parameters and what is defined.
type Item = (Ident, (Params, Body));

/// A segment of a path of names alone, of which nothing is kept (Rust Reference, Simple paths).
struct NameSegment;

impl Production<Global> for NameSegment {
    type Tree = ();

    ghost ready = { λ _ _. ⊤ };

    ghost reads = { λ budget. read budget (mere_token terminal.PathSegment) };

    #[tactic(auto, unfolding(educe_grammar::proofs::Opened::rules, educe_grammar::specs::Names::mere_token))]
    fn parse(_alloc: &Global, input: &mut ParseStream<'_>, _budget: u8) -> Result<(), ParseError> {
        unit(input.cursor.expect(Terminal::PathSegment))
    }
}

/// A path of names alone (Rust Reference, Simple paths).
#[tactic(auto, unfolding(educe_grammar::proofs::Opened::rules, educe_grammar::specs::Definitions::mod_path, educe_grammar::specs::Names::simple_path))]
fn mod_path(alloc: Global, input: &mut ParseStream<'_>, budget: u8) -> Result<(), ParseError>
    ensures { Gives (read budget spec.mod_path input.old) result input.new }
{
    skip_colons(input);
    unit(path::<Global, NameSegment>(&alloc, input, budget))
}

/// `crate`, `self`, `super` or `in` and a path (Rust Reference, Visibility and privacy).
struct Scope;

impl Production<Global> for Scope {
    type Tree = ();

    ghost ready = { λ _ _. ⊤ };

    ghost reads = { λ budget. read budget spec.scope };

    #[tactic(auto, unfolding(educe_grammar::proofs::Opened::rules, educe_grammar::specs::Definitions::scope))]
    fn parse(alloc: &Global, input: &mut ParseStream<'_>, budget: u8) -> Result<(), ParseError> {
        if input.cursor.eat(Terminal::Word(Keyword::In)) {
            return mod_path(*alloc, input, budget);
        }
        unit(input.cursor.expect(Terminal::Scope))
    }
}

/// A visibility, if there is one (Rust Reference, Visibility and privacy).
#[tactic(auto, unfolding(educe_grammar::proofs::Opened::rules, educe_grammar::specs::Definitions::visibility))]
pub fn visibility(alloc: Global, input: &mut ParseStream<'_>, budget: u8) -> Result<(), ParseError>
    ensures { Gives (read budget spec.visibility input.old) result input.new }
{
    if !input.cursor.eat(Terminal::Word(Keyword::Pub)) {
        return Ok(());
    }
    if !at_scope(&input.cursor) {
        return Ok(());
    }
    nested::<Global, Scope>(&alloc, input, budget, Bracket::Round)
}

/// No fields (Rust Reference, Unit-like structs).
fn no_fields(alloc: Global) -> FieldShape
    ensures { result ≡ spec.unit_shape }
{
    FieldShape {
        form: FieldForm::Unit,
        fields: Seq::new(alloc),
    }
}

/// A visibility, a name, a colon and a type (Rust Reference, Structs).
#[tactic(auto, unfolding(educe_grammar::proofs::Opened::rules))]
fn named_type<R: Inside>(
    parts: &Parts<R>,
    input: &mut ParseStream<'_>,
    budget: u8,
) -> Result<(Ident, Ty), ParseError>
    requires { R.nests parts.now.inside (budget + 1) }
    ensures { Gives (read budget (skipping spec.visibility (both names.name (behind_colon (part types)))) input.old) result input.new }
{
    visibility(parts.alloc, input, budget)?;
    let ident = name(parts.alloc, input)?;
    pair(ident, colon_type(parts, input, budget))
}

/// A field with a name (Rust Reference, Structs).
struct NamedField;

impl<R: Inside> Production<Parts<R>> for NamedField {
    type Tree = Field;

    ghost ready = { λ parts budget. R.nests parts.inside (budget + 1) };

    ghost reads = { λ budget. read budget spec.named_field };

    #[tactic(auto, unfolding(educe_grammar::proofs::Opened::rules, educe_grammar::specs::Definitions::named_field))]
    fn parse(
        parts: &Parts<R>,
        input: &mut ParseStream<'_>,
        budget: u8,
    ) -> Result<Field, ParseError> {
        let start = input.cursor.mark();
        let attrs = attributes(parts.alloc, input, budget)?;
        let (attrs, (ident, ty)) = pair(attrs, named_type(parts, input, budget))?;
        let span = span_since(&start, &input.cursor);
        Ok(Field {
            attrs,
            ident: Some(ident),
            ty,
            span,
        })
    }
}

/// A visibility and a type (Rust Reference, Tuple structs).
#[tactic(auto, unfolding(educe_grammar::proofs::Opened::rules))]
fn visible_type<R: Inside>(
    parts: &Parts<R>,
    input: &mut ParseStream<'_>,
    budget: u8,
) -> Result<Ty, ParseError>
    requires { R.nests parts.now.inside (budget + 1) }
    ensures { Gives (read budget (skipping spec.visibility (part types)) input.old) result input.new }
{
    visibility(parts.alloc, input, budget)?;
    parts.ty(input, budget)
}

/// A field without a name (Rust Reference, Tuple structs).
struct TupleField;

impl<R: Inside> Production<Parts<R>> for TupleField {
    type Tree = Field;

    ghost ready = { λ parts budget. R.nests parts.inside (budget + 1) };

    ghost reads = { λ budget. read budget spec.tuple_field };

    #[tactic(auto, unfolding(educe_grammar::proofs::Opened::rules, educe_grammar::specs::Definitions::tuple_field))]
    fn parse(
        parts: &Parts<R>,
        input: &mut ParseStream<'_>,
        budget: u8,
    ) -> Result<Field, ParseError> {
        let start = input.cursor.mark();
        let attrs = attributes(parts.alloc, input, budget)?;
        let (attrs, ty) = pair(attrs, visible_type(parts, input, budget))?;
        let span = span_since(&start, &input.cursor);
        Ok(Field {
            attrs,
            ident: None,
            ty,
            span,
        })
    }
}

/// Fields in curly brackets (Rust Reference, Structs).
#[tactic(auto, unfolding(educe_grammar::proofs::Opened::rules, educe_grammar::specs::Definitions::named_fields))]
fn named_fields<R: Inside>(
    parts: &Parts<R>,
    input: &mut ParseStream<'_>,
    budget: u8,
) -> Result<FieldShape, ParseError>
    requires { R.nests parts.now.inside budget }
    ensures { Gives (read budget spec.named_fields input.old) result input.new }
{
    let fields = in_curly::<Parts<R>, NamedField>(parts, input, budget)?;
    let form = FieldForm::Named;
    Ok(FieldShape { form, fields })
}

/// Fields in round brackets (Rust Reference, Tuple structs).
#[tactic(auto, unfolding(educe_grammar::proofs::Opened::rules, educe_grammar::specs::Definitions::tuple_fields))]
fn tuple_fields<R: Inside>(
    parts: &Parts<R>,
    input: &mut ParseStream<'_>,
    budget: u8,
) -> Result<FieldShape, ParseError>
    requires { R.nests parts.now.inside budget }
    ensures { Gives (read budget spec.tuple_fields input.old) result input.new }
{
    let fields = in_round::<Parts<R>, TupleField>(parts, input, budget)?;
    let form = FieldForm::Unnamed;
    Ok(FieldShape { form, fields })
}

/// The fields of a variant, if it has any (Rust Reference, Enumerations).
#[tactic(auto, unfolding(educe_grammar::proofs::Opened::rules, educe_grammar::specs::Definitions::variant_fields))]
fn variant_fields<R: Inside>(
    parts: &Parts<R>,
    input: &mut ParseStream<'_>,
    budget: u8,
) -> Result<FieldShape, ParseError>
    requires { R.nests parts.now.inside budget }
    ensures { Gives (read budget spec.variant_fields input.old) result input.new }
{
    if input.cursor.opens(Bracket::Curly) {
        return named_fields(parts, input, budget);
    }
    if input.cursor.opens(Bracket::Round) {
        return tuple_fields(parts, input, budget);
    }
    Ok(no_fields(parts.alloc))
}

/// The fields of a variant and its discriminant (Rust Reference, Enumerations).
#[tactic(auto, unfolding(educe_grammar::proofs::Opened::rules))]
fn variant_rest<R: Inside>(
    parts: &Parts<R>,
    input: &mut ParseStream<'_>,
    budget: u8,
) -> Result<(FieldShape, Option<Expr>), ParseError>
    requires { R.nests parts.now.inside (budget + 1) }
    ensures { Gives (read budget (both spec.variant_fields (optional (at_sign 61) (skipping (sign 61) (part exprs))))
        input.old) result input.new }
{
    let fields = variant_fields(parts, input, budget)?;
    let equals = Terminal::Sign('=');
    pair(
        fields,
        optional_behind::<Parts<R>, ExprInside>(parts, input, budget, equals),
    )
}

/// A variant without its attributes (Rust Reference, Enumerations).
#[tactic(auto, unfolding(educe_grammar::proofs::Opened::rules))]
fn bare_variant<R: Inside>(
    parts: &Parts<R>,
    input: &mut ParseStream<'_>,
    budget: u8,
) -> Result<(Ident, (FieldShape, Option<Expr>)), ParseError>
    requires { R.nests parts.now.inside (budget + 1) }
    ensures { Gives (read budget (both names.name (both spec.variant_fields
        (optional (at_sign 61) (skipping (sign 61) (part exprs))))) input.old) result input.new }
{
    let ident = name(parts.alloc, input)?;
    pair(ident, variant_rest(parts, input, budget))
}

/// A variant (Rust Reference, Enumerations).
struct VariantItem;

impl<R: Inside> Production<Parts<R>> for VariantItem {
    type Tree = Variant;

    ghost ready = { λ parts budget. R.nests parts.inside (budget + 1) };

    ghost reads = { λ budget. read budget spec.variant };

    #[tactic(auto, unfolding(educe_grammar::proofs::Opened::rules, educe_grammar::specs::Definitions::variant))]
    fn parse(
        parts: &Parts<R>,
        input: &mut ParseStream<'_>,
        budget: u8,
    ) -> Result<Variant, ParseError> {
        let start = input.cursor.mark();
        let attrs = attributes(parts.alloc, input, budget)?;
        let (attrs, (ident, (fields, discriminant))) = pair(
            attrs,
            bare_variant(parts, input, budget),
        )?;
        let span = span_since(&start, &input.cursor);
        Ok(Variant {
            attrs,
            ident,
            fields,
            discriminant,
            span,
        })
    }
}

/// Fields in curly brackets, or `;` (Rust Reference, Structs).
#[tactic(auto, unfolding(educe_grammar::proofs::Opened::rules))]
fn last_fields<R: Inside>(
    parts: &Parts<R>,
    input: &mut ParseStream<'_>,
    budget: u8,
) -> Result<FieldShape, ParseError>
    requires { R.nests parts.now.inside budget }
    ensures { Gives (read budget (either (at (start Curly)) spec.named_fields (made (λ _. spec.unit_shape) (sign 59)))
        input.old) result input.new }
{
    if input.cursor.opens(Bracket::Curly) {
        return named_fields(parts, input, budget);
    }
    input.cursor.expect(Terminal::Sign(';'))?;
    Ok(no_fields(parts.alloc))
}

/// Fields in round brackets, a where clause and `;` (Rust Reference, Tuple structs).
#[tactic(auto, unfolding(educe_grammar::proofs::Opened::rules))]
fn tuple_body<R: Inside>(
    parts: &Parts<R>,
    input: &mut ParseStream<'_>,
    budget: u8,
) -> Result<(FieldShape, Predicates), ParseError>
    requires { R.nests parts.now.inside (budget + 1) }
    ensures { Gives (read budget (leaving (both spec.tuple_fields where_clause) (sign 59)) input.old) result input.new }
{
    let fields = tuple_fields(parts, input, budget)?;
    let found = pair(fields, where_clause(parts, input, budget))?;
    terminated(found, input.cursor.expect(Terminal::Sign(';')))
}

/// The body of a struct (Rust Reference, Structs).
#[tactic(auto, unfolding(educe_grammar::proofs::Opened::rules, educe_grammar::specs::Definitions::struct_body))]
fn struct_body<R: Inside>(
    parts: &Parts<R>,
    input: &mut ParseStream<'_>,
    budget: u8,
) -> Result<Body, ParseError>
    requires { R.nests parts.now.inside (budget + 1) }
    ensures { Gives (read budget spec.struct_body input.old) result input.new }
{
    if input.cursor.opens(Bracket::Round) {
        let (fields, predicates) = tuple_body(parts, input, budget)?;
        return Ok((Shape::Struct(fields), predicates));
    }
    let predicates = where_clause(parts, input, budget)?;
    let (predicates, fields) = pair(predicates, last_fields(parts, input, budget))?;
    Ok((Shape::Struct(fields), predicates))
}

/// The variants of an enum (Rust Reference, Enumerations).
#[tactic(auto, unfolding(educe_grammar::proofs::Opened::rules))]
fn variants<R: Inside>(
    parts: &Parts<R>,
    input: &mut ParseStream<'_>,
    budget: u8,
) -> Result<Variants, ParseError>
    requires { R.nests parts.now.inside budget }
    ensures { Gives (read budget (in_curly spec.variant) input.old) result input.new }
{
    in_curly::<Parts<R>, VariantItem>(parts, input, budget)
}

/// The body of an enum (Rust Reference, Enumerations).
#[tactic(auto, unfolding(educe_grammar::proofs::Opened::rules, educe_grammar::specs::Definitions::enum_body))]
fn enum_body<R: Inside>(
    parts: &Parts<R>,
    input: &mut ParseStream<'_>,
    budget: u8,
) -> Result<Body, ParseError>
    requires { R.nests parts.now.inside (budget + 1) }
    ensures { Gives (read budget spec.enum_body input.old) result input.new }
{
    let predicates = where_clause(parts, input, budget)?;
    let (predicates, variants) = pair(predicates, variants(parts, input, budget))?;
    Ok((Shape::Enum(variants), predicates))
}

/// A struct without its name (Rust Reference, Structs).
#[tactic(auto, unfolding(educe_grammar::proofs::Opened::rules))]
fn bare_struct<R: Inside>(
    parts: &Parts<R>,
    input: &mut ParseStream<'_>,
    budget: u8,
) -> Result<(Params, Body), ParseError>
    requires { R.nests parts.now.inside (budget + 1) }
    ensures { Gives (read budget (both generic_params spec.struct_body) input.old) result input.new }
{
    let params = generic_params(parts, input, budget)?;
    pair(params, struct_body(parts, input, budget))
}

/// A struct without its attributes and visibility (Rust Reference, Structs).
#[tactic(auto, unfolding(educe_grammar::proofs::Opened::rules, educe_grammar::specs::Definitions::struct_item))]
fn struct_item<R: Inside>(
    parts: &Parts<R>,
    input: &mut ParseStream<'_>,
    budget: u8,
) -> Result<Item, ParseError>
    requires { R.nests parts.now.inside (budget + 1) }
    ensures { Gives (read budget spec.struct_item input.old) result input.new }
{
    input.cursor.expect(Terminal::Word(Keyword::Struct))?;
    let ident = name(parts.alloc, input)?;
    pair(ident, bare_struct(parts, input, budget))
}

/// An enum without its name (Rust Reference, Enumerations).
#[tactic(auto, unfolding(educe_grammar::proofs::Opened::rules))]
fn bare_enum<R: Inside>(
    parts: &Parts<R>,
    input: &mut ParseStream<'_>,
    budget: u8,
) -> Result<(Params, Body), ParseError>
    requires { R.nests parts.now.inside (budget + 1) }
    ensures { Gives (read budget (both generic_params spec.enum_body) input.old) result input.new }
{
    let params = generic_params(parts, input, budget)?;
    pair(params, enum_body(parts, input, budget))
}

/// An enum without its attributes and visibility (Rust Reference, Enumerations).
#[tactic(auto, unfolding(educe_grammar::proofs::Opened::rules, educe_grammar::specs::Definitions::enum_item))]
fn enum_item<R: Inside>(
    parts: &Parts<R>,
    input: &mut ParseStream<'_>,
    budget: u8,
) -> Result<Item, ParseError>
    requires { R.nests parts.now.inside (budget + 1) }
    ensures { Gives (read budget spec.enum_item input.old) result input.new }
{
    input.cursor.expect(Terminal::Word(Keyword::Enum))?;
    let ident = name(parts.alloc, input)?;
    pair(ident, bare_enum(parts, input, budget))
}

/// A struct or an enum, without its attributes and visibility (Rust Reference, Items).
#[tactic(auto, unfolding(educe_grammar::proofs::Opened::rules))]
fn item<R: Inside>(
    parts: &Parts<R>,
    input: &mut ParseStream<'_>,
    budget: u8,
) -> Result<Item, ParseError>
    requires { R.nests parts.now.inside (budget + 1) }
    ensures { Gives (read budget (either (at_word keyword.Enum) spec.enum_item spec.struct_item) input.old) result input.new }
{
    if input.cursor.sees(Terminal::Word(Keyword::Enum)) {
        return enum_item(parts, input, budget);
    }
    struct_item(parts, input, budget)
}

/// A visibility, and a struct or an enum (Rust Reference, Items).
#[tactic(auto, unfolding(educe_grammar::proofs::Opened::rules))]
fn visible_item<R: Inside>(
    parts: &Parts<R>,
    input: &mut ParseStream<'_>,
    budget: u8,
) -> Result<Item, ParseError>
    requires { R.nests parts.now.inside (budget + 1) }
    ensures { Gives (read budget (skipping spec.visibility
        (either (at_word keyword.Enum) spec.enum_item spec.struct_item)) input.old) result input.new }
{
    visibility(parts.alloc, input, budget)?;
    item(parts, input, budget)
}

/// A definition (Rust Reference, Items).
#[tactic(auto, unfolding(educe_grammar::proofs::Opened::rules, educe_grammar::specs::Definitions::definition))]
pub fn definition<R: Inside>(
    parts: &Parts<R>,
    input: &mut ParseStream<'_>,
    budget: u8,
) -> Result<DeriveInput, ParseError>
    requires { R.nests parts.now.inside (budget + 1) }
    ensures { Gives (read budget spec.definition input.old) result input.new }
{
    let start = input.cursor.mark();
    let attrs = attributes(parts.alloc, input, budget)?;
    let found = pair(attrs, visible_item(parts, input, budget))?;
    let (found, tokens) = pair(found, input.cursor.since(&start))?;
    let (attrs, (ident, (params, (shape, predicates)))) = found;
    Ok(DeriveInput {
        attrs,
        ident,
        generics: Generics { params, predicates },
        shape,
        tokens,
    })
}
