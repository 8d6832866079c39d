//! `Self` in types, paths and generics, and in the markers of fields, by the calls that replace it.
ghost use Rattle.educe_settings.specs.Ranked.{kept_of};
ghost use Rattle.educe_make_markers.specs.Marking.{MayMark};
ghost use Rattle.educe_syntax.specs.Readings.{HasReadParts, IsReadField, IsReadPath};

use super::readings::{field_at, read_definition, read_path, spelled, texts};
use educe_attrs::Trait;
use educe_make_markers::{MarkerNames, method_markers};
use educe_settings::{How, Ranked};
use educe_syntax::{DeriveInput, ExprPath, Field, Generics, Ident};
use educe_syntax_self::ReplaceSelf;
use educe_tests::{check_rows, check_text, printed};
use educe_tokens::Span;
use std::alloc::{AllocError, Global};
use std::test::Fail;

/// What replaces `Self` in a struct with a parameter of each kind.
fn replacing(alloc: Global) -> Result<ReplaceSelf, Fail> {
    let ast = read_definition(alloc, "struct S<'a, T, const N: usize>;")?;
    let replace = ReplaceSelf::new(alloc, &ast);
    drop(ast);
    Ok(replace?)
}

/// The type of the first field, with `Self` replaced.
fn field_type(alloc: Global, replace: &ReplaceSelf, ast: &DeriveInput) -> Result<String, Fail>
    requires { HasReadParts ast.now }
{
    let field = field_at(ast, 0)?;
    Ok(printed(alloc, replace.visit_type(alloc, &field.ty)?)?)
}

/// The type that a text is, with `Self` replaced.
fn visited_type(alloc: Global, replace: &ReplaceSelf, text: &str) -> Result<String, Fail> {
    let source = format!(in alloc; "struct F({text});")?;
    let ast = read_definition(alloc, &source)?;
    let visited = field_type(alloc, replace, &ast);
    drop(ast);
    visited
}

static TYPES: &str = r#"
Self
Self<T>
: S :: < 'a , T , N >

Box<Self>
: Box < S :: < 'a , T , N > >

&'a [Self; Self::N]
: & 'a [ S :: < 'a , T , N > ; S :: < 'a , T , N > :: N ]

<Self as A>::B
: < S :: < 'a , T , N > as A >:: B

Self::C
: S :: < 'a , T , N > :: C

&'a [T; N]
: & 'a [ T ; N ]

::Self
: :: Self

self::Self
: self :: Self

[u8; m!(Self)]
: [ u8 ; m ! ( Self ) ]
"#;

/// The path that a text is, with `Self` replaced.
fn visited_path(alloc: Global, replace: &ReplaceSelf, text: &str) -> Result<String, Fail> {
    let path = read_path(alloc, text)?;
    let visited = replace.visit_path(alloc, &path);
    drop(path);
    Ok(printed(alloc, visited?)?)
}

static PATHS: &str = r#"
Self
: S :: < 'a , T , N >

Self::f
Self::<T>::f
: S :: < 'a , T , N > :: f

<Self as A>::f
: < S :: < 'a , T , N > as A >:: f

f::<Self>
: f ::< S :: < 'a , T , N > >

S::f
: S :: f

self::Self::f
: self :: Self :: f

::Self
: :: Self
"#;

#[test]
fn self_is_replaced_in_types_and_paths(rt: HostRuntime) -> Result<(), Fail> {
    let alloc = rt.alloc();
    let replace = replacing(alloc)?;
    check_rows(
        alloc,
        |alloc, text| visited_type(alloc, &replace, text),
        TYPES,
    )?;
    check_rows(
        alloc,
        |alloc, text| visited_path(alloc, &replace, text),
        PATHS,
    )
}

/// The generics of a definition, with `Self` replaced.
fn own_generics(alloc: Global, ast: &DeriveInput) -> Result<Generics, AllocError>
    requires { HasReadParts ast.now }
{
    let replace = ReplaceSelf::new(alloc, ast)?;
    replace.visit_generics(alloc, &ast.generics)
}

/// The texts of parameters and of predicates.
fn generics_text(alloc: Global, generics: &Generics) -> Result<String, AllocError> {
    let params = texts(alloc, generics.params.as_slice())?;
    let predicates = texts(alloc, generics.predicates.as_slice())?;
    format!(in alloc; "<{params} > where{predicates}")
}

/// The texts of the parameters and of the predicates of the struct `S` whose generics a text is.
fn visited_generics(alloc: Global, text: &str) -> Result<String, Fail> {
    let source = format!(in alloc; "struct S {text};")?;
    let ast = read_definition(alloc, &source)?;
    let visited = own_generics(alloc, &ast);
    drop(ast);
    let visited = visited?;
    let found = generics_text(alloc, &visited);
    drop(visited);
    Ok(found?)
}

static GENERICS: &str = r#"
where Self: A<Self>, u8: B
: < > where S : A < S >, u8 : B,

<'a, T: A<Self> = Self, const N: usize = 1> where Self: B<'a>, Self::C: D<T>
: < 'a, T : A < S :: < 'a , T , N > >, const N : usize, > where S :: < 'a , T , N > : B < 'a >, S :: < 'a , T , N > :: C : D < T >,
"#;

#[test]
fn self_is_replaced_in_generics(rt: HostRuntime) -> Result<(), Fail> {
    check_rows(rt.alloc(), visited_generics, GENERICS)
}

/// The field, which has this method.
fn marked<'a>(field: &'a Field, method: &'a ExprPath) -> Ranked<'a, 'a>
    requires field { IsReadField field.now }
    requires method { IsReadPath method.now }
    ensures { MayMark (kept_of result) }
{
    Ranked {
        field,
        place: 0,
        rank: 0,
        rank_span: Span::NONE,
        reverse: false,
        how: How::ByMethod(method),
    }
}

/// The markers of the first two fields, which have these methods.
fn markers(
    alloc: Global,
    ast: &DeriveInput,
    first: &ExprPath,
    second: &ExprPath,
) -> Result<String, Fail>
    requires parts { HasReadParts ast.now }
    requires first { IsReadPath first.now }
    requires second { IsReadPath second.now }
{
    let fields = [
        marked(field_at(ast, 0)?, first),
        marked(field_at(ast, 1)?, second),
    ];
    let names = MarkerNames {
        function: Ident::from_name(alloc, "f")?,
        value: Ident::from_name(alloc, "v")?,
        formatter: None,
    };
    let items = method_markers(alloc, Trait::Clone, ast, &names, &ast.generics, &fields);
    drop(names);
    Ok(spelled(alloc, items?)?)
}

/// The markers of the first two fields of the struct that a text is, by the methods that texts are.
fn read_markers(alloc: Global, source: &str, first: &str, second: &str) -> Result<String, Fail> {
    let ast = read_definition(alloc, source)?;
    let first = read_path(alloc, first)?;
    let second = read_path(alloc, second)?;
    let text = markers(alloc, &ast, &first, &second);
    drop(second);
    drop(first);
    drop(ast);
    text
}

#[test]
fn each_method_has_a_marker(rt: HostRuntime) -> Result<(), Fail> {
    let found = read_markers(
        rt.alloc(),
        "struct S<T>(Option<Self>, T);",
        "Self::g",
        "own::h",
    )?;
    check_text(
        found,
        "const _ : ( ) = { fn f < T > ( v : & Option < S :: < T > > , ) -> Option < S :: < T > > { S :: < T > :: g ( v ) } } ;\n\
         const _ : ( ) = { fn f < T > ( v : & T , ) -> T { own :: h ( v ) } } ;\n",
    )
}
