//! Of `educe_tree`: that copies and prints succeed, and that the words of the contracts mean what they
//! are to mean.

use crate::answers::{Asked, check};
use crate::common::{copied, lines, told};
use crate::parser::calls::{metas, path};
use educe_syntax::{
    DeriveInput, Duplicate, GenericParam, Generics, Lifetime, Meta, MetaPath, Shape, Ty, TypeForm,
    is_name, path_to_string, text_of_tree, unraw,
};
use educe_tests::{check_equal, check_text, definition, first, lexed, printed};
use educe_tokens::{Span, Spelling};
use std::alloc::{AllocError, Global};
use std::test::Fail;

/// The type of the first field of a struct.
fn first_type(ast: &DeriveInput) -> Result<&Ty, Fail> {
    match &ast.shape {
        Shape::Struct(shape) => Ok(&first(&shape.fields)?.ty),
        Shape::Enum(_) => Err(Fail::from("no struct")),
    }
}

/// What the form of a type is called.
fn form_name(form: &TypeForm) -> &'static str {
    match form {
        TypeForm::Reference(true, _) => "Reference(true, _)",
        TypeForm::FnPtr(_, Some(_)) => "FnPtr(_, Some(_))",
        TypeForm::TraitObject(_) => "TraitObject(_)",
        _ => "another",
    }
}

/// The copy of the type of the first field.
fn copied_first(alloc: Global, ast: &DeriveInput) -> Result<Ty, Fail> {
    Ok(first_type(ast)?.duplicate(alloc)?)
}

/// The copy of the type of the first field in a text.
fn copied_type(alloc: Global, text: &str) -> Result<Ty, Fail> {
    let ast = definition(alloc, text)?;
    let copy = copied_first(alloc, &ast);
    told(ast, copy)
}

/// What the form of the copy is called.
pub(crate) fn form_of_copy(alloc: Global, text: &str) -> Result<String, Fail> {
    let copy = copied_type(alloc, text)?;
    let name = form_name(&copy.form);
    Ok(String::from_str(alloc, told(copy, name))?)
}

/// The text of the copy.
pub(crate) fn text_of_copy(alloc: Global, text: &str) -> Result<String, Fail> {
    Ok(printed(alloc, copied_type(alloc, text)?)?)
}

/// Whether a text is a name.
pub(crate) fn is_name_text(alloc: Global, text: &str) -> Result<String, Fail> {
    let tokens = lexed(alloc, text)?;
    Ok(is_name(first(&tokens)?).to_string(alloc)?)
}

/// A text without the mark.
pub(crate) fn unmarked(alloc: Global, text: &str) -> Result<String, Fail> {
    let text = Spelling::from_str(alloc, text)?;
    Ok(String::from_str(alloc, unraw(&text))?)
}

/// The name of a definition, without the mark.
pub(crate) fn unmarked_name(alloc: Global, text: &str) -> Result<String, Fail> {
    let ast = definition(alloc, text)?;
    let name: Result<String, AllocError> = String::from_str(alloc, ast.ident.unraw());
    Ok(told(ast, name)?)
}

static FORMS: &str = r#"
struct S(&mut A);
: Reference(true, _)

struct S(fn(A) -> A);
: FnPtr(_, Some(_))

struct S(dyn X<1>);
struct S(dyn F(A) -> B);
: TraitObject(_)

struct S((A));
struct S((A, B));
struct S(!);
struct S(*const A);
struct S([A]);
struct S([A; 1]);
struct S(<A as B>::C);
struct S(A<'a, B, C = D, 1>);
: another
"#;

static COPIES: &str = r#"
struct S(dyn X<1>);
: dyn X < 1 >
"#;

static WORDS: &str = r#"
a
r#fn
union
gen
_a
: true

dyn
Self
_
'a
1
: false
"#;

static MARKED: &str = r#"
r#fn
fn
: fn

r
: r

∅
: ∅
"#;

static MARKED_NAMES: &str = r#"
struct r#fn;
: fn

struct r_a;
: r_a
"#;

#[test]
fn copies_types_and_tells_names(rt: HostRuntime) -> Result<(), Fail> {
    check(rt.alloc(), Asked::FormOfCopy, FORMS)?;
    check(rt.alloc(), Asked::TextOfCopy, COPIES)?;
    check(rt.alloc(), Asked::IsName, WORDS)?;
    check(rt.alloc(), Asked::Unraw, MARKED)?;
    check(rt.alloc(), Asked::NameUnraw, MARKED_NAMES)
}

/// The path that the first attribute of a definition is.
fn first_path(ast: &DeriveInput) -> Result<&MetaPath, Fail> {
    match &first(&ast.attrs)?.meta {
        Meta::Word(path) => Ok(path),
        _ => Err(Fail::from("no path")),
    }
}

/// The copy of the path of the first attribute.
fn copied_path(alloc: Global, ast: &DeriveInput) -> Result<MetaPath, Fail> {
    Ok(first_path(ast)?.duplicate(alloc)?)
}

/// The copy of the path of the first attribute in a text.
fn copied_attribute(alloc: Global, text: &str) -> Result<MetaPath, Fail> {
    let ast = definition(alloc, text)?;
    let copy = copied_path(alloc, &ast);
    told(ast, copy)
}

/// The path is the word `a` or not, and is written so, without and with blanks.
fn check_path(
    alloc: Global,
    path: &MetaPath,
    is_word: bool,
    texts: (&str, &str),
) -> Result<(), Fail> {
    let found = (
        path.is_ident("a"),
        path.is_ident("b"),
        path.get_ident().is_some(),
    );
    check_equal(found, (is_word, false, is_word))?;
    check_text(path_to_string(alloc, path)?, texts.0)?;
    check_text(text_of_tree(alloc, path)?, texts.1)
}

#[test]
fn tells_one_word_from_a_long_path(rt: HostRuntime) -> Result<(), Fail> {
    let alloc = rt.alloc();
    let word = copied_attribute(alloc, "#[a] struct S;")?;
    let checked = check_path(alloc, &word, true, ("a", "a"));
    told(word, checked)?;
    let long = copied_attribute(alloc, "#[::a::b] struct S;")?;
    let checked = check_path(alloc, &long, false, ("::a::b", ":: a :: b"));
    told(long, checked)
}

/// The copy of the definition in a text.
fn copied_definition(alloc: Global, text: &str) -> Result<DeriveInput, Fail> {
    Ok(copied(alloc, definition(alloc, text)?)?)
}

/// The lifetime that is the first parameter.
fn first_lifetime(generics: &Generics) -> Result<&Lifetime, Fail> {
    match first(&generics.params)? {
        GenericParam::Lifetime(param) => Ok(&param.lifetime),
        _ => Err(Fail::from("no lifetime")),
    }
}

/// The first lifetime is printed.
fn check_lifetime(alloc: Global, generics: &Generics) -> Result<(), Fail> {
    let lifetime = first_lifetime(generics)?;
    check_text(text_of_tree(alloc, lifetime)?, "'b")?;
    check_equal(lifetime.span, Span { start: 9, end: 11 })
}

/// The parameters and the predicates are printed.
fn check_generics(alloc: Global, generics: &Generics) -> Result<(), Fail> {
    let params = lines(alloc, generics.params.as_slice())?;
    check_text(params, "'b : 'c\nT : D\nconst N : E")?;
    let predicates = lines(alloc, generics.predicates.as_slice())?;
    check_text(predicates, "T : B")?;
    check_lifetime(alloc, generics)
}

#[test]
fn prints_parameters(rt: HostRuntime) -> Result<(), Fail> {
    let alloc = rt.alloc();
    let copy = copied_definition(alloc, "struct S<'b: 'c, T: D, const N: E> where T: B;")?;
    let checked = check_generics(alloc, &copy.generics);
    told(copy, checked)
}

/// The metas are one name with a value.
fn check_value(alloc: Global, metas: &[Meta]) -> Result<(), Fail> {
    let [Meta::NameValue(path, value, span)] = metas else {
        return Err(Fail::from("no value"));
    };
    check_text(text_of_tree(alloc, path)?, "a")?;
    check_text(text_of_tree(alloc, value)?, "1 + 2")?;
    check_equal(*span, Span { start: 0, end: 9 })
}

/// The name of the first field of the first variant.
fn first_name(ast: &DeriveInput) -> Option<&str> {
    let Shape::Enum(variants) = &ast.shape else {
        return None;
    };
    let variant = variants.get(0)?;
    let field = variant.fields.fields.get(0)?;
    Some(field.name())
}

/// The definition and the first field of its first variant have these names.
fn check_names(ast: &DeriveInput) -> Result<(), Fail> {
    check_equal((ast.ident.text.as_str(), first_name(ast)), ("E", Some("x")))
}

#[test]
fn copies_metas_paths_and_definitions(rt: HostRuntime) -> Result<(), Fail> {
    let alloc = rt.alloc();
    let copies = copied(alloc, metas(alloc, "a = 1 + 2")?)?;
    let checked = check_value(alloc, copies.as_slice());
    told(copies, checked)?;
    let copy = copied(alloc, path(alloc, "<T as A>::b")?)?;
    check_text(printed(alloc, copy)?, "< T as A >:: b")?;
    let copy = copied_definition(
        alloc,
        "/// A\n#[a] #[b(c)] #[a = ::a::b] enum E<'a, T, const N: A> where T: A { V { x: T } = 1 }",
    )?;
    let checked = check_names(&copy);
    told(copy, checked)
}
