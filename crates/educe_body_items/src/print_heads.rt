//! The tokens of what stands before the blocks of functions.
ghost use Rattle.std.specs.Prelude.{◌≡◌, ◌++◌, IsTrue, OnOk, codes};
ghost use Rattle.std.specs.List.{list_all};
ghost use Rattle.std.specs.Char.{is_ascii};
ghost use Rattle.educe_tokens.specs.Quote.{is_template, quoted};
ghost use Rattle.educe_tokens.specs.Appends.{Appends, HasPrefix};
ghost use Rattle.educe_body_items.specs.Heads as spec;
ghost use Rattle.educe_body_forms.specs.Printouts.{Prints};

use crate::items::Function;
use educe_body_forms::{Names, PrintedName, push_fmt_head};
use educe_bound_traits::Trait;
use educe_tokens::{TokenStream, Word, push_word, quote};
use std::alloc::{AllocError, Global};

/// What stands before the block of a trait's function.
#[derive(Clone, Copy)]
enum Head {
    /// The head of `PartialEq::eq`.
    Eq,
    /// The head of `PartialOrd::partial_cmp`.
    PartialCmp,
    /// The head of `Ord::cmp`.
    Cmp,
    /// The head of `Hash::hash`.
    Hash,
    /// The head of `Default::default`.
    Default,
    /// The head of `Clone::clone`.
    Clone,
    /// The head of `Clone::clone_from`.
    CloneFrom,
    /// The head of `Debug::fmt`.
    Fmt,
}

/// This head, if the name is this.
fn if_named(name: &Word, text: &str, head: Head) -> Option<Head>
    requires { IsTrue (list_all is_ascii text.now) }
    ensures { result ≡ spec.if_named name.now.text text.now head }
{
    if name.text.spells(text) {
        Some(head)
    } else {
        None
    }
}

/// The head of a trait's function of a name; of a name that the trait does not have there is none.
fn head_of(which: Trait, name: &Word) -> Option<Head>
    ensures { result ≡ spec.head_of which name.now.text }
{
    match which {
        Trait::PartialEq => if_named(name, "eq", Head::Eq),
        Trait::PartialOrd => if_named(name, "partial_cmp", Head::PartialCmp),
        Trait::Ord => if_named(name, "cmp", Head::Cmp),
        Trait::Hash => if_named(name, "hash", Head::Hash),
        Trait::Default => if_named(name, "default", Head::Default),
        Trait::Clone => match if_named(name, "clone", Head::Clone) {
            Some(head) => Some(head),
            None => if_named(name, "clone_from", Head::CloneFrom),
        },
        Trait::Debug => if_named(name, "fmt", Head::Fmt),
        Trait::Copy | Trait::Eq => None,
    }
}

/// Appends what stands before the block of a function of a trait.
pub(crate) fn push_function_head(
    alloc: Global,
    tokens: &mut TokenStream,
    which: Trait,
    function: &Function,
) -> Result<(), AllocError>
    ensures ok { OnOk result (Prints (spec.function_head which function.now) tokens.old tokens.new) }
    ensures prefix { HasPrefix tokens.old tokens.new }
{
    match head_of(which, &function.name) {
        Some(head) => push_own_head(alloc, tokens, head, &function.body.params),
        None => push_other_head(alloc, tokens, &function.name),
    }
}

/// Appends a head with the names of parameters.
fn push_own_head(
    alloc: Global,
    tokens: &mut TokenStream,
    head: Head,
    params: &Names,
) -> Result<(), AllocError>
    ensures ok { OnOk result (Prints (spec.own_head head params.now) tokens.old tokens.new) }
    ensures prefix { HasPrefix tokens.old tokens.new }
{
    match head {
        Head::Eq => {
            let result = "-> :: core :: primitive :: bool";
            push_comparing_head(alloc, tokens, "fn eq", params, ": & Self", result)
        }
        Head::PartialCmp => {
            let result = "-> :: core :: option :: Option < :: core :: cmp :: Ordering >";
            push_comparing_head(
                alloc,
                tokens,
                "fn partial_cmp",
                params,
                ": & Self ,",
                result,
            )
        }
        Head::Cmp => {
            let result = "-> :: core :: cmp :: Ordering";
            push_comparing_head(alloc, tokens, "fn cmp", params, ": & Self", result)
        }
        Head::Hash => push_hash_head(alloc, tokens, params),
        Head::Default => quote(alloc, tokens, "fn default ( ) -> Self"),
        Head::Clone => quote(alloc, tokens, "fn clone ( & self ) -> Self"),
        Head::CloneFrom => push_clone_from_head(alloc, tokens, params),
        Head::Fmt => push_fmt_head(
            alloc,
            tokens,
            &NameAt {
                names: params,
                index: 0,
            },
        ),
    }
}

/// Appends the head of a function that compares: the words before its parameters, `self` and
/// another of this type, and the words behind.
fn push_comparing_head(
    alloc: Global,
    tokens: &mut TokenStream,
    front: &'static str,
    params: &Names,
    other: &'static str,
    behind: &'static str,
) -> Result<(), AllocError>
    requires front { IsTrue (is_template front.now) }
    requires other { IsTrue (is_template other.now) }
    requires behind { IsTrue (is_template behind.now) }
    ensures ok { let inside = quoted (codes "& self ,") ++ (spec.name_at 0 params.now).tokens ++ quoted other.now in
        let found = quoted front.now ++ (quoted (codes "(") ++ inside ++ quoted (codes ")")) ++ quoted behind.now in
        OnOk result (Appends found tokens.old tokens.new) }
    ensures prefix { HasPrefix tokens.old tokens.new }
{
    quote(alloc, tokens, front)?;
    push_parameters(alloc, tokens, "& self ,", params, other)?;
    quote(alloc, tokens, behind)
}

/// Appends parameters in round brackets: `self` as this template writes it, and another whose type
/// the other template writes.
fn push_parameters(
    alloc: Global,
    tokens: &mut TokenStream,
    own: &'static str,
    params: &Names,
    other: &'static str,
) -> Result<(), AllocError>
    requires own { IsTrue (is_template own.now) }
    requires other { IsTrue (is_template other.now) }
    ensures ok { let inside = quoted own.now ++ (spec.name_at 0 params.now).tokens ++ quoted other.now in
        let found = quoted (codes "(") ++ inside ++ quoted (codes ")") in
        OnOk result (Appends found tokens.old tokens.new) }
    ensures prefix { HasPrefix tokens.old tokens.new }
{
    quote(alloc, tokens, "(")?;
    quote(alloc, tokens, own)?;
    push_name(alloc, tokens, params, 0)?;
    quote(alloc, tokens, other)?;
    quote(alloc, tokens, ")")
}

/// Appends the head of `hash`.
fn push_hash_head(alloc: Global, tokens: &mut TokenStream, params: &Names) -> Result<(), AllocError>
    ensures ok { OnOk result (Prints (spec.hash_head params.now) tokens.old tokens.new) }
    ensures prefix { HasPrefix tokens.old tokens.new }
{
    quote(alloc, tokens, "fn hash")?;
    push_hasher(alloc, tokens, params)?;
    quote(alloc, tokens, "(")?;
    push_hash_parameters(alloc, tokens, params)?;
    quote(alloc, tokens, ")")
}

/// Appends the declaration of a hasher's type in angle brackets.
fn push_hasher(alloc: Global, tokens: &mut TokenStream, params: &Names) -> Result<(), AllocError>
    ensures ok { OnOk result (Prints (spec.hasher_printout params.now) tokens.old tokens.new) }
    ensures prefix { HasPrefix tokens.old tokens.new }
{
    quote(alloc, tokens, "<")?;
    push_name(alloc, tokens, params, 1)?;
    quote(alloc, tokens, ": :: core :: hash :: Hasher")?;
    quote(alloc, tokens, ">")
}

/// Appends the parameters of `hash`: `self`, and a hasher.
fn push_hash_parameters(
    alloc: Global,
    tokens: &mut TokenStream,
    params: &Names,
) -> Result<(), AllocError>
    ensures ok { OnOk result (Prints (spec.hash_parameters params.now) tokens.old tokens.new) }
    ensures prefix { HasPrefix tokens.old tokens.new }
{
    quote(alloc, tokens, "& self ,")?;
    push_name(alloc, tokens, params, 0)?;
    quote(alloc, tokens, ": & mut")?;
    push_name(alloc, tokens, params, 1)
}

/// Appends the head of `clone_from`.
fn push_clone_from_head(
    alloc: Global,
    tokens: &mut TokenStream,
    params: &Names,
) -> Result<(), AllocError>
    ensures ok { OnOk result (Prints (spec.clone_from_head params.now) tokens.old tokens.new) }
    ensures prefix { HasPrefix tokens.old tokens.new }
{
    quote(alloc, tokens, "fn clone_from")?;
    push_parameters(alloc, tokens, "& mut self ,", params, ": & Self")
}

/// Appends the head of a function that the trait does not have.
fn push_other_head(alloc: Global, tokens: &mut TokenStream, name: &Word) -> Result<(), AllocError>
    ensures ok { OnOk result (Prints (spec.other_head name.now) tokens.old tokens.new) }
    ensures prefix { HasPrefix tokens.old tokens.new }
{
    quote(alloc, tokens, "fn")?;
    push_word(alloc, tokens, name)?;
    quote(alloc, tokens, "( )")
}

/// The name at an index, if there is one.
#[derive(Clone, Copy)]
pub(crate) struct NameAt<'a> {
    pub(crate) names: &'a Names,
    pub(crate) index: usize,
}

impl PrintedName for NameAt<'_> {
    ghost use Rattle.educe_body_items.specs.Heads.{name_at};

    ghost printed = { λ at. name_at at.index at.names.now };

    fn push_name(&self, alloc: Global, tokens: &mut TokenStream) -> Result<(), AllocError> {
        push_name(alloc, tokens, self.names, self.index)
    }
}

/// Appends the name at an index, if there is one.
pub(crate) fn push_name(
    alloc: Global,
    tokens: &mut TokenStream,
    names: &Names,
    index: usize,
) -> Result<(), AllocError>
    ensures ok { OnOk result (Prints (spec.name_at index names.now) tokens.old tokens.new) }
    ensures prefix { HasPrefix tokens.old tokens.new }
{
    match names.get(index) {
        Some(name) => push_word(alloc, tokens, name),
        None => Ok(()),
    }
}
