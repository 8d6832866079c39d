//! Names that generated functions declare.
ghost use Rattle.std.specs.Prelude.{◌≡◌, [], ◌∷◌, ◌++◌, IsTrue, IfOk, IfSome};
ghost use Rattle.std.specs.Option.{option_copied};
ghost use Rattle.educe_tokens.specs.Appends.{no_place};
ghost use Rattle.educe_tokens.specs.Quote.{is_ascii_name};
ghost use Rattle.educe_tokens.specs.Spells.{IsWord};
ghost use Rattle.educe_body.specs.Chosen.{IsChosen, IsPrefix};
ghost use Rattle.educe_body.specs.Held.{AreWordsOf};
ghost use Rattle.educe_meaning.specs.Blocks.{IsParameter};

use educe_body::{InputWords, UsedIdents, has_word};
use educe_syntax::{DeriveInput, Ident};
use educe_tokens::Spelling;
use std::alloc::{AllocError, Global};

/// The words that generated code for a definition may not declare: those that are lent, or where none
/// are, those of its tokens, which are then gathered.
pub fn used_idents(
    alloc: Global,
    ast: &DeriveInput,
    words: Option<&InputWords>,
) -> Result<UsedIdents, AllocError>
    requires { IfSome (option_copied words) (AreWordsOf ast.now.tokens) }
    ensures { IfOk result (λ used. AreWordsOf ast.now.tokens used) }
{
    match words {
        Some(words) => UsedIdents::over(alloc, words),
        None => UsedIdents::new(alloc, ast.tokens.as_slice()),
    }
}

/// An identifier that is not held, at no place: the ASCII name behind as many `_` as that takes. It is
/// held from then on.
pub fn select(alloc: Global, used: &mut UsedIdents, name: &str) -> Result<Ident, AllocError>
    requires { IsTrue (is_ascii_name name.now) }
    ensures chosen { IfOk result (λ ident. IsChosen used.old name.now ident.text) }
    ensures nowhere { IfOk result (λ ident. ident.span ≡ no_place) }
    ensures held { IfOk result (λ ident. used.new ≡ used.old ++ ident.text ∷ []) }
{
    used.select(alloc, name)
}

/// A word with which nothing that is held begins: the ASCII name behind as many `_` as that takes.
pub fn select_prefix(alloc: Global, used: &UsedIdents, name: &str) -> Result<Spelling, AllocError>
    requires { IsTrue (is_ascii_name name.now) }
    ensures chosen { IfOk result (λ prefix. IsPrefix used.now name.now prefix) }
    ensures word { IfOk result (λ prefix. IsWord prefix) }
{
    let prefix = used.select_prefix(alloc, name)?;
    Spelling::from_str(alloc, &prefix)
}

/// The name of a parameter, where no words are lent. Most inputs do not have the word, and then no list
/// of words is made.
fn sought_parameter(alloc: Global, ast: &DeriveInput, name: &str) -> Result<Ident, AllocError>
    requires { IsTrue (is_ascii_name name.now) }
    ensures chosen { IfOk result (λ ident. IsParameter ast.now name.now ident.text) }
    ensures nowhere { IfOk result (λ ident. ident.span ≡ no_place) }
{
    let tokens = ast.tokens.as_slice();
    if !has_word(alloc, tokens, name)? {
        return Ident::from_name(alloc, name);
    }
    let mut used = UsedIdents::new(alloc, tokens)?;
    select(alloc, &mut used, name)
}

/// The name of a parameter apart from these words of the input.
fn lent_parameter(
    alloc: Global,
    ast: &DeriveInput,
    words: &InputWords,
    name: &str,
) -> Result<Ident, AllocError>
    requires name { IsTrue (is_ascii_name name.now) }
    requires words { AreWordsOf ast.now.tokens words.now }
    ensures chosen { IfOk result (λ ident. IsParameter ast.now name.now ident.text) }
    ensures nowhere { IfOk result (λ ident. ident.span ≡ no_place) }
{
    let mut used = UsedIdents::over(alloc, words)?;
    select(alloc, &mut used, name)
}

/// The name of the parameter of a function that declares no other name: the ASCII name behind as many
/// `_` as it takes to be no word of the input.
pub fn parameter(
    alloc: Global,
    ast: &DeriveInput,
    words: Option<&InputWords>,
    name: &str,
) -> Result<Ident, AllocError>
    requires name { IsTrue (is_ascii_name name.now) }
    requires words { IfSome (option_copied words) (AreWordsOf ast.now.tokens) }
    ensures chosen { IfOk result (λ ident. IsParameter ast.now name.now ident.text) }
    ensures nowhere { IfOk result (λ ident. ident.span ≡ no_place) }
{
    match words {
        Some(words) => lent_parameter(alloc, ast, words, name),
        None => sought_parameter(alloc, ast, name),
    }
}
