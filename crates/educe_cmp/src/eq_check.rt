//! The check that the types of fields implement `Eq`.
ghost use Rattle.std.specs.Prelude.{IfOk, IfSome};
ghost use Rattle.std.specs.List.{AllByRecursion, AllZip};
ghost use Rattle.std.specs.Option.{option_copied};
ghost use Rattle.educe_body.specs.Held.{AreWordsOf};
ghost use Rattle.educe_syntax.specs.Readings.{AreNamed, AreReadGenerics, IsReadType};
ghost use Rattle.educe_syntax_self.specs.Visits.{IsVisitedType};
ghost use Rattle.educe_settings.specs.EveryType.{behind};
ghost use Rattle.educe_meaning.specs.Arms.{AreChosenFor};
ghost use Rattle.educe_meaning.specs.Checks as spec;

use educe_body::{CheckItem, InputWords, Names};
use educe_handlers::{lint_attributes, select, used_idents};
use educe_syntax::{DeriveInput, Generics, Ty, Types};
use educe_syntax_self::ReplaceSelf;
use educe_tokens::{Seq, Word};
use std::alloc::{AllocError, Global};

/// The names that a check declares: its function, the inner one, and the parameter of that.
fn names(alloc: Global, ast: &DeriveInput, words: Option<&InputWords>) -> Result<Names, AllocError>
    requires words { IfSome (option_copied words) (AreWordsOf ast.now.tokens) }
    ensures { IfOk result (λ names. AreChosenFor ast.now spec.plain_names (spec.texts_of names)) }
{
    let mut used = used_idents(alloc, ast, words)?;
    let outer = select(alloc, &mut used, "__educe_eq_fields")?;
    let inner = select(alloc, &mut used, "__educe_assert_eq")?;
    let parameter = select(alloc, &mut used, "T")?;
    let mut names = Seq::new(alloc);
    names.push(Word::new(outer.text))?;
    names.push(Word::new(inner.text))?;
    names.push(Word::new(parameter.text))?;
    Ok(names)
}

/// The types, each with the name of the definition in place of each `Self` that a path begins with.
fn replaced_types(
    alloc: Global,
    replace: &ReplaceSelf,
    types: &Vec<&Ty>,
) -> Result<Types, AllocError>
    requires { AllByRecursion IsReadType (behind types.now.items) }
    ensures { IfOk result (AllZip (IsVisitedType replace.now.head) (behind types.now.items)) }
{
    let mut found = Seq::new(alloc);
    for own in types {
        found.push(replace.visit_type(alloc, *own)?)?;
    }
    Ok(found)
}

/// The check of these types of a definition, with these generics.
pub fn check_item(
    alloc: Global,
    ast: &DeriveInput,
    generics: &Generics,
    types: &Vec<&Ty>,
    words: Option<&InputWords>,
) -> Result<CheckItem, AllocError>
    requires words { IfSome (option_copied words) (AreWordsOf ast.now.tokens) }
    requires named { AreNamed ast.now }
    requires generics { AreReadGenerics generics.now }
    requires types { AllByRecursion IsReadType (behind types.now.items) }
    ensures { IfOk result (spec.IsCheck ast.now generics.now (behind types.now.items)) }
{
    let replace = ReplaceSelf::new(alloc, ast)?;
    Ok(CheckItem {
        attributes: lint_attributes(alloc, ast)?,
        generics: replace.visit_generics(alloc, generics)?,
        types: replaced_types(alloc, &replace, types)?,
        names: names(alloc, ast, words)?,
    })
}
