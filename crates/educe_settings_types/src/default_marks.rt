//! The marks of variants, and which variant is chosen by them.
ghost use Rattle.std.specs.Prelude.{◌≡◌, ◌<◌, true, IsSome, if◌then◌else◌, length, map, [], IfOk, IfErr};
ghost use Rattle.educe_syntax.specs.Few as few;
ghost use Rattle.educe_attrs.specs.Causes.{OfStop};
ghost use Rattle.educe_attrs.specs.Phases.{OfHandler};
ghost use Rattle.educe_bound_traits.specs.declared.traits.Trait.TheVariants as derived;
ghost use Rattle.educe_settings.specs.Defaults as spec;
ghost use Rattle.educe_settings.specs.Handled.{handling};
ghost use Rattle.educe_settings_types.specs.Defaults.{IsTyped, AreMarksRead, places_from, found_only, AreTwice, IsOnly, IsNone};

use crate::default_rows::mark_row;
use educe_attrs::{Stop, Values, place_settings};
use educe_bound::Trait;
use educe_settings::Task;
use educe_syntax::Variant;
use educe_tokens::{EduceError, Kind, Seq, Span};
use std::alloc::Global;

/// What the attributes of each variant say of `Default`, in their order, by whether the type has no
/// value of its own. It is rejected exactly where the attributes of one have a cause, or memory fails.
pub fn marks_of(
    alloc: Global,
    task: Task<'_, '_>,
    bare: bool,
    variants: &[Variant],
) -> Result<Seq<Values>, Stop>
    requires typed { IsTyped task.ast.now task.listed.now bare }
    requires variants { variants.now ≡ few.variants_of task.ast.now }
    ensures marks { IfOk result (λ marks. marks ≡ map (spec.mark_values task.entry.ast.now) variants.now) }
    ensures uncaused { IfOk result (λ _. AreMarksRead task.entry.ast.now variants.now) }
    ensures err { IfErr result (λ s. OfStop (OfHandler (handling task.entry.ast.now) derived.Default) s) }
{
    let row = mark_row(bare);
    let mut marks = Seq::new(alloc);
    for variant in variants {
        marks.push(place_settings(
            alloc,
            Trait::Default,
            &row,
            task.listed,
            variant.attrs.as_slice(),
        )?)?;
    }
    Ok(marks)
}

/// The place of the only mark so far, where this one is next; a second mark is rejected where it stands.
fn next_mark(found: Option<usize>, place: usize, mark: &Values) -> Result<Option<usize>, Span>
    ensures next { IfOk result (λ next. next ≡ (if mark.now.flag then Some place else found)) }
    ensures only { IfOk result (λ _. mark.now.flag ≡ true → found ≡ None) }
    ensures flag { IfErr result (λ _. mark.now.flag ≡ true) }
    ensures again { IfErr result (λ _. IsSome found) }
    ensures span { IfErr result (λ span. span ≡ mark.now.span) }
{
    if !mark.flag {
        return Ok(found);
    }
    match found {
        None => Ok(Some(place)),
        Some(_) => Err(mark.span),
    }
}

/// The place of the only one that is a mark, if one is; a second mark is rejected where it stands.
fn only_mark(marks: &[Values]) -> Result<Option<usize>, Span>
    ensures ok { IfOk result (λ found. places_from 0 marks.now ≡ found_only found) }
    ensures err { IfErr result (AreTwice marks.now) }
{
    let mut found = None;
    for (place, mark) in marks.iter().enumerate() {
        found = next_mark(found, place, mark)?;
    }
    Ok(found)
}

/// The rejection for this, at this place.
fn refused(alloc: Global, kind: Kind, span: Span) -> Stop
    ensures { result ≡ Stop.Refused (record { kind = kind; span = span; words = [] }) }
{
    Stop::Refused(EduceError::new(alloc, kind, span))
}

/// The place of the only variant, or of the one that is marked, by what their attributes say. It is
/// rejected exactly where there is none, at a second mark or at the attribute of the type.
pub fn chosen_place(alloc: Global, marks: &[Values], own: Span) -> Result<usize, Stop>
    ensures ok { IfOk result (IsOnly marks.now) }
    ensures within { IfOk result (λ place. place < length marks.now) }
    ensures err { IfErr result (λ s. OfStop (IsNone marks.now own) s) }
{
    if marks.len() == 1 {
        return Ok(0);
    }
    match only_mark(marks) {
        Ok(Some(place)) => Ok(place),
        Ok(None) => Err(refused(alloc, Kind::NoDefaultVariant, own)),
        Err(span) => Err(refused(alloc, Kind::MultipleDefaultVariants, span)),
    }
}
