//! The names that are needed: where neither a name nor a field of a case is shown, it is rejected.
ghost use Rattle.std.specs.Prelude.{◌≡◌, true, IfOk, IfErr};
ghost use Rattle.std.specs.List.{list_any};
ghost use Rattle.educe_attrs.specs.Causes.{OfStop};
ghost use Rattle.educe_attrs.specs.Phases.{OfHandler};
ghost use Rattle.educe_bound_traits.specs.declared.traits.Trait.TheVariants.{Debug};
ghost use Rattle.educe_settings.specs.Handled.{handling};
ghost use Rattle.educe_settings.specs.Settings.{keeps};
ghost use Rattle.educe_settings.specs.Shown.{name_needed};
ghost use Rattle.educe_make_debug.specs.Cases.{IsShown};
ghost use Rattle.educe_make_debug.specs.Needs as spec;
ghost use Rattle.educe_settings_types.specs.Read.{IsTyped, AreRead};

use crate::debug_shown::{Case, Shown};
use crate::debug_texts::is_shown;
use educe_attrs::Stop;
use educe_settings::{Task, is_kept};
use educe_tokens::{EduceError, Kind, Span};
use std::alloc::Global;

/// Whether a field of a case is shown.
fn shows_field(case: &Case<'_>) -> bool
    ensures { result ≡ list_any keeps case.now.settings }
{
    case.settings.as_slice().iter().any(|own| is_kept(own))
}

/// Whether a name or a field of a case is shown.
fn shows(case: &Case<'_>) -> bool
    ensures { result ≡ spec.shows case.now }
{
    is_shown(&case.name) || shows_field(case)
}

/// Rejects for this kind at this place, where nothing is shown.
fn check(alloc: Global, shows: bool, kind: Kind, place: Span) -> Result<(), Stop>
    ensures ok { IfOk result (λ _. shows ≡ true) }
    ensures err { IfErr result (λ s. OfStop (spec.IsNeeded shows (name_needed kind place)) s) }
{
    if shows {
        Ok(())
    } else {
        Err(Stop::Refused(EduceError::new(alloc, kind, place)))
    }
}

/// Rejects the cases of which nothing is shown, and an enum without variants of which no name is.
pub fn check_names(alloc: Global, task: Task<'_, '_>, shown: &Shown<'_>) -> Result<(), Stop>
    requires typed { IsTyped task.ast.now task.listed.now }
    requires ast { shown.now.ast.now ≡ task.ast.now }
    requires shown { IsShown shown.now }
    requires read { AreRead task.ast.now }
    ensures ok { IfOk result (λ _. spec.AreEnough shown.now) }
    ensures err { IfErr result (λ s. OfStop (OfHandler (handling task.entry.ast.now) Debug) s) }
{
    if shown.cases.len() == 0 {
        let (kind, place) = (Kind::UnitEnumNeedName, task.ast.ident.span);
        return check(alloc, is_shown(&shown.name), kind, place);
    }
    for case in shown.cases.as_slice() {
        check(alloc, shows(case), case.need, case.place)?;
    }
    Ok(())
}
