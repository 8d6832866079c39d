//! The fields that take part, and their ranks.
ghost use Rattle.std.specs.Prelude.{◌≡◌, ◌+◌, ◌<◌, ◌⊎◌, length, map, IsTrue, Some, IfOk, IfErr, IfSome, IfNone};
ghost use Rattle.educe_attrs.specs.Causes.{NoCause, OfStop};
ghost use Rattle.educe_attrs.specs.Fields.{HaveNoCauses};
ghost use Rattle.educe_settings.specs.Ranked.{kept_of, IsNoLater};
ghost use Rattle.educe_settings.specs.declared.ranked.Ranked.{Ranked};
ghost use Rattle.educe_settings.specs.Handled.{reuse_of, IsReuse, OfCase};
ghost use Rattle.educe_settings.specs.Listed.{listed};
ghost use Rattle.educe_settings.specs.Ranks.{NeighboursDiffer, IsRepeatAt, IsEarliestRepeat};
ghost use Rattle.educe_settings.specs.Rows as rows;
ghost use Rattle.educe_settings.specs.Settings as spec;
ghost use Rattle.educe_settings.specs.Order.{IsByRank, IsInOrder};

use crate::ranked::Ranked;
use crate::rows::is_order;
use crate::settings::{how_of, is_kept, is_reversed, rank_of, rank_span};
use crate::task::Task;
use educe_attrs::{FieldSettings, Stop};
use educe_bound::Trait;
use educe_syntax::Field;
use educe_tokens::{EduceError, Kind};
use std::alloc::{AllocError, Global};

/// The fields that take part by their settings, in written order.
pub fn kept_fields<'f, 's>(
    alloc: Global,
    fields: &'f [Field],
    settings: &'s [FieldSettings],
) -> Result<Vec<Ranked<'f, 's>>, AllocError>
    requires { length settings.now ≡ length fields.now }
    ensures { IfOk result (λ kept. map kept_of kept.items ≡ spec.kept_by 0 fields.now settings.now) }
{
    let mut kept = Vec::new(alloc);
    for (place, field) in fields.iter().enumerate() {
        let own = &settings[place];
        if is_kept(own) {
            kept.push(Ranked {
                field,
                place,
                rank: rank_of(place, own),
                rank_span: rank_span(own, field.span),
                reverse: is_reversed(own),
                how: how_of(own),
            })?;
        }
    }
    Ok(kept)
}

/// Of two places, the one whose next field was written first.
fn earlier(sorted: &[Ranked<'_, '_>], found: Option<usize>, at: usize) -> usize
    requires found { IfSome found (λ other. other + 1 < length sorted.now) }
    requires at { at + 1 < length sorted.now }
    ensures one { (result ≡ at) ⊎ (found ≡ Some result) }
    ensures at { IsNoLater sorted.now result at }
    ensures found { IfSome found (IsNoLater sorted.now result) }
{
    match found {
        Some(other) if sorted[other + 1].place < sorted[at + 1].place => other,
        _ => at,
    }
}

/// A place where a field and the next one have one rank; of such places the one whose next field
/// was written first.
fn repeat_at(sorted: &[Ranked<'_, '_>]) -> Option<usize>
    ensures none { IfNone result (NeighboursDiffer (λ (f : Ranked). f.rank) sorted.now) }
    ensures some { IfSome result (IsRepeatAt (λ (f : Ranked). f.rank) sorted.now) }
    ensures earliest { IfSome result (IsEarliestRepeat (λ (f : Ranked). f.rank) (λ f. f.place) sorted.now) }
{
    let mut found = None;
    for i in 1..sorted.len() {
        if sorted[i - 1].rank == sorted[i].rank {
            found = Some(earlier(sorted, found, i - 1));
        }
    }
    found
}

/// The rejection of a field that has the rank of an earlier one.
fn reuse(alloc: Global, later: &Ranked<'_, '_>) -> EduceError
    ensures { result ≡ reuse_of later.now.rank later.now.rank_span }
{
    EduceError::new(
        alloc,
        Kind::ReuseARank { rank: later.rank },
        later.rank_span,
    )
}

/// The fields that take part in an order by their settings, the one of least rank first. Rejected where
/// two of them have one rank; of such fields the one that is written first behind another counts.
fn by_rank<'f, 's>(
    alloc: Global,
    fields: &'f [Field],
    settings: &'s [FieldSettings],
) -> Result<Vec<Ranked<'f, 's>>, Stop>
    requires { length settings.now ≡ length fields.now }
    ensures sorted { IfOk result (λ sorted.
        IsByRank (spec.kept_by 0 fields.now settings.now) (map kept_of sorted.items)) }
    ensures apart { IfOk result (λ _. spec.RanksDiffer (spec.kept_by 0 fields.now settings.now)) }
    ensures err { IfErr result (λ s. OfStop (IsReuse (spec.kept_by 0 fields.now settings.now)) s) }
{
    let mut sorted = kept_fields(alloc, fields, settings)?;
    sorted.sort_by_key(|field| field.rank)?;
    match repeat_at(&sorted) {
        Some(at) => Err(Stop::Refused(reuse(alloc, &sorted[at + 1]))),
        None => Ok(sorted),
    }
}

/// The fields that take part by their settings, in the order in which the trait goes over them.
fn ordered_fields<'f, 's>(
    alloc: Global,
    which: Trait,
    fields: &'f [Field],
    settings: &'s [FieldSettings],
) -> Result<Vec<Ranked<'f, 's>>, Stop>
    requires { length settings.now ≡ length fields.now }
    ensures in_order { IfOk result (λ found.
        IsInOrder which (spec.kept_by 0 fields.now settings.now) (map kept_of found.items)) }
    ensures apart { IfOk result (λ _.
        IsTrue (rows.is_order which) → spec.RanksDiffer (spec.kept_by 0 fields.now settings.now)) }
    ensures orders { IfErr result (λ s. OfStop (λ _. IsTrue (rows.is_order which)) s) }
    ensures err { IfErr result (λ s. OfStop (IsReuse (spec.kept_by 0 fields.now settings.now)) s) }
{
    if is_order(which) {
        by_rank(alloc, fields, settings)
    } else {
        Ok(kept_fields(alloc, fields, settings)?)
    }
}

/// The fields of a case that take part, in the order in which the trait goes over them. The settings
/// are those of the fields. Rejected exactly where two of the fields have one rank and the trait is an
/// order, or memory fails.
pub fn fields_in_order<'f, 's>(
    alloc: Global,
    task: Task<'_, '_>,
    fields: &'f [Field],
    settings: &'s [FieldSettings],
) -> Result<Vec<Ranked<'f, 's>>, Stop>
    requires settings { settings.now ≡ map (spec.settings_of task.trait_ task.ast.now) fields.now }
    requires read { HaveNoCauses task.trait_ (rows.field_row task.trait_) (listed task.ast.now) fields.now }
    ensures in_order { IfOk result (λ found.
        IsInOrder task.entry.trait_ (spec.kept_fields task.entry.trait_ task.entry.ast.now fields.now) (map kept_of found.items)) }
    ensures uncaused { IfOk result (λ _. NoCause (OfCase task.entry.trait_ task.entry.ast.now fields.now)) }
    ensures err { IfErr result (λ s. OfStop (OfCase task.entry.trait_ task.entry.ast.now fields.now) s) }
{
    ordered_fields(alloc, task.trait_, fields, settings)
}
