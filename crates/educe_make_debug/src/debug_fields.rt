//! The fields that are shown: those of a case, and those of all cases.
ghost use Rattle.std.specs.Prelude.{◌≡◌, map, IfOk};
ghost use Rattle.std.specs.List.{flat_map};
ghost use Rattle.educe_settings.specs.Ranked.{kept_of};
ghost use Rattle.educe_make_debug.specs.Cases.{kept_in};

use crate::debug_shown::Case;
use educe_make_markers::add_case;
use educe_settings::{Ranked, kept_fields};
use std::alloc::{AllocError, Global};

/// The fields of a case that are shown, in written order.
pub fn shown_fields<'d, 'c>(
    alloc: Global,
    case: &'c Case<'d>,
) -> Result<Vec<Ranked<'d, 'c>>, AllocError>
    ensures { IfOk result (λ kept. map kept_of kept.items ≡ kept_in case.now) }
{
    kept_fields(alloc, case.fields, case.settings.as_slice())
}

/// The fields of all cases that are shown, one case behind the other, in written order.
pub fn all_shown<'d, 'c>(
    alloc: Global,
    cases: &'c [Case<'d>],
) -> Result<Vec<Ranked<'d, 'c>>, AllocError>
    ensures { IfOk result (λ kept. map kept_of kept.items ≡ flat_map kept_in cases.now) }
{
    let mut all = Vec::new(alloc);
    for case in cases {
        add_case(alloc, case.fields, case.settings.as_slice(), &mut all)?;
    }
    Ok(all)
}
