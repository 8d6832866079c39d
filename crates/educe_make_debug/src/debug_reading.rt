//! What the attributes of a definition say of `Debug`.
ghost use Rattle.std.specs.Prelude.{◌≡◌, IfOk, IfErr};
ghost use Rattle.educe_attrs.specs.Causes.{OfStop};
ghost use Rattle.educe_attrs.specs.Phases.{OfHandler};
ghost use Rattle.educe_bound_traits.specs.declared.traits.Trait.TheVariants.{Debug};
ghost use Rattle.educe_settings.specs.Handled.{handling};
ghost use Rattle.educe_settings.specs.Listed as listing;
ghost use Rattle.educe_settings.specs.Settings.{IsBoundOf, type_settings};
ghost use Rattle.educe_make_debug.specs.Cases.{IsShown};
ghost use Rattle.educe_settings_types.specs.Read.{IsTyped, AreRead};
ghost use Rattle.educe_make_debug.specs.Needs.{AreEnough};

use crate::debug_cases::read_shown;
use crate::debug_needs::check_names;
use crate::debug_shown::Shown;
use educe_attrs::{Stop, Values};
use educe_bound::{Bound, Trait};
use educe_settings::{Task, bound_said};
use educe_settings_types::read_type;
use educe_syntax::DeriveInput;
use std::alloc::Global;

/// How the values are shown where the type says this. It is rejected exactly where an attribute of a variant
/// or a field is wrong, a name is needed, or memory fails.
fn read_cases<'d>(
    alloc: Global,
    ast: &'d DeriveInput,
    listed: &[Trait],
    own: &Values,
) -> Result<Shown<'d>, Stop>
    requires typed { IsTyped ast.now listed.now }
    requires own { own.now ≡ type_settings Debug ast.now }
    ensures ast { IfOk result (λ shown. shown.ast.now ≡ ast.now) }
    ensures are { IfOk result (λ shown. IsShown shown) }
    ensures read { IfOk result (λ _. AreRead ast.now) }
    ensures enough { IfOk result (λ shown. AreEnough shown) }
    ensures err { IfErr result (λ s. OfStop (OfHandler (handling ast.now) Debug) s) }
{
    let trait_ = Trait::Debug;
    let task = Task {
        trait_,
        ast,
        listed,
    };
    let shown = read_shown(alloc, task, own)?;
    check_names(alloc, task, &shown)?;
    Ok(shown)
}

/// How the values of a definition are shown, and the bound that its type says. It is rejected exactly where
/// an attribute of `Debug` is wrong, a name is needed, or memory fails.
pub fn read<'d>(
    alloc: Global,
    ast: &'d DeriveInput,
    listed: &[Trait],
) -> Result<(Shown<'d>, Bound), Stop>
    requires { listed.now ≡ listing.listed ast.now }
    ensures ast { IfOk result (λ found. found.0.ast.now ≡ ast.now) }
    ensures are { IfOk result (λ found. IsShown found.0) }
    ensures bound { IfOk result (λ found. IsBoundOf Debug ast.now found.1) }
    ensures typed { IfOk result (λ _. IsTyped ast.now listed.now) }
    ensures read { IfOk result (λ _. AreRead ast.now) }
    ensures enough { IfOk result (λ found. AreEnough found.0) }
    ensures err { IfErr result (λ s. OfStop (OfHandler (handling ast.now) Debug) s) }
{
    let own = read_type(alloc, ast, listed)?;
    let shown = read_cases(alloc, ast, listed, &own)?;
    let Values { bound, .. } = own;
    Ok((shown, bound_said(bound)))
}
