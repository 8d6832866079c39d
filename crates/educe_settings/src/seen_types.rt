//! The types of fields that bounds speak of.
ghost use Rattle.std.specs.Prelude.{◌≡◌, [], ◌∷◌, ◌++◌, map, OnOk};
ghost use Rattle.educe_settings.specs.Ranked.{how_of, kept_of};
ghost use Rattle.educe_settings.specs.SeenTypes as spec;
ghost use Rattle.educe_settings.specs.Types.{read_types, touched_types};

use crate::ranked::{How, Ranked};
use educe_syntax::Ty;
use std::alloc::{AllocError, Global};

/// The types of the fields that an impl goes over, in its order.
#[derive(Drop)]
pub struct SeenTypes<'a> {
    /// The types of the fields that are read.
    pub read: Vec<&'a Ty>,
    /// The types of which the trait itself is asked.
    pub touched: Vec<&'a Ty>,
}

/// The types seen before any field: none.
pub fn no_types<'a>(alloc: Global) -> SeenTypes<'a>
    ensures read { spec.read_of result ≡ [] }
    ensures touched { spec.touched_of result ≡ [] }
{
    SeenTypes {
        read: Vec::new(alloc),
        touched: Vec::new(alloc),
    }
}

/// Adds the type of a field that is treated in this way.
fn see<'f>(ty: &'f Ty, how: How<'_>, types: &mut SeenTypes<'f>) -> Result<(), AllocError>
    ensures read { OnOk result (spec.read_of types.new ≡ spec.read_of types.old ++ ty.now ∷ []) }
    ensures touched { OnOk result (spec.touched_of types.new ≡ spec.touched_of types.old ++ spec.touched_one (how_of how.entry) ty.now) }
{
    types.read.push(ty)?;
    match how {
        How::Plainly => {
            types.touched.push(ty)?;
            Ok(())
        }
        How::ByMethod(_) => Ok(()),
        How::ByOrder(_) => Ok(()),
    }
}

/// Adds the types of these fields, in their order.
pub fn see_each<'f>(fields: &[Ranked<'f, '_>], types: &mut SeenTypes<'f>) -> Result<(), AllocError>
    ensures read { OnOk result (spec.read_of types.new ≡ spec.read_of types.old ++ read_types (map kept_of fields.now)) }
    ensures touched { OnOk result (spec.touched_of types.new ≡ spec.touched_of types.old ++ touched_types (map kept_of fields.now)) }
{
    for field in fields {
        see(&field.field.ty, field.how, types)?;
    }
    Ok(())
}
