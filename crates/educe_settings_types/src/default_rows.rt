//! The forms of the attribute `Default`.
ghost use Rattle.std.specs.Prelude.{◌≡◌};
ghost use Rattle.educe_settings.specs.Defaults as spec;

use educe_attrs::default::{FieldAttributeBuilder, TypeAttributeBuilder};
use educe_attrs::{AttributeBuilder, Row};

/// What a variant allows: the trait alone, which marks it, where the type has no value of its own.
pub fn mark_row(bare: bool) -> Row
    ensures { result ≡ spec.mark_row bare }
{
    let builder = TypeAttributeBuilder {
        enable_flag: bare,
        enable_new: false,
        enable_expression: false,
        enable_bound: false,
    };
    builder.row()
}

/// What a field allows that `default` writes: its value, also behind `=`. Any other allows nothing.
pub fn value_row(written: bool) -> Row
    ensures { result ≡ spec.value_row written }
{
    let builder = FieldAttributeBuilder {
        enable_flag: false,
        enable_expression: written,
    };
    builder.row()
}
