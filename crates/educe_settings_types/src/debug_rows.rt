//! The forms of the attribute `Debug` of a variant, and whether the names of fields are shown.
ghost use Rattle.std.specs.Prelude.{◌≡◌, unwrap_or};
ghost use Rattle.educe_settings.specs.Rows as rows;
ghost use Rattle.educe_settings.specs.Shown as spec;

use educe_attrs::debug::{TypeAttributeBuilder, TypeName};
use educe_attrs::{AttributeBuilder, Row, Values};
use educe_settings::{struct_names, variant_names};
use educe_syntax::{FieldShape, Variant};

/// What a variant allows: a name, also behind `=`, and whether the names of its fields are shown.
pub fn naming_row(variant: &Variant) -> Row
    ensures { result ≡ spec.naming_row variant.now }
{
    let builder = TypeAttributeBuilder {
        enable_flag: false,
        enable_name: true,
        enable_named_field: true,
        enable_bound: false,
        name: TypeName::Default,
        named_field: variant_names(variant.fields.form),
    };
    builder.row()
}

/// Whether the names of the fields of a struct are shown, where the attributes of its type say this.
pub fn struct_named(own: &Values, shape: &FieldShape) -> bool
    ensures { result ≡ unwrap_or own.now.named_field (rows.struct_names shape.now.form) }
{
    own.named_field.unwrap_or(struct_names(shape.form))
}

/// Whether the names of the fields of a variant are shown, where its attributes say this.
pub fn variant_named(values: &Values, variant: &Variant) -> bool
    ensures { result ≡ unwrap_or values.now.named_field (rows.variant_names variant.now.fields.form) }
{
    values
        .named_field
        .unwrap_or(variant_names(variant.fields.form))
}
