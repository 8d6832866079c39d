//! What each trait does with fields, and the forms of its attributes.
ghost use Rattle.std.specs.Prelude.{◌≡◌};
ghost use Rattle.educe_settings.specs.Rows as spec;

use educe_attrs::clone::FieldAttributeBuilder;
use educe_attrs::debug::TypeName;
use educe_attrs::{AttributeBuilder, Row, bound_row, compared_row, debug, default};
use educe_bound::Trait;
use educe_syntax::{DeriveInput, FieldForm, Shape};

/// Whether the trait is one of the two orders.
pub fn is_order(which: Trait) -> bool
    ensures { result ≡ spec.is_order which }
{
    match which {
        Trait::PartialOrd => true,
        Trait::Ord => true,
        _ => false,
    }
}

/// Whether the functions of the trait read fields, which in a packed struct they do by copies.
pub fn reads_fields(which: Trait) -> bool
    ensures { result ≡ spec.reads_fields which }
{
    match which {
        Trait::Copy => false,
        Trait::Eq => false,
        Trait::Default => false,
        _ => true,
    }
}

/// Whether the names of the fields of a struct are shown, where nothing is said of that.
pub fn struct_names(form: FieldForm) -> bool
    ensures { result ≡ spec.struct_names form }
{
    !matches!(form, FieldForm::Unnamed)
}

/// Whether the names of the fields of a variant are shown, where nothing is said of that.
pub fn variant_names(form: FieldForm) -> bool
    ensures { result ≡ spec.variant_names form }
{
    matches!(form, FieldForm::Named)
}

/// The name of the type that is shown, where nothing is said of that.
pub fn own_type_name(shape: &Shape) -> TypeName
    ensures { result ≡ spec.own_type_name shape.now }
{
    match shape {
        Shape::Struct(_) => TypeName::Default,
        Shape::Enum(_) => TypeName::Disable,
    }
}

/// The forms of the attribute of `Debug` at a type (documentation of `educe`, Debug).
fn debug_row(shape: &Shape) -> Row
    ensures { result ≡ spec.debug_row shape.now }
{
    let (enable_named_field, named_field) = match shape {
        Shape::Struct(shape) => (true, struct_names(shape.form)),
        Shape::Enum(_) => (false, false),
    };
    let builder = debug::TypeAttributeBuilder {
        enable_flag: true,
        enable_name: true,
        enable_named_field,
        enable_bound: true,
        name: own_type_name(shape),
        named_field,
    };
    builder.row()
}

/// The forms of the attribute of a trait at a type (documentation of `educe`, each trait's section).
pub fn type_row(which: Trait, ast: &DeriveInput) -> Row
    ensures { result ≡ spec.type_row which ast.now }
{
    match which {
        Trait::Debug => debug_row(&ast.shape),
        Trait::Default => {
            let builder = default::TypeAttributeBuilder {
                enable_flag: true,
                enable_new: true,
                enable_expression: true,
                enable_bound: true,
            };
            builder.row()
        }
        _ => bound_row(true, true),
    }
}

/// The forms of the attribute of a trait at a variant.
pub fn variant_row(_which: Trait) -> Row
    ensures { result ≡ spec.variant_row _which }
{
    bound_row(false, false)
}

/// The forms of the attribute of a trait at a field.
pub fn field_row(which: Trait) -> Row
    ensures { result ≡ spec.field_row which }
{
    match which {
        Trait::Clone => {
            let builder = FieldAttributeBuilder {
                enable_method: true,
            };
            builder.row()
        }
        Trait::PartialEq => compared_row(true, true, false, false),
        Trait::PartialOrd => compared_row(true, true, true, true),
        Trait::Ord => compared_row(true, true, true, true),
        Trait::Hash => compared_row(true, true, false, false),
        _ => bound_row(false, false),
    }
}
