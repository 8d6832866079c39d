//! Whether fields have methods.
ghost use Rattle.std.specs.Prelude.{◌≡◌};
ghost use Rattle.std.specs.List.{list_any};
ghost use Rattle.educe_settings.specs.Methods as spec;

use educe_attrs::FieldSettings;
use educe_tokens::Seq;

/// Whether a field of these settings has a method.
fn has_method(settings: &FieldSettings) -> bool
    ensures { result ≡ spec.has_method settings.now }
{
    match settings.values.method {
        Some(_) => true,
        None => false,
    }
}

/// Whether one of these has.
fn have_method(settings: &Seq<FieldSettings>) -> bool
    ensures { result ≡ list_any spec.has_method settings.now }
{
    settings.as_slice().iter().any(|own| has_method(own))
}

/// Whether a field has a method, where the fields of each case have these settings.
pub fn has_custom_method(settings: &[Seq<FieldSettings>]) -> bool
    ensures { result ≡ list_any (list_any spec.has_method) settings.now }
{
    settings.iter().any(|case| have_method(case))
}
