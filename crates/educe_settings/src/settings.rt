//! What the settings of a field say of it to a trait.
ghost use Rattle.std.specs.Prelude.{◌≡◌, ◌<◌, ◌^◌};
ghost use Rattle.educe_settings.specs.Ranked as ranked;
ghost use Rattle.educe_settings.specs.Settings as spec;

use crate::ranked::How;
use educe_attrs::FieldSettings;
use educe_tokens::Span;

/// Whether a field of these settings takes part.
pub fn is_kept(settings: &FieldSettings) -> bool
    ensures { result ≡ spec.keeps settings.now }
{
    !settings.values.ignore.unwrap_or(false)
}

/// The rank at a place where none is set.
fn default_rank(place: usize) -> i64
    requires { place < 2 ^ 63 }
    ensures { result ≡ spec.default_rank place }
{
    i64::MIN + place as i64
}

/// The rank of a field of these settings at a place, which is counted from 0.
pub fn rank_of(place: usize, settings: &FieldSettings) -> i64
    requires { place < 2 ^ 63 }
    ensures { result ≡ spec.rank_by place settings.now }
{
    match settings.values.rank {
        Some(rank) => rank.number,
        None => default_rank(place),
    }
}

/// Where these settings give the rank, or else the other place.
pub fn rank_span(settings: &FieldSettings, other: Span) -> Span
    ensures { result ≡ spec.rank_span_by settings.now other }
{
    match settings.values.rank {
        Some(rank) => rank.span,
        None => other,
    }
}

/// Whether an order turns its answer on a field of these settings round.
pub fn is_reversed(settings: &FieldSettings) -> bool
    ensures { result ≡ spec.reverse_by settings.now }
{
    settings.values.reverse.unwrap_or(false)
}

/// How a field of these settings is treated.
pub fn how_of(settings: &FieldSettings) -> How<'_>
    ensures { ranked.how_of result ≡ spec.how_by settings.now }
{
    match &settings.values.method {
        None => How::Plainly,
        Some(path) => {
            if settings.method_returns_ordering {
                How::ByOrder(path)
            } else {
                How::ByMethod(path)
            }
        }
    }
}
