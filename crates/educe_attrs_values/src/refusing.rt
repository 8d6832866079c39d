//! The rejections of metas, with their places and words.
ghost use Rattle.std.specs.Prelude.{◌≡◌, IfOk, chars};
ghost use Rattle.educe_attrs_values.specs.Refusals as spec;

use crate::kind::ValueKind;
use crate::message::{missing_text, wrong_text};
use crate::word::{name_of, place_of};
use educe_syntax::MetaPath;
use educe_tokens::{EduceError, Kind, Span, Spelling, Texts};
use std::alloc::{AllocError, Global};

/// The rejection at the name of a meta, which is its word.
pub fn at_name(alloc: Global, kind: Kind, path: &MetaPath) -> Result<EduceError, AllocError>
    ensures { IfOk result (λ e. e ≡ spec.at_name kind path.now) }
{
    let span = place_of(path.written.tokens().as_slice());
    EduceError::with_word(alloc, kind, span, name_of(alloc, path)?)
}

/// The rejection of a value with this message.
fn expected(alloc: Global, span: Span, text: &str) -> Result<EduceError, AllocError>
    ensures { IfOk result (λ e. e ≡ spec.expected span (chars text.now)) }
{
    let word = Spelling::from_str(alloc, text)?;
    EduceError::with_word(alloc, Kind::ExpectedValue, span, word)
}

/// The rejection of a parameter whose value is missing.
pub fn missing(alloc: Global, kind: ValueKind, path: &MetaPath) -> Result<EduceError, AllocError>
    ensures { IfOk result (λ e. e ≡ spec.missing kind path.now) }
{
    let name = name_of(alloc, path)?;
    let text = missing_text(alloc, kind, name.as_str())?;
    let place = place_of(path.written.tokens().as_slice());
    expected(alloc, place, text.as_str())
}

/// The rejection of a value at this place that is not of the kind.
pub fn wrong(
    alloc: Global,
    kind: ValueKind,
    path: &MetaPath,
    place: Span,
) -> Result<EduceError, AllocError>
    ensures { IfOk result (λ e. e ≡ spec.wrong kind path.now place) }
{
    let name = name_of(alloc, path)?;
    let text = wrong_text(alloc, kind, name.as_str())?;
    expected(alloc, place, text.as_str())
}

/// The rejection of the string at this place, whose text has an unsupported literal with these
/// words.
pub fn not_carried(place: Span, words: Texts) -> EduceError
    ensures { result ≡ spec.not_carried place words }
{
    EduceError {
        kind: Kind::NotCarried,
        span: place,
        words,
    }
}
