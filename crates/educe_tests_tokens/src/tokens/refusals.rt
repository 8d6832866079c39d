//! Where and why a text is rejected, and what is said of it.
ghost use Rattle.std.specs.Prelude.{◌≢◌, ℕ, List, [], ◌∷◌};
ghost use Rattle.educe_tokens.specs.Message.{HasWords};

use crate::answers::{Call, OfTokens, check, check_tokens};
use educe_tokens::{EduceError, Kind, Span, Spelling};
use std::alloc::{AllocError, Global};
use std::test::Fail;

/// Why and where a text is rejected.
fn reason(alloc: Global, error: &EduceError) -> Result<String, AllocError> {
    let Span { start, end } = error.span;
    format!(in alloc; "{:?} {start}..{end}", error.kind)
}

/// The kind and the place of a rejection, and the words that are cited.
fn reason_with_words(alloc: Global, error: &EduceError) -> Result<String, AllocError> {
    let mut reason = reason(alloc, error)?;
    for word in error.words.as_slice() {
        write!(reason, " {}", word.as_str())?;
    }
    Ok(reason)
}

/// What is asked of a rejection.
pub(crate) fn refusal(
    alloc: Global,
    asked: OfTokens,
    error: &EduceError,
) -> Result<String, AllocError> {
    match asked {
        OfTokens::Count => reason_with_words(alloc, error),
        _ => reason(alloc, error),
    }
}

/// The message of a rejection that cites no word.
fn plain(alloc: Global, kind: Kind) -> Result<String, Fail>
    requires kind { kind ≢ Kind.Alloc }
    requires words { HasWords kind [] }
{
    Ok(EduceError::new(alloc, kind, Span::NONE).message(alloc)?)
}

/// The message of a rejection that cites this word.
fn citing(alloc: Global, kind: Kind, word: &str) -> Result<String, Fail>
    requires kind { kind ≢ Kind.Alloc }
    requires words { (word : List ℕ) → HasWords kind (word ∷ []) }
{
    let word = Spelling::from_str(alloc, word)?;
    Ok(EduceError::with_word(alloc, kind, Span::NONE, word)?.message(alloc)?)
}

/// The message of a rejection of a rank.
fn ranked(alloc: Global, rank: &str) -> Result<String, Fail> {
    let rank = rank.parse::<i64>().ok().ok_or(rank)?;
    plain(alloc, Kind::ReuseARank { rank })
}

/// The message of a rejection: the name of its kind, and its word or rank, if it has one.
pub(crate) fn message(alloc: Global, refusal: &str) -> Result<String, Fail> {
    let (kind, word) = refusal.split_once(' ').unwrap_or((refusal, ""));
    match kind {
        "Syntax" => plain(alloc, Kind::Syntax),
        "TooDeep" => plain(alloc, Kind::TooDeep),
        "NotCarried" => citing(alloc, Kind::NotCarried, word),
        "DuplicateName" => citing(alloc, Kind::DuplicateName, word),
        "DeriveAttributeNotSetUpYet" => plain(alloc, Kind::DeriveAttributeNotSetUpYet),
        "UnsupportedTrait" => citing(alloc, Kind::UnsupportedTrait, word),
        "ReuseATrait" => citing(alloc, Kind::ReuseATrait, word),
        "ReuseARank" => ranked(alloc, word),
        _ => part_message(alloc, kind, word),
    }
}

/// The message of a rejection of an input of several parts: its kind and the word, if it has one.
fn part_message(alloc: Global, kind: &str, word: &str) -> Result<String, Fail> {
    match kind {
        "BadParts" => citing(alloc, Kind::BadParts, word),
        "NotGenerated" => plain(alloc, Kind::NotGenerated),
        "BadTable" => plain(alloc, Kind::BadTable),
        "BadValues" => plain(alloc, Kind::BadValues),
        "BadRows" => plain(alloc, Kind::BadRows),
        "OrdNotListed" => plain(alloc, Kind::OrdNotListed),
        "MethodField" => citing(alloc, Kind::MethodField, word),
        "KeyUnknown" => plain(alloc, Kind::KeyUnknown),
        _ => Err(Fail::from(kind)),
    }
}

/// A text of three lines.
const LINES: &str = "a\né\nüb";

/// The line and the column of a place in the text of three lines.
fn line_column(start: u32) -> Option<(u32, u32)> {
    if LINES.is_char_boundary(start as usize) {
        Some(Span { start, end: start }.line_column(LINES))
    } else {
        None
    }
}

/// The line and the column of a place in the text of three lines, as texts.
pub(crate) fn place(alloc: Global, start: &str) -> Result<String, Fail> {
    let place = start.parse::<u32>().ok().ok_or(start)?;
    let (line, column) = line_column(place).ok_or(start)?;
    Ok(format!(in alloc; "{line}:{column}")?)
}

static REFUSALS: &str = r##"
a#
: Syntax 2..2

é a#
é \
: Syntax 0..2

(é \
: Syntax 1..3

é (a]
: Syntax 5..6

é )
: Syntax 3..4

(é
: Syntax 3..3

([a]␠
: Syntax 5..5

(a)
: 3 tokens

(a
: Syntax 2..2

(a]
: Syntax 2..3

a; 1.5
: NotCarried 3..6 1.5

1e3
: NotCarried 0..3 1e3

a 1.5_0e-3f64;
: NotCarried 2..13 1.5_0e-3f64

1.
: NotCarried 0..2 1.

c"é\xff"
: NotCarried 0..9 c"é\xff"

cr#"""#
: NotCarried 0..7 cr#"""#

0xffffffffffffffffffffffffffffffff_0u8
: NotCarried 0..38 0xffffffffffffffffffffffffffffffff_0u8

(((((((((((((((((((((((((((((((((((((((((((((((((((((((((((((((((((((((((((((((((((((((((((((((((((((((((((((((((((((((((((((((())))))))))))))))))))))))))))))))))))))))))))))))))))))))))))))))))))))))))))))))))))))))))))))))))))))))))))))))))))))))))))))))
: 256 tokens

[(((((((((((((((((((((((((((((((((((((((((((((((((((((((((((((((((((((((((((((((((((((((((((((((((((((((((((((((((((((((((((((((())))))))))))))))))))))))))))))))))))))))))))))))))))))))))))))))))))))))))))))))))))))))))))))))))))))))))))))))))))))))))))))))]
: TooDeep 128..129
"##;

static MESSAGES: &str = r#"
Syntax
: syntax error

TooDeep
: nested too deeply

NotCarried 1.5
: `1.5` is not supported

DeriveAttributeNotSetUpYet
: you are using `Educe` in the `derive` attribute, but it has not been set up yet

DuplicateName é
: the name `é` is defined more than once

UnsupportedTrait é
: unsupported trait `é`, available traits:
    Debug
    Clone
    Copy
    PartialEq
    Eq
    PartialOrd
    Ord
    Hash
    Default

ReuseATrait é
: the trait `é` is used repeatedly

ReuseARank 0
: the rank `0` is repeatedly used

ReuseARank -7
: the rank `-7` is repeatedly used

ReuseARank -9223372036854775808
: the rank `-9223372036854775808` is repeatedly used

BadParts definition, rows
: expected the parts definition, rows

NotGenerated
: the text is no generated text

BadTable
: the table has no reading

BadValues
: the values have no reading

BadRows
: the rows have no reading

OrdNotListed
: the trait `Ord` is not used

MethodField a::c
: the method `a::c` is not known

KeyUnknown
: the discriminant is not known
"#;

static PLACES: &str = r#"
0
: 1:1

1
: 1:2

2
: 2:1

4
: 2:2

5
: 3:1

7
: 3:2

8
: 3:3
"#;

#[test]
fn says_where_and_why(rt: HostRuntime) -> Result<(), Fail> {
    check_tokens(rt.alloc(), OfTokens::Count, REFUSALS)?;
    check(rt.alloc(), Call::Message, MESSAGES)?;
    check(rt.alloc(), Call::LineColumn, PLACES)
}
