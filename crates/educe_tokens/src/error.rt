//! Why a text is rejected.
ghost use Rattle.std.specs.Prelude.{◌≡◌, ◌≢◌, [], ◌∷◌, ◌++◌, map, encode_utf8_all, IfOk, OnOk};
ghost use Rattle.std.specs.String.{string_bytes};
ghost use Rattle.educe_tokens.specs.Message.{HasWords, incorrect_format, lines_below, message_of};

use crate::seq::Seq;
use crate::span::Span;
use crate::spelling::Spelling;
use std::alloc::{AllocError, Global};

/// Texts in their order.
pub type Texts = Seq<Spelling>;

/// The kinds of rejections.
#[derive(Clone, Copy, Debug, PartialEq, Eq)]
pub enum Kind {
    /// The text is no list of tokens whose brackets close in order, or has no reading by the
    /// grammar. The place is one token, or empty at the end of the text.
    Syntax,
    /// More brackets and constructs are open at a token than the limit on nesting allows. The place
    /// is that token.
    TooDeep,
    /// An unsupported literal, or the unsupported keyword `union`. It is the one word.
    NotCarried,
    /// A name, the one word, is defined more than once. The place is the later one.
    DuplicateName,
    /// No trait is listed at the type.
    DeriveAttributeNotSetUpYet,
    /// An `educe` attribute of the type is no list. The words are `educe` and the form that it has
    /// to have; the place is the word `educe`.
    EduceFormatIncorrect,
    /// A path, the one word, names none of the nine traits.
    UnsupportedTrait,
    /// A trait, the one word, stands earlier at the same place.
    ReuseATrait,
    /// A trait, the one word, is not listed at the type.
    TraitNotUsed,
    /// The trait, the one word, allows no attribute at this place.
    AttributeIncorrectPlace,
    /// The form or a parameter of an attribute is none that its place allows. The words are the
    /// trait and the allowed forms.
    AttributeIncorrectFormat,
    /// A parameter, the one word, stands earlier in the same attribute.
    ParameterReset,
    /// The value of a parameter is missing or of another form. The one word is the whole message.
    ExpectedValue,
    /// Two fields have one rank.
    ReuseARank { rank: i64 },
    /// `Debug` shows no name for a struct or a variant with brackets, none of whose fields it
    /// shows.
    UnitStructNeedName,
    /// `Debug` shows no name for a unit variant.
    UnitVariantNeedName,
    /// `Debug` shows no name for an enum without variants.
    UnitEnumNeedName,
    /// Several variants are marked as the default.
    MultipleDefaultVariants,
    /// No variant is marked as the default.
    NoDefaultVariant,
    /// Out of memory.
    Alloc,
    /// An input of several parts does not have the marks of its command, once each and in order,
    /// with the first of them at its start. The one word is the names of the parts, joined by a comma and
    /// a blank; the place is the whole input.
    BadParts,
    /// A part is no text that the expansion of a definition could write. The place is the part.
    NotGenerated,
    /// A part has no reading as a table of answers. The place is the part.
    BadTable,
    /// A part has no reading as two values of the definition. The place is the part.
    BadValues,
    /// A part has no reading as rows of values of the definition. The place is the part.
    BadRows,
    /// The definition does not list `Ord`. The place is the name of the type.
    OrdNotListed,
    /// A field that `Ord` keeps has a method, whose path is the one word. The place is the field.
    MethodField,
    /// The number of a discriminant is not known, out of the range of its type, or that of an earlier
    /// variant. The place is the variant.
    KeyUnknown,
}

/// A rejection: its kind, its place, and the words that its message cites.
#[derive(Drop)]
pub struct EduceError {
    pub kind: Kind,
    pub span: Span,
    pub words: Texts,
}

impl EduceError {
    /// A rejection without words. It takes no memory.
    pub fn new(alloc: Global, kind: Kind, span: Span) -> EduceError
        ensures { result ≡ record { kind = kind; span = span; words = [] } }
    {
        EduceError {
            kind,
            span,
            words: Seq::new(alloc),
        }
    }

    /// A rejection with one word.
    pub fn with_word(
        alloc: Global,
        kind: Kind,
        span: Span,
        word: Spelling,
    ) -> Result<EduceError, AllocError>
        ensures { IfOk result (λ e. e ≡ record { kind = kind; span = span; words = word ∷ [] }) }
    {
        let mut words = Seq::new(alloc);
        words.push(word)?;
        Ok(EduceError { kind, span, words })
    }

    /// The error for out of memory. It takes no memory itself.
    pub fn alloc(alloc: Global) -> EduceError
        ensures { result ≡ record { kind = Kind.Alloc; span = Span.NONE; words = [] } }
    {
        EduceError::new(alloc, Kind::Alloc, Span::NONE)
    }

    /// The message, without the place.
    pub fn message(&self, alloc: Global) -> Result<String, AllocError>
        requires kind { self.now.kind ≢ Kind.Alloc }
        requires words { HasWords self.now.kind self.now.words }
        ensures { IfOk result (λ text. string_bytes text ≡ message_of self.now.kind self.now.words) }
    {
        match self.words.as_slice() {
            [] => wordless_message(alloc, self.kind),
            [word, lines @ ..] => worded_message(alloc, self.kind, word, lines),
        }
    }
}

/// The message of a kind that cites no word.
fn wordless_message(alloc: Global, kind: Kind) -> Result<String, AllocError>
    requires kind { kind ≢ Kind.Alloc }
    requires words { HasWords kind [] }
    ensures { IfOk result (λ text. string_bytes text ≡ message_of kind []) }
{
    match kind {
        Kind::Syntax => String::from_str(alloc, "syntax error"),
        Kind::TooDeep => String::from_str(alloc, "nested too deeply"),
        Kind::DeriveAttributeNotSetUpYet => String::from_str(
            alloc,
            "you are using `Educe` in the `derive` attribute, but it has not been set up yet",
        ),
        Kind::ReuseARank { rank } => format!(in alloc; "the rank `{rank}` is repeatedly used"),
        Kind::UnitStructNeedName => {
            String::from_str(alloc, "a unit struct needs to have a name")
        }
        Kind::UnitVariantNeedName => String::from_str(
            alloc,
            "a unit variant which doesn't use an enum name needs to have a name",
        ),
        Kind::UnitEnumNeedName => String::from_str(alloc, "a unit enum needs to have a name"),
        Kind::MultipleDefaultVariants => {
            String::from_str(alloc, "multiple default variants are set")
        }
        Kind::NoDefaultVariant => String::from_str(alloc, "there is no variant set as default"),
        Kind::NotGenerated => String::from_str(alloc, "the text is no generated text"),
        Kind::BadTable => String::from_str(alloc, "the table has no reading"),
        Kind::BadValues => String::from_str(alloc, "the values have no reading"),
        Kind::BadRows => String::from_str(alloc, "the rows have no reading"),
        Kind::OrdNotListed => String::from_str(alloc, "the trait `Ord` is not used"),
        Kind::KeyUnknown => String::from_str(alloc, "the discriminant is not known"),
        _ => unreachable!(),
    }
}

/// The message of a kind that cites a word and maybe lines below it.
fn worded_message(
    alloc: Global,
    kind: Kind,
    word: &Spelling,
    lines: &[Spelling],
) -> Result<String, AllocError>
    requires kind { kind ≢ Kind.Alloc }
    requires words { HasWords kind (word.now ∷ lines.now) }
    ensures { IfOk result (λ text. string_bytes text ≡ message_of kind (word.now ∷ lines.now)) }
{
    let word = word.as_str();
    match kind {
        Kind::NotCarried => around(alloc, "`", word, "` is not supported"),
        Kind::DuplicateName => around(alloc, "the name `", word, "` is defined more than once"),
        Kind::EduceFormatIncorrect => incorrect_format(alloc, word, lines),
        Kind::UnsupportedTrait => around(alloc, "unsupported trait `", word, AVAILABLE_TRAITS),
        Kind::ReuseATrait => around(alloc, "the trait `", word, "` is used repeatedly"),
        Kind::TraitNotUsed => around(alloc, "the trait `", word, "` is not used"),
        Kind::AttributeIncorrectPlace => {
            around(alloc, "the `", word, "` attribute cannot be placed here")
        }
        Kind::AttributeIncorrectFormat => incorrect_format(alloc, word, lines),
        Kind::ParameterReset => {
            around(alloc, "you are trying to reset the `", word, "` parameter")
        }
        Kind::ExpectedValue => String::from_str(alloc, word),
        Kind::BadParts => around(alloc, "expected the parts ", word, ""),
        Kind::MethodField => around(alloc, "the method `", word, "` is not known"),
        _ => unreachable!(),
    }
}

/// What follows the path in the message for an unsupported trait.
const AVAILABLE_TRAITS: &str = "`, available traits:
    Debug
    Clone
    Copy
    PartialEq
    Eq
    PartialOrd
    Ord
    Hash
    Default";

/// A word between two texts.
fn around(alloc: Global, before: &str, word: &str, behind: &str) -> Result<String, AllocError>
    ensures { IfOk result (λ text. string_bytes text ≡ before.now ++ (word.now ++ behind.now)) }
{
    format!(in alloc; "{before}{word}{behind}")
}

/// The message that names the allowed forms, each on a line of its own.
fn incorrect_format(alloc: Global, word: &str, lines: &[Spelling]) -> Result<String, AllocError>
    ensures { IfOk result (λ text. string_bytes text ≡ incorrect_format word.now lines.now) }
{
    let mut text = around(
        alloc,
        "you are using an incorrect format of the `",
        word,
        "` attribute, which should be reformatted as follows:",
    )?;
    push_lines(&mut text, lines)?;
    Ok(text)
}

/// Adds each text on an indented line of its own.
fn push_lines(text: &mut String, lines: &[Spelling]) -> Result<(), AllocError>
    ensures { OnOk result (string_bytes text.new ≡ string_bytes text.old ++ lines_below (map encode_utf8_all lines.now)) }
{
    let mut rest = lines;
    while let [first, behind @ ..] = rest {
        text.push_str("\n    ")?;
        text.push_str(first.as_str())?;
        rest = behind;
    }
    Ok(())
}
