//! Texts that contracts see as their characters.
ghost use Rattle.std.specs.Prelude.{◌≡◌, ◌≤◌, IfOk, IsTrue, ◌↔◌, chars, encode_utf8_all, length, slice_range, take};
ghost use Rattle.std.specs.List.{list_all};
ghost use Rattle.std.specs.Char.{is_ascii};
ghost use Rattle.std.specs.Str.{bytes_eq, IsCharBoundary, IsUtf8};
ghost use Rattle.educe_tokens.specs.Kept.{bytes_of, IsCut};

use std::alloc::{AllocError, Global};
use std::marker::Model;
use std::rc::Rc;

/// How many bytes a text has at most that takes no memory of its own.
const SHORT: usize = 15;

/// Where the characters of a spelling are kept.
#[derive(Drop)]
enum Text {
    /// In these bytes, of which so many count.
    Short {
        bytes: [u8; SHORT],
        len: u8,
    },
    /// In a text that several spellings share, from a byte offset to another.
    Part {
        source: Rc<String>,
        start: u32,
        end: u32,
    },
}

/// An immutable text. A contract sees its characters, so that texts are compared by characters; no
/// normal form is taken. Copies and parts of a long text share it.
#[derive(Drop)]
pub struct Spelling {
    text: Text,
}

impl Model for Spelling {
    ghost use Rattle.std.specs.Prelude.{ℕ, List};

    ghost Value = { List ℕ };

    ghost use Rattle.educe_tokens.specs.Kept.{characters_of, IsCut};

    ghost view = { λ spelling. characters_of spelling.text };

    ghost invariant = { λ spelling. IsCut spelling.text };
}

impl Spelling {
    /// A copy of a text, which takes memory only if the text is long. A text of 4 GiB or more is
    /// reported as out of memory.
    pub fn from_str(alloc: Global, text: &str) -> Result<Spelling, AllocError>
        ensures { IfOk result (λ spelling. spelling ≡ chars text.now) }
    {
        if text.len() <= SHORT {
            return Ok(Spelling { text: short(text) });
        }
        if text.len() > u32::MAX as usize {
            return Err(AllocError);
        }
        let end = text.len() as u32;
        let source = Rc::new(alloc, String::from_str(alloc, text)?)?;
        Ok(Spelling {
            text: Text::Part {
                source,
                start: 0,
                end,
            },
        })
    }

    /// The text as a string slice.
    pub fn as_str(&self) -> &str
        ensures chars { chars result.now ≡ self.now }
        ensures bytes { result.now ≡ encode_utf8_all self.now }
    {
        match &self.text {
            Text::Short { bytes, len } => short_str(bytes, *len),
            Text::Part { source, start, end } => {
                let whole: &String = source;
                &whole.as_str()[*start as usize..*end as usize]
            }
        }
    }

    /// The part between two byte offsets.
    pub fn part(&self, start: u32, end: u32) -> Result<Spelling, AllocError>
        requires start_le_end { start ≤ end }
        requires start { IsCharBoundary (encode_utf8_all self.now) start }
        requires end { IsCharBoundary (encode_utf8_all self.now) end }
        ensures { IfOk result (λ part. part ≡ chars (slice_range (encode_utf8_all self.now) start end)) }
    {
        match &self.text {
            Text::Short { bytes, len } => {
                let whole = short_str(bytes, *len);
                let text = short(&whole[start as usize..end as usize]);
                Ok(Spelling { text })
            }
            Text::Part {
                source,
                start: first,
                end: _,
            } => {
                let source = source.clone()?;
                Ok(Spelling {
                    text: Text::Part {
                        source,
                        start: *first + start,
                        end: *first + end,
                    },
                })
            }
        }
    }

    /// A second spelling of this text, which shares it if it is long.
    pub fn duplicate(&self, _alloc: Global) -> Result<Spelling, AllocError>
        ensures { IfOk result (λ spelling. spelling ≡ self.now) }
    {
        let text = match &self.text {
            Text::Short { bytes, len } => Text::Short {
                bytes: *bytes,
                len: *len,
            },
            Text::Part { source, start, end } => Text::Part {
                source: source.clone()?,
                start: *start,
                end: *end,
            },
        };
        Ok(Spelling { text })
    }

    /// Whether the spelling and the text are the same characters.
    pub fn is(&self, text: &str) -> bool
        ensures { IsTrue result ↔ (self.now ≡ chars text.now) }
    {
        self.as_str() == text
    }

    /// Whether the spelling is this text of ASCII characters.
    pub fn spells(&self, text: &str) -> bool
        requires { IsTrue (list_all is_ascii text.now) }
        ensures { result ≡ bytes_eq self.now text.now }
    {
        self.is(text)
    }
}

/// A short text in bytes of its own.
fn short(text: &str) -> Text
    requires { length text.now ≤ SHORT }
    ensures bytes { bytes_of result ≡ text.now }
    ensures cut { IsCut result }
{
    let mut bytes = [0; SHORT];
    bytes[..text.len()].copy_from_slice(text.as_bytes());
    Text::Short {
        bytes,
        len: text.len() as u8,
    }
}

/// A short text, lent.
fn short_str(bytes: &[u8; SHORT], len: u8) -> &str
    requires within { len ≤ SHORT }
    requires utf8 { IsUtf8 (take len bytes.now) }
    ensures { result.now ≡ take len bytes.now }
{
    // SAFETY: the bytes are UTF-8, as required. Each printed token is read here.
    unsafe { str::from_utf8_unchecked(&bytes[..len as usize]) }
}
