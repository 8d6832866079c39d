//! Places in a source.
ghost use Rattle.std.specs.Prelude.{◌≡◌, ◌+◌, ◌^◌, ◌<◌, ◌≤◌, length};
ghost use Rattle.educe_tokens.specs.Span.{line_of, column_of, shifted};
ghost use Rattle.std.specs.Str.{IsCharBoundary};

/// The limit on the size of a source, in bytes.
pub const SOURCE_LIMIT: usize = 131_072;

/// Byte offsets into a source, the end excluded. Both are 0 for generated tokens.
#[derive(Clone, Copy, Debug, PartialEq, Eq)]
pub struct Span {
    pub start: u32,
    pub end: u32,
}

impl Span {
    /// The span of no place: that of generated tokens, and of a rejection that has no place.
    pub const NONE: Span = Span { start: 0, end: 0 };

    /// The span of the same length that begins and ends so many bytes later.
    pub fn shifted(self, by: u32) -> Span
        requires start { self.start + by < 2 ^ 32 }
        requires end { self.end + by < 2 ^ 32 }
        ensures { result ≡ shifted by self }
    {
        Span {
            start: self.start + by,
            end: self.end + by,
        }
    }

    /// The line and the column of the start, both counted from 1: a line ends at a line feed, a
    /// column is a character.
    pub fn line_column(&self, source: &str) -> (u32, u32)
        requires boundary { IsCharBoundary source.now self.now.start }
        requires limit { length source.now ≤ SOURCE_LIMIT }
        ensures line { result.0 ≡ line_of source.now self.now.start }
        ensures column { result.1 ≡ column_of source.now self.now.start }
    {
        let mut line = 1;
        let mut column = 1;
        for c in source[..self.start as usize].chars() {
            if c == '\n' {
                line += 1;
                column = 1;
            } else {
                column += 1;
            }
        }
        (line, column)
    }
}
