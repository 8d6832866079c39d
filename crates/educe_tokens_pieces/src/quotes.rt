//! Literals between quotes that are not raw (Rust Reference, Literal expressions), character by
//! character.
ghost use Rattle.std.specs.Prelude.{◌≡◌, ◌≢◌, ◌<◌, ◌≤◌, ◌+◌, ◌*◌, IsTrue, IfSome, List, length, option_to_list};
ghost use Rattle.std.specs.Char.{digit_value};
ghost use Rattle.educe_tokens_pieces.specs.Quotes.{closing, is_single, is_bytes, top_digit, is_escape, escape_value, is_line_control, is_plain, is_hex, is_scalar, IsBody, Part, value_of};
ghost use Rattle.educe_tokens_pieces.specs.Machine.{behind_part, is_space_character, open_step, escape_step, code_step, step, gives, ends, end_at};
ghost use Rattle.educe_tokens_pieces.specs.Reachable.{is_reachable};
ghost use Rattle.educe_tokens_pieces.specs.declared.quotes.Within.{Within};

/// The kinds of literals between quotes.
#[derive(Clone, Copy)]
pub enum Quote {
    Str,
    ByteStr,
    CStr,
    Char,
    Byte,
}

/// The state of a scan in a quoted literal.
#[derive(Clone, Copy)]
pub enum Within {
    /// Before a part or the closing quote.
    Open(Quote),
    /// Behind a `\` at the end of a line: spaces that follow have no value.
    Break(Quote),
    /// Behind a `\`.
    Escape(Quote),
    /// Behind a `\` and a carriage return.
    Return(Quote),
    /// Behind `\x`.
    High(Quote),
    /// Behind `\x` and a digit of this value.
    Low(Quote, u32),
    /// Behind `\u`.
    Brace(Quote),
    /// Behind `\u{`, so many digits, and this value of them.
    Code(Quote, u32, u32),
    /// Behind the one part of a character or a byte.
    Close(Quote),
}

/// The effect of one character on the scan of a literal.
#[derive(Clone, Copy)]
pub enum Next {
    /// The literal goes on.
    Go(Within),
    /// The literal ends here.
    End,
    /// The text is no such literal.
    Stop,
}

impl Quote {
    #[inline(always)]
    fn closing(self) -> char
        ensures { result ≡ closing self }
    {
        match self {
            Quote::Str | Quote::ByteStr | Quote::CStr => '"',
            Quote::Char | Quote::Byte => '\'',
        }
    }

    #[inline(always)]
    fn is_single(self) -> bool
        ensures { result ≡ is_single self }
    {
        matches!(self, Quote::Char | Quote::Byte)
    }

    #[inline(always)]
    fn is_bytes(self) -> bool
        ensures { result ≡ is_bytes self }
    {
        matches!(self, Quote::ByteStr | Quote::Byte)
    }

    fn top_digit(self) -> u32
        ensures { result ≡ top_digit self }
    {
        match self {
            Quote::Str | Quote::Char => 7,
            Quote::ByteStr | Quote::CStr | Quote::Byte => 15,
        }
    }

    #[inline(always)]
    fn behind_part(self) -> Within
        ensures { result ≡ behind_part self }
    {
        if self.is_single() {
            Within::Close(self)
        } else {
            Within::Open(self)
        }
    }
}

fn is_escape(c: char) -> bool
    ensures { result ≡ is_escape c }
{
    matches!(c, 'n' | 'r' | 't' | '\\' | '0' | '\'' | '"')
}

fn escape_value(c: char) -> char
    ensures { result ≡ escape_value c }
{
    match c {
        'n' => '\n',
        'r' => '\r',
        't' => '\t',
        '0' => '\0',
        _ => c,
    }
}

fn is_line_control(c: char) -> bool
    ensures { result ≡ is_line_control c }
{
    matches!(c, '\n' | '\r' | '\t')
}

fn is_space(c: char) -> bool
    ensures { result ≡ is_space_character c }
{
    matches!(c, ' ' | '\t' | '\n' | '\r')
}

fn is_scalar(value: u32) -> bool
    ensures { result ≡ is_scalar value }
{
    value < 0xD800 || (0xE000 <= value && value < 0x11_0000)
}

#[inline(always)]
fn is_plain(quote: Quote, c: char) -> bool
    ensures { result ≡ is_plain quote c }
{
    c != quote.closing()
        && c != '\\'
        && (!quote.is_bytes() || c.is_ascii())
        && !(quote.is_single() && is_line_control(c))
}

#[inline(always)]
fn open_step(quote: Quote, c: char) -> Next
    ensures { result ≡ open_step quote c }
{
    if c == quote.closing() && !quote.is_single() {
        Next::End
    } else if c == '\\' {
        Next::Go(Within::Escape(quote))
    } else if is_plain(quote, c) {
        Next::Go(quote.behind_part())
    } else {
        Next::Stop
    }
}

fn escape_step(quote: Quote, c: char) -> Next
    ensures { result ≡ escape_step quote c }
{
    if is_escape(c) {
        Next::Go(quote.behind_part())
    } else if c == 'x' {
        Next::Go(Within::High(quote))
    } else if c == 'u' && !quote.is_bytes() {
        Next::Go(Within::Brace(quote))
    } else if c == '\n' && !quote.is_single() {
        Next::Go(Within::Break(quote))
    } else if c == '\r' && !quote.is_single() {
        Next::Go(Within::Return(quote))
    } else {
        Next::Stop
    }
}

fn high_step(quote: Quote, c: char) -> Next
    ensures { result ≡ step (Within.High quote) c }
{
    match c.to_digit(16) {
        Some(high) => {
            if high <= quote.top_digit() {
                Next::Go(Within::Low(quote, high))
            } else {
                Next::Stop
            }
        }
        None => Next::Stop,
    }
}

fn digit_step(quote: Quote, digits: u32, value: u32, c: char) -> Next
    requires { IsTrue (is_reachable (Within.Code quote digits value)) }
    ensures { c ≢ 125 → c ≢ 95 → result ≡ code_step quote digits value c }
{
    match c.to_digit(16) {
        Some(digit) => {
            if digits < 6 {
                Next::Go(Within::Code(quote, digits + 1, value * 16 + digit))
            } else {
                Next::Stop
            }
        }
        None => Next::Stop,
    }
}

fn code_step(quote: Quote, digits: u32, value: u32, c: char) -> Next
    requires { IsTrue (is_reachable (Within.Code quote digits value)) }
    ensures { result ≡ code_step quote digits value c }
{
    if c == '}' {
        if digits > 0 && is_scalar(value) {
            Next::Go(quote.behind_part())
        } else {
            Next::Stop
        }
    } else if c == '_' {
        if digits > 0 {
            Next::Go(Within::Code(quote, digits, value))
        } else {
            Next::Stop
        }
    } else {
        digit_step(quote, digits, value, c)
    }
}

/// The step that a character makes from a state.
#[inline(always)]
pub(crate) fn step(within: Within, c: char) -> Next
    requires { IsTrue (is_reachable within) }
    ensures { result ≡ step within c }
{
    match within {
        Within::Open(quote) => open_step(quote, c),
        Within::Break(quote) => {
            if is_space(c) {
                Next::Go(Within::Break(quote))
            } else {
                open_step(quote, c)
            }
        }
        Within::Escape(quote) => escape_step(quote, c),
        Within::Return(quote) => match c {
            '\n' => Next::Go(Within::Break(quote)),
            _ => Next::Stop,
        },
        Within::High(quote) => high_step(quote, c),
        Within::Low(quote, _) => {
            if c.is_digit(16) {
                Next::Go(quote.behind_part())
            } else {
                Next::Stop
            }
        }
        Within::Brace(quote) => match c {
            '{' => Next::Go(Within::Code(quote, 0, 0)),
            _ => Next::Stop,
        },
        Within::Code(quote, digits, value) => code_step(quote, digits, value, c),
        Within::Close(quote) => {
            if c == quote.closing() {
                Next::End
            } else {
                Next::Stop
            }
        }
    }
}

fn open_gives(quote: Quote, c: char) -> Option<char>
    ensures { option_to_list result ≡ gives (Within.Open quote) c }
{
    if c == quote.closing() || c == '\\' {
        None
    } else {
        Some(c)
    }
}

fn low_gives(high: u32, c: char) -> Option<char>
    requires { high < 16 }
    ensures { IsTrue (is_hex c) → result ≡ Some (high * 16 + digit_value c) }
{
    let low = c.to_digit(16)?;
    char::from_u32(high * 16 + low)
}

fn code_gives(value: u32, c: char) -> Option<char>
    ensures closes { c ≡ 125 → IsTrue (is_scalar value) → result ≡ Some value }
    ensures goes_on { c ≢ 125 → result ≡ None }
{
    if c == '}' {
        char::from_u32(value)
    } else {
        None
    }
}

/// The character of the value that a character completes with which the literal goes on: None
/// where it completes none.
pub(crate) fn gives(within: Within, c: char) -> Option<char>
    requires { IsTrue (is_reachable within) }
    ensures { (more : Within) → step within c ≡ Next.Go more → option_to_list result ≡ gives within c }
{
    match within {
        Within::Open(quote) => open_gives(quote, c),
        Within::Break(quote) => {
            if is_space(c) {
                None
            } else {
                open_gives(quote, c)
            }
        }
        Within::Escape(_) => {
            if is_escape(c) {
                Some(escape_value(c))
            } else {
                None
            }
        }
        Within::Low(_, high) => low_gives(high, c),
        Within::Code(_, _, value) => code_gives(value, c),
        Within::Return(_) | Within::High(_) | Within::Brace(_) | Within::Close(_) => None,
    }
}

/// The number of characters that a literal takes after its opening quote, the closing quote
/// included: None where the text does not continue such a literal (Rust Reference, Literal
/// expressions).
pub fn quote_end(quote: Quote, text: &[char]) -> Option<usize>
    ensures value { result ≡ end_at (Within.Open quote) text.now }
    ensures within { IfSome result (λ n. n ≤ length text.now) }
{
    let mut within = Within::Open(quote);
    for (i, c) in text.iter().enumerate() {
        match step(within, *c) {
            Next::Go(more) => within = more,
            Next::End => return Some(i + 1),
            Next::Stop => return None,
        }
    }
    None
}

/// Whether the text, which stands after an opening quote, is the rest of such a literal: its parts
/// and the closing quote (Rust Reference, Literal expressions).
pub fn is_body(quote: Quote, text: &[char]) -> bool
    ensures value { result ≡ ends (Within.Open quote) text.now }
    ensures is { IsTrue result → (parts : List Part) × IsBody quote text.now parts }
    ensures only { (parts : List Part) → IsBody quote text.now parts → IsTrue result }
    ensures one_value { (a : List Part) → (b : List Part) → IsBody quote text.now a → IsBody quote text.now b → value_of a ≡ value_of b }
{
    quote_end(quote, text) == Some(text.len())
}
