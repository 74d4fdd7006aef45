//! How bytes of a file and texts are shown, each on one line.

ghost use Rattle.std.specs.Prelude.{◌≡◌, ◌++◌, false, true, MatchOption, Some, take};
ghost use Rattle.std.specs.Fmt.{WritesOnOk};
ghost use Rattle.std.specs.List.{flat_map};
ghost use Rattle.std.specs.Str.{chars};
ghost use Rattle.rj_line.specs.Shown as spec;
ghost use Rattle.rj_line.specs.Shown.{byte_text, is_text, literal, literal_char, more_text, shown, shown_byte, shown_bytes, shown_char};

use std::{fmt, str};

// How many bytes are shown of a text.
const MOST: usize = 60;

/// Bytes of a file between double quotes. Control bytes are shown as `\xNN`, and so are all bytes
/// that aren't ASCII if the whole isn't UTF-8. Of more than 60 bytes the first ones are shown, and
/// how many more there are.
#[derive(Clone, Copy)]
pub struct Shown<'a> {
    /// What is shown.
    pub bytes: &'a [u8],
}

// Writes a byte by its two hexadecimal digits.
fn write_byte<W: fmt::Write>(f: &mut fmt::Formatter<W>, byte: u8) -> fmt::Result
    ensures { WritesOnOk W.write_str_gives f.old result (byte_text byte) f.new }
{
    write!(f, "\\x{byte:02X}")
}

// Writes a character as it is shown.
#[tactic(auto, unfolding(crate::specs::Shown::shown_char))]
fn write_character<W: fmt::Write>(f: &mut fmt::Formatter<W>, character: char) -> fmt::Result
    ensures { WritesOnOk W.write_str_gives f.old result (shown_char character) f.new }
{
    let code = character as u32;
    if code < 32 || code == 127 {
        return write_byte(f, code as u8);
    }
    write!(f, "{character}")
}

// Writes the characters of a text as they are shown.
fn write_characters<W: fmt::Write>(f: &mut fmt::Formatter<W>, text: &str) -> fmt::Result
    ensures { WritesOnOk W.write_str_gives f.old result (flat_map shown_char (chars text.now)) f.new }
{
    for character in text.chars() {
        write_character(f, character)?;
    }
    Ok(())
}

// Writes a character of a text literal.
#[tactic(auto, unfolding(crate::specs::Shown::literal_char))]
fn write_quoted<W: fmt::Write>(f: &mut fmt::Formatter<W>, character: char) -> fmt::Result
    ensures { WritesOnOk W.write_str_gives f.old result (literal_char character) f.new }
{
    if character == '\'' {
        return f.write_str("''");
    }
    write_character(f, character)
}

// Writes the characters of a text literal.
fn write_literal<W: fmt::Write>(f: &mut fmt::Formatter<W>, text: &str) -> fmt::Result
    ensures { WritesOnOk W.write_str_gives f.old result (flat_map literal_char (chars text.now)) f.new }
{
    for character in text.chars() {
        write_quoted(f, character)?;
    }
    Ok(())
}

// Writes a byte of what isn't a text.
#[tactic(auto, unfolding(crate::specs::Shown::shown_byte))]
fn write_loose_byte<W: fmt::Write>(f: &mut fmt::Formatter<W>, byte: u8) -> fmt::Result
    ensures { WritesOnOk W.write_str_gives f.old result (shown_byte byte) f.new }
{
    if byte < 32 || byte > 126 {
        return write_byte(f, byte);
    }
    let character = byte as char;
    write!(f, "{character}")
}

/// Writes bytes that aren't a text.
pub fn write_loose_bytes<W: fmt::Write>(f: &mut fmt::Formatter<W>, bytes: &[u8]) -> fmt::Result
    ensures { WritesOnOk W.write_str_gives f.old result (flat_map shown_byte bytes.now) f.new }
{
    for byte in bytes {
        write_loose_byte(f, *byte)?;
    }
    Ok(())
}

// Writes the quote behind what is shown, and how many bytes more there are, where there are any.
fn write_more<W: fmt::Write>(f: &mut fmt::Formatter<W>, quote: &str, count: usize) -> fmt::Result
    ensures { WritesOnOk W.write_str_gives f.old result (quote.now ++ more_text count) f.new }
{
    if count == 0 {
        return f.write_str(quote);
    }
    write!(f, "{quote} and {count} more bytes")
}

// The characters of a text that end within the first bytes.
#[tactic(auto, using(crate::proofs::ShownFacts::whole_shown))]
fn shown_part(text: &str) -> &str
    ensures { result.now ≡ spec.shown_part text.now }
{
    if text.len() <= MOST {
        return text;
    }
    let head = &text.as_bytes()[..MOST];
    match str::from_utf8(head) {
        Ok(whole) => whole,
        Err(error) => match str::from_utf8(&head[..error.valid_up_to()]) {
            Ok(part) => part,
            Err(_) => unreachable!(),
        },
    }
}

// The first bytes.
fn first_bytes(bytes: &[u8]) -> &[u8]
    ensures { result.now ≡ take 60 bytes.now }
{
    if bytes.len() <= MOST {
        return bytes;
    }
    &bytes[..MOST]
}

/// The text that these bytes are, if they are UTF-8.
pub fn text_in(bytes: &[u8]) -> Option<&str>
    ensures { MatchOption result (is_text bytes.now ≡ false) (λ text. (text.now ≡ bytes.now) × (is_text bytes.now ≡ true)) }
{
    match str::from_utf8(bytes) {
        Ok(text) => Some(text),
        Err(_) => None,
    }
}

// Writes a text between double quotes.
fn write_shown_text<W: fmt::Write>(f: &mut fmt::Formatter<W>, text: &str) -> fmt::Result
    ensures { WritesOnOk W.write_str_gives f.old result (spec.shown_text text.now) f.new }
{
    let part = shown_part(text);
    f.write_str("\"")?;
    write_characters(f, part)?;
    write_more(f, "\"", text.len().saturating_sub(part.len()))
}

// Writes bytes that aren't a text between double quotes.
fn write_shown_bytes<W: fmt::Write>(f: &mut fmt::Formatter<W>, bytes: &[u8]) -> fmt::Result
    ensures { WritesOnOk W.write_str_gives f.old result (shown_bytes bytes.now) f.new }
{
    f.write_str("\"")?;
    write_loose_bytes(f, first_bytes(bytes))?;
    write_more(f, "\"", bytes.len().saturating_sub(MOST))
}

impl fmt::Display for Shown<'_> {
    ghost output = { λ s. Some (shown s.bytes.now) };

    #[tactic(auto, unfolding(crate::specs::Shown::shown))]
    fn fmt<W: fmt::Write>(&self, f: &mut fmt::Formatter<W>) -> fmt::Result {
        match text_in(self.bytes) {
            Some(text) => write_shown_text(f, text),
            None => write_shown_bytes(f, self.bytes),
        }
    }
}

/// A text literal as a clause writes it: between single quotes, with each quote in it doubled.
/// Control bytes and what is beyond 60 bytes are shown as in other texts.
#[derive(Clone, Copy)]
pub struct ShownText<'a> {
    /// What is shown.
    pub text: &'a str,
}

impl fmt::Display for ShownText<'_> {
    ghost output = { λ s. Some (literal s.text.now) };

    #[tactic(auto, unfolding(crate::specs::Shown::literal))]
    fn fmt<W: fmt::Write>(&self, f: &mut fmt::Formatter<W>) -> fmt::Result {
        let part = shown_part(self.text);
        f.write_str("'")?;
        write_literal(f, part)?;
        write_more(f, "'", self.text.len().saturating_sub(part.len()))
    }
}
