//! Where a text stops being a clause.

ghost use Rattle.std.specs.Prelude.{◌<◌};

use crate::inputs::Inputs;
use crate::quoting::quoting_line;
use rj_condition::{ParseRefused, parse, quoted};
use rj_line::shown::Shown;
use std::alloc::{AllocError, Global};

// What may be in a clause, and what it is called.
const WORDS: [(&str, &str); 26] = [
    ("a", "a column"),
    ("1", "a literal"),
    ("=", "a comparison"),
    ("(", "("),
    (")", ")"),
    (",", "a comma"),
    ("CROSS", "CROSS"),
    ("NATURAL", "NATURAL"),
    ("INNER", "INNER"),
    ("LEFT", "LEFT"),
    ("RIGHT", "RIGHT"),
    ("FULL", "FULL"),
    ("OUTER", "OUTER"),
    ("JOIN", "JOIN"),
    ("ON", "ON"),
    ("USING", "USING"),
    ("NOT", "NOT"),
    ("AND", "AND"),
    ("OR", "OR"),
    ("IS", "IS"),
    ("IN", "IN"),
    ("BETWEEN", "BETWEEN"),
    ("NULL", "NULL"),
    ("TRUE", "TRUE"),
    ("FALSE", "FALSE"),
    ("UNKNOWN", "UNKNOWN"),
];

// Whether this text is a clause, or one begins with it.
fn is_begun(alloc: Global, text: &str) -> Result<bool, AllocError> {
    match parse(alloc, text) {
        Ok(_) => Ok(true),
        Err(ParseRefused::Syntax(byte)) => Ok(byte >= text.len() as u64),
        Err(ParseRefused::Memory) => Err(AllocError),
        Err(_) => Ok(false),
    }
}

// Whether a clause may begin with a text and then this word.
fn may_follow(alloc: Global, text: &str, word: &str) -> Result<bool, AllocError> {
    let tried = format!(in alloc; "{text} {word}")?;
    is_begun(alloc, tried.as_str())
}

// Adds one of several to a list.
fn push_called(list: &mut String, called: &str) -> Result<(), AllocError> {
    if !list.is_empty() {
        list.push_str(" or ")?;
    }
    list.push_str(called)
}

// Adds to a list what may stand behind a text that a clause begins with.
fn push_wanted(alloc: Global, text: &str, list: &mut String) -> Result<(), AllocError> {
    for (word, called) in &WORDS {
        if may_follow(alloc, text, *word)? {
            push_called(list, *called)?;
        }
    }
    if parse(alloc, text).is_ok() {
        push_called(list, "the end")?;
    }
    Ok(())
}

// What may stand behind a text that a clause begins with.
fn wanted(alloc: Global, text: &str) -> Result<String, AllocError> {
    let mut list = String::new(alloc);
    push_wanted(alloc, text, &mut list)?;
    Ok(list)
}

fn is_name_byte(byte: u8) -> bool {
    byte.is_ascii_alphanumeric() || byte == b'_'
}

// How many bytes of a word the text begins with.
fn word_len(text: &[u8]) -> usize {
    text.iter().take_while(|b| is_name_byte(**b)).count()
}

// How many bytes of a number without its sign the text begins with, including letters that run into
// it.
fn number_len(text: &[u8]) -> usize {
    let whole = word_len(text);
    match text.get(whole..) {
        Some([b'.', rest @ ..]) if rest.first().is_some_and(u8::is_ascii_digit) => {
            whole.saturating_add(1).saturating_add(word_len(rest))
        }
        _ => whole,
    }
}

// How many bytes the quoted text takes that a text begins with, its quotes included, or 0 if they
// aren't closed.
fn quoted_len(alloc: Global, quote: u8, text: &str) -> Result<usize, AllocError>
    requires { quote < 128 }
{
    let Some(inner) = text.get(1..) else {
        return Ok(0);
    };
    Ok(match quoted(alloc, quote, inner)? {
        Some((_, rest)) => text.len().saturating_sub(rest.len()),
        None => 0,
    })
}

// How many bytes the token takes that a text begins with, unless it is one byte or a character that
// begins no token.
fn long_token_len(alloc: Global, text: &str) -> Result<usize, AllocError> {
    Ok(match text.as_bytes() {
        [b'<', b'>' | b'=', ..] | [b'>' | b'!', b'=', ..] => 2,
        [b'+' | b'-', rest @ ..] if rest.first().is_some_and(u8::is_ascii_digit) => {
            number_len(rest).saturating_add(1)
        }
        [b'0'..=b'9', ..] => number_len(text.as_bytes()),
        [quote @ (b'"' | b'\''), ..] => quoted_len(alloc, *quote, text)?,
        bytes => word_len(bytes),
    })
}

// How many bytes the token takes that a text begins with. If there is no token, it is its first
// character.
fn token_len(alloc: Global, text: &str) -> Result<usize, AllocError> {
    let first = text.chars().next().map_or(0, char::len_utf8);
    Ok(first.max(long_token_len(alloc, text)?))
}

// Whether a character at one byte of a clause is shown round another byte.
fn is_near(at: usize, byte: usize) -> bool {
    at.saturating_add(50) >= byte && at <= byte.saturating_add(30)
}

// Adds the part of a clause round a byte to a text, and tells how many of its characters stand
// before that byte.
fn push_near(text: &mut String, clause: &str, byte: usize) -> Result<usize, AllocError> {
    let mut before = 0usize;
    for (at, c) in clause.char_indices() {
        if is_near(at, byte) {
            text.push(if c.is_ascii_control() { ' ' } else { c })?;
            before = before.saturating_add(usize::from(at < byte));
        }
    }
    Ok(before)
}

// The part of a clause round a byte, and under it a mark at that byte.
fn marked(alloc: Global, clause: &str, byte: usize) -> Result<String, AllocError> {
    let mut shown = String::new(alloc);
    let before = push_near(&mut shown, clause, byte)?;
    let blanks = " ".repeat(alloc, before)?;
    format!(in alloc; "  {shown}\n  {blanks}^\n")
}

// The line that tells what stands at a byte of a clause, and what might stand there, before its
// part round that byte.
fn found_lines(
    alloc: Global,
    behind: &str,
    wanted: &str,
    marked: &str,
) -> Result<String, AllocError> {
    if behind.is_empty() {
        return format!(in alloc; "  found the end, wanted {wanted}\n{marked}");
    }
    let len = token_len(alloc, behind)?;
    let found = Shown {
        bytes: &behind.as_bytes()[..len.min(behind.len())],
    };
    format!(in alloc; "  found {found}, wanted {wanted}\n{marked}")
}

/// The lines for a text that stops being a clause at a byte: what is there, what might be there,
/// and the text with a mark. If a column's name is there that needs double quotes, also that.
///
/// # Errors
///
/// It fails only when memory runs out.
pub(crate) fn syntax_lines(
    alloc: Global,
    inputs: &Inputs<'_, '_>,
    byte: u64,
) -> Result<String, AllocError> {
    let clause = inputs.request.clause;
    let Some((before, behind)) = clause.split_at_checked(byte as usize) else {
        return Ok(String::new(alloc));
    };
    let mut marked = marked(alloc, clause, byte as usize)?;
    marked.push_str(quoting_line(alloc, inputs, byte)?.as_str())?;
    let wanted = wanted(alloc, before)?;
    found_lines(alloc, behind, wanted.as_str(), marked.as_str())
}
