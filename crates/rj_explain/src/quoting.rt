//! Names that are written between double quotes.

use crate::inputs::Inputs;
use rj_line::fault::Side;
use std::alloc::{AllocError, Global};
use std::str;

// The most bytes of a name that is shown so.
const LONGEST: usize = 60;

// The words that name no column unless they are between double quotes.
const KEYWORDS: [&str; 20] = [
    "AND", "BETWEEN", "CROSS", "FALSE", "FULL", "IN", "INNER", "IS", "JOIN", "LEFT", "NATURAL",
    "NOT", "NULL", "ON", "OR", "OUTER", "RIGHT", "TRUE", "UNKNOWN", "USING",
];

fn is_keyword(name: &str) -> bool {
    KEYWORDS.iter().any(|word| word.eq_ignore_ascii_case(name))
}

// Whether a name is a regular identifier of a clause.
fn is_regular(name: &str) -> bool {
    let bytes = name.as_bytes();
    match bytes.first() {
        Some(first) => {
            first.is_ascii_alphabetic()
                && bytes
                    .iter()
                    .all(|b| b.is_ascii_alphanumeric() || *b == b'_')
                && !is_keyword(name)
        }
        None => false,
    }
}

/// A name between double quotes, with each one in it doubled. There is none for a name that is too
/// long to be shown or has control characters.
///
/// # Errors
///
/// It fails only when memory runs out.
pub(crate) fn delimited(alloc: Global, name: &str) -> Result<Option<String>, AllocError> {
    if name.len() > LONGEST || name.as_bytes().iter().any(u8::is_ascii_control) {
        return Ok(None);
    }
    let mut text = String::from_str(alloc, "\"")?;
    for character in name.chars() {
        text.push(character)?;
        if character == '"' {
            text.push(character)?;
        }
    }
    text.push('"')?;
    Ok(Some(text))
}

// Whether a part of a text has this byte in it and is these bytes, ignoring ASCII case.
fn is_around(text: &[u8], byte: usize, part: &[u8]) -> bool {
    for before in 0..part.len() {
        let first = byte.saturating_sub(before);
        let Some(found) = text.get(first..first.saturating_add(part.len())) else {
            continue;
        };
        if found.eq_ignore_ascii_case(part) {
            return true;
        }
    }
    false
}

// The line for a name of a side's table.
fn name_line(alloc: Global, side: Side, name: &str) -> Result<Option<String>, AllocError> {
    let Some(name) = delimited(alloc, name)? else {
        return Ok(None);
    };
    let line = format!(in alloc;
        "  {side} has a column {name}: write the name so, between double quotes\n"
    )?;
    Ok(Some(line))
}

// The line for the first of a side's names that is at a byte of a clause, and is no regular
// identifier.
fn line_of_names(
    alloc: Global,
    clause: &str,
    byte: usize,
    side: Side,
    names: &[&[u8]],
) -> Result<Option<String>, AllocError> {
    for bytes in names {
        let Ok(name) = str::from_utf8(*bytes) else {
            continue;
        };
        if !is_regular(name) && is_around(clause.as_bytes(), byte, *bytes) {
            return name_line(alloc, side, name);
        }
    }
    Ok(None)
}

fn line_of_side(
    alloc: Global,
    inputs: &Inputs<'_, '_>,
    byte: u64,
    side: Side,
) -> Result<Option<String>, AllocError> {
    let Some(header) = inputs.table(side).header(alloc)? else {
        return Ok(None);
    };
    let names = header.names(alloc)?;
    line_of_names(
        alloc,
        inputs.request.clause,
        byte as usize,
        side,
        names.as_slice(),
    )
}

/// The line for the name of a column that is at a byte of the clause, where the clause has it
/// without the double quotes that it needs. It is empty if there is no such name.
///
/// # Errors
///
/// It fails only when memory runs out.
pub(crate) fn quoting_line(
    alloc: Global,
    inputs: &Inputs<'_, '_>,
    byte: u64,
) -> Result<String, AllocError> {
    if let Some(line) = line_of_side(alloc, inputs, byte, Side::Left)? {
        return Ok(line);
    }
    match line_of_side(alloc, inputs, byte, Side::Right)? {
        Some(line) => Ok(line),
        None => Ok(String::new(alloc)),
    }
}
