//! Texts that aren't type lists.

ghost use Rattle.std.specs.Prelude.{◌≡◌, IfOk, string_bytes};
ghost use Rattle.rj_explain.specs.Lines as lines;
ghost use Rattle.rj_explain.specs.Listed.{IsListTold};

use crate::entries::{bad_entry, is_list};
use crate::quoting::delimited;
use rj_line::shown::Shown;
use std::alloc::{AllocError, Global};

// Why this text isn't the precision and scale of a numeric type.
fn why_no_numeric(numbers: &str) -> &'static str {
    let (precision, scale) = match numbers.split_once(',') {
        Some(pair) => pair,
        None => match numbers.split_once(':') {
            Some(pair) => pair,
            None => return "a number is written num(p,s), as num(9,2)",
        },
    };
    match (
        precision.parse::<u64>(),
        scale.strip_suffix(')').unwrap_or(scale).parse::<u64>(),
    ) {
        (Ok(precision), _) if precision == 0 || precision > 18 => "p is 1 to 18",
        (Ok(precision), Ok(scale)) if scale > precision => "s is 0 to p",
        _ => "a number is written num(p,s), as num(9,2), without blanks",
    }
}

// Why this isn't the word of a type.
fn why_no_type(word: &str) -> &'static str {
    match word.strip_prefix("num(") {
        Some(numbers) => why_no_numeric(numbers),
        None => match word.strip_prefix("num:") {
            Some(numbers) => why_no_numeric(numbers),
            None => "a type is int, num(p,s) or text, and a name before it stands before =",
        },
    }
}

// Why this isn't a name that stands before a type.
fn why_no_name(alloc: Global, name: &str, word: &str) -> Result<String, AllocError> {
    match delimited(alloc, name)? {
        Some(name) => format!(in alloc; "a name like this is between double quotes: {name}={word}"),
        None => String::from_str(alloc, "a name like this is between double quotes"),
    }
}

// Whether a word that isn't one of a type looks like the name of a file.
fn looks_like_file(word: &str) -> bool {
    !word.starts_with("num") && (word.contains('.') || word.contains('/'))
}

// Why an entry without a name is invalid.
fn why_no_unnamed(word: &str) -> &'static str {
    if looks_like_file(word) {
        return "a list that is in a file is @ and the name of the file";
    }
    why_no_type(word)
}

// Why an entry is invalid.
fn why_no_entry(alloc: Global, entry: &str) -> Result<String, AllocError> {
    if is_list(alloc, entry.trim())? {
        return String::from_str(alloc, "no blank stands before or behind an entry");
    }
    let Some((name, word)) = entry.rsplit_once('=') else {
        return String::from_str(alloc, why_no_unnamed(entry));
    };
    if !is_list(alloc, word.trim())? || name.is_empty() || name.contains('"') {
        return String::from_str(alloc, why_no_type(word));
    }
    if name.trim().len() < name.len() || word.trim().len() < word.len() {
        return String::from_str(alloc, "no blank stands before or behind =");
    }
    why_no_name(alloc, name, word)
}

// The line that shows an entry, and what it has to be.
fn entry_line(alloc: Global, entry: &str, why: &str) -> Result<String, AllocError>
    ensures { IfOk result (λ s. string_bytes s ≡ lines.entry_line entry.now why.now) }
{
    let entry = Shown {
        bytes: entry.as_bytes(),
    };
    format!(in alloc; "  {entry}: {why}\n")
}

// What a list has to be whose entries are valid, each by itself.
const MIXED: &str = "  a name stands before each type or before none, and * before one at most\n";

// The same of a list for both tables.
const SHARED: &str = "  a name stands before each type, as in id=int,price=num(9,2)\n";

// The lines for a text that isn't a list, with this rule if each entry is valid by itself.
fn explain_by(alloc: Global, list: &str, rule: &str) -> Result<String, AllocError>
    ensures { IfOk result (λ s. IsListTold rule.now list.now (string_bytes s)) }
{
    match bad_entry(alloc, list)? {
        Some(entry) => entry_line(alloc, entry, why_no_entry(alloc, entry)?.as_str()),
        None => String::from_str(alloc, rule),
    }
}

/// The lines for a text that isn't a type list: the first invalid entry, and what it has to be.
///
/// # Errors
///
/// It fails only when memory runs out.
pub fn explain_list(alloc: Global, list: &str) -> Result<String, AllocError>
    ensures { IfOk result (λ s. IsListTold lines.mixed_line list.now (string_bytes s)) }
{
    explain_by(alloc, list, MIXED)
}

/// The same for a text that isn't a type list for both tables.
///
/// # Errors
///
/// It fails only when memory runs out.
pub(crate) fn explain_shared_list(alloc: Global, list: &str) -> Result<String, AllocError>
    ensures { IfOk result (λ s. IsListTold lines.shared_line list.now (string_bytes s)) }
{
    explain_by(alloc, list, SHARED)
}
