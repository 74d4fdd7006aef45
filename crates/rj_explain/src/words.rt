//! Words of a command line with a text that isn't a type list.

ghost use Rattle.std.specs.Prelude.{◌≡◌, ◌+◌, ◌++◌, ◌∷◌, [], IfOk, MatchOption, drop, false, length, map, nat_eq, option_map, string_bytes, true};
ghost use Rattle.std.specs.List.{starts_with};
ghost use Rattle.std.specs.Option.{option_copied};
ghost use Rattle.rj_explain.specs.Lines as lines;
ghost use Rattle.rj_explain.specs.Listed as listed;
ghost use Rattle.rj_explain.specs.Listed.{AreWordsTold, IsValueTold, value_of};

use crate::lists::{explain_list, explain_shared_list};
use rj_line::fault::{Fault, Side};
use std::alloc::{AllocError, Global};

// Which rows may be asked for.
const ROWS_RULE: &str =
    "  --rows takes pairs or matched-left, lone-left and lone-right, once each, with single commas\n";

// What a list of columns may be.
const SELECT_RULE: &str =
    "  --select takes entries as L.id, name or R.city=town, with single commas and no blanks; a name with other signs is between double quotes\n";

// What a delimiter may be.
const DELIMITER_RULE: &str =
    "  a delimiter is one ASCII character that is no letter, digit or double quote, or the word tab\n";

// The value in a word that is an option, `=` and its value.
fn value_in<'w>(word: &'w str, option: &str) -> Option<&'w str>
    ensures { MatchOption result (starts_with nat_eq word.now (option.now ++ 61 ∷ []) ≡ false)
        (λ value. (starts_with nat_eq word.now (option.now ++ 61 ∷ []) ≡ true) × (value.now ≡ drop (length option.now + 1) word.now)) }
{
    match word.strip_prefix(option) {
        Some(behind) => behind.strip_prefix('='),
        None => None,
    }
}

// The value that an option has among words.
fn value_among<'w>(words: &[&'w str], option: &str) -> Option<&'w str>
    ensures { option_copied result ≡ value_of option.now (map (λ w. w.now) words.now) }
{
    let mut left = words;
    while let [word, rest @ ..] = left {
        if *word == option {
            return rest.first().copied();
        }
        if let Some(value) = value_in(*word, option) {
            return Some(value);
        }
        left = rest;
    }
    None
}

// The option of a side's types.
fn types_option(side: Side) -> &'static str
    ensures { result.now ≡ listed.types_option side }
{
    match side {
        Side::Left => "--left-types",
        Side::Right => "--right-types",
    }
}

// The lines for a list, if there is one.
fn lines_of_value(alloc: Global, list: Option<&str>) -> Result<Option<String>, AllocError>
    ensures { IfOk result (λ o. IsValueTold lines.mixed_line (option_copied list.entry) (option_map string_bytes o)) }
{
    match list {
        Some(list) => Ok(Some(explain_list(alloc, list)?)),
        None => Ok(None),
    }
}

// The lines for a list for both tables, if there is one.
fn lines_of_shared(alloc: Global, list: Option<&str>) -> Result<Option<String>, AllocError>
    ensures { IfOk result (λ o. IsValueTold lines.shared_line (option_copied list.entry) (option_map string_bytes o)) }
{
    match list {
        Some(list) => Ok(Some(explain_shared_list(alloc, list)?)),
        None => Ok(None),
    }
}

/// The lines for an error of the command line with these words. They are those of
/// [`explain_list`], if the error is an invalid type list and its option has a value among the
/// words. For an invalid list of rows or of columns, and for an invalid delimiter, they say what it
/// may be. For all else there is no more to say.
///
/// # Errors
///
/// It fails only when memory runs out.
pub fn explain_words(
    alloc: Global,
    words: &[&str],
    fault: &Fault,
) -> Result<Option<String>, AllocError>
    ensures { IfOk result (λ o. AreWordsTold fault.now (map (λ w. w.now) words.now) (option_map string_bytes o)) }
{
    match fault {
        Fault::BadTypeList(side) => {
            lines_of_value(alloc, value_among(words, types_option(*side)))
        }
        Fault::BadSharedTypeList => lines_of_shared(alloc, value_among(words, "--types")),
        Fault::BadRows => Ok(Some(String::from_str(alloc, ROWS_RULE)?)),
        Fault::BadSelect => Ok(Some(String::from_str(alloc, SELECT_RULE)?)),
        Fault::BadDelimiter => Ok(Some(String::from_str(alloc, DELIMITER_RULE)?)),
        _ => Ok(None),
    }
}
