//! What the command line chooses of the joined table: which rows, in which order, and which columns under which names.

ghost use Rattle.std.specs.Prelude.{◌≡◌, ◌≢◌, ◌==◌, ◌↔◌, Bool, IfOk, IfErr, IsTrue, MatchOption, codes, map, option_map};
ghost use Rattle.std.specs.List.{count_by, list_all, slice_split};
ghost use Rattle.std.specs.Str.{bytes_eq};
ghost use Rattle.clap.specs.Words.{first_value, found_of};
ghost use Rattle.rj_settings.specs.declared.choice.ColumnChoice.{ColumnChoice};
ghost use Rattle.rj_settings.specs.declared.choice.Repeated.{Repeated};
ghost use Rattle.rj_settings.specs.declared.choice.RowKinds.{RowKinds};
ghost use Rattle.rj_line.specs.Choices as choices;
ghost use Rattle.rj_line.specs.Choices.{AreColumnsOf, AreKinds, AreNamedColumns, AreRowsOf, GivesNoColumns, GivesNoRows, GivesSide, IsAskedOnce, IsChoiceFault, IsChoiceOf, IsRepeatedOr, StandsWhere, columns_word, order_name, rows_word, unsaid_repeated};
ghost use Rattle.rj_line.specs.Named.{IsNameOf, IsNamedOr};

use crate::fault::Fault;
use crate::flags::{has_value, is_given};
use crate::form::{Form, default_repeated};
use clap::ArgMatches;
use rj_settings::types::read_selected;
use rj_settings::{Choice, ColumnChoice, Repeated, RowKinds, RowOrder};
use std::alloc::{AllocError, Global};

// Whether a word is the name of a kind of rows.
fn is_kind(word: &str) -> bool
    ensures { result ≡ choices.is_kind word.now }
{
    word == "pairs" || word == "matched-left" || word == "lone-left" || word == "lone-right"
}

// Whether all words are names of kinds of rows.
fn are_kinds(words: &[&str]) -> bool
    ensures { result ≡ list_all (λ w. choices.is_kind w.now) words.now }
{
    words.iter().all(|word| is_kind(word))
}

// How often a word is among words.
fn times(words: &[&str], word: &str) -> usize
    ensures { result ≡ count_by (λ w. bytes_eq w word.now) (map (λ w. w.now) words.now) }
{
    words.iter().filter(|other| **other == word).count()
}

// Whether a word is among words, or none if it is there more than once.
fn stands_once(words: &[&str], word: &str) -> Option<bool>
    ensures { MatchOption result ((says : Bool) → StandsWhere word.now (map (λ w. w.now) words.now) says → ⊥) (StandsWhere word.now (map (λ w. w.now) words.now)) }
{
    match times(words, word) {
        0 => Some(false),
        1 => Some(true),
        _ => None,
    }
}

// The kinds of rows that these words name. None if they name no kind, one twice, or both matches
// and matched left rows.
fn kinds_of(words: &[&str]) -> Option<RowKinds>
    ensures { MatchOption result ((k : RowKinds) → AreKinds (map (λ w. w.now) words.now) k → ⊥) (AreKinds (map (λ w. w.now) words.now)) }
{
    if !are_kinds(words) {
        return None;
    }
    let pairs = stands_once(words, "pairs")?;
    let matched_left = stands_once(words, "matched-left")?;
    let lone_left = stands_once(words, "lone-left")?;
    let lone_right = stands_once(words, "lone-right")?;
    if pairs && matched_left {
        return None;
    }
    Some(RowKinds {
        pairs,
        matched_left,
        lone_left,
        lone_right,
    })
}

/// Whether rows are asked for by a word for what is looked for.
pub(crate) fn is_looked_for(matches: &ArgMatches<'_>) -> bool
    ensures { result ≡ choices.is_looked_for (first_value (found_of matches.now)) }
{
    is_given(matches, "anti") || is_given(matches, "semi")
}

// Whether the same is asked for by two options.
fn is_chosen_twice(matches: &ArgMatches<'_>) -> bool
    ensures { result ≡ choices.is_chosen_twice (first_value (found_of matches.now)) }
{
    (is_given(matches, "anti") && is_given(matches, "semi"))
        || (is_looked_for(matches) && (has_value(matches, "rows") || has_value(matches, "columns")))
}

// Whether columns are named by a list, and so is what the list is in place of.
fn is_selected_twice(matches: &ArgMatches<'_>) -> bool
    ensures { result ≡ choices.is_selected_twice (first_value (found_of matches.now)) }
{
    has_value(matches, "select")
        && (has_value(matches, "columns") || has_value(matches, "repeated"))
}

// What names the kinds of rows, if anything does.
fn rows_text<'a>(matches: &ArgMatches<'a>) -> Option<&'a str>
    ensures { option_map (λ s. s.now) result ≡ rows_word (first_value (found_of matches.now)) }
{
    if is_given(matches, "anti") {
        Some("lone-left")
    } else if is_given(matches, "semi") {
        Some("matched-left")
    } else {
        matches.get_str("rows")
    }
}

// The kinds of rows that are asked for.
fn rows_of(alloc: Global, matches: &ArgMatches<'_>) -> Result<RowKinds, Fault>
    ensures rows { IfOk result (AreRowsOf (rows_word (first_value (found_of matches.now)))) }
    ensures fault { IfErr result (λ f. f ≢ Fault.Memory → (f ≡ Fault.BadRows) × GivesNoRows (rows_word (first_value (found_of matches.now)))) }
{
    let Some(text) = rows_text(matches) else {
        return Ok(RowKinds {
            pairs: true,
            matched_left: false,
            lone_left: true,
            lone_right: true,
        });
    };
    let words = words_between_commas(alloc, text)?;
    match kinds_of(words.as_slice()) {
        Some(kinds) => Ok(kinds),
        None => Err(Fault::BadRows),
    }
}

// The words of a text, between commas.
fn words_between_commas(alloc: Global, text: &str) -> Result<Vec<&str>, AllocError>
    ensures { IfOk result (λ v. map (λ w. w.now) v.items ≡ slice_split (λ b. b == 44) text.now) }
{
    text.split(',').collect(alloc)
}

// The order that is named, or pairs first if none is.
fn order_of(matches: &ArgMatches<'_>) -> RowOrder
    requires { IsNameOf order_name (first_value (found_of matches.now) (codes "order")) }
    ensures { IsNamedOr order_name RowOrder.PairsFirst (first_value (found_of matches.now) (codes "order")) result }
{
    match matches.get_str("order") {
        Some("left") => RowOrder::LeftFirst,
        _ => RowOrder::PairsFirst,
    }
}

// The columns that a word names, or all if none does.
fn named_columns(matches: &ArgMatches<'_>) -> ColumnChoice
    requires { GivesSide (first_value (found_of matches.now) (codes "columns")) }
    ensures { AreNamedColumns (columns_word (first_value (found_of matches.now))) result }
{
    if is_looked_for(matches) {
        return ColumnChoice::Left;
    }
    match matches.get_str("columns") {
        Some("left") => ColumnChoice::Left,
        Some("right") => ColumnChoice::Right,
        _ => ColumnChoice::All,
    }
}

// The columns that are asked for: those of a list, or else those that a word names.
fn columns_of(alloc: Global, matches: &ArgMatches<'_>) -> Result<ColumnChoice, Fault>
    requires { GivesSide (first_value (found_of matches.now) (codes "columns")) }
    ensures columns { IfOk result (AreColumnsOf (first_value (found_of matches.now))) }
    ensures fault { IfErr result (λ f. f ≢ Fault.Memory → (f ≡ Fault.BadSelect) × GivesNoColumns (first_value (found_of matches.now))) }
{
    let Some(text) = matches.get_str("select") else {
        return Ok(named_columns(matches));
    };
    match read_selected(alloc, text) {
        Ok(Some(entries)) => Ok(ColumnChoice::Selected(entries)),
        Ok(None) => Err(Fault::BadSelect),
        Err(_) => Err(Fault::Memory),
    }
}

// What becomes of names that occur twice where `--repeated` isn't given, in a line of this form.
fn unsaid_repeated<'a>(matches: &ArgMatches<'_>, form: Form) -> Repeated<'a>
    ensures { result ≡ unsaid_repeated form (first_value (found_of matches.now) (codes "select")) }
{
    match matches.get_str("select") {
        Some(_) => Repeated::Kept,
        None => default_repeated(form),
    }
}

// The most bytes that are added to a name at once.
const LONGEST_SUFFIX: usize = 16;

// What becomes of names that occur twice, or the other answer if `--repeated` isn't given.
fn repeated_or<'a>(matches: &ArgMatches<'a>, other: Repeated<'a>) -> Result<Repeated<'a>, Fault>
    ensures repeated { IfOk result (IsRepeatedOr other.entry (first_value (found_of matches.now) (codes "repeated"))) }
    ensures fault { IfErr result (λ f. (f ≡ Fault.BadSuffix)
        × ((r : Repeated) → IsRepeatedOr other.entry (first_value (found_of matches.now) (codes "repeated")) r → ⊥)) }
{
    match matches.get_str("repeated") {
        None => Ok(other),
        Some("keep") => Ok(Repeated::Kept),
        Some("qualify") => Ok(Repeated::Qualified),
        Some(suffix) => {
            if suffix.is_empty() || suffix.len() > LONGEST_SUFFIX {
                Err(Fault::BadSuffix)
            } else {
                Ok(Repeated::Suffixed(suffix))
            }
        }
    }
}

// Whether only the columns of the left table are chosen.
fn is_left(columns: &ColumnChoice) -> bool
    ensures { IsTrue result ↔ (columns.now ≡ ColumnChoice.Left) }
{
    match columns {
        ColumnChoice::Left => true,
        ColumnChoice::All | ColumnChoice::Right | ColumnChoice::Selected(_) => false,
    }
}

/// What the options choose of the joined table.
///
/// # Errors
///
/// `ChosenTwice` if `--anti` or `--semi` is given with the other one, `--rows` or `--columns`; then
/// `SelectedTwice` if `--select` is given with `--columns` or `--repeated`; then `BadRows` if
/// `--rows` isn't a list of kinds of rows; then `BadSelect` if `--select` isn't a list of columns;
/// then `MatchedLeftColumns` if matched left rows are asked for, and not only the columns of the
/// left table; then `BadSuffix` if a text to be added to names has no byte or more than 16.
/// `Memory` comes only when memory ran out.
pub(crate) fn choice_of<'a>(
    alloc: Global,
    matches: &ArgMatches<'a>,
    form: Form,
) -> Result<Choice<'a>, Fault>
    requires order { IsNameOf order_name (first_value (found_of matches.now) (codes "order")) }
    requires columns { GivesSide (first_value (found_of matches.now) (codes "columns")) }
    ensures choice { IfOk result (IsChoiceOf form (first_value (found_of matches.now))) }
    ensures fault { IfErr result (IsChoiceFault form (first_value (found_of matches.now))) }
{
    if is_chosen_twice(matches) {
        return Err(Fault::ChosenTwice);
    }
    if is_selected_twice(matches) {
        return Err(Fault::SelectedTwice);
    }
    let rows = rows_of(alloc, matches)?;
    let columns = columns_of(alloc, matches)?;
    if rows.matched_left && !is_left(&columns) {
        return Err(Fault::MatchedLeftColumns);
    }
    Ok(Choice {
        rows,
        order: order_of(matches),
        columns,
        repeated: repeated_or(matches, unsaid_repeated(matches, form))?,
    })
}
