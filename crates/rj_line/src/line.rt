//! Reading the words of the command line.

ghost use Rattle.std.specs.Prelude.{◌≡◌, ◌-◌, ◌^◌, ◌≤◌, IfOk, IfErr, Some, codes, is_some, map, true};
ghost use Rattle.clap.specs.Words.{first_value, found_of};
ghost use Rattle.rj_line.specs.Choices.{GivesSide, IsChoiceOf, order_name};
ghost use Rattle.rj_line.specs.Delimiters.{AreDelimitersOf};
ghost use Rattle.rj_line.specs.Forms.{default_strictness};
ghost use Rattle.rj_line.specs.Named.{IsNameOf, IsNamedOr, is_true};
ghost use Rattle.rj_line.specs.Line as lines;
ghost use Rattle.rj_line.specs.Line.{AreNumbersIn, AreSettings, HasValues, IsChosenFault, IsFaultIn, IsLineFault, IsLineIn, IsLineOf, IsNumberIn, IsNumberOr, IsParseError, IsParseOf, IsRequestFault, IsRequestOf, IsStrictName, IsStrictness, hash_name, texts_found};

use crate::choice::{choice_of, is_looked_for};
use crate::delimiters::{Delimiters, delimiters_of};
use crate::expecting::{expectation_of, number_of};
use crate::fault::{Fault, Side};
use crate::flags::{has_value, is_given, is_word};
use crate::form::{
    Form, default_strictness, default_workers, explains_by_word, form_of, is_explained, is_short,
};
use crate::nulls::read_nulls;
use crate::options::line_command;
use crate::request::{Hash, Request, Strictness};
use crate::types::{is_auto, shared_types_of, types_of};
use clap::{ArgMatches, Error};
use rj_settings::{Choice, Settings};
use std::alloc::Global;

/// What the words of the command line say.
#[derive(Drop)]
pub struct Line<'a> {
    /// The name of the left table's file.
    pub left: &'a str,
    /// The name of the right table's file.
    pub right: &'a str,
    /// What is asked of the two tables.
    pub request: Request<'a>,
    /// Whether the statistics are asked for.
    pub stats: bool,
    /// Whether an error is explained by further lines.
    pub explain: bool,
    /// Whether all that explains it is asked for. Then it is explained, too.
    pub explain_all: bool,
    /// The name of the file to which the result is written, in place of standard output.
    pub output: Option<&'a str>,
    /// Whether the numbers of rows are asked for in place of the rows.
    pub count: bool,
    /// Whether the progress of the run is shown from the beginning.
    pub progress: bool,
    /// Whether standard error gets nothing but the line of an error.
    pub quiet: bool,
    /// Whether columns without a name, or with one that is repeated, get names.
    pub unnamed: bool,
}

// The parsed words of a line of this form, as `clap` matches them.
fn parse_words<'a>(alloc: Global, words: &'a [&'a str], form: Form) -> Result<ArgMatches<'a>, Error>
    ensures ok { IfOk result (IsParseOf form (map (λ w. w.now) words.entry.now)) }
    ensures error { IfErr result (IsParseError form (map (λ w. w.now) words.entry.now)) }
{
    let command = line_command(alloc, form, explains_by_word(words))?;
    match command.try_get_matches_from(words) {
        Ok(matches) => Ok(matches),
        Err(error) => Err(error),
    }
}

// The value of an option that must be given.
fn given<'a>(matches: &ArgMatches<'a>, name: &str) -> &'a str
    requires { is_some (first_value (found_of matches.now) name.now) ≡ true }
    ensures { first_value (found_of matches.now) name.now ≡ Some result.now }
{
    matches.get_str(name).unwrap()
}

// The number of an option, or another one if it is not given.
fn number_or(matches: &ArgMatches<'_>, name: &str, other: u32) -> u32
    requires { IsNumberIn 0 (2 ^ 32 - 1) (first_value (found_of matches.now) name.now) }
    ensures { IsNumberOr other (first_value (found_of matches.now) name.now) result }
{
    number_of(matches, name).unwrap_or(other)
}

// The settings of a join. The defaults are this many workers, 16 partitions that are not divided
// further, blocks of 1,024 rows, one lane of 64 parcels, one retry, and pieces of 65,536 rows.
fn settings_of(matches: &ArgMatches<'_>, workers: u32) -> Settings
    requires numbers { AreNumbersIn (first_value (found_of matches.now)) }
    requires some { 1 ≤ workers }
    requires few { workers ≤ 64 }
    ensures { AreSettings workers (first_value (found_of matches.now)) result }
{
    Settings {
        workers: number_or(matches, "workers", workers),
        bits1: number_or(matches, "bits1", 4),
        bits2: number_or(matches, "bits2", 0),
        block: number_or(matches, "block", 1024),
        lanes: number_or(matches, "lanes", 1),
        capacity: number_or(matches, "capacity", 64),
        retries: number_or(matches, "retries", 1),
        piece: number_or(matches, "piece", 65_536),
    }
}

// The hash that is named, or the plain one if none is.
fn hash_of(matches: &ArgMatches<'_>) -> Hash
    requires { IsNameOf hash_name (first_value (found_of matches.now) (codes "hash")) }
    ensures { IsNamedOr hash_name Hash.Plain (first_value (found_of matches.now) (codes "hash")) result }
{
    match matches.get_str("hash") {
        Some("mixed") => Hash::Mixed,
        _ => Hash::Plain,
    }
}

// How strictly the files are read, or the other answer if the option isn't given.
fn strictness_or(matches: &ArgMatches<'_>, other: Strictness) -> Strictness
    requires { IsStrictName (first_value (found_of matches.now) (codes "strict")) }
    ensures { IsStrictness other (first_value (found_of matches.now) (codes "strict")) result }
{
    match matches.get_str("strict") {
        Some("full") => Strictness::Full,
        Some(_) => Strictness::On,
        None => other,
    }
}

// How strictly the files are read in a line of this form.
fn strictness_of(matches: &ArgMatches<'_>, form: Form) -> Strictness
    requires { IsStrictName (first_value (found_of matches.now) (codes "strict")) }
    ensures { IsStrictness (default_strictness form (is_true (first_value (found_of matches.now) (codes "lenient"))))
        (first_value (found_of matches.now) (codes "strict")) result }
{
    strictness_or(
        matches,
        default_strictness(form, is_given(matches, "lenient")),
    )
}

// Whether all that explains an error is asked for.
fn asks_all(matches: &ArgMatches<'_>) -> bool
    ensures { result ≡ lines.asks_all (first_value (found_of matches.now)) }
{
    is_word(matches, "explain", "all")
}

// Whether an error is to be explained, as a flag says or by the word for all.
fn is_to_explain(matches: &ArgMatches<'_>) -> bool
    ensures { result ≡ lines.is_to_explain (first_value (found_of matches.now)) }
{
    is_given(matches, "explain") || asks_all(matches)
}

// Whether a line of this form asks for errors to be explained.
fn asks_explained(matches: &ArgMatches<'_>, form: Form) -> bool
    ensures { result ≡ lines.asks_explained form (first_value (found_of matches.now)) }
{
    is_explained(
        form,
        is_to_explain(matches),
        is_given(matches, "terse"),
        is_given(matches, "quiet"),
    )
}

// Whether nothing but errors is to be printed, and explanations or the progress too.
fn is_quiet_twice(matches: &ArgMatches<'_>) -> bool
    ensures { result ≡ lines.is_quiet_twice (first_value (found_of matches.now)) }
{
    is_given(matches, "quiet") && (is_to_explain(matches) || is_given(matches, "progress"))
}

// Whether rows, columns or their order are chosen.
fn is_chosen(matches: &ArgMatches<'_>) -> bool
    ensures { result ≡ lines.is_chosen (first_value (found_of matches.now)) }
{
    is_looked_for(matches)
        || has_value(matches, "rows")
        || has_value(matches, "columns")
        || has_value(matches, "select")
        || has_value(matches, "order")
}

// Whether they are, and the rows are to be counted, whichever they are.
fn is_counted_choice(matches: &ArgMatches<'_>) -> bool
    ensures { result ≡ lines.is_counted_choice (first_value (found_of matches.now)) }
{
    is_given(matches, "count") && is_chosen(matches)
}

// The delimiters of the tables and of the result, and what is chosen of the joined table.
fn chosen_of<'a>(
    alloc: Global,
    matches: &ArgMatches<'a>,
    form: Form,
) -> Result<(Delimiters, Choice<'a>), Fault>
    requires order { IsNameOf order_name (first_value (found_of matches.now) (codes "order")) }
    requires columns { GivesSide (first_value (found_of matches.now) (codes "columns")) }
    ensures delimiters { IfOk result (λ c. AreDelimitersOf (first_value (found_of matches.now)) c.0) }
    ensures choice { IfOk result (λ c. IsChoiceOf form (first_value (found_of matches.now)) c.1) }
    ensures fault { IfErr result (IsChosenFault form (first_value (found_of matches.now))) }
{
    let Some(delimiters) = delimiters_of(matches) else {
        return Err(Fault::BadDelimiter);
    };
    match choice_of(alloc, matches, form) {
        Ok(choice) => Ok((delimiters, choice)),
        Err(fault) => Err(fault),
    }
}

// What the values of the options of a line of this form ask of two tables.
fn request_of<'a>(
    alloc: Global,
    matches: &ArgMatches<'a>,
    form: Form,
    processors: usize,
) -> Result<Request<'a>, Fault>
    requires { HasValues form (first_value (found_of matches.now)) }
    ensures request { IfOk result (IsRequestOf form processors (first_value (found_of matches.now)) (texts_found (found_of matches.now))) }
    ensures fault { IfErr result (IsRequestFault form (first_value (found_of matches.now)) (texts_found (found_of matches.now))) }
{
    let types = shared_types_of(alloc, matches)?;
    let shared = types.as_slice();
    let left = types_of(alloc, matches, "left-types", Side::Left, shared, form)?;
    let right = types_of(alloc, matches, "right-types", Side::Right, shared, form)?;
    let null = matches.get_str("null").unwrap_or("");
    let left_nulls = match read_nulls(alloc, matches, "left-null", null, Side::Left) {
        Ok(nulls) => nulls,
        Err(fault) => return Err(fault),
    };
    let right_nulls = match read_nulls(alloc, matches, "right-null", null, Side::Right) {
        Ok(nulls) => nulls,
        Err(fault) => return Err(fault),
    };
    let (delimiters, choice) = match chosen_of(alloc, matches, form) {
        Ok(chosen) => chosen,
        Err(fault) => return Err(fault),
    };
    Ok(Request {
        left_types: left.entries,
        right_types: right.entries,
        shared_types: types,
        auto_types: is_auto(matches),
        left_undeclared: left.undeclared,
        right_undeclared: right.undeclared,
        left_nulls,
        right_nulls,
        out_null: matches.get_str("out-null").unwrap_or(null),
        left_delimiter: delimiters.left,
        right_delimiter: delimiters.right,
        out_delimiter: delimiters.out,
        strict: strictness_of(matches, form),
        clause: given(matches, "join"),
        short: is_short(form),
        settings: settings_of(matches, default_workers(form, processors)),
        hash: hash_of(matches),
        tells_pieces: matches.get_str("piece").is_some(),
        choice,
        expectation: expectation_of(matches),
        report: is_given(matches, "report"),
    })
}

// Reads the words after the program's name in this form.
fn read_in_form<'a>(
    alloc: Global,
    words: &'a [&'a str],
    form: Form,
    processors: usize,
) -> Result<Line<'a>, Fault>
    ensures line { IfOk result (IsLineIn form processors (map (λ w. w.now) words.entry.now)) }
    ensures fault { IfErr result (IsFaultIn form (map (λ w. w.now) words.entry.now)) }
{
    let matches = parse_words(alloc, words, form)?;
    let request = match request_of(alloc, &matches, form, processors) {
        Ok(request) => request,
        Err(fault) => return Err(fault),
    };
    if is_quiet_twice(&matches) {
        return Err(Fault::QuietTwice);
    }
    if is_counted_choice(&matches) {
        return Err(Fault::CountedChoice);
    }
    Ok(Line {
        left: given(&matches, "left"),
        right: given(&matches, "right"),
        request,
        stats: is_given(&matches, "stats"),
        explain: asks_explained(&matches, form),
        explain_all: asks_all(&matches),
        output: matches.get_str("output"),
        count: is_given(&matches, "count"),
        progress: is_given(&matches, "progress"),
        quiet: is_given(&matches, "quiet"),
        unnamed: is_given(&matches, "unnamed"),
    })
}

/// Reads the words after the program's name, in the form that they have. In the short form there is
/// a worker for each of these processors where the words don't say, from 1 to 64.
///
/// # Errors
///
/// `CommandLine` for a line that `clap` refuses, or that asks for help or the version. Then come,
/// in this order: a bad type list, that for both tables, the left one, the right one; more than
/// four NULL texts on the left, and on the right; `BadDelimiter` if that of a table or of the result
/// is none; `ChosenTwice`; `SelectedTwice`; a bad list of kinds of rows; a bad list of columns;
/// `MatchedLeftColumns`; a bad suffix; `QuietTwice`; and `CountedChoice`. `Memory` comes only when
/// memory ran out.
pub fn read_line<'a>(
    alloc: Global,
    words: &'a [&'a str],
    processors: usize,
) -> Result<Line<'a>, Fault>
    ensures line { IfOk result (IsLineOf processors (map (λ w. w.now) words.entry.now)) }
    ensures fault { IfErr result (IsLineFault (map (λ w. w.now) words.entry.now)) }
{
    read_in_form(alloc, words, form_of(words), processors)
}
