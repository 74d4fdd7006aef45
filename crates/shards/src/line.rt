//! The command line.

ghost use Rattle.std.specs.Prelude.{◌≡◌, IfErr, IfOk, None, OnOk, Some, codes, map};
ghost use Rattle.clap.specs.Words.{first_value, found_of};
ghost use Rattle.rj_line.specs.Delimiters as delimiters;
ghost use Rattle.rj_line.specs.Line.{texts_found};
ghost use Rattle.shards.specs.Lines.{AreBoundsOf, AreGiven, IsLeftOf, IsLineFailure, IsLineOf, IsNumberOf, IsRightOf, IsShardsLine, IsTableFault, IsTaskOf, IsValueFailure, operand_of, side_named, strictness_named, text_or_none};

use crate::failure::Failure;
use crate::options::line_command;
use clap::ArgMatches;
use clap::error::ErrorKind;
use rj_command::{Strictness, TypeEntry, read_nulls, read_types};
use rj_csv_io::strict::Delimiter;
use rj_line::delimiter_of;
use rj_line::fault::{Fault, Side};
use std::alloc::Global;

/// One of the two tables.
#[derive(Drop)]
pub(crate) struct Operand<'a> {
    /// The name of its file.
    pub(crate) file: &'a str,
    /// The types of its columns, by position or by name.
    pub(crate) types: Vec<TypeEntry>,
    /// The texts that stand for NULL. The first of them is written for NULL.
    pub(crate) nulls: Vec<&'a str>,
    /// What stands between two fields of the file.
    pub(crate) delimiter: Delimiter,
}

/// Between which bytes a file is divided.
#[derive(Clone, Copy)]
pub(crate) struct Bounds {
    /// The first byte.
    pub(crate) from: u64,
    /// The byte to end before, or the end of the file.
    pub(crate) to: Option<u64>,
}

/// What to do with the file of one side.
#[derive(Clone, Copy)]
pub(crate) enum Task<'a> {
    /// Divide the bytes between two places into files of this folder.
    Divide(Bounds, &'a str),
    /// Print where the file can be cut into this many ranges.
    Cut(u32),
}

/// What the words of the command line say.
#[derive(Drop)]
pub(crate) struct Line<'a> {
    /// The side whose file is divided.
    pub(crate) side: Side,
    /// The left table.
    pub(crate) left: Operand<'a>,
    /// The right table.
    pub(crate) right: Operand<'a>,
    /// The text of the join clause.
    pub(crate) clause: &'a str,
    /// Whether the texts of the files have to be of RFC 4180's grammar.
    pub(crate) strict: Strictness,
    /// How many parts there are.
    pub(crate) parts: u32,
    /// What to do.
    pub(crate) task: Task<'a>,
}

impl<'a> Line<'a> {
    /// The table of a side.
    pub(crate) fn operand(&self, side: Side) -> &Operand<'a>
        ensures { result.now ≡ operand_of self.now side }
    {
        match side {
            Side::Left => &self.left,
            Side::Right => &self.right,
        }
    }
}

// The value of an option, or no text if it has none.
fn text_of<'a>(matches: &ArgMatches<'a>, name: &str) -> &'a str
    ensures { result.now ≡ text_or_none (first_value (found_of matches.now) name.now) }
{
    match matches.get_str(name) {
        Some(text) => text,
        None => "",
    }
}

// The byte that an option's value spells.
fn place_of(matches: &ArgMatches<'_>, name: &str) -> Option<u64>
    ensures { IsNumberOf 64 (first_value (found_of matches.now) name.now) result }
{
    match matches.get_str(name) {
        Some(text) => text.parse::<u64>().ok(),
        None => None,
    }
}

// The count that an option's value spells.
fn count_of(matches: &ArgMatches<'_>, name: &str) -> Option<u32>
    ensures { IsNumberOf 32 (first_value (found_of matches.now) name.now) result }
{
    match matches.get_str(name) {
        Some(text) => text.parse::<u32>().ok(),
        None => None,
    }
}

// The delimiter of a file by the value of its own option, or that of `--delimiter` if it has none,
// or a comma.
fn delimiter_given(matches: &ArgMatches<'_>, own: &str) -> Result<Delimiter, Fault>
    ensures delimiter { IfOk result (λ d. delimiters.delimiter_given (first_value (found_of matches.now)) own.now ≡ Some d) }
    ensures fault { IfErr result (λ f. (f ≡ Fault.BadDelimiter) × (delimiters.delimiter_given (first_value (found_of matches.now)) own.now ≡ None)) }
{
    match matches.get_str(own).or(matches.get_str("delimiter")) {
        Some(word) => match delimiter_of(word) {
            Some(delimiter) => Ok(delimiter),
            None => Err(Fault::BadDelimiter),
        },
        None => Ok(Delimiter::comma()),
    }
}

fn strictness_of(matches: &ArgMatches<'_>) -> Strictness
    ensures { result ≡ strictness_named (first_value (found_of matches.now) (codes "strict")) }
{
    match matches.get_str("strict") {
        Some("full") => Strictness::Full,
        Some(_) => Strictness::On,
        None => Strictness::Off,
    }
}

fn side_of(matches: &ArgMatches<'_>) -> Side
    ensures { result ≡ side_named (first_value (found_of matches.now) (codes "side")) }
{
    match matches.get_str("side") {
        Some("right") => Side::Right,
        _ => Side::Left,
    }
}

// Between which bytes the file is divided: from its first one on if none is given.
fn bounds_of(matches: &ArgMatches<'_>) -> Bounds
    ensures { AreBoundsOf (first_value (found_of matches.now)) result }
{
    Bounds {
        from: place_of(matches, "from").unwrap_or(0),
        to: place_of(matches, "to"),
    }
}

// What is to be done, unless both or neither of `--out` and `--cuts` are given.
fn task_of<'a>(matches: &ArgMatches<'a>) -> Option<Task<'a>>
    ensures { IsTaskOf (first_value (found_of matches.now)) result }
{
    match (count_of(matches, "cuts"), matches.get_str("out")) {
        (Some(ranges), None) => Some(Task::Cut(ranges)),
        (None, Some(folder)) => Some(Task::Divide(bounds_of(matches), folder)),
        _ => None,
    }
}

// The two tables.
fn operands_of<'a>(
    alloc: Global,
    matches: &ArgMatches<'a>,
) -> Result<(Operand<'a>, Operand<'a>), Fault>
    ensures left { IfOk result (λ p. IsLeftOf (first_value (found_of matches.now)) (texts_found (found_of matches.now)) p.0) }
    ensures right { IfOk result (λ p. IsRightOf (first_value (found_of matches.now)) (texts_found (found_of matches.now)) p.1) }
    ensures given { OnOk result (AreGiven (first_value (found_of matches.now)) (texts_found (found_of matches.now))) }
    ensures fault { IfErr result (IsTableFault (first_value (found_of matches.now)) (texts_found (found_of matches.now))) }
{
    let left_types = read_types(alloc, text_of(matches, "left-types"), Side::Left)?;
    let right_types = read_types(alloc, text_of(matches, "right-types"), Side::Right)?;
    let null = text_of(matches, "null");
    let left_nulls = read_nulls(alloc, matches, "left-null", null, Side::Left)?;
    let right_nulls = read_nulls(alloc, matches, "right-null", null, Side::Right)?;
    let left = Operand {
        file: text_of(matches, "left"),
        types: left_types,
        nulls: left_nulls,
        delimiter: delimiter_given(matches, "left-delimiter")?,
    };
    let right = Operand {
        file: text_of(matches, "right"),
        types: right_types,
        nulls: right_nulls,
        delimiter: delimiter_given(matches, "right-delimiter")?,
    };
    Ok((left, right))
}

// What the values of the options say.
fn line_of<'a>(alloc: Global, matches: &ArgMatches<'a>) -> Result<Line<'a>, Failure>
    ensures line { IfOk result (IsLineOf (first_value (found_of matches.now)) (texts_found (found_of matches.now))) }
    ensures fault { IfErr result (IsValueFailure (first_value (found_of matches.now)) (texts_found (found_of matches.now))) }
{
    let (left, right) = match operands_of(alloc, matches) {
        Ok(operands) => operands,
        Err(fault) => return Err(Failure::Told(fault)),
    };
    let Some(task) = task_of(matches) else {
        return Err(Failure::NoTask);
    };
    Ok(Line {
        side: side_of(matches),
        left,
        right,
        clause: text_of(matches, "join"),
        strict: strictness_of(matches),
        parts: count_of(matches, "parts").unwrap_or(1),
        task,
    })
}

/// Reads the words after the program's name.
///
/// # Errors
///
/// A line that `clap` refuses, or that asks for help or the version; a bad type list, the left one
/// before the right one; more than four NULL texts of a table, in the same order; a text that is no
/// delimiter; both or neither of `--out` and `--cuts`; or memory ran out.
pub(crate) fn read_line<'a>(alloc: Global, words: &'a [&'a str]) -> Result<Line<'a>, Failure>
    ensures line { IfOk result (IsShardsLine (map (λ w. w.now) words.entry.now)) }
    ensures failure { IfErr result (IsLineFailure (map (λ w. w.now) words.entry.now)) }
{
    let command = line_command(alloc)?;
    match command.try_get_matches_from(words) {
        Ok(matches) => line_of(alloc, &matches),
        Err(error) if error.kind() == ErrorKind::OutOfMemory => Err(Failure::Told(Fault::Memory)),
        Err(error) => Err(Failure::Told(Fault::CommandLine(error))),
    }
}
