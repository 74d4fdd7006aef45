//! Why nothing, or not all, was merged.

ghost use Rattle.std.specs.Prelude.{◌≡◌, ◌-◌, [], IfOk, IsSome, OnErr, map, slice_index_or, string_bytes};
ghost use Rattle.std.specs.Fmt.{WritesOnOk};
ghost use Rattle.merges.specs.Failures.{file_line, place_line, row_line};
ghost use Rattle.merges.specs.Refusals.{IsOf, IsOfMerge};
ghost use Rattle.rj_shards.specs.Sources.{told_input};

use clap::Error;
use rj_line::fault::ExitReason;
use rj_shards::merge::{MergeRefused, MergeTextsRefused, Place};
use std::alloc::{AllocError, Global};
use std::fmt;

/// Why nothing, or not all, was merged. The text is the line that is printed, without its line end.
/// A file is shown by its name. Rows count from 1, and row 1 is the record after the header.
#[derive(Drop)]
pub enum Failure {
    /// `clap` refused the words, or they ask for help or for the version. The text is that of
    /// `clap`.
    CommandLine(Error),
    /// A word isn't text.
    NotText,
    /// There is no file, or there are 2^32 or more.
    FileCount,
    /// The list of `--copies` isn't one of these files.
    BadCopies,
    /// What `--out-delimiter` names is no delimiter.
    BadDelimiter,
    /// The text for NULL isn't valid.
    BadNull,
    /// Memory ran out.
    Memory,
    /// A file can't be opened or read.
    ReadDevice(String),
    /// The merge can't be written.
    WriteDevice,
    /// A file has no record.
    NoHeader(String),
    /// The first header hasn't each of the two columns of places once.
    NoPlaces(String),
    /// A header is another one than that of the first file.
    OtherHeader(String),
    /// A row has another length than the header.
    RaggedRow(String, u64),
    /// A place of a row is neither NULL nor an unsigned whole number of 64 bits.
    BadPlace(String, u64),
    /// Both places of a row are NULL.
    NoPlace(String, u64),
    /// A row's place isn't above that of the row before it.
    NotInOrder(String, u64),
    /// More files have a row of this place than have to.
    RepeatedPlace(Place),
}

// Writes an error of a file.
fn show_file<W: fmt::Write>(f: &mut fmt::Formatter<W>, error: &str, file: &str) -> fmt::Result
    ensures { WritesOnOk W.write_str_gives f.old result (file_line error.now file.now) f.new }
{
    write!(f, "{error} {file}")
}

// Writes an error of a row of a file.
fn show_row<W: fmt::Write>(
    f: &mut fmt::Formatter<W>,
    error: &str,
    file: &str,
    row: u64,
) -> fmt::Result
    ensures { WritesOnOk W.write_str_gives f.old result (row_line error.now file.now row) f.new }
{
    write!(f, "{error} {file} row {row}")
}

// Writes an error of a place, which is shown as in its two columns.
fn show_place<W: fmt::Write>(f: &mut fmt::Formatter<W>, error: &str, place: Place) -> fmt::Result
    ensures { WritesOnOk W.write_str_gives f.old result (place_line error.now place) f.new }
{
    match place {
        Place::Pair(left, right) => write!(f, "{error} left {left} right {right}"),
        Place::LoneAmongPairs(left) | Place::LoneLeft(left) => write!(f, "{error} left {left}"),
        Place::LoneRight(right) => write!(f, "{error} right {right}"),
    }
}

impl fmt::Display for Failure {
    ghost use Rattle.merges.specs.Failures.{line_of};

    ghost output = { line_of };

    fn fmt<W: fmt::Write>(&self, f: &mut fmt::Formatter<W>) -> fmt::Result {
        match self {
            Failure::CommandLine(error) => write!(f, "{error}"),
            Failure::NotText => f.write_str("merges: an argument is not text"),
            Failure::FileCount => f.write_str(
                "merges: the number of files is none that can be merged",
            ),
            Failure::BadCopies => f.write_str(
                "merges: --copies has to have an entry for each file: 1, or LxR, of numbers from 1 to 1,048,576",
            ),
            Failure::BadDelimiter => f.write_str("merges: E34 BadDelimiter"),
            Failure::BadNull => f.write_str("merges: E10 BadNull"),
            Failure::Memory => f.write_str("merges: E18 Memory"),
            Failure::WriteDevice => f.write_str("merges: E20 WriteDevice"),
            Failure::ReadDevice(file) => show_file(f, "merges: E19 ReadDevice", file.as_str()),
            Failure::NoHeader(file) => show_file(f, "merges: E1 NoHeader", file.as_str()),
            Failure::NoPlaces(file) => show_file(f, "merges: E41 NoPlaces", file.as_str()),
            Failure::OtherHeader(file) => show_file(f, "merges: E42 OtherHeader", file.as_str()),
            Failure::RaggedRow(file, row) => show_row(
                f,
                "merges: E5 RaggedRow",
                file.as_str(),
                *row,
            ),
            Failure::BadPlace(file, row) => show_row(
                f,
                "merges: E43 BadPlace",
                file.as_str(),
                *row,
            ),
            Failure::NoPlace(file, row) => show_row(f, "merges: E44 NoPlace", file.as_str(), *row),
            Failure::NotInOrder(file, row) => show_row(
                f,
                "merges: E45 NotInOrder",
                file.as_str(),
                *row,
            ),
            Failure::RepeatedPlace(place) => show_place(f, "merges: E46 RepeatedPlace", *place),
        }
    }
}

impl From<AllocError> for Failure {
    ghost use Rattle.merges.specs.declared.failure.Failure.TheVariants.{Memory};

    ghost from_gives = { λ _ f. f ≡ Memory };

    fn from(_error: AllocError) -> Failure {
        Failure::Memory
    }
}

// The name of an input, counted from 1.
fn name_of(alloc: Global, files: &[&str], input: u32) -> Result<String, AllocError>
    ensures { IfOk result (λ name. string_bytes name ≡ slice_index_or (map (λ f. f.now) files.now) (input - 1) []) }
{
    match files.get((input as usize).saturating_sub(1)) {
        Some(name) => String::from_str(alloc, name),
        None => Ok(String::new(alloc)),
    }
}

impl ExitReason for Failure {
    ghost use Rattle.merges.specs.Failures.{clap_error_of, exit_of};
    ghost use Rattle.merges.specs.declared.failure.Failure.TheVariants.{WriteDevice};

    ghost exit = { exit_of };

    ghost of_clap = { clap_error_of };

    ghost unwritten = { WriteDevice };

    fn status(&self) -> u8 {
        match self {
            Failure::CommandLine(error) => { if error.use_stderr() { 2 } else { 0 } }
            Failure::NotText | Failure::FileCount | Failure::BadCopies | Failure::BadDelimiter => 2,
            Failure::Memory => 5,
            Failure::ReadDevice(_) | Failure::WriteDevice => 6,
            _ => 3,
        }
    }

    fn by_clap(&self) -> Option<&Error> {
        match self {
            Failure::CommandLine(error) => Some(error),
            _ => None,
        }
    }

    fn failed_write() -> Failure {
        Failure::WriteDevice
    }
}

impl Failure {
    /// The failure of a refused merge of these files. It names the file of an error; it is `Memory`
    /// if there is no memory for the name.
    pub fn of(alloc: Global, files: &[&str], refused: MergeTextsRefused) -> Failure
        ensures { IsOf (map (λ f. f.now) files.now) refused result }
    {
        match refused {
            MergeTextsRefused::WriteDevice => Failure::WriteDevice,
            MergeTextsRefused::Merge(refused) => match Failure::of_merge(alloc, files, refused) {
                Ok(failure) => failure,
                Err(AllocError) => Failure::Memory,
            },
        }
    }

    fn of_merge(alloc: Global, files: &[&str], refused: MergeRefused) -> Result<Failure, AllocError>
        ensures failure { IfOk result (IsOfMerge (map (λ f. f.now) files.now) refused) }
        ensures named { OnErr result (IsSome (told_input refused)) }
    {
        match refused {
            MergeRefused::Memory => Ok(Failure::Memory),
            MergeRefused::ReadDevice(input) => {
                Ok(Failure::ReadDevice(name_of(alloc, files, input)?))
            }
            MergeRefused::NoHeader(input) => Ok(Failure::NoHeader(name_of(alloc, files, input)?)),
            MergeRefused::NoPlaces(input) => Ok(Failure::NoPlaces(name_of(alloc, files, input)?)),
            MergeRefused::OtherHeader(input) => {
                Ok(Failure::OtherHeader(name_of(alloc, files, input)?))
            }
            MergeRefused::RaggedRow(input, row) => {
                Ok(Failure::RaggedRow(name_of(alloc, files, input)?, row))
            }
            MergeRefused::BadPlace(input, row) => {
                Ok(Failure::BadPlace(name_of(alloc, files, input)?, row))
            }
            MergeRefused::NoPlace(input, row) => {
                Ok(Failure::NoPlace(name_of(alloc, files, input)?, row))
            }
            MergeRefused::NotInOrder(input, row) => {
                Ok(Failure::NotInOrder(name_of(alloc, files, input)?, row))
            }
            MergeRefused::RepeatedPlace(place) => Ok(Failure::RepeatedPlace(place)),
        }
    }
}
