//! Why a program of this repository ended without its output, how it reports that, and the words
//! with which it was started.

ghost use Rattle.std.specs.Prelude.{◌≡◌, Some};
ghost use Rattle.rj_line.specs.Faults.{side_text, status_of};

mod exit_reason;
mod reading;
mod words;

pub use self::exit_reason::{ExitReason, tell};
pub use self::reading::fault_of_read;
pub use self::words::{read_words, texts_of};
use clap::error::ErrorKind;
use rj_condition::Word;
use rj_csv_io::WriteRefused;
use std::alloc::AllocError;
use std::fmt;
use thiserror::Error;

/// The version of the programs, which `--version` prints.
pub const VERSION: &str = "1.0.0";

/// Which of the two tables.
#[derive(Clone, Copy, Debug, PartialEq, Eq)]
pub enum Side {
    Left,
    Right,
}

impl fmt::Display for Side {
    ghost output = { λ side. Some (side_text side) };

    fn fmt<W: fmt::Write>(&self, f: &mut fmt::Formatter<W>) -> fmt::Result {
        match self {
            Side::Left => f.write_str("left"),
            Side::Right => f.write_str("right"),
        }
    }
}

/// Why a run gave no output. Its text is the line that the program prints, without its line end.
/// Rows and columns count from 1. Row 1 is the record after the header, and the header has row 0.
/// Bytes of a clause count from 0.
#[derive(Debug, Drop, Error)]
pub enum Fault {
    /// `clap` refused the words of the command line, or they ask for help or for the version. The text is that of `clap`.
    #[error("{0}")]
    CommandLine(clap::Error),
    /// A word of the command line isn't text.
    #[error("radixjoin: an argument is not text")]
    NotText,
    /// A type list has another form than `int,num(9,2),text` or `id=int,*=text`.
    #[error("radixjoin: bad type list {0}")]
    BadTypeList(Side),
    /// A type list for both tables has another form than `id=int,price=num(9,2)`.
    #[error("radixjoin: bad type list of both")]
    BadSharedTypeList,
    /// More than four texts are to stand for NULL in a table.
    #[error("radixjoin: more than four null texts {0}")]
    TooManyNulls(Side),
    /// The delimiter of a table or of the result is none that may delimit: one ASCII character that
    /// is no letter, no digit, no double quote, no CR and no LF.
    #[error("radixjoin: E34 BadDelimiter")]
    BadDelimiter,
    /// A list of kinds of rows isn't of the form `pairs,lone-left,lone-right`, names a kind twice,
    /// or has both `pairs` and `matched-left`.
    #[error("radixjoin: bad list of rows")]
    BadRows,
    /// `--anti` or `--semi` is given with the other one, or with `--rows` or `--columns`, for which
    /// it stands.
    #[error("radixjoin: --anti and --semi exclude each other, --rows and --columns")]
    ChosenTwice,
    /// Matched left rows are to be written, but not only the columns of the left table.
    #[error("radixjoin: --rows matched-left needs --columns left")]
    MatchedLeftColumns,
    /// A list of columns isn't of the form `L.id,name,R.city=town`.
    #[error("radixjoin: bad list of columns")]
    BadSelect,
    /// `--select` is given with `--columns` or `--repeated`, in whose place it is.
    #[error("radixjoin: --select excludes --columns and --repeated")]
    SelectedTwice,
    /// The rows are to be counted, and an option chooses some of them.
    #[error("radixjoin: --count excludes --rows, --anti, --semi, --columns, --select and --order")]
    CountedChoice,
    /// Nothing but errors is to be printed on standard error, and explanations or the progress too.
    #[error("radixjoin: --quiet excludes --explain and --progress")]
    QuietTwice,
    /// A text to be added to a repeated name has no byte, or more than 16.
    #[error("radixjoin: bad suffix of repeated names")]
    BadSuffix,
    /// A file has no record at all.
    #[error("radixjoin: E1 NoHeader {0}")]
    NoHeader(Side),
    /// A header name has no byte, more than 128 bytes, or isn't UTF-8; its column counts from 1.
    #[error("radixjoin: E2 BadName {0} column {1}")]
    BadName(Side, u64),
    /// A header name occurs twice, ignoring ASCII case. The column is the later one.
    #[error("radixjoin: E3 RepeatedName {0} column {1}")]
    RepeatedName(Side, u64),
    /// The types and the header differ in number.
    #[error("radixjoin: E4 TypeCount {0}")]
    TypeCount(Side),
    /// A row has another length than the header. The first row after the header is row 1.
    #[error("radixjoin: E5 RaggedRow {0} row {1}")]
    RaggedRow(Side, u64),
    /// A cell of an int column isn't an integer of 64 bits.
    #[error("radixjoin: E6 BadInteger {0} row {1} column {2}")]
    BadInteger(Side, u64, u64),
    /// A cell of a text column isn't UTF-8.
    #[error("radixjoin: E7 BadText {0} row {1} column {2}")]
    BadText(Side, u64, u64),
    /// A table has more than 2^31 - 1 rows.
    #[error("radixjoin: E8 TooManyRows {0}")]
    TooManyRows(Side),
    /// A table has more than 256 columns.
    #[error("radixjoin: E9 TooManyColumns {0}")]
    TooManyColumns(Side),
    /// A NULL text isn't valid.
    #[error("radixjoin: E10 BadNull")]
    BadNull,
    /// The clause can't be read past this byte, counted from 0.
    #[error("radixjoin: E11 Syntax byte {0}")]
    Syntax(u64),
    /// The clause nests more than 64 levels.
    #[error("radixjoin: E12 TooDeep")]
    TooDeep,
    /// A name or qualifier of the clause belongs to no column.
    #[error("radixjoin: E13 UnknownColumn")]
    UnknownColumn,
    /// An unqualified name of the clause is a column of both tables.
    #[error("radixjoin: E14 AmbiguousColumn")]
    AmbiguousColumn,
    /// The clause compares a number with a text.
    #[error("radixjoin: E15 TypeMismatch")]
    TypeMismatch,
    /// A column whose type isn't declared is compared as only one of a declared type can be: by an
    /// order, or with a number.
    #[error("radixjoin: E32 UndeclaredType {0} \"{1}\"")]
    UndeclaredType(Side, Word),
    /// Unmatched rows of this table are asked for, and the join's type keeps none.
    #[error("radixjoin: E33 NoSuchRows lone-{0}")]
    NoSuchRows(Side),
    /// A column occurs twice in USING.
    #[error("radixjoin: E16 RepeatedUsing")]
    RepeatedUsing,
    /// The clause has more than 65,536 bytes.
    #[error("radixjoin: E17 ClauseTooLong")]
    ClauseTooLong,
    /// Memory ran out, or a thread couldn't be started.
    #[error("radixjoin: E18 Memory")]
    Memory,
    /// A file can't be opened or read.
    #[error("radixjoin: E19 ReadDevice {0}")]
    ReadDevice(Side),
    /// The file of a type list for both tables can't be opened or read.
    #[error("radixjoin: E19 ReadDevice both")]
    SharedReadDevice,
    /// The result couldn't be written: its file can't be made or renamed, or a write failed.
    #[error("radixjoin: E20 WriteDevice")]
    WriteDevice,
    /// A quoted field isn't closed at the file's end. This error and the next five, to E26, are
    /// reported only if files are read strictly.
    #[error("radixjoin: E21 OpenQuote {0} row {1} column {2}")]
    OpenQuote(Side, u64, u64),
    /// A byte other than the delimiter, a double quote, CR and LF comes after a closing quote.
    #[error("radixjoin: E22 AfterQuote {0} row {1} column {2}")]
    AfterQuote(Side, u64, u64),
    /// A double quote is in a field that doesn't begin with one.
    #[error("radixjoin: E23 BareQuote {0} row {1} column {2}")]
    BareQuote(Side, u64, u64),
    /// No LF follows a CR outside quotes.
    #[error("radixjoin: E24 BareReturn {0} row {1} column {2}")]
    BareReturn(Side, u64, u64),
    /// A line is empty though the header has more than one name.
    #[error("radixjoin: E25 EmptyLine {0} row {1}")]
    EmptyLine(Side, u64),
    /// The last record has no line end.
    #[error("radixjoin: E26 CutShort {0} row {1}")]
    CutShort(Side, u64),
    /// A name in a type list means no column of the header, or one that an earlier entry names.
    #[error("radixjoin: E27 TypeName {0} \"{1}\"")]
    TypeName(Side, Word),
    /// A name in a type list for both tables means a column of neither header, or one that an
    /// earlier entry names.
    #[error("radixjoin: E27 TypeName both \"{0}\"")]
    SharedTypeName(Word),
    /// A cell of the result isn't NULL, and its text is the one that is written for NULL. Its row
    /// and column are those of the result, counted from 1.
    #[error("radixjoin: E28 AmbiguousNull row {0} column {1}")]
    AmbiguousNull(u64, u64),
    /// The name of a column of the result repeats an earlier one, and there is no free name in its
    /// place. The column is that of the result, counted from 1.
    #[error("radixjoin: E31 NoFreeName column {0}")]
    NoFreeName(u64),
    /// An entry of a list of columns means no column, or two, or is written under the name of an
    /// earlier one. Entries count from 1.
    #[error("radixjoin: E35 SelectedName column {0}")]
    SelectedName(u64),
    /// Both tables are to be read from standard input.
    #[error("radixjoin: only one of --left and --right can be standard input")]
    TwoStandardInputs,
    /// A file to be read is the one that is written.
    #[error("radixjoin: E29 OutputIsInput {0}")]
    OutputIsInput(Side),
    /// The joined table isn't as expected: a row is in more matches, or there are more rows.
    #[error("radixjoin: E30 NotAsExpected")]
    NotAsExpected,
}

impl From<AllocError> for Fault {
    ghost use Rattle.rj_line.specs.declared.fault.Fault.TheVariants.{Memory};

    ghost from_gives = { λ _ f. f ≡ Memory };

    fn from(_error: AllocError) -> Fault {
        Fault::Memory
    }
}

impl From<clap::Error> for Fault {
    ghost use Rattle.rj_line.specs.Faults.{clap_fault};

    ghost from_gives = { λ e f. f ≡ clap_fault e };

    fn from(error: clap::Error) -> Fault {
        match error.kind() {
            ErrorKind::OutOfMemory => Fault::Memory,
            _ => Fault::CommandLine(error),
        }
    }
}

impl From<WriteRefused> for Fault {
    ghost use Rattle.rj_line.specs.Faults.{write_fault};

    ghost from_gives = { λ e f. f ≡ write_fault e };

    fn from(refused: WriteRefused) -> Fault {
        match refused {
            WriteRefused::Memory => Fault::Memory,
            WriteRefused::WriteDevice => Fault::WriteDevice,
        }
    }
}

impl ExitReason for Fault {
    ghost use Rattle.rj_line.specs.Faults.{clap_error_of, status_of};
    ghost use Rattle.rj_line.specs.declared.fault.Fault.TheVariants.{WriteDevice};

    ghost exit = { status_of };

    ghost of_clap = { clap_error_of };

    ghost unwritten = { WriteDevice };

    fn status(&self) -> u8 {
        Fault::status(self)
    }

    fn by_clap(&self) -> Option<&clap::Error> {
        match self {
            Fault::CommandLine(error) => Some(error),
            _ => None,
        }
    }

    fn failed_write() -> Fault {
        Fault::WriteDevice
    }
}

impl Fault {
    /// The exit status of a program that ends with this error: 0 for help and the version, 2 for
    /// the command line, 3 for input, 4 for the clause, 5 for memory, 6 for a device, 7 for a
    /// joined table that isn't as expected. It allocates no memory.
    pub fn status(&self) -> u8
        ensures { result ≡ status_of self.now }
    {
        match self {
            Fault::CommandLine(error) => { if error.use_stderr() { 2 } else { 0 } }
            Fault::NotText
            | Fault::BadTypeList(_)
            | Fault::BadSharedTypeList
            | Fault::TooManyNulls(_)
            | Fault::BadDelimiter
            | Fault::BadRows
            | Fault::ChosenTwice
            | Fault::MatchedLeftColumns
            | Fault::BadSelect
            | Fault::SelectedTwice
            | Fault::CountedChoice
            | Fault::QuietTwice
            | Fault::BadSuffix
            | Fault::TwoStandardInputs => 2,
            Fault::NoHeader(_)
            | Fault::BadName(_, _)
            | Fault::RepeatedName(_, _)
            | Fault::TypeCount(_)
            | Fault::RaggedRow(_, _)
            | Fault::BadInteger(_, _, _)
            | Fault::BadText(_, _, _)
            | Fault::TooManyRows(_)
            | Fault::TooManyColumns(_)
            | Fault::BadNull
            | Fault::OpenQuote(_, _, _)
            | Fault::AfterQuote(_, _, _)
            | Fault::BareQuote(_, _, _)
            | Fault::BareReturn(_, _, _)
            | Fault::EmptyLine(_, _)
            | Fault::CutShort(_, _)
            | Fault::TypeName(_, _)
            | Fault::SharedTypeName(_)
            | Fault::AmbiguousNull(_, _)
            | Fault::NoFreeName(_) => 3,
            Fault::Syntax(_)
            | Fault::TooDeep
            | Fault::UnknownColumn
            | Fault::AmbiguousColumn
            | Fault::TypeMismatch
            | Fault::UndeclaredType(_, _)
            | Fault::NoSuchRows(_)
            | Fault::SelectedName(_)
            | Fault::RepeatedUsing
            | Fault::ClauseTooLong => 4,
            Fault::Memory => 5,
            Fault::ReadDevice(_)
            | Fault::SharedReadDevice
            | Fault::WriteDevice
            | Fault::OutputIsInput(_) => 6,
            Fault::NotAsExpected => 7,
        }
    }
}
