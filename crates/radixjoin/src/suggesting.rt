//! `radixjoin --suggest-types FILE`: prints a list of types that the cells of a file suggest.

use clap::{Arg, ArgAction, ArgMatches, Command, Error};
use rj_csv_io::InputFormat;
use rj_files::{Asking, ExplainedFault, NamedStream, Suggesting, refuse_printed, write_suggested};
use rj_line::fault::Fault;
use rj_line::suggest::ListedColumns;
use rj_line::{Strictness, delimiter_of};
use std::alloc::{AllocError, Global};
use std::fs::Files;
use std::io;
use std::time::Clock;

// What `--suggest-types --help` prints.
const HELP: &str = "\
Prints types that the cells of a CSV file suggest: check them, and give them by --left-types @FILE

Usage: radixjoin --suggest-types <FILE> [--null <TEXT>] [--delimiter <CHAR>] [--strict[=full]]
                 [--keys-only] [--explain], in any order

  <FILE>                  CSV file of a table; - is standard input
  -d, --delimiter <CHAR>  Delimiter of the file, or tab [default: a comma]
  --null <TEXT>           Text for NULL [default: an empty field]
  --strict [<HOW>]        Refuse CSV that breaks RFC 4180: on or full [default: no; on if alone]
  --keys-only             List only columns without NULL and without equal cells
  --explain               Say where an error is, what is there, and what was perhaps meant
  -h, --help              Print this help
";

// How strictly a file may be read.
const LEVELS: &[&str] = &["on", "full"];

// An option with this long name.
fn option<'a>(alloc: Global, name: &'a str, action: ArgAction) -> Arg<'a> {
    Arg::new(alloc, name).long(name).action(action)
}

// The command with the argument that has the file, in these words.
fn with_file<'a>(
    alloc: Global,
    command: Command<'a>,
    asking: Asking,
) -> Result<Command<'a>, AllocError> {
    let file = Arg::new(alloc, "FILE")
        .action(ArgAction::Set)
        .required(true);
    match asking {
        Asking::WithFile => command.arg(file.long("suggest-types")),
        Asking::Apart => {
            let asked = option(alloc, "suggest-types", ArgAction::SetTrue).required(true);
            command.arg(file)?.arg(asked)
        }
    }
}

fn suggest_command<'a>(alloc: Global, asking: Asking) -> Result<Command<'a>, AllocError> {
    let strict = option(alloc, "strict", ArgAction::Set)
        .num_args(0..=1)
        .default_missing_value("on")
        .value_parser(LEVELS);
    let command = Command::new(alloc, "radixjoin")
        .override_help(HELP)
        .no_binary_name(true);
    with_file(alloc, command, asking)?
        .arg(option(alloc, "null", ArgAction::Set))?
        .arg(option(alloc, "delimiter", ArgAction::Set).short('d'))?
        .arg(strict)?
        .arg(option(alloc, "keys-only", ArgAction::SetTrue))?
        .arg(option(alloc, "explain", ArgAction::SetTrue))
}

// How strictly the file is read.
fn strictness_of(matches: &ArgMatches<'_>) -> Strictness {
    match matches.get_str("strict") {
        None => Strictness::Off,
        Some("full") => Strictness::Full,
        Some(_) => Strictness::On,
    }
}

// Whether an option without a value is given.
fn is_given(matches: &ArgMatches<'_>, option: &str) -> bool {
    matches.get_str(option) == Some("true")
}

// What is asked of the file.
fn suggesting_of(matches: &ArgMatches<'_>) -> Suggesting {
    Suggesting {
        strict: strictness_of(matches),
        listed: if is_given(matches, "keys-only") {
            ListedColumns::Keys
        } else {
            ListedColumns::All
        },
        explain: is_given(matches, "explain"),
    }
}

fn read_matches<'a>(
    alloc: Global,
    words: &'a [&'a str],
    asking: Asking,
) -> Result<ArgMatches<'a>, Error> {
    let command = suggest_command(alloc, asking)?;
    command.try_get_matches_from(words)
}

/// Prints the types that the cells of the file in these words suggest, which ask for it so.
pub(crate) fn suggest<'a, R: Files + Input + AllocGlobal + Print + Eprint + Clock>(
    rt: &'a R,
    words: &'a [&'a str],
    asking: Asking,
) -> Result<(), ExplainedFault> {
    let matches = match read_matches(rt.alloc(), words, asking) {
        Ok(matches) => matches,
        Err(error) => return Err(ExplainedFault::from(Fault::from(error))),
    };
    let Some(delimiter) = delimiter_of(matches.get_str("delimiter").unwrap_or(",")) else {
        return Err(ExplainedFault::from(Fault::BadDelimiter));
    };
    let name = matches.get_str("FILE").unwrap_or("");
    refuse_printed(rt, name)?;
    let nulls = [matches.get_str("null").unwrap_or("")];
    let format = InputFormat {
        delimiter,
        nulls: &nulls,
    };
    let stream = NamedStream::new(rt, name);
    let asked = suggesting_of(&matches);
    let (written, _writer) = write_suggested(rt, &stream, &format, asked, io::writer(rt));
    written
}
