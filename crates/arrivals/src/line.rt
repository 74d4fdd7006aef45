//! The words of the command line.

ghost use Rattle.std.specs.Prelude.{◌≡◌, IfErr, IfOk, false, map};
ghost use Rattle.clap.specs.Words.{app_of, first_value, found_of, rule_of};
ghost use Rattle.arrivals.specs.Lines as specs;
ghost use Rattle.arrivals.specs.Lines.{IsLineBy, IsLineFailure, IsReplayLine, line_app, number_rule};

use crate::failure::Failure;
use clap::{Arg, ArgAction, ArgMatches, Command, value_parser};
use rj_line::fault::VERSION;
use std::alloc::{AllocError, Global};

// What `--help` prints.
const HELP: &str = "\
Replays a script of arrivals at a partition, read from standard input

Usage: arrivals --partition <N> --senders <N> --block <N> [--gaps]

Options:
  --partition <N>  Number of the partition, 0 to 1023
  --senders <N>    Number of its senders, 1 to 128
  --block <N>      Most rows of a block, 1 to 65536
  --gaps           Print the gap before the held parcels of each sender that waits
  -h, --help       Print this help
  -V, --version    Print the version
";

/// What the words of the command line say.
#[derive(Clone, Copy)]
pub struct Line {
    /// The number of the partition, 0 to 1,023.
    pub partition: u32,
    /// How many senders it has, 1 to 128.
    pub senders: u32,
    /// The most rows of a block, 1 to 65,536.
    pub block: u32,
    /// Whether the gaps of waiting senders are printed.
    pub gaps: bool,
}

// A required option whose number is in the range.
fn number_option<'a>(alloc: Global, name: &'a str, least: u32, most: u32) -> Arg<'a>
    ensures rule { rule_of result ≡ number_rule name.entry.now least most }
    ensures local { result.global ≡ false }
{
    Arg::new(alloc, name)
        .long(name)
        .action(ArgAction::Set)
        .required(true)
        .value_parser(value_parser!(u32).range(i64::from(least)..=i64::from(most)))
}

fn line_command<'a>(alloc: Global) -> Result<Command<'a>, AllocError>
    ensures { IfOk result (λ c. app_of c ≡ line_app) }
{
    let gaps = Arg::new(alloc, "gaps")
        .long("gaps")
        .action(ArgAction::SetTrue);
    Command::new(alloc, "arrivals")
        .override_help(HELP)
        .version(VERSION)
        .no_binary_name(true)
        .arg(number_option(alloc, "partition", 0, 1_023))?
        .arg(number_option(alloc, "senders", 1, 128))?
        .arg(number_option(alloc, "block", 1, 65_536))?
        .arg(gaps)
}

// The number of an option, or another one if it has none.
fn number_or(matches: &ArgMatches<'_>, name: &str, other: u32) -> u32
    ensures { result ≡ specs.number_or other (first_value (found_of matches.now) name.now) }
{
    let Some(text) = matches.get_str(name) else {
        return other;
    };
    match text.parse::<u32>() {
        Ok(number) => number,
        Err(_) => other,
    }
}

// What the values of the options say.
fn line_of(matches: &ArgMatches<'_>) -> Line
    ensures { IsLineBy (first_value (found_of matches.now)) result }
{
    Line {
        partition: number_or(matches, "partition", 0),
        senders: number_or(matches, "senders", 1),
        block: number_or(matches, "block", 1),
        gaps: matches.get_str("gaps") == Some("true"),
    }
}

/// Reads the words after the program's name.
///
/// # Errors
///
/// `CommandLine` with an error that `clap` reports of the words, among them that they ask for help
/// or for the version; `Memory` if memory ran out.
pub fn read_line(alloc: Global, words: &[&str]) -> Result<Line, Failure>
    ensures line { IfOk result (IsReplayLine (map (λ w. w.now) words.now)) }
    ensures failure { IfErr result (IsLineFailure (map (λ w. w.now) words.now)) }
{
    let command = line_command(alloc)?;
    match command.try_get_matches_from(words) {
        Ok(matches) => Ok(line_of(&matches)),
        Err(error) if error.kind() == clap::error::ErrorKind::OutOfMemory => Err(Failure::Memory),
        Err(error) => Err(Failure::CommandLine(error)),
    }
}
