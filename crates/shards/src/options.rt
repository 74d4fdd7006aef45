//! The options of the command line.

ghost use Rattle.std.specs.Prelude.{◌≡◌, IfOk, false};
ghost use Rattle.clap.specs.Words.{app_of, rule_of};
ghost use Rattle.rj_line.specs.Options.{with_rules};
ghost use Rattle.shards.specs.Options as rules;
ghost use Rattle.shards.specs.Options.{IsLineCommand, division_rules, number_rule, place_rule, strict_rule, table_rules, text_rule, texts_rule, word_rule};

use crate::help::HELP;
use clap::{Arg, ArgAction, Command, value_parser};
use rj_command::VERSION;
use std::alloc::{AllocError, Global};

// The words of `--side`.
const SIDES: [&str; 2] = ["left", "right"];

// The words of `--strict`.
const LEVELS: [&str; 2] = ["on", "full"];

// The last byte at which a range may begin or end, 2^62.
const LAST_PLACE: i64 = 1 << 62;

// An option that takes a text.
fn text_option<'a>(alloc: Global, name: &'a str, is_required: bool) -> Arg<'a>
    ensures rule { rule_of result ≡ text_rule name.entry.now is_required }
    ensures local { result.global ≡ false }
{
    Arg::new(alloc, name)
        .long(name)
        .action(ArgAction::Set)
        .required(is_required)
}

// An option that takes a text at each use.
fn texts_option<'a>(alloc: Global, name: &'a str) -> Arg<'a>
    ensures rule { rule_of result ≡ texts_rule name.entry.now }
    ensures local { result.global ≡ false }
{
    Arg::new(alloc, name).long(name).action(ArgAction::Append)
}

// A required option that takes one of these words.
fn word_option<'a>(alloc: Global, name: &'a str, words: &'a [&'a str]) -> Arg<'a>
    ensures rule { rule_of result ≡ word_rule name.entry.now words.entry }
    ensures local { result.global ≡ false }
{
    text_option(alloc, name, true).value_parser(words)
}

// An option that takes a number from 1 to this one.
fn number_option<'a>(alloc: Global, name: &'a str, is_required: bool, most: u32) -> Arg<'a>
    ensures rule { rule_of result ≡ number_rule name.entry.now is_required most }
    ensures local { result.global ≡ false }
{
    let numbers = value_parser!(u32).range(1..=i64::from(most));
    text_option(alloc, name, is_required).value_parser(numbers)
}

// An option that takes a byte's place in a file.
fn place_option<'a>(alloc: Global, name: &'a str) -> Arg<'a>
    ensures rule { rule_of result ≡ place_rule name.entry.now }
    ensures local { result.global ≡ false }
{
    let places = value_parser!(u64).range(..=LAST_PLACE);
    text_option(alloc, name, false).value_parser(places)
}

// What stands between two fields of both files.
fn delimiter_option<'a>(alloc: Global) -> Arg<'a>
    ensures rule { rule_of result ≡ rules.delimiter_rule }
    ensures local { result.global ≡ false }
{
    text_option(alloc, "delimiter", false).short('d')
}

// How strictly the files are read, as `radixjoin` has it.
fn strict_option<'a>(alloc: Global, levels: &'a [&'a str]) -> Arg<'a>
    ensures rule { rule_of result ≡ strict_rule levels.entry }
    ensures local { result.global ≡ false }
{
    text_option(alloc, "strict", false)
        .num_args(0..=1)
        .default_missing_value("on")
        .value_parser(levels)
}

// The option that explains errors.
fn explain_option<'a>(alloc: Global) -> Arg<'a>
    ensures rule { rule_of result ≡ rules.explain_rule }
    ensures local { result.global ≡ false }
{
    Arg::new(alloc, "explain")
        .long("explain")
        .action(ArgAction::SetTrue)
}

// The options that name the two tables and the join of them, as `radixjoin` has them.
fn with_tables<'a>(
    alloc: Global,
    command: Command<'a>,
    levels: &'a [&'a str],
) -> Result<Command<'a>, AllocError>
    ensures { IfOk result (λ c. app_of c ≡ with_rules (app_of command.entry) (table_rules levels.entry)) }
{
    command
        .arg(text_option(alloc, "left", true))?
        .arg(text_option(alloc, "right", true))?
        .arg(text_option(alloc, "left-types", true))?
        .arg(text_option(alloc, "right-types", true))?
        .arg(text_option(alloc, "join", true))?
        .arg(text_option(alloc, "null", false))?
        .arg(texts_option(alloc, "left-null"))?
        .arg(texts_option(alloc, "right-null"))?
        .arg(delimiter_option(alloc))?
        .arg(text_option(alloc, "left-delimiter", false))?
        .arg(text_option(alloc, "right-delimiter", false))?
        .arg(strict_option(alloc, levels))
}

// The options that say which rows go where.
fn with_division<'a>(alloc: Global, command: Command<'a>) -> Result<Command<'a>, AllocError>
    ensures { IfOk result (λ c. app_of c ≡ with_rules (app_of command.entry) division_rules) }
{
    command
        .arg(number_option(alloc, "parts", true, 1_024))?
        .arg(place_option(alloc, "from"))?
        .arg(place_option(alloc, "to"))?
        .arg(text_option(alloc, "out", false))?
        .arg(number_option(alloc, "cuts", false, 100_000))
}

// The command line of the program. Its words begin after the program's name.
pub(crate) fn line_command<'a>(alloc: Global) -> Result<Command<'a>, AllocError>
    ensures { IfOk result IsLineCommand }
{
    let command = Command::new(alloc, "shards")
        .override_help(HELP)
        .version(VERSION)
        .no_binary_name(true)
        .arg(word_option(alloc, "side", &SIDES))?;
    let command = with_tables(alloc, command, &LEVELS)?;
    with_division(alloc, command.arg(explain_option(alloc))?)
}
