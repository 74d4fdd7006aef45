//! The words of the command line.

ghost use Rattle.std.specs.Prelude.{◌≡◌, IfErr, IfOk, MatchOption, None, codes, false, map};
ghost use Rattle.clap.specs.Words.{first_value, found_of, rule_of};
ghost use Rattle.rj_line.specs.Delimiters.{named_or_comma};
ghost use Rattle.rj_line.specs.Line.{null_word, texts_found};
ghost use Rattle.merges.specs.Lines as specs;
ghost use Rattle.merges.specs.Lines.{AreOptionsOf, IsCommand, IsMergeLineBy, IsMergeParse, IsParseFailure, IsValueFailure, OrderWords, files_rule, order_named, order_rule, place_named, place_rule, text_rule};

use crate::copies::read_copies;
use crate::failure::Failure;
use clap::{Arg, ArgAction, ArgMatches, Command, value_parser};
use rj_csv_io::is_lawful_null;
use rj_line::delimiter_of;
use rj_line::fault::VERSION;
use rj_shards::merge::{Copies, MergeOptions, Place, RowOrder};
use std::alloc::{AllocError, Global};

// What `--help` prints.
const HELP: &str = "\
Merges joined shards into one CSV text, without the places of their rows

Usage: merges [OPTIONS] <FILE>...

Files:
  <FILE>...               Joined shards, whose rows have the columns left_place and right_place

Options:
  --null <TEXT>           Text for NULL [default: an empty field]
  --order <ORDER>         pairs: matches first; left: each left row at its place [default: pairs]
  --from <PLACE>          First left place to write, without the header [default: the beginning]
  --to <PLACE>            Left place to end before [default: the end]
  --copies <LIST>         How many files have each file's unmatched rows, as 1,3x2 (1 to 1,048,576)
  --out-delimiter <CHAR>  Delimiter of the result, or tab [default: a comma]
  -h, --help              Print this help
  -V, --version           Print the version
";

// The names of the orders.
const ORDERS: &[&str] = &["pairs", "left"];

/// What the words of the command line say.
#[derive(Drop)]
pub struct Line<'w> {
    /// The names of the files, in order: at least one, and fewer than 2^32.
    pub files: Vec<&'w str>,
    /// In how many files the unmatched rows of each file are.
    pub copies: Vec<Copies>,
    /// How they are merged.
    pub how: MergeOptions<'w>,
}

// An option that takes a text.
fn text<'a>(alloc: Global, name: &'a str, value: &'a str) -> Arg<'a>
    ensures rule { rule_of result ≡ text_rule name.entry.now }
    ensures local { result.global ≡ false }
{
    Arg::new(alloc, name)
        .long(name)
        .value_name(value)
        .action(ArgAction::Set)
}

// An option that takes the place of a left row.
fn place<'a>(alloc: Global, name: &'a str) -> Arg<'a>
    ensures rule { rule_of result ≡ place_rule name.entry.now }
    ensures local { result.global ≡ false }
{
    text(alloc, name, "PLACE").value_parser(value_parser!(u64))
}

// The option that names an order.
fn order<'a>(alloc: Global) -> Arg<'a>
    ensures rule { (h : OrderWords) × (rule_of result ≡ order_rule h) }
    ensures local { result.global ≡ false }
{
    text(alloc, "order", "ORDER").value_parser(ORDERS)
}

// The names of the files, of which there is at least one.
fn files<'a>(alloc: Global) -> Arg<'a>
    ensures rule { rule_of result ≡ files_rule }
    ensures local { result.global ≡ false }
{
    Arg::new(alloc, "files")
        .value_name("FILE")
        .num_args(1..)
        .required(true)
}

fn line_command<'a>(alloc: Global) -> Result<Command<'a>, AllocError>
    ensures { IfOk result IsCommand }
{
    Command::new(alloc, "merges")
        .override_help(HELP)
        .version(VERSION)
        .no_binary_name(true)
        .arg(text(alloc, "null", "TEXT"))?
        .arg(order(alloc))?
        .arg(place(alloc, "from"))?
        .arg(place(alloc, "to"))?
        .arg(text(alloc, "copies", "LIST"))?
        .arg(text(alloc, "out-delimiter", "CHAR"))?
        .arg(files(alloc))
}

/// Parses the words after the program's name.
///
/// # Errors
///
/// `CommandLine` with an error that `clap` reports of the words, among them that they ask for help
/// or for the version; `Memory` if memory ran out.
pub fn parse_words<'a>(alloc: Global, words: &'a [&'a str]) -> Result<ArgMatches<'a>, Failure>
    ensures parse { IfOk result (IsMergeParse (map (λ w. w.now) words.entry.now)) }
    ensures failure { IfErr result (IsParseFailure (map (λ w. w.now) words.entry.now)) }
{
    let command = line_command(alloc)?;
    match command.try_get_matches_from(words) {
        Ok(matches) => Ok(matches),
        Err(error) if error.kind() == clap::error::ErrorKind::OutOfMemory => Err(Failure::Memory),
        Err(error) => Err(Failure::CommandLine(error)),
    }
}

// The order that is named, or pairs first if none is.
fn order_of(matches: &ArgMatches<'_>) -> RowOrder
    ensures { result ≡ order_named (first_value (found_of matches.now) (codes "order")) }
{
    match matches.get_str("order") {
        Some("left") => RowOrder::LeftFirst,
        _ => RowOrder::PairsFirst,
    }
}

// The least place of the rows of the left row that an option names, if it is given.
fn bound_of(matches: &ArgMatches<'_>, name: &str) -> Option<Place>
    ensures { result ≡ place_named (first_value (found_of matches.now) name.now) }
{
    let Some(text) = matches.get_str(name) else {
        return None;
    };
    match text.parse::<u64>() {
        Ok(left) => Some(Place::Pair(left, 0)),
        Err(_) => None,
    }
}

// The text for NULL, or the empty one if none is given.
fn null_of<'w>(matches: &ArgMatches<'w>) -> &'w str
    ensures { result.now ≡ null_word (first_value (found_of matches.now)) }
{
    matches.get_str("null").unwrap_or("")
}

// The names of the files.
fn files_of<'w>(alloc: Global, matches: &ArgMatches<'w>) -> Result<Vec<&'w str>, AllocError>
    ensures { IfOk result (λ v. map (λ f. f.now) v.items ≡ texts_found (found_of matches.now) (codes "files")) }
{
    match matches.get_strs("files") {
        Some(files) => files.to_vec(alloc),
        None => Ok(Vec::new(alloc)),
    }
}

// Whether so many files can be merged.
fn is_file_count(count: usize) -> bool
    ensures { result ≡ specs.is_file_count count }
{
    0 < count && count < 1 << 32
}

// How the files are merged, if the text that is to delimit the result may do so.
fn options_of<'w>(matches: &ArgMatches<'w>) -> Option<MergeOptions<'w>>
    ensures { MatchOption result (named_or_comma (first_value (found_of matches.now) (codes "out-delimiter")) ≡ None)
        (AreOptionsOf (first_value (found_of matches.now))) }
{
    match delimiter_of(matches.get_str("out-delimiter").unwrap_or(",")) {
        Some(delimiter) => Some(MergeOptions {
            delimiter,
            null: null_of(matches).as_bytes(),
            order: order_of(matches),
            from: bound_of(matches, "from"),
            to: bound_of(matches, "to"),
        }),
        None => None,
    }
}

/// What the values of the options say.
///
/// # Errors
///
/// The first of these: `BadCopies` if the list of copies isn't one of these files, `BadDelimiter`,
/// `BadNull`, and `FileCount` if so many files can't be merged. `Memory` if memory ran out.
pub fn line_of<'w>(alloc: Global, matches: &ArgMatches<'w>) -> Result<Line<'w>, Failure>
    ensures line { IfOk result (IsMergeLineBy (first_value (found_of matches.now)) (texts_found (found_of matches.now) (codes "files"))) }
    ensures failure { IfErr result (IsValueFailure (first_value (found_of matches.now)) (texts_found (found_of matches.now) (codes "files"))) }
{
    let files = files_of(alloc, matches)?;
    let copies = match read_copies(alloc, matches.get_str("copies"), files.len()) {
        Ok(copies) => copies,
        Err(failure) => return Err(failure),
    };
    let Some(how) = options_of(matches) else {
        return Err(Failure::BadDelimiter);
    };
    if !is_lawful_null(null_of(matches)) {
        return Err(Failure::BadNull);
    }
    if !is_file_count(files.len()) {
        return Err(Failure::FileCount);
    }
    Ok(Line { files, copies, how })
}
