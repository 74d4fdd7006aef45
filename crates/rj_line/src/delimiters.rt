//! The delimiters of the tables and of the result.

ghost use Rattle.std.specs.Prelude.{◌≡◌, MatchOption, codes, false, option_map};
ghost use Rattle.std.specs.Option.{option_or};
ghost use Rattle.clap.specs.Words.{first_value, found_of};
ghost use Rattle.rj_line.specs.Delimiters as specs;
ghost use Rattle.rj_line.specs.Delimiters.{AreDelimitersOf, are_delimiters_given, delimiter_at, delimiter_named};

use clap::ArgMatches;
use rj_csv_io::strict::Delimiter;

// The delimiter that is this byte, if it may delimit.
fn delimiter_at(byte: u8) -> Option<Delimiter>
    ensures { result ≡ delimiter_at byte }
{
    Delimiter::of(byte)
}

/// The delimiter that a word names: the word itself if it is one character that may delimit, or a
/// tab if it is `tab` or `\t`, a backslash and a t.
pub fn delimiter_of(word: &str) -> Option<Delimiter>
    ensures { result ≡ delimiter_named word.now }
{
    if word == "tab" || word == "\\t" {
        return delimiter_at(b'\t');
    }
    match word.as_bytes() {
        [byte] => delimiter_at(*byte),
        _ => None,
    }
}

// The value of an option, or that of `--delimiter` if it has none.
fn delimiter_word<'a>(matches: &ArgMatches<'a>, own: &str) -> Option<&'a str>
    ensures { option_map (λ s. s.now) result
        ≡ option_or (first_value (found_of matches.now) own.now) (first_value (found_of matches.now) (codes "delimiter")) }
{
    match matches.get_str(own) {
        Some(word) => Some(word),
        None => matches.get_str("delimiter"),
    }
}

// The delimiter of a table or of the result, by the name of its own option.
fn delimiter_given(matches: &ArgMatches<'_>, own: &str) -> Option<Delimiter>
    ensures { result ≡ specs.delimiter_given (first_value (found_of matches.now)) own.now }
{
    match delimiter_word(matches, own) {
        Some(word) => delimiter_of(word),
        None => Some(Delimiter::comma()),
    }
}

/// The delimiters of the tables and of the result.
#[derive(Clone, Copy)]
pub(crate) struct Delimiters {
    /// That of the left table.
    pub(crate) left: Delimiter,
    /// That of the right table.
    pub(crate) right: Delimiter,
    /// That of the result.
    pub(crate) out: Delimiter,
}

/// The delimiters by the values of the options: each by that of its own option, else by that of
/// `--delimiter`, else a comma. None if one of these values names no delimiter.
pub(crate) fn delimiters_of(matches: &ArgMatches<'_>) -> Option<Delimiters>
    ensures { MatchOption result (are_delimiters_given (first_value (found_of matches.now)) ≡ false) (AreDelimitersOf (first_value (found_of matches.now))) }
{
    let left = delimiter_given(matches, "left-delimiter")?;
    let right = delimiter_given(matches, "right-delimiter")?;
    let out = delimiter_given(matches, "out-delimiter")?;
    Some(Delimiters { left, right, out })
}
