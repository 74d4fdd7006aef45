//! What is given, whatever its value.

ghost use Rattle.std.specs.Prelude.{◌≡◌, is_some};
ghost use Rattle.clap.specs.Words.{first_value, found_of};
ghost use Rattle.rj_line.specs.Named.{is_true, is_word};

use clap::ArgMatches;

/// Whether a flag is given.
pub(crate) fn is_given(matches: &ArgMatches<'_>, name: &str) -> bool
    ensures { result ≡ is_true (first_value (found_of matches.now) name.now) }
{
    matches.get_str(name) == Some("true")
}

/// Whether an option has this value.
pub(crate) fn is_word(matches: &ArgMatches<'_>, name: &str, word: &str) -> bool
    ensures { result ≡ is_word word.now (first_value (found_of matches.now) name.now) }
{
    matches.get_str(name) == Some(word)
}

/// Whether an option has a value.
pub(crate) fn has_value(matches: &ArgMatches<'_>, name: &str) -> bool
    ensures { result ≡ is_some (first_value (found_of matches.now) name.now) }
{
    match matches.get_str(name) {
        Some(_) => true,
        None => false,
    }
}
