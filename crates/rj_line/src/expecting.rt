//! What the command line expects of the joined table.

ghost use Rattle.std.specs.Prelude.{◌≡◌, ◌-◌, ◌^◌, codes};
ghost use Rattle.clap.specs.Words.{first_value, found_of};
ghost use Rattle.rj_line.specs.Line.{GivesExpected, IsExpectationOf, IsNumberIn, SpellsSome, expected_word};

use clap::ArgMatches;
use rj_settings::{Expectation, Matching};

// How rows may be matched, if it is said, and whether each left row has to be in a match.
fn matching_of(matches: &ArgMatches<'_>) -> (Option<Matching>, bool)
    requires { GivesExpected (first_value (found_of matches.now) (codes "expect")) }
    ensures { expected_word result.0 result.1 ≡ first_value (found_of matches.now) (codes "expect") }
{
    match matches.get_str("expect") {
        None => (None, false),
        Some("matched") => (None, true),
        Some("one-to-one") => (Some(Matching::OneToOne), false),
        Some("one-to-one,matched") => (Some(Matching::OneToOne), true),
        Some("many-to-one") => (Some(Matching::ManyToOne), false),
        Some("many-to-one,matched") => (Some(Matching::ManyToOne), true),
        Some("one-to-many") => (Some(Matching::OneToMany), false),
        Some(_) => (Some(Matching::OneToMany), true),
    }
}

/// The number of an option, if it is given.
pub(crate) fn number_of(matches: &ArgMatches<'_>, name: &str) -> Option<u32>
    requires { IsNumberIn 0 (2 ^ 32 - 1) (first_value (found_of matches.now) name.now) }
    ensures { SpellsSome (first_value (found_of matches.now) name.now) result }
{
    match matches.get_str(name) {
        Some(text) => Some(text.parse::<i64>().unwrap() as u32),
        None => None,
    }
}

/// What the options expect of the joined table.
pub(crate) fn expectation_of(matches: &ArgMatches<'_>) -> Expectation
    requires matching { GivesExpected (first_value (found_of matches.now) (codes "expect")) }
    requires most_rows { IsNumberIn 0 (2 ^ 32 - 1) (first_value (found_of matches.now) (codes "max-rows")) }
    ensures { IsExpectationOf (first_value (found_of matches.now)) result }
{
    let (matching, matched) = matching_of(matches);
    Expectation {
        matching,
        matched,
        most_rows: number_of(matches, "max-rows"),
    }
}
