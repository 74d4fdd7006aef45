//! The options of the command line.

ghost use Rattle.std.specs.Prelude.{◌≡◌, IfOk, map};
ghost use Rattle.clap.specs.Words.{rule_of};
ghost use Rattle.rj_line.specs.Options as specs;
ghost use Rattle.rj_line.specs.Options.{IsChain, IsLineCommand, own_rules, rule_of_option};

use crate::fault::VERSION;
use crate::form::Form;
use crate::help::HELP;
use clap::{Arg, ArgAction, Command, value_parser};
use std::alloc::{AllocError, Global};

// What an option takes.
#[derive(Clone, Copy)]
pub(crate) enum Takes {
    // It is no option: it is a word by itself, which must be given.
    Place,
    // A text, and the option must be given.
    Required,
    // A text.
    Text,
    // A text at each use.
    Texts,
    // A number, from the first of these to the second.
    Number(u32, u32),
    // One of these words.
    Word(&'static [&'static str]),
    // One of these words, or nothing, for which the other one stands.
    WordOrNone(&'static [&'static str], &'static str),
    // Nothing: the option is given or not.
    Nothing,
}

// An option of the command line.
#[derive(Clone, Copy)]
pub(crate) struct LineOption {
    name: &'static str,
    letter: Option<char>,
    takes: Takes,
}

// The bits of the hash that a pass partitions by.
const BITS: Takes = Takes::Number(0, 10);

// The options of the long form alone.
const LONG: [LineOption; 5] = [
    LineOption {
        name: "left",
        letter: None,
        takes: Takes::Required,
    },
    LineOption {
        name: "right",
        letter: None,
        takes: Takes::Required,
    },
    LineOption {
        name: "left-types",
        letter: None,
        takes: Takes::Required,
    },
    LineOption {
        name: "right-types",
        letter: None,
        takes: Takes::Required,
    },
    LineOption {
        name: "join",
        letter: None,
        takes: Takes::Required,
    },
];

// Those of the short form, in which three words are no options.
const SHORT: [LineOption; 7] = [
    LineOption {
        name: "left",
        letter: None,
        takes: Takes::Place,
    },
    LineOption {
        name: "right",
        letter: None,
        takes: Takes::Place,
    },
    LineOption {
        name: "join",
        letter: None,
        takes: Takes::Place,
    },
    LineOption {
        name: "left-types",
        letter: None,
        takes: Takes::Text,
    },
    LineOption {
        name: "right-types",
        letter: None,
        takes: Takes::Text,
    },
    LineOption {
        name: "lenient",
        letter: None,
        takes: Takes::Nothing,
    },
    LineOption {
        name: "terse",
        letter: None,
        takes: Takes::Nothing,
    },
];

// The options of both forms, but for the one that explains errors.
const COMMON: [LineOption; 35] = [
    LineOption {
        name: "types",
        letter: None,
        takes: Takes::Text,
    },
    LineOption {
        name: "null",
        letter: None,
        takes: Takes::Text,
    },
    LineOption {
        name: "left-null",
        letter: None,
        takes: Takes::Texts,
    },
    LineOption {
        name: "right-null",
        letter: None,
        takes: Takes::Texts,
    },
    LineOption {
        name: "out-null",
        letter: None,
        takes: Takes::Text,
    },
    LineOption {
        name: "delimiter",
        letter: Some('d'),
        takes: Takes::Text,
    },
    LineOption {
        name: "left-delimiter",
        letter: None,
        takes: Takes::Text,
    },
    LineOption {
        name: "right-delimiter",
        letter: None,
        takes: Takes::Text,
    },
    LineOption {
        name: "out-delimiter",
        letter: None,
        takes: Takes::Text,
    },
    LineOption {
        name: "strict",
        letter: None,
        takes: Takes::WordOrNone(&["on", "full"], "on"),
    },
    LineOption {
        name: "bits1",
        letter: None,
        takes: BITS,
    },
    LineOption {
        name: "bits2",
        letter: None,
        takes: BITS,
    },
    LineOption {
        name: "hash",
        letter: None,
        takes: Takes::Word(&["plain", "mixed"]),
    },
    LineOption {
        name: "workers",
        letter: Some('w'),
        takes: Takes::Number(1, 64),
    },
    LineOption {
        name: "block",
        letter: None,
        takes: Takes::Number(1, 65_536),
    },
    LineOption {
        name: "capacity",
        letter: None,
        takes: Takes::Number(1, 4096),
    },
    LineOption {
        name: "lanes",
        letter: None,
        takes: Takes::Number(1, 4),
    },
    LineOption {
        name: "retries",
        letter: None,
        takes: Takes::Number(0, 3),
    },
    LineOption {
        name: "piece",
        letter: None,
        takes: Takes::Number(1, 1_048_576),
    },
    LineOption {
        name: "stats",
        letter: None,
        takes: Takes::Nothing,
    },
    LineOption {
        name: "output",
        letter: Some('o'),
        takes: Takes::Text,
    },
    LineOption {
        name: "order",
        letter: None,
        takes: Takes::Word(&["pairs", "left"]),
    },
    LineOption {
        name: "rows",
        letter: None,
        takes: Takes::Text,
    },
    LineOption {
        name: "columns",
        letter: None,
        takes: Takes::Word(&["all", "left", "right"]),
    },
    LineOption {
        name: "anti",
        letter: None,
        takes: Takes::Nothing,
    },
    LineOption {
        name: "semi",
        letter: None,
        takes: Takes::Nothing,
    },
    LineOption {
        name: "repeated",
        letter: None,
        takes: Takes::Text,
    },
    LineOption {
        name: "expect",
        letter: None,
        takes: Takes::Word(&[
            "one-to-one",
            "many-to-one",
            "one-to-many",
            "matched",
            "one-to-one,matched",
            "many-to-one,matched",
            "one-to-many,matched",
        ]),
    },
    LineOption {
        name: "max-rows",
        letter: None,
        takes: Takes::Number(0, 4_294_967_295),
    },
    LineOption {
        name: "count",
        letter: None,
        takes: Takes::Nothing,
    },
    LineOption {
        name: "report",
        letter: None,
        takes: Takes::Nothing,
    },
    LineOption {
        name: "progress",
        letter: None,
        takes: Takes::Nothing,
    },
    LineOption {
        name: "select",
        letter: None,
        takes: Takes::Text,
    },
    LineOption {
        name: "quiet",
        letter: Some('q'),
        takes: Takes::Nothing,
    },
    LineOption {
        name: "unnamed",
        letter: None,
        takes: Takes::Nothing,
    },
];

// The option that explains errors, as a flag.
const EXPLAIN: [LineOption; 1] = [LineOption {
    name: "explain",
    letter: None,
    takes: Takes::Nothing,
}];

// The same option, with its word.
const EXPLAIN_BY_WORD: [LineOption; 1] = [LineOption {
    name: "explain",
    letter: None,
    takes: Takes::Word(&["all"]),
}];

// An argument with the names of an option.
fn named<'a>(alloc: Global, option: &LineOption) -> Arg<'a>
    ensures { rule_of result ≡ specs.named option.now.name.now option.now.letter }
{
    let argument = Arg::new(alloc, option.name).long(option.name);
    match option.letter {
        Some(letter) => argument.short(letter),
        None => argument,
    }
}

// The argument of an option, as `clap` has it.
fn argument<'a>(alloc: Global, option: &LineOption) -> Arg<'a>
    ensures { rule_of result ≡ rule_of_option option.now }
{
    match option.takes {
        Takes::Place => Arg::new(alloc, option.name)
            .action(ArgAction::Set)
            .required(true),
        Takes::Required => named(alloc, option).action(ArgAction::Set).required(true),
        Takes::Text => named(alloc, option).action(ArgAction::Set),
        Takes::Texts => named(alloc, option).action(ArgAction::Append),
        Takes::Number(least, most) => {
            let numbers = value_parser!(u32).range(i64::from(least)..=i64::from(most));
            named(alloc, option)
                .action(ArgAction::Set)
                .value_parser(numbers)
        }
        Takes::Word(words) => named(alloc, option)
            .action(ArgAction::Set)
            .value_parser(words),
        Takes::WordOrNone(words, other) => named(alloc, option)
            .action(ArgAction::Set)
            .num_args(0..=1)
            .default_missing_value(other)
            .value_parser(words),
        Takes::Nothing => named(alloc, option).action(ArgAction::SetTrue),
    }
}

// The command with these options more, in order.
fn with_options<'a>(
    alloc: Global,
    command: Command<'a>,
    options: &[LineOption],
) -> Result<Command<'a>, AllocError>
    ensures { IfOk result (λ c. IsChain command.entry (map rule_of_option options.now) c) }
{
    let mut command = command;
    for option in options {
        command = command.arg(argument(alloc, option))?;
    }
    Ok(command)
}

// The command with the options of this form alone.
fn with_own_options<'a>(
    alloc: Global,
    command: Command<'a>,
    form: Form,
) -> Result<Command<'a>, AllocError>
    ensures { IfOk result (λ c. IsChain command.entry (own_rules form) c) }
{
    match form {
        Form::Long => with_options(alloc, command, &LONG),
        Form::Short => with_options(alloc, command, &SHORT),
    }
}

// The command line of the program in this form, in which errors are explained by a word or by a
// flag. Its words begin after the program's name.
pub(crate) fn line_command<'a>(
    alloc: Global,
    form: Form,
    by_word: bool,
) -> Result<Command<'a>, AllocError>
    ensures { IfOk result (IsLineCommand form by_word) }
{
    let command = Command::new(alloc, "radixjoin")
        .override_help(HELP)
        .version(VERSION)
        .no_binary_name(true);
    let command = with_own_options(alloc, command, form)?;
    let command = with_options(alloc, command, &COMMON)?;
    if by_word {
        with_options(alloc, command, &EXPLAIN_BY_WORD)
    } else {
        with_options(alloc, command, &EXPLAIN)
    }
}
