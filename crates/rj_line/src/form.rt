//! The two forms of a command line, and what each asks for where its words don't say.

ghost use Rattle.std.specs.Prelude.{◌≡◌, ◌≤◌, map, nat_eq};
ghost use Rattle.std.specs.List.{list_any, starts_with};
ghost use Rattle.rj_line.specs.Forms as forms;

use crate::request::Strictness;
use rj_settings::Repeated;

/// The form of a command line.
#[derive(Clone, Copy, Debug, PartialEq, Eq)]
pub enum Form {
    /// `--left`, `--right` and `--join` give the two tables and the clause.
    Long,
    /// The three words that are no options are the left table, the right table and the clause.
    Short,
}

// Whether a word begins with these bytes.
fn begins_with(word: &str, start: &str) -> bool
    ensures { result ≡ starts_with nat_eq word.now start.now }
{
    word.as_bytes().starts_with(start.as_bytes())
}

// Whether a word is an option that only the long form has, alone or with its value.
fn is_of_long(word: &str) -> bool
    ensures { result ≡ forms.is_of_long word.now }
{
    word == "--left"
        || word == "--right"
        || word == "--join"
        || begins_with(word, "--left=")
        || begins_with(word, "--right=")
        || begins_with(word, "--join=")
}

// Whether one of the words is such an option.
fn has_word_of_long(words: &[&str]) -> bool
    ensures { result ≡ list_any (λ w. forms.is_of_long w.now) words.now }
{
    words.iter().any(|word| is_of_long(word))
}

/// The form of a line of these words: the long one if a word is `--left`, `--right` or `--join`, or
/// begins with one of these and `=`; else the short one.
pub fn form_of(words: &[&str]) -> Form
    ensures { result ≡ forms.form_of (map (λ w. w.now) words.now) }
{
    if has_word_of_long(words) {
        Form::Long
    } else {
        Form::Short
    }
}

// Whether a word asks for all that explains an error.
fn is_explain_all(word: &str) -> bool
    ensures { result ≡ forms.is_explain_all word.now }
{
    word == "--explain=all"
}

/// Whether the option that explains errors takes a word in a line of these words: where one of them
/// is `--explain=all`.
pub(crate) fn explains_by_word(words: &[&str]) -> bool
    ensures { result ≡ list_any (λ w. forms.is_explain_all w.now) words.now }
{
    words.iter().any(|word| is_explain_all(word))
}

// A worker for each processor, from 1 to 64.
fn workers_for(processors: usize) -> u32
    ensures workers { result ≡ forms.workers_for processors }
    ensures some { 1 ≤ result }
    ensures few { result ≤ 64 }
{
    if processors < 1 {
        1
    } else if 64 < processors {
        64
    } else {
        processors as u32
    }
}

/// How many workers there are where a line doesn't say.
pub(crate) fn default_workers(form: Form, processors: usize) -> u32
    ensures workers { result ≡ forms.default_workers form processors }
    ensures some { 1 ≤ result }
    ensures few { result ≤ 64 }
{
    match form {
        Form::Long => 1,
        Form::Short => workers_for(processors),
    }
}

/// What becomes of names that occur twice where a line doesn't say.
pub(crate) fn default_repeated<'a>(form: Form) -> Repeated<'a>
    ensures { result ≡ forms.default_repeated form }
{
    match form {
        Form::Long => Repeated::Kept,
        Form::Short => Repeated::Qualified,
    }
}

/// How strictly files are read where a line doesn't say, by whether it has `--lenient`.
pub(crate) fn default_strictness(form: Form, lenient: bool) -> Strictness
    ensures { result ≡ forms.default_strictness form lenient }
{
    match form {
        Form::Long => Strictness::Off,
        Form::Short => {
            if lenient {
                Strictness::Off
            } else {
                Strictness::On
            }
        }
    }
}

// Whether an error is explained where a line doesn't have `--explain`, by whether it has `--terse`.
fn default_explain(form: Form, terse: bool) -> bool
    ensures { result ≡ forms.default_explain form terse }
{
    match form {
        Form::Long => false,
        Form::Short => !terse,
    }
}

/// Whether an error is explained, by whether a line of this form has `--explain`, `--terse` and
/// `--quiet`.
pub fn is_explained(form: Form, explain: bool, terse: bool, quiet: bool) -> bool
    ensures { result ≡ forms.is_explained form explain terse quiet }
{
    !quiet && (explain || default_explain(form, terse))
}

/// Whether a form is the short one.
pub(crate) fn is_short(form: Form) -> bool
    ensures { result ≡ forms.is_short form }
{
    match form {
        Form::Long => false,
        Form::Short => true,
    }
}
