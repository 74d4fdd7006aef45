//! What the words of a command line ask for: explanations of its error, or suggested types.

ghost use Rattle.std.specs.Prelude.{◌≡◌, map, nat_eq};
ghost use Rattle.std.specs.List.{starts_with};
ghost use Rattle.rj_files.specs.Asking.{are_quiet, ask_for_lines, asking_of, has_start, has_word, is_quiet, options_in};

use rj_line::{form_of, is_explained};

/// How a line asks for suggested types.
#[derive(Clone, Copy)]
pub enum Asking {
    /// By the word `--suggest-types`: the file is a word of its own.
    Apart,
    /// By a word that has the file, too: `--suggest-types=FILE`.
    WithFile,
}

// Whether one of the words is this one.
fn has_word(words: &[&str], sought: &str) -> bool
    ensures { result ≡ has_word (map (λ w. w.now) words.now) sought.now }
{
    words.iter().any(|word| *word == sought)
}

// Whether a word begins with these bytes.
fn begins_with(word: &str, start: &str) -> bool
    ensures { result ≡ starts_with nat_eq word.now start.now }
{
    word.as_bytes().starts_with(start.as_bytes())
}

// Whether a word asks for nothing but the line of an error: by the option's name, or by its letter,
// alone or before that of another option, whose value may stand behind it.
fn is_quiet(word: &str) -> bool
    ensures { result ≡ is_quiet word.now }
{
    word == "--quiet"
        || word == "-q"
        || begins_with(word, "-qd")
        || begins_with(word, "-qw")
        || begins_with(word, "-qo")
        || begins_with(word, "-qq")
        || begins_with(word, "-qh")
        || begins_with(word, "-qV")
}

// Whether one of the words does.
fn are_quiet(words: &[&str]) -> bool
    ensures { result ≡ are_quiet (map (λ w. w.now) words.now) }
{
    words.iter().any(|word| is_quiet(word))
}

// The words that may be options: those before `--`.
fn options_in<'w, 'a>(words: &'w [&'a str]) -> &'w [&'a str]
    ensures { map (λ w. w.now) result.now ≡ options_in (map (λ w. w.now) words.now) }
{
    let count = words.iter().take_while(|word| **word != "--").count();
    &words[..count]
}

/// Whether the words ask for explanations.
pub(crate) fn ask_for_lines(words: &[&str]) -> bool
    ensures { result ≡ ask_for_lines (map (λ w. w.now) words.now) }
{
    let options = options_in(words);
    is_explained(
        form_of(words),
        has_word(options, "--explain") || has_word(options, "--explain=all"),
        has_word(options, "--terse"),
        are_quiet(options),
    )
}

// Whether one of the words begins with this text.
fn has_start(words: &[&str], start: &str) -> bool
    ensures { result ≡ has_start (map (λ w. w.now) words.now) start.now }
{
    words.iter().any(|word| begins_with(word, start))
}

/// How these words ask for suggested types, if they do, in whatever place. Words behind `--` are no
/// options.
pub fn asking_of(words: &[&str]) -> Option<Asking>
    ensures { result ≡ asking_of (map (λ w. w.now) words.now) }
{
    let options = options_in(words);
    if has_word(options, "--suggest-types") {
        return Some(Asking::Apart);
    }
    if has_start(options, "--suggest-types=") {
        return Some(Asking::WithFile);
    }
    None
}
