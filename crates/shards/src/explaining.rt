//! `--explain`: the lines that are added after the line of an error.

ghost use Rattle.std.specs.Prelude.{◌≡◌, ◌≢◌, ◌⊎◌, IfOk, IfSome, None, false, map, option_map, string_bytes};
ghost use Rattle.std.specs.List.{list_any};
ghost use Rattle.rj_line.specs.Faults.{IsAskedFor};
ghost use Rattle.rj_line.specs.declared.fault.Fault.{Fault};
ghost use Rattle.rj_line.specs.Line.{IsLineFault, IsLineOf};
ghost use Rattle.shards.specs.Explained.{AreHeadersTold, AreLinesOf, has_value, is_explain, is_of_headers, is_own_option, without_own};
ghost use Rattle.shards.specs.Failures.{clap_error_of, exit_of, unwritten};
ghost use Rattle.shards.specs.Heads.{Begins};
ghost use Rattle.shards.specs.Storages.{MayFail};

use crate::failure::Failure;
use crate::storage::{Storage, read_beginning};
use rj_command::{Line, read_line, tell};
use rj_explain::{Inputs, explain, explain_words};
use rj_line::fault::{Fault, Side};
use std::alloc::{AllocError, Global};

/// Why there is no output, and the lines that explain it.
#[derive(Drop)]
pub(crate) struct ExplainedFailure {
    failure: Failure,
    lines: Option<String>,
}

impl From<Failure> for ExplainedFailure {
    ghost use Rattle.std.specs.Prelude.{None};

    ghost from_gives = { λ failure e. (e.failure ≡ failure) × (e.lines ≡ None) };

    fn from(failure: Failure) -> ExplainedFailure {
        ExplainedFailure {
            failure,
            lines: None,
        }
    }
}

impl From<AllocError> for ExplainedFailure {
    ghost use Rattle.rj_line.specs.declared.fault.Fault.TheVariants.{Memory};
    ghost use Rattle.shards.specs.declared.failure.Failure.TheVariants.{Told};

    ghost from_gives = { λ _ e. e.failure ≡ Told Memory };

    fn from(_error: AllocError) -> ExplainedFailure {
        ExplainedFailure::from(Failure::Told(Fault::Memory))
    }
}

// The options that a join in one go doesn't have; each takes a value.
const OWN_OPTIONS: [&str; 6] = ["--side", "--parts", "--from", "--to", "--out", "--cuts"];

// Whether a word is an option that a join in one go doesn't have, with its value after `=` or
// without.
fn is_own_option(word: &str) -> bool
    ensures { result ≡ is_own_option word.now }
{
    match word.split_once('=') {
        Some((option, _)) => OWN_OPTIONS.contains(&option),
        None => OWN_OPTIONS.contains(&word),
    }
}

// Whether an option's word has its value after `=`.
fn has_value(word: &str) -> bool
    ensures { result ≡ has_value word.now }
{
    word.as_bytes().contains(&b'=')
}

// The words with the same meaning for a join in one go.
fn words_of_join<'w>(alloc: Global, words: &[&'w str]) -> Result<Vec<&'w str>, AllocError>
    ensures { IfOk result (λ v. map (λ w. w.now) v.items ≡ without_own false (map (λ w. w.now) words.now)) }
{
    let mut of_join = Vec::with_capacity(alloc, words.len())?;
    let mut is_own_value = false;
    for word in words {
        if is_own_value {
            is_own_value = false;
        } else if is_own_option(*word) {
            is_own_value = !has_value(*word);
        } else {
            of_join.push(*word)?;
        }
    }
    Ok(of_join)
}

// Whether an error is in a header, in a type list that doesn't fit one, or in the clause.
fn is_of_headers(fault: &Fault) -> bool
    ensures { result ≡ is_of_headers fault.now }
{
    match fault {
        Fault::BadName(_, _)
        | Fault::RepeatedName(_, _)
        | Fault::TypeCount(_)
        | Fault::TypeName(_, _)
        | Fault::Syntax(_)
        | Fault::UnknownColumn
        | Fault::AmbiguousColumn
        | Fault::TypeMismatch
        | Fault::RepeatedUsing => true,
        _ => false,
    }
}

// The line of a join in one go that these words are, if they are one.
fn line_of_join<'w>(alloc: Global, words: &'w [&'w str]) -> Result<Option<Line<'w>>, AllocError>
    ensures line { IfOk result (λ o. IfSome o (IsLineOf 1 (map (λ w. w.now) words.entry.now))) }
    ensures none { IfOk result (λ o. o ≡ None → (f : Fault) × (f ≢ Fault.Memory) × IsLineFault (map (λ w. w.now) words.entry.now) f) }
{
    match read_line(alloc, words, 1) {
        Ok(line) => Ok(Some(line)),
        Err(fault) => match fault {
            Fault::Memory => Err(AllocError),
            _ => Ok(None),
        },
    }
}

// The first bytes of a side's file, if it can be read.
fn beginning_of<S: Storage>(
    alloc: Global,
    storage: &S,
    name: &str,
    side: Side,
) -> Result<Option<Vec<u8>>, AllocError>
    ensures beginning { IfOk result (λ o. IfSome o (λ v. Begins (S.holds storage.now name.now) v.items)) }
    ensures none { IfOk result (λ o. o ≡ None → MayFail S.Reader.count (S.opens storage.now)) }
{
    match read_beginning(alloc, storage, name, side) {
        Ok(bytes) => Ok(Some(bytes)),
        Err(fault) => match fault {
            Fault::Memory => Err(AllocError),
            _ => Ok(None),
        },
    }
}

// The lines of an error of headers or of the clause, for which the files' beginnings are enough.
fn header_lines<S: Storage>(
    alloc: Global,
    storage: &S,
    words: &[&str],
    fault: &Fault,
) -> Result<String, AllocError>
    ensures { IfOk result (λ s. AreHeadersTold (S.holds storage.now) (MayFail S.Reader.count (S.opens storage.now)) fault.now (map (λ w. w.now) words.now) (string_bytes s)) }
{
    let words = words_of_join(alloc, words)?;
    let Some(line) = line_of_join(alloc, words.as_slice())? else {
        return Ok(String::new(alloc));
    };
    let Some(left) = beginning_of(alloc, storage, line.left, Side::Left)? else {
        return Ok(String::new(alloc));
    };
    let Some(right) = beginning_of(alloc, storage, line.right, Side::Right)? else {
        return Ok(String::new(alloc));
    };
    let inputs = Inputs {
        left: left.as_slice(),
        right: right.as_slice(),
        request: &line.request,
    };
    explain(alloc, fault, &inputs)
}

// The lines that say more about a failure than its own line does: about a list of types, an error
// of a header, a list that doesn't fit one, and the clause.
fn lines_of<S: Storage>(
    alloc: Global,
    storage: &S,
    words: &[&str],
    failure: &Failure,
) -> Result<Option<String>, AllocError>
    ensures { IfOk result (λ o. AreLinesOf (S.holds storage.now) (MayFail S.Reader.count (S.opens storage.now)) failure.now (map (λ w. w.now) words.now) (option_map string_bytes o)) }
{
    match failure {
        Failure::Told(fault) if is_of_headers(fault) => {
            Ok(Some(header_lines(alloc, storage, words, fault)?))
        }
        Failure::Told(fault) => explain_words(alloc, words, fault),
        _ => Ok(None),
    }
}

// Whether the words ask for failures to be explained.
fn is_asked(words: &[&str]) -> bool
    ensures { result ≡ list_any (λ w. is_explain w.now) words.now }
{
    words.iter().any(|word| *word == "--explain")
}

/// A failure of a run with these words, explained if they ask for it and there was memory for it.
pub(crate) fn explained<S: Storage>(
    alloc: Global,
    storage: &S,
    words: &[&str],
    failure: Failure,
) -> ExplainedFailure
    ensures failure { result.failure ≡ failure }
    ensures unasked { list_any (λ w. is_explain w.now) words.now ≡ false → result.lines ≡ None }
    ensures lines { (result.lines ≡ None) ⊎ AreLinesOf (S.holds storage.now) (MayFail S.Reader.count (S.opens storage.now)) failure (map (λ w. w.now) words.now) (option_map string_bytes result.lines) }
{
    if !is_asked(words) {
        return ExplainedFailure::from(failure);
    }
    match lines_of(alloc, storage, words, &failure) {
        Ok(lines) => ExplainedFailure { failure, lines },
        Err(_) => ExplainedFailure::from(failure),
    }
}

/// Prints a failure, and what explains it, on standard error, and returns the exit status: that of
/// the failure or, if help or the version was asked for and couldn't be printed, that of a failed
/// write.
pub(crate) fn tell_explained<R: Print + Eprint>(rt: &R, reason: &ExplainedFailure) -> u8
    ensures { (result ≡ exit_of reason.now.failure) ⊎ (IsAskedFor (clap_error_of reason.now.failure) × (result ≡ exit_of unwritten)) }
{
    let status = tell(rt, &reason.failure);
    if let Some(lines) = &reason.lines {
        let _ = eprint!(rt; "{lines}");
    }
    status
}
