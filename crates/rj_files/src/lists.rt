//! Lists of types that are in files: `@FILE` in the place of a list.

ghost use Rattle.std.specs.Prelude.{◌≡◌, ◌==◌, ℕ, IfErr, IfOk, IfSome, List, MatchOption, None, Ok, Some, drop, false, map, string_bytes, true};
ghost use Rattle.std.specs.List.{after_first, before_first};
ghost use Rattle.rj_files.specs.Asking.{ask_for_lines};
ghost use Rattle.rj_files.specs.Labels.{AreReadWords, IsListError, IsListFault, IsListLine, IsListsError, IsReadWord, IsUnreadOf, IsWordError, bad_list_fault, file_label, is_file, label_of, named_file, unread_name};
ghost use Rattle.rj_files.specs.Told.{IsKept, IsThere};
ghost use Rattle.rj_line.specs.Listed.{list_in};

use crate::asking::ask_for_lines;
use crate::explained::ExplainedFault;
use crate::named::{open_file, told_by_system, why_unread};
use crate::reading::{FileLabel, OpenStream, read_bytes, unopened};
use rj_line::fault::{Fault, Side, texts_of};
use rj_line::suggest::list_of_lines;
use std::alloc::{AllocError, Global};
use std::fs::Files;

// Whose types the value of an option lists, if it is an option of types.
fn label_of(option: &str) -> Option<FileLabel>
    ensures { result ≡ label_of option.now }
{
    match option {
        "--left-types" => Some(FileLabel::One(Side::Left)),
        "--right-types" => Some(FileLabel::One(Side::Right)),
        "--types" => Some(FileLabel::Both),
        _ => None,
    }
}

// The error of a file of types that isn't UTF-8.
fn bad_list(label: FileLabel) -> Fault
    ensures { result ≡ bad_list_fault label }
{
    match label {
        FileLabel::One(side) => Fault::BadTypeList(side),
        FileLabel::Both => Fault::BadSharedTypeList,
    }
}

// The name of a file, if a value is `@` and such a name.
fn file_in(value: &str) -> Option<&str>
    ensures file { MatchOption result (is_file value.now ≡ false) (λ _. is_file value.now ≡ true) }
    ensures name { IfSome result (λ name. name.now ≡ drop 1 value.now) }
{
    value.strip_prefix('@')
}

// An option and its value, if a word is both with `=` between.
fn option_in(word: &str) -> Option<(&str, &str)>
    ensures { MatchOption result (is_file (after_first (λ b. b == 61) word.now) ≡ false)
        (λ pair. (pair.0.now ≡ before_first (λ b. b == 61) word.now) × (pair.1.now ≡ after_first (λ b. b == 61) word.now)) }
{
    word.split_once('=')
}

// A file that a word names behind an option of types and `=`.
#[derive(Clone, Copy)]
struct NamedFile<'a> {
    option: &'a str,
    name: &'a str,
    label: FileLabel,
}

// The file that a word names so, if it names one.
fn named_in(word: &str) -> Option<NamedFile<'_>>
    ensures { MatchOption result (file_label None word.now ≡ None) (λ f. (file_label None word.now ≡ Some f.label)
        × (f.option.now ≡ before_first (λ b. b == 61) word.now) × (f.name.now ≡ named_file None word.now)) }
{
    let (option, value) = option_in(word)?;
    let name = file_in(value)?;
    let label = label_of(option)?;
    Some(NamedFile {
        option,
        name,
        label,
    })
}

// An option with the list that a file has, if the word is such an option, `=` and `@FILE`.
fn with_list<R: Files + AllocGlobal>(
    rt: &R,
    word: &str,
    explain: bool,
) -> Result<Option<String>, ExplainedFault>
    ensures list { IfOk result (λ o. MatchOption o (file_label None word.now ≡ None) (λ s. IsReadWord None word.now (string_bytes s))) }
    ensures fault { IfErr result (IsWordError None word.now explain) }
    ensures unasked { explain ≡ false → IfErr result (λ e. e.lines ≡ Ok None) }
    ensures told { IfErr result (λ e. e.is_told ≡ true) }
{
    let Some(
        NamedFile {
            option,
            name,
            label,
        },
    ) = named_in(word)
    else {
        return Ok(None);
    };
    let list = list_of(rt, name, label, explain)?;
    Ok(Some(format!(in rt.alloc(); "{option}={list}")?))
}

// The bytes of a file, to its end.
fn read_file<R: Files + AllocGlobal>(rt: &R, name: &str, label: FileLabel) -> Result<Vec<u8>, Fault>
    ensures { IfErr result (IsUnreadOf label) }
{
    match open_file(rt, name) {
        Ok(
            OpenStream {
                reader,
                likely_size,
            },
        ) => read_bytes(rt.alloc(), reader, likely_size, label),
        Err(error) => Err(unopened(&error, label)),
    }
}

// The list that a file has, or why it has none.
fn read_list<R: Files + AllocGlobal>(rt: &R, file: &str, label: FileLabel) -> Result<String, Fault>
    ensures list { IfOk result (λ s. (bytes : List ℕ) × (string_bytes s ≡ list_in bytes)) }
    ensures fault { IfErr result (IsListFault label) }
{
    let bytes = read_file(rt, file, label)?;
    match list_of_lines(rt.alloc(), bytes.as_slice())? {
        Some(list) => Ok(list),
        None => Err(bad_list(label)),
    }
}

// The line that tells of a file that it is one of types, and why its list can't be had.
fn unread_line<R: Files + AllocGlobal>(
    rt: &R,
    file: &str,
    fault: &Fault,
) -> Result<String, AllocError>
    ensures { IfOk result (λ s. IsListLine file.now fault.now (string_bytes s)) }
{
    let alloc = rt.alloc();
    match fault {
        Fault::ReadDevice(_) | Fault::SharedReadDevice => {
            let name = format!(in alloc; "the file of types {file}")?;
            told_by_system(alloc, name.as_str(), &why_unread(rt, file))
        }
        Fault::BadTypeList(_) | Fault::BadSharedTypeList => {
            format!(in alloc; "  the file of types {file} isn't UTF-8\n")
        }
        _ => Ok(String::new(alloc)),
    }
}

// The name of a file, if an error is that it can't be read.
fn unread_name(alloc: Global, file: &str, fault: &Fault) -> Result<Option<String>, AllocError>
    ensures { IsKept result (unread_name file.now fault.now) }
{
    match fault {
        Fault::ReadDevice(_) | Fault::SharedReadDevice => {
            Ok(Some(String::from_str(alloc, file)?))
        }
        _ => Ok(None),
    }
}

// Why the list that a file has can't be had, explained if that is asked for.
fn unlisted<R: Files + AllocGlobal>(
    rt: &R,
    file: &str,
    fault: Fault,
    explain: bool,
) -> ExplainedFault
    ensures fault { result.fault ≡ fault }
    ensures file { IsKept result.file (unread_name file.now fault) }
    ensures unasked { explain ≡ false → result.lines ≡ Ok None }
    ensures asked { explain ≡ true → IsThere result.lines (IsListLine file.now fault) }
    ensures told { result.is_told ≡ true }
{
    let name = unread_name(rt.alloc(), file, &fault);
    if !explain {
        return ExplainedFault::from(fault).of_file(name);
    }
    let lines = unread_line(rt, file, &fault);
    ExplainedFault::new(fault, lines).of_file(name)
}

// The list that a file has. An error is explained if that is asked for.
fn list_of<R: Files + AllocGlobal>(
    rt: &R,
    file: &str,
    label: FileLabel,
    explain: bool,
) -> Result<String, ExplainedFault>
    ensures list { IfOk result (λ s. (bytes : List ℕ) × (string_bytes s ≡ list_in bytes)) }
    ensures fault { IfErr result (λ e. IsListError explain e label file.now) }
    ensures unasked { explain ≡ false → IfErr result (λ e. e.lines ≡ Ok None) }
    ensures told { IfErr result (λ e. e.is_told ≡ true) }
{
    match read_list(rt, file, label) {
        Ok(list) => Ok(list),
        Err(fault) => Err(unlisted(rt, file, fault, explain)),
    }
}

// A word, with the list of a file in its place if it names such a file. The label is that of the
// word before, if that is such an option.
fn with_its_list<R: Files + AllocGlobal>(
    rt: &R,
    word: String,
    label: Option<FileLabel>,
    explain: bool,
) -> Result<String, ExplainedFault>
    ensures read { IfOk result (λ s. IsReadWord label (string_bytes word) (string_bytes s)) }
    ensures fault { IfErr result (IsWordError label (string_bytes word) explain) }
    ensures unasked { explain ≡ false → IfErr result (λ e. e.lines ≡ Ok None) }
    ensures told { IfErr result (λ e. e.is_told ≡ true) }
{
    if let Some(label) = label {
        return match file_in(word.as_str()) {
            Some(file) => list_of(rt, file, label, explain),
            None => Ok(word),
        };
    }
    match with_list(rt, word.as_str(), explain)? {
        Some(read) => Ok(read),
        None => Ok(word),
    }
}

// Whether the words ask for explanations.
fn are_explained(alloc: Global, words: &[String]) -> Result<bool, AllocError>
    ensures { IfOk result (λ b. b ≡ ask_for_lines (map string_bytes words.now)) }
{
    let texts = texts_of(alloc, words)?;
    Ok(ask_for_lines(texts.as_slice()))
}

/// The words of the command line, where each `@FILE` of an option of types is replaced by the list
/// of types in that file. The other words stay as they are.
///
/// # Errors
///
/// `ReadDevice` of the side if a file can't be read, and `BadTypeList` if its list isn't text, or
/// `SharedReadDevice` and `BadSharedTypeList` of both tables; with the lines that tell of the file
/// if the words ask for explanations. `Memory` comes only when memory ran out.
pub fn read_lists<R: Files + AllocGlobal>(
    rt: &R,
    words: Vec<String>,
) -> Result<Vec<String>, ExplainedFault>
    ensures read { IfOk result (λ v. AreReadWords None (map string_bytes words.items) (map string_bytes v.items)) }
    ensures fault { IfErr result (IsListsError (map string_bytes words.items) (ask_for_lines (map string_bytes words.items))) }
    ensures told { IfErr result (λ e. e.is_told ≡ true) }
    ensures unasked { ask_for_lines (map string_bytes words.items) ≡ false → IfErr result (λ e. e.lines ≡ Ok None) }
{
    let explain = are_explained(rt.alloc(), words.as_slice())?;
    let mut read = Vec::with_capacity(rt.alloc(), words.len())?;
    let mut label = None;
    for word in words {
        let next = label_of(word.as_str());
        let word = with_its_list(rt, word, label, explain)?;
        read.push(word).map_err(AllocError::from)?;
        label = next;
    }
    Ok(read)
}
