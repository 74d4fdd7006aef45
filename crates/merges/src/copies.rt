//! The values of `--copies`: for each file, in how many of the files its unmatched rows are.

ghost use Rattle.std.specs.Prelude.{◌≡◌, ◌≢◌, ◌==◌, Contains, Err, IfErr, IfOk, List, None, Some, map, option_map};
ghost use Rattle.std.specs.Char.{is_ascii_digit};
ghost use Rattle.std.specs.List.{list_all, slice_split};
ghost use Rattle.rj_shards.specs.declared.merge.copies.Copies.{Copies};
ghost use Rattle.merges.specs.Copies as specs;
ghost use Rattle.merges.specs.Copies.{AreCopiesOf};
ghost use Rattle.merges.specs.declared.failure.Failure.{Failure};

use crate::failure::Failure;
use rj_shards::merge::Copies;
use std::alloc::{AllocError, Global};

// The most files that a row may have to be in.
const MOST: u32 = 1_048_576;

fn are_digits(text: &str) -> bool
    ensures { result ≡ list_all is_ascii_digit text.now }
{
    text.as_bytes().iter().all(|byte| byte.is_ascii_digit())
}

// The number that a text writes without a sign, if it is one of those that an entry may have.
fn number_of(text: &str) -> Option<u32>
    ensures { result ≡ specs.number_of text.now }
{
    if !are_digits(text) {
        return None;
    }
    match text.parse::<u32>() {
        Ok(number) => {
            if 1 <= number && number <= MOST {
                Some(number)
            } else {
                None
            }
        }
        Err(_) => None,
    }
}

// The copies of an entry: `1`, or two numbers with an `x` between them.
fn copies_of(entry: &str) -> Option<Copies>
    ensures { result ≡ specs.copies_of entry.now }
{
    if entry == "1" {
        return Some(Copies::single());
    }
    let Some((left, right)) = entry.split_once('x') else {
        return None;
    };
    match (number_of(left), number_of(right)) {
        (Some(left), Some(right)) => Some(Copies { left, right }),
        _ => None,
    }
}

// The entries of a list, between commas.
fn entries_of(alloc: Global, list: &str) -> Result<Vec<&str>, AllocError>
    ensures { IfOk result (λ v. map (λ e. e.now) v.items ≡ slice_split (λ b. b == 44) list.now) }
{
    list.split(',').collect(alloc)
}

// The copies of each entry.
fn read_entries(alloc: Global, entries: &[&str]) -> Result<Vec<Copies>, Failure>
    ensures copies { IfOk result (λ all. map (λ e. specs.copies_of e.now) entries.now ≡ map Some all.items) }
    ensures bad { result ≡ Err Failure.BadCopies → Contains (map (λ e. specs.copies_of e.now) entries.now) None }
    ensures fault { IfErr result (λ f. f ≢ Failure.Memory → f ≡ Failure.BadCopies) }
{
    let mut all = Vec::new(alloc);
    for i in 0..entries.len() {
        let Some(copies) = copies_of(entries[i]) else {
            return Err(Failure::BadCopies);
        };
        if all.push(copies).is_err() {
            return Err(Failure::Memory);
        }
    }
    Ok(all)
}

/// The copies of each file, by a list with an entry for each file. Without a list each file is
/// alone.
///
/// # Errors
///
/// `BadCopies` if the list has more or fewer entries than there are files, or one that is neither
/// `1` nor `LxR`. `Memory` if memory ran out.
pub fn read_copies(alloc: Global, list: Option<&str>, files: usize) -> Result<Vec<Copies>, Failure>
    ensures copies { IfOk result (λ all. AreCopiesOf (option_map (λ l. l.now) list.entry) files all.items) }
    ensures bad { result ≡ Err Failure.BadCopies → (all : List Copies) → AreCopiesOf (option_map (λ l. l.now) list.entry) files all → ⊥ }
    ensures fault { IfErr result (λ f. f ≢ Failure.Memory → f ≡ Failure.BadCopies) }
{
    let Some(list) = list else {
        return Ok(vec![in alloc; Copies::single(); files]?);
    };
    let entries = entries_of(alloc, list)?;
    let all = match read_entries(alloc, entries.as_slice()) {
        Ok(all) => all,
        Err(failure) => return Err(failure),
    };
    if all.len() != files {
        return Err(Failure::BadCopies);
    }
    Ok(all)
}
