//! The NULL texts of a table.

ghost use Rattle.std.specs.Prelude.{◌≡◌, ◌≢◌, ◌<◌, ◌≤◌, ◌∷◌, [], IfOk, IfErr, length};
ghost use Rattle.clap.specs.Words.{found_of};
ghost use Rattle.rj_csv_io.specs.Typed.{null_texts};
ghost use Rattle.rj_line.specs.Line.{nulls_or, texts_found};

use crate::fault::{Fault, Side};
use clap::ArgMatches;
use std::alloc::Global;

// How many texts may stand for NULL in one table.
const MOST_NULLS: usize = 4;

// A list of these texts.
fn list_of<'a>(alloc: Global, texts: &[&'a str]) -> Result<Vec<&'a str>, Fault>
    ensures texts { IfOk result (λ v. v.items ≡ texts.now) }
    ensures fault { IfErr result (λ f. f ≡ Fault.Memory) }
{
    let mut list = Vec::new(alloc);
    for i in 0..texts.len() {
        match list.push(texts[i]) {
            Ok(()) => {}
            Err(_) => return Err(Fault::Memory),
        }
    }
    Ok(list)
}

// A list of one text.
fn list_of_one<'a>(alloc: Global, text: &'a str) -> Result<Vec<&'a str>, Fault>
    ensures texts { IfOk result (λ v. v.items ≡ text.entry ∷ []) }
    ensures fault { IfErr result (λ f. f ≡ Fault.Memory) }
{
    let mut list = Vec::new(alloc);
    match list.push(text) {
        Ok(()) => Ok(list),
        Err(_) => Err(Fault::Memory),
    }
}

// The NULL texts of a side: these, or if there are none the other one.
fn list_or<'a>(
    alloc: Global,
    texts: &[&'a str],
    null: &'a str,
    side: Side,
) -> Result<Vec<&'a str>, Fault>
    ensures texts { IfOk result (λ v. null_texts v.items ≡ nulls_or (null_texts texts.now) null.entry.now) }
    ensures few { IfOk result (λ v. length v.items ≤ 4) }
    ensures fault { IfErr result (λ f. f ≢ Fault.Memory → (f ≡ Fault.TooManyNulls side) × (4 < length texts.now)) }
{
    if texts.len() > MOST_NULLS {
        return Err(Fault::TooManyNulls(side));
    }
    if texts.is_empty() {
        return list_of_one(alloc, null);
    }
    list_of(alloc, texts)
}

/// The NULL texts of a side: those that an option's uses give, or the other one if it isn't used.
///
/// # Errors
///
/// `TooManyNulls` if there are more than four. `Memory` comes only when memory ran out.
pub fn read_nulls<'a>(
    alloc: Global,
    matches: &ArgMatches<'a>,
    name: &str,
    null: &'a str,
    side: Side,
) -> Result<Vec<&'a str>, Fault>
    ensures texts { IfOk result (λ v. null_texts v.items ≡ nulls_or (texts_found (found_of matches.now) name.now) null.entry.now) }
    ensures few { IfOk result (λ v. length v.items ≤ 4) }
    ensures fault { IfErr result (λ f. f ≢ Fault.Memory → (f ≡ Fault.TooManyNulls side) × (4 < length (texts_found (found_of matches.now) name.now))) }
{
    match matches.get_strs(name) {
        Some(texts) => list_or(alloc, texts, null, side),
        None => list_or(alloc, &[], null, side),
    }
}
