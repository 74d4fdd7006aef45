//! Files that are merged as the words of the command line say.

ghost use Rattle.std.specs.Prelude.{◌≡◌, ◌<◌, ◌^◌, IfErr, OnOk, map, vec_len};
ghost use Rattle.rj_csv_io.specs.Devices.{CountsFailure};
ghost use Rattle.merges.specs.Lines.{IsMergeLine};
ghost use Rattle.merges.specs.Merges.{IsFailure, IsMergeOfWords, IsRefusalOfLine, names};
ghost use Rattle.merges.specs.declared.failure.Failure.{Failure};
ghost use Rattle.merges.specs.declared.line.Line.{Line};
ghost use Rattle.rj_shards.specs.MergedTexts.{GotMerge, HaveNoFault};
ghost use Rattle.rj_shards.specs.Named.{ForNamed};

use crate::failure::Failure;
use crate::line::{Line, line_of, parse_words};
use rj_csv_io::Output;
use rj_shards::merge::{Opener, merge_named};
use std::alloc::Global;

// Merges the files of a line, and puts the merge.
fn merge_line<P: Opener, O: Output>(
    alloc: Global,
    opener: &P,
    line: &Line<'_>,
    output: &mut O,
) -> Result<(), Failure>
    requires some { 0 < vec_len line.now.files }
    requires few { vec_len line.now.files < 2 ^ 32 }
    requires copies { vec_len line.now.copies ≡ vec_len line.now.files }
    ensures merge { OnOk result (ForNamed (P.opens opener.now) P.Reader.remaining (names line.now)
        (λ texts. GotMerge line.now.how line.now.copies.items texts (O.told output.old) (O.told output.new))) }
    ensures sound { OnOk result (ForNamed (P.opens opener.now) P.Reader.remaining (names line.now) (HaveNoFault line.now.how)) }
    ensures refusal { IfErr result (IsRefusalOfLine (P.opens opener.now) (P.shut opener.now) P.Reader.remaining O.told output.old output.new line.now) }
    ensures count { CountsFailure result Failure.WriteDevice (O.count output.new) (O.count output.old) }
{
    let files = line.files.as_slice();
    match merge_named(
        alloc,
        opener,
        files,
        line.copies.as_slice(),
        &line.how,
        output,
    ) {
        Ok(()) => Ok(()),
        Err(refused) => Err(Failure::of(alloc, files, refused)),
    }
}

/// Reads the words after the program's name, opens the files that they name, in order, and merges
/// all of them.
///
/// # Errors
///
/// Those of [`parse_words`] and [`line_of`]; the output is unchanged then. Those of
/// [`merge_named`], each with the name of its file. Rows may be put before an error of a row, of a
/// place or of the machine is found: the first ones of the merge.
pub fn merge_words<P: Opener, O: Output>(
    alloc: Global,
    opener: &P,
    words: &[&str],
    output: &mut O,
) -> Result<(), Failure>
    ensures merge { OnOk result (IsMergeOfWords (P.opens opener.now) P.Reader.remaining (map (λ w. w.now) words.now) (O.told output.old) (O.told output.new)) }
    ensures failure { IfErr result (IsFailure (P.opens opener.now) (P.shut opener.now) P.Reader.remaining O.told output.old output.new (map (λ w. w.now) words.now)) }
    ensures unchanged { ((line : Line) → IsMergeLine (map (λ w. w.now) words.now) line → ⊥) → output.new ≡ output.old }
    ensures count { CountsFailure result Failure.WriteDevice (O.count output.new) (O.count output.old) }
{
    let matches = match parse_words(alloc, words) {
        Ok(matches) => matches,
        Err(failure) => return Err(failure),
    };
    let line = match line_of(alloc, &matches) {
        Ok(line) => line,
        Err(failure) => return Err(failure),
    };
    match merge_line(alloc, opener, &line, output) {
        Ok(()) => Ok(()),
        Err(failure) => Err(failure),
    }
}
