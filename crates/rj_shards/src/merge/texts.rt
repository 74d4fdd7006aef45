//! Texts of placed rows merged into one text.

ghost use Rattle.std.specs.Prelude.{◌≡◌, ◌<◌, ◌^◌, ◌++◌, [], true, Bool, List, ℕ, Err, All, IfOk, OnOk, map, vec_len};
ghost use Rattle.std.specs.Box.{box_value};
ghost use Rattle.std.specs.Io.KnownBytes.{Appends};
ghost use Rattle.csv.specs.Records.{fields_of};
ghost use Rattle.rj_csv_io.specs.Devices.{CountsFailure};
ghost use Rattle.rj_csv_io.specs.Shown.{rows_text};
ghost use Rattle.rj_csv_io.specs.Written.{HasWritten};
ghost use Rattle.rj_shards.specs.declared.merge.place.Placed.{Placed};
ghost use Rattle.rj_shards.specs.declared.merge.refused.MergeRefused.{MergeRefused};
ghost use Rattle.rj_shards.specs.Copies.{copied_rows};
ghost use Rattle.rj_shards.specs.Inputs.{ForTexts, boxed_copies, boxed_number, boxed_reading, boxed_tells, copies_of, is_input};
ghost use Rattle.rj_shards.specs.MergedTexts.{GotFirst, GotMerge, HaveNoFault, HeedsHeaders, IsFaultOfTexts, IsPartlyMerged, IsRefusedBy, IsUntouched, head_rows, records_text};
ghost use Rattle.rj_shards.specs.Merging.{IsFaultOf, faults_of_inputs, lists_of_inputs};
ghost use Rattle.rj_shards.specs.Sources.{TellsAmong};
ghost use Rattle.rj_shards.specs.MergeTexts.{others};
ghost use Rattle.rj_shards.specs.Wholes.{IsMergeOf};

use crate::merge::Merge;
use crate::merge::block::{add_row, empty_block, put_block};
use crate::merge::copies::MergeInput;
use crate::merge::fields::{Fields, WholeRow};
use crate::merge::header::SharedHeader;
use crate::merge::input::TextSource;
use crate::merge::opening::{Opened, open_all};
use crate::merge::options::MergeOptions;
use crate::merge::refused::{MergeRefused, MergeTextsRefused};
use csv::Writer;
use rj_csv_io::Output;
use rj_csv_io::strict::Delimiter;
use std::alloc::{AllocError, Global};
use std::io::Read;

// Inputs, each on the heap.
fn on_heap<'n, R: Read + Drop>(
    alloc: Global,
    sources: Vec<TextSource<'n, R>>,
) -> Result<Vec<Box<TextSource<'n, R>>>, AllocError>
    ensures { IfOk result (λ v. map box_value v.items ≡ sources.entry.items) }
{
    let mut left = sources.into_iter();
    let mut all = Vec::new(alloc);
    'sources: while let Some(source) = left.next() {
        let Ok(boxed) = Box::new(alloc, source) else {
            return Err(AllocError);
        };
        if all.push(boxed).is_err() {
            return Err(AllocError);
        }
    }
    Ok(all)
}

// Merges inputs, and puts their rows on the output after the content of a block.
fn put_rows<'n, R: Read + Drop, O: Output>(
    alloc: Global,
    sources: Vec<Box<TextSource<'n, R>>>,
    block: Writer<Vec<u8>>,
    delimiter: Delimiter,
    output: &mut O,
) -> Result<(), MergeTextsRefused>
    ensures merge { OnOk result ((text : List ℕ) → HasWritten delimiter block text [] → All (boxed_tells R.remaining) sources.entry.items
        → (rows : List (Placed (List (List ℕ)))) × IsMergeOf (copied_rows (lists_of_inputs boxed_copies (boxed_reading R.remaining) sources.entry.items)) rows
        × Appends (O.told output.old) (O.told output.new) (text ++ records_text delimiter rows)) }
    ensures faults { OnOk result (All (boxed_tells R.remaining) sources.entry.items → faults_of_inputs (boxed_reading R.remaining) sources.entry.items ≡ []) }
    ensures fault { (e : MergeRefused) → IsRefusedBy result e → All (boxed_tells R.remaining) sources.entry.items
        → IsFaultOf (copied_rows (lists_of_inputs boxed_copies (boxed_reading R.remaining) sources.entry.items))
        (faults_of_inputs (boxed_reading R.remaining) sources.entry.items) e }
    ensures partly { (e : MergeRefused) → result ≡ Err (MergeTextsRefused.Merge e) → (text : List ℕ) → HasWritten delimiter block text [] → All (boxed_tells R.remaining) sources.entry.items
        → GotFirst delimiter text (copied_rows (lists_of_inputs boxed_copies (boxed_reading R.remaining) sources.entry.items)) (O.told output.old) (O.told output.new) }
    ensures input { (e : MergeRefused) → result ≡ Err (MergeTextsRefused.Merge e) → (numbers : ℕ → Bool)
        → All (λ b. numbers (boxed_number b) ≡ true) sources.entry.items → TellsAmong numbers e }
    ensures count { CountsFailure result MergeTextsRefused.WriteDevice (O.count output.new) (O.count output.old) }
{
    let mut block = block;
    let mut merge = match Merge::open(alloc, sources) {
        Ok(merge) => merge,
        Err(e) => return Err(MergeTextsRefused::Merge(e)),
    };
    'rows: for _turn in 0..u64::MAX {
        let placed = match merge.next() {
            Ok(Some(placed)) => placed,
            Ok(None) => return put_block(alloc, &mut block, delimiter, output),
            Err(e) => return Err(MergeTextsRefused::Merge(e)),
        };
        match add_row(alloc, &placed.row, &mut block, delimiter, output) {
            Ok(()) => merge.reuse(placed.row),
            Err(e) => return Err(e),
        }
    }
    Err(MergeTextsRefused::Merge(MergeRefused::Memory))
}

// A block with the header for the rows of a merge, if they have one above them.
fn begin_block(
    alloc: Global,
    header: SharedHeader,
    how: &MergeOptions<'_>,
) -> Result<Writer<Vec<u8>>, AllocError>
    ensures { IfOk result (λ block. HasWritten how.now.delimiter block (rows_text how.now.delimiter (head_rows how.now.from (others header.columns (fields_of header.names)))) []) }
{
    let mut block = empty_block(alloc, how.delimiter);
    if how.from.is_some() {
        return Ok(block);
    }
    let SharedHeader { names, columns } = header;
    let whole = WholeRow {
        fields: names,
        columns,
    };
    let Ok(whole) = Box::new(alloc, whole) else {
        return Err(AllocError);
    };
    let names = Fields::without_place(whole);
    names.write(&mut block)?;
    Ok(block)
}

/// Merges texts of placed rows, and puts the merge on the output: their header, and the rows that
/// are in as many of them as their copies say, each once and in order. The two columns of the
/// places are left out. Records are written as csv's writer writes them with the delimiter of the
/// options, block by block. The options also give the order of the rows, the text of a place that
/// is no number, and the places between which rows are merged. The header is written only if there is no first place. So the
/// texts of ranges, one after another, are the text of the whole (`ranges_are_whole`).
///
/// It holds a block, one row of each text, and one row more.
///
/// # Errors
///
/// `Merge` with the first error of a header, and nothing is put then; or else with an error of a
/// text or `RepeatedPlace`; `Memory` and `ReadDevice` in it come only from the machine. What was put
/// by then are the first bytes of the header and of the merge of all rows up to some place.
/// `WriteDevice` if the output failed. How much was put is unknown then.
pub fn merge_texts<R: Read + Drop, O: Output>(
    alloc: Global,
    inputs: Vec<MergeInput<R>>,
    how: &MergeOptions<'_>,
    output: &mut O,
) -> Result<(), MergeTextsRefused>
    requires some { 0 < vec_len inputs }
    requires count { vec_len inputs < 2 ^ 32 }
    ensures merge { OnOk result (ForTexts R.remaining inputs.items
        (λ texts. GotMerge how.now (copies_of inputs.items) texts (O.told output.old) (O.told output.new))) }
    ensures faults { OnOk result (ForTexts R.remaining inputs.items (HaveNoFault how.now)) }
    ensures fault { (e : MergeRefused) → IsRefusedBy result e
        → ForTexts R.remaining inputs.items (λ texts. IsFaultOfTexts how.now (copies_of inputs.items) texts e) }
    ensures first { ForTexts R.remaining inputs.items (HeedsHeaders result) }
    ensures untouched { ForTexts R.remaining inputs.items (IsUntouched output.old output.new) }
    ensures partly { (e : MergeRefused) → result ≡ Err (MergeTextsRefused.Merge e)
        → ForTexts R.remaining inputs.items (λ texts. IsPartlyMerged how.now (copies_of inputs.items) texts (O.told output.old) (O.told output.new)) }
    ensures input { (e : MergeRefused) → result ≡ Err (MergeTextsRefused.Merge e) → TellsAmong (is_input (vec_len inputs)) e }
    ensures count { CountsFailure result MergeTextsRefused.WriteDevice (O.count output.new) (O.count output.old) }
{
    let Opened { header, sources } = match open_all(alloc, inputs, how) {
        Ok(opened) => opened,
        Err(e) => return Err(MergeTextsRefused::Merge(e)),
    };
    let Ok(block) = begin_block(alloc, header, how) else {
        return Err(MergeTextsRefused::Merge(MergeRefused::Memory));
    };
    let Ok(sources) = on_heap(alloc, sources) else {
        return Err(MergeTextsRefused::Merge(MergeRefused::Memory));
    };
    put_rows(alloc, sources, block, how.delimiter, output)
}
