//! Records written in a block, which is put on an output whenever it is full.

ghost use Rattle.std.specs.Prelude.{◌≡◌, ◌≢◌, ◌++◌, [], List, ℕ, Option, Err, IfErr, OnOk};
ghost use Rattle.std.specs.Io.KnownBytes.{Appends};
ghost use Rattle.csv.specs.Writing.{row_text};
ghost use Rattle.rj_csv_io.specs.Devices.{CountsFailure};
ghost use Rattle.rj_csv_io.specs.Shown.{writer_of};
ghost use Rattle.rj_csv_io.specs.Written.{HasWritten};
ghost use Rattle.rj_shards.specs.declared.merge.refused.MergeRefused.{MergeRefused};
ghost use Rattle.rj_shards.specs.MergedTexts.{IsTold};

use crate::merge::fields::Fields;
use crate::merge::refused::{MergeRefused, MergeTextsRefused};
use csv::{Writer, WriterBuilder};
use rj_csv_io::strict::Delimiter;
use rj_csv_io::{Failed, Output};
use std::alloc::Global;
use std::mem;

// A block with this many bytes is full.
const BLOCK: usize = 65536;

/// A block with nothing in it, for records with this delimiter.
pub(crate) fn empty_block(alloc: Global, delimiter: Delimiter) -> Writer<Vec<u8>>
    ensures { HasWritten delimiter result [] [] }
{
    WriterBuilder::new()
        .delimiter(delimiter.byte())
        .from_writer(Vec::new(alloc))
}

/// Puts the content of a block on the output, and begins another block.
///
/// # Errors
///
/// `WriteDevice` if the output failed; otherwise only `Memory`, and nothing is put then.
pub(crate) fn put_block<O: Output>(
    alloc: Global,
    block: &mut Writer<Vec<u8>>,
    delimiter: Delimiter,
    output: &mut O,
) -> Result<(), MergeTextsRefused>
    ensures told { (start : Option (List ℕ)) → (text : List ℕ) → IsTold delimiter start text block.old (O.told output.old)
        → OnOk result (Appends start (O.told output.new) text × HasWritten delimiter block.new [] []) }
    ensures count { CountsFailure result MergeTextsRefused.WriteDevice (O.count output.new) (O.count output.old) }
    ensures fault { IfErr result (λ e. e ≢ MergeTextsRefused.WriteDevice → e ≡ MergeTextsRefused.Merge MergeRefused.Memory) }
    ensures unput { (e : MergeRefused) → result ≡ Err (MergeTextsRefused.Merge e) → output.new ≡ output.old }
{
    let full = mem::replace(block, empty_block(alloc, delimiter));
    let Ok(text) = full.into_inner() else {
        return Err(MergeTextsRefused::Merge(MergeRefused::Memory));
    };
    match output.put(text.as_slice()) {
        Ok(()) => Ok(()),
        Err(Failed) => Err(MergeTextsRefused::WriteDevice),
    }
}

/// Writes a row after those in a block, which is put on the output when it is full.
///
/// # Errors
///
/// `WriteDevice` if the output failed; otherwise only `Memory`, and nothing is put then.
pub(crate) fn add_row<O: Output>(
    alloc: Global,
    row: &Fields,
    block: &mut Writer<Vec<u8>>,
    delimiter: Delimiter,
    output: &mut O,
) -> Result<(), MergeTextsRefused>
    ensures told { (start : Option (List ℕ)) → (text : List ℕ) → IsTold delimiter start text block.old (O.told output.old)
        → OnOk result (IsTold delimiter start (text ++ row_text (writer_of delimiter) row.now) block.new (O.told output.new)) }
    ensures count { CountsFailure result MergeTextsRefused.WriteDevice (O.count output.new) (O.count output.old) }
    ensures fault { IfErr result (λ e. e ≢ MergeTextsRefused.WriteDevice → e ≡ MergeTextsRefused.Merge MergeRefused.Memory) }
    ensures unput { (e : MergeRefused) → result ≡ Err (MergeTextsRefused.Merge e) → output.new ≡ output.old }
{
    if row.write(block).is_err() {
        return Err(MergeTextsRefused::Merge(MergeRefused::Memory));
    }
    if block.get_ref().len() < BLOCK {
        return Ok(());
    }
    put_block(alloc, block, delimiter, output)
}
