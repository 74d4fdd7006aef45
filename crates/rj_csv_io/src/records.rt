//! The records of rows, each made once and got by its number.

ghost use Rattle.std.specs.Prelude.{◌≡◌, ◌<◌, ◌≤◌, ◌++◌, ◌∷◌, ℕ, List, [], drop, length, min, slice_index_or, map, OnOk, IfOk};
ghost use Rattle.csv.specs.Writing.{writer_under};
ghost use Rattle.rj_csv_io.specs.Internal.Blocks.{Holds};
ghost use Rattle.rj_csv_io.specs.Ends.{record_of, records_between};
ghost use Rattle.rj_csv_io.specs.Written.{HasWritten, IsSettled};

use crate::block::{RowBlock, next_block, no_rows};
use crate::format::OutputFormat;
use crate::range::{TEXT_ROWS, write_row};
use crate::text::{open_text, settle};
use csv::{ByteRecord, Writer};
use rj_columns::RowSource;
use rj_columns::decimal::DecimalBuffer;
use std::alloc::{AllocError, Global};
use std::marker::Model;

/// Texts in order, in one buffer. They are numbered from 0.
#[derive(Drop)]
pub struct RowTexts {
    texts: ByteRecord,
}

impl Model for RowTexts {
    ghost use Rattle.std.specs.Prelude.{◌≡◌, [], List, ℕ};
    ghost use Rattle.csv.specs.Records.{fields_of, partial_of};

    ghost Value = { List (List ℕ) };

    ghost view = { λ a. fields_of a.texts };

    ghost invariant = { λ a. partial_of a.texts ≡ [] };
}

impl RowTexts {
    /// No text.
    pub fn new(alloc: Global) -> RowTexts
        ensures { result ≡ [] }
    {
        RowTexts {
            texts: ByteRecord::new(alloc),
        }
    }

    /// How many texts there are.
    pub fn len(&self) -> usize
        ensures { result ≡ length self.now }
    {
        self.texts.len()
    }

    /// The text with a number.
    pub fn get(&self, number: usize) -> &[u8]
        requires { number < length self.now }
        ensures { result.now ≡ slice_index_or self.now number [] }
    {
        match self.texts.get(number) {
            Some(text) => text,
            None => &[],
        }
    }

    /// Adds a text.
    ///
    /// # Errors
    ///
    /// It fails only when memory runs out.
    pub fn push(&mut self, text: &[u8]) -> Result<(), AllocError>
        ensures { OnOk result (self.new ≡ self.old ++ text.now ∷ []) }
    {
        if self.texts.push_field(text).is_err() {
            self.texts.clear();
            return Err(AllocError);
        }
        Ok(())
    }

    /// Adds texts.
    ///
    /// # Errors
    ///
    /// It fails only when memory runs out.
    pub fn append(&mut self, more: RowTexts) -> Result<(), AllocError>
        ensures { OnOk result (self.new ≡ self.old ++ more) }
    {
        for number in 0..more.len() {
            self.push(more.get(number))?;
        }
        Ok(())
    }
}

// Adds what a writer wrote behind its first so many bytes.
fn add_written(
    texts: &mut RowTexts,
    writer: &mut Writer<Vec<u8>>,
    start: usize,
) -> Result<(), AllocError>
    ensures settled { (d : ℕ) (text : List ℕ) → HasWritten d writer.old text [] → OnOk result (IsSettled d writer.new) }
    ensures under { (d : ℕ) (text : List ℕ) → HasWritten d writer.old text [] → OnOk result ((writer_under writer.new).items ≡ text) }
    ensures texts { (d : ℕ) (text : List ℕ) → HasWritten d writer.old text [] → OnOk result (texts.new ≡ texts.old ++ drop (min start (length text)) text ∷ []) }
{
    settle(writer)?;
    let text = writer.get_ref().as_slice();
    texts.push(&text[start.min(text.len())..])
}

// Adds the records of a block's rows.
fn add_block<S: RowSource>(
    texts: &mut RowTexts,
    writer: &mut Writer<Vec<u8>>,
    block: &RowBlock<'_>,
    source: &S,
    null: &str,
    decimal: &mut DecimalBuffer,
) -> Result<(), AllocError>
    requires { Holds (S.contents source.now) (S.width source.now) block.now }
    ensures settled { (d : ℕ) → IsSettled d writer.old → OnOk result (IsSettled d writer.new) }
    ensures texts { (d : ℕ) → IsSettled d writer.old
        → OnOk result (texts.new ≡ texts.old ++ records_between d null.now (S.contents source.now) block.now.from block.now.to) }
{
    for row in block.from..block.to {
        let start = writer.get_ref().as_slice().len();
        write_row(writer, block, source, row, null, decimal)?;
        add_written(texts, writer, start)?;
    }
    Ok(())
}

/// Adds the records of a source's rows from one to another.
pub(crate) fn add_texts<S: RowSource>(
    alloc: Global,
    texts: &mut RowTexts,
    source: &S,
    from: u64,
    to: u64,
    format: &OutputFormat<'_>,
) -> Result<(), AllocError>
    requires order { from ≤ to }
    requires within { to ≤ length (S.contents source.now) }
    ensures { OnOk result (texts.new ≡ texts.old ++ records_between format.now.delimiter format.now.null.now (S.contents source.now) from to) }
{
    let mut writer = open_text(Vec::new(alloc), format.delimiter);
    settle(&mut writer)?;
    let mut block = no_rows(alloc);
    let mut decimal = DecimalBuffer::new();
    let mut row = from;
    while row < to {
        next_block(&mut block, source, row, to)?;
        add_block(
            texts,
            &mut writer,
            &block,
            source,
            format.null,
            &mut decimal,
        )?;
        row = block.to;
    }
    Ok(())
}

/// The records of a source's rows, each by itself, as [`write_rows`] writes them.
///
/// # Errors
///
/// It fails only when memory runs out.
///
/// [`write_rows`]: crate::write_rows
pub fn row_texts<S: RowSource>(
    alloc: Global,
    source: &S,
    format: &OutputFormat<'_>,
) -> Result<RowTexts, AllocError>
    ensures { IfOk result (λ t. t ≡ map (record_of format.now.delimiter format.now.null.now) (S.contents source.now)) }
{
    let to = source.rows();
    let mut texts = RowTexts::new(alloc);
    let mut row = 0;
    while row < to {
        let end = row + (to - row).min(TEXT_ROWS);
        add_texts(alloc, &mut texts, source, row, end, format)?;
        row = end;
    }
    Ok(texts)
}
