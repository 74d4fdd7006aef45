//! An input of a merge that is a text of CSV, read record by record.

ghost use Rattle.std.specs.Prelude.{◌≡◌, ◌+◌, ◌∷◌, [], None, Some, false, true, Ok, Err, IfOk, IfErr, IfSome, OnOk, MatchBool, if◌then◌else◌, IsTrue};
ghost use Rattle.csv.specs.Records.{fields_of};
ghost use Rattle.rj_csv_io.specs.Remaining.{IsBetween, records_remaining};
ghost use Rattle.rj_shards.specs.Inputs.{input_reading, input_tells, own_copies, own_number, records_reading};
ghost use Rattle.rj_shards.specs.Places.{IsAbove};
ghost use Rattle.rj_shards.specs.MergeRanges.{reading_within};
ghost use Rattle.rj_shards.specs.Sources.{TellsOf, is_outside};
ghost use Rattle.rj_shards.specs.MergeTexts.{others, read_row, read_rows};

use crate::merge::columns::Columns;
use crate::merge::copies::Copies;
use crate::merge::fields::{Fields, WholeRow};
use crate::merge::number::{read_place, stands_above};
use crate::merge::options::MergeOptions;
use crate::merge::place::{Place, Placed};
use crate::merge::refused::MergeRefused;
use crate::merge::source::Source;
use csv::{ByteRecord, ErrorKind, Reader};
use std::alloc::{AllocError, Global};
use std::io::Read;

/// Reads the next record of an input. Returns whether there was one.
pub(crate) fn next_record<R: Read>(
    input: u32,
    reader: &mut Reader<R>,
    fields: &mut ByteRecord,
) -> Result<bool, MergeRefused>
    ensures fault { IfErr result (λ e. is_outside e ≡ true) }
    ensures input { IfErr result (TellsOf input) }
    ensures next { IfOk result (λ found. IsBetween R.remaining reader.old → MatchBool found
        ((records_remaining R.remaining reader.old ≡ fields_of fields.new ∷ records_remaining R.remaining reader.new) × IsBetween R.remaining reader.new)
        (records_remaining R.remaining reader.old ≡ [])) }
{
    match reader.read_byte_record(fields) {
        Ok(found) => Ok(found),
        Err(e) => match e.kind() {
            ErrorKind::Io(_) => Err(MergeRefused::ReadDevice(input)),
            _ => Err(MergeRefused::Memory),
        },
    }
}

// The place of the row that a record is, after a row of this place, if there is one.
fn place_of_row(
    input: u32,
    row: u64,
    before: Option<Place>,
    fields: &ByteRecord,
    columns: Columns,
    how: &MergeOptions<'_>,
) -> Result<Place, MergeRefused>
    ensures row { IfOk result (λ p. read_row how.now columns input row before (fields_of fields.now)
        ≡ Ok record { place = p; row = others columns (fields_of fields.now) }) }
    ensures rises { IfOk result (λ p. IsAbove before p) }
    ensures fault { IfErr result (λ e. read_row how.now columns input row before (fields_of fields.now) ≡ Err e) }
    ensures input { IfErr result (TellsOf input) }
{
    if fields.len() != columns.width {
        return Err(MergeRefused::RaggedRow(input, row));
    }
    let place = match read_place(input, row, fields, columns, how) {
        Ok(place) => place,
        Err(e) => return Err(e),
    };
    if !stands_above(before, place) {
        return Err(MergeRefused::NotInOrder(input, row));
    }
    Ok(place)
}

/// An input that is a text of CSV whose header was read already.
#[derive(Drop)]
pub(crate) struct TextSource<'n, R: Read + Drop> {
    alloc: Global,
    // On the heap, so that a merge moves little when it orders its inputs.
    reader: Box<Reader<R>>,
    // A row for reading the next one, if one was given back.
    spare: Option<Box<WholeRow>>,
    columns: Columns,
    how: &'n MergeOptions<'n>,
    input: u32,
    copies: Copies,
    row: u64,
    last: Option<Place>,
    ended: bool,
}

impl<'n, R: Read + Drop> TextSource<'n, R> {
    /// An input whose header was read, with the columns of its places.
    pub(crate) fn new(
        alloc: Global,
        reader: Box<Reader<R>>,
        columns: Columns,
        how: &'n MergeOptions<'n>,
        input: u32,
        copies: Copies,
    ) -> TextSource<'n, R>
        ensures copies { result.copies ≡ copies }
        ensures number { result.input ≡ input }
        ensures tells { IsBetween R.remaining reader.value → input_tells R.remaining result }
        ensures reading { input_reading R.remaining result
            ≡ reading_within how.now (read_rows how.now columns input 0 None (records_remaining R.remaining reader.value)) }
    {
        TextSource {
            alloc,
            reader,
            spare: None,
            columns,
            how,
            input,
            copies,
            row: 0,
            last: None,
            ended: false,
        }
    }

    // Reads the next row into a record, and gives its place; or `None` after the last one.
    fn next_place(&mut self, fields: &mut ByteRecord) -> Result<Option<Place>, MergeRefused>
        ensures tells { OnOk result (input_tells R.remaining self.old → input_tells R.remaining self.new) }
        ensures how { OnOk result (self.new.how.now ≡ self.old.how.now) }
        ensures columns { OnOk result (self.new.columns ≡ self.old.columns) }
        ensures copies { OnOk result (self.new.copies ≡ self.old.copies) }
        ensures number { OnOk result (self.new.input ≡ self.old.input) }
        ensures input { IfErr result (TellsOf self.old.input) }
        ensures some { IfOk result (λ o. IfSome o (λ p. input_tells R.remaining self.old
            → ((records_reading R.remaining self.old).rows
            ≡ record { place = p; row = others self.old.columns (fields_of fields.new) } ∷ (records_reading R.remaining self.new).rows)
            × ((records_reading R.remaining self.old).fault ≡ (records_reading R.remaining self.new).fault))) }
        ensures end { result ≡ Ok None → input_tells R.remaining self.old
            → ((records_reading R.remaining self.old).rows ≡ []) × ((records_reading R.remaining self.old).fault ≡ None) }
        ensures fault { IfErr result (λ e. is_outside e ≡ false → input_tells R.remaining self.old
            → ((records_reading R.remaining self.old).rows ≡ []) × ((records_reading R.remaining self.old).fault ≡ Some e)) }
        ensures rises { IfOk result (λ o. IfSome o (λ p. IsAbove self.old.last p × (self.new.last ≡ Some p))) }
    {
        if self.ended {
            return Ok(None);
        }
        match next_record(self.input, self.reader.as_mut(), fields) {
            Ok(true) => {}
            Ok(false) => {
                self.ended = true;
                return Ok(None);
            }
            Err(e) => return Err(e),
        }
        let Some(row) = self.row.checked_add(1) else {
            return Err(MergeRefused::Memory);
        };
        match place_of_row(self.input, row, self.last, fields, self.columns, self.how) {
            Ok(place) => {
                self.row = row;
                self.last = Some(place);
                Ok(Some(place))
            }
            Err(e) => Err(e),
        }
    }

    // A row for reading the next one: the one that was given back, or a new one.
    fn take_row(&mut self) -> Result<Box<WholeRow>, AllocError>
        ensures kept { self.new ≡ record self.old { spare = self.new.spare } }
        ensures columns { IfOk result (λ w. w.value.columns ≡ self.old.columns) }
    {
        let columns = self.columns;
        if let Some(mut spare) = self.spare.take() {
            spare.as_mut().columns = columns;
            return Ok(spare);
        }
        let fields = ByteRecord::new(self.alloc);
        match Box::new(self.alloc, WholeRow { fields, columns }) {
            Ok(whole) => Ok(whole),
            Err(_) => Err(AllocError),
        }
    }
}

impl<'n, R: Read + Drop> Source for TextSource<'n, R> {
    type Row = Fields;

    ghost tells = { input_tells R.remaining };

    ghost reading = { input_reading R.remaining };

    ghost last = { λ s. s.last };

    ghost number = { own_number };

    ghost copies = { own_copies };

    fn copies(&self) -> Copies {
        self.copies
    }

    fn next(&mut self) -> Result<Option<Placed<Fields>>, MergeRefused> {
        let Ok(mut whole) = self.take_row() else {
            return Err(MergeRefused::Memory);
        };
        'rows: for _turn in 0..u64::MAX {
            let place = match self.next_place(&mut whole.as_mut().fields) {
                Ok(Some(place)) => place,
                Ok(None) => return Ok(None),
                Err(e) => return Err(e),
            };
            if !self.how.is_before(place) {
                self.ended = true;
                return Ok(None);
            }
            if self.how.is_from(place) {
                let row = Fields::without_place(whole);
                return Ok(Some(Placed { place, row }));
            }
        }
        Err(MergeRefused::Memory)
    }

    fn reuse(&mut self, row: Fields) {
        self.spare = Some(row.into_whole());
    }
}
