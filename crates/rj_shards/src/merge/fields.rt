//! The fields of a row.

ghost use Rattle.std.specs.Prelude.{◌≡◌, ◌<◌, ◌-◌, ◌^◌, ◌++◌, ◌∷◌, [], List, ℕ, OnOk, length};
ghost use Rattle.csv.specs.Records.{fields_of};
ghost use Rattle.csv.specs.Writing.{row_text};
ghost use Rattle.rj_csv_io.specs.Shown.{writer_of};
ghost use Rattle.rj_csv_io.specs.Written.{HasWritten};
ghost use Rattle.rj_shards.specs.MergeTexts.{others};

use crate::merge::columns::Columns;
use csv::{ByteRecord, Writer};
use std::alloc::AllocError;
use std::marker::Model;

/// A record as it was read, and where the place is in it.
#[derive(Drop)]
pub(crate) struct WholeRow {
    pub(crate) fields: ByteRecord,
    pub(crate) columns: Columns,
}

/// The fields of a row, without those of its place.
#[derive(Drop)]
pub struct Fields {
    // On the heap, so that moving a row moves little.
    whole: Box<WholeRow>,
}

impl Model for Fields {
    ghost use Rattle.std.specs.Prelude.{ℕ, List};
    ghost use Rattle.csv.specs.Records.{fields_of};
    ghost use Rattle.rj_shards.specs.MergeTexts.{others};

    ghost Value = { List (List ℕ) };

    ghost view = { λ f. others f.whole.value.columns (fields_of f.whole.value.fields) };
}

impl Fields {
    /// The fields of a record without those of its place.
    pub(crate) fn without_place(whole: Box<WholeRow>) -> Fields
        ensures { result ≡ others whole.value.columns (fields_of whole.value.fields) }
    {
        Fields { whole }
    }

    /// The record as it was read.
    pub(crate) fn into_whole(self) -> Box<WholeRow> {
        let Fields { whole } = self;
        whole
    }

    /// Writes them as a record.
    pub(crate) fn write(&self, writer: &mut Writer<Vec<u8>>) -> Result<(), AllocError>
        ensures { (d : ℕ) (text : List ℕ) → HasWritten d writer.old text []
            → OnOk result (HasWritten d writer.new (text ++ row_text (writer_of d) self.now) []) }
    {
        let whole = self.whole.as_ref();
        for i in 0..whole.fields.len() {
            let Some(field) = whole.fields.get(i) else {
                unreachable!()
            };
            if whole.columns.holds_place(i) {
                continue;
            }
            if writer.write_field(field).is_err() {
                return Err(AllocError);
            }
        }
        if writer.end_record().is_err() {
            return Err(AllocError);
        }
        Ok(())
    }
}
