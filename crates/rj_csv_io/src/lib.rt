//! Reads tables from CSV (RFC 4180, section 2, with a delimiter that the caller chooses), writes
//! rows as CSV, and has the devices that bytes come from and go to.
//!
//! `read_of` defines what [`read_table`] answers, and `table_text` what [`write_rows`] writes.
//!
//! [`strict`] tells whether RFC 4180's grammar derives a text. [`names`] has the names of a header,
//! and gives names to columns that lack one.
#![tactic(auto)]

mod ambiguous;
mod block;
mod columns;
mod cut;
mod ends;
mod fields;
mod filling;
mod format;
mod header;
mod input;
mod laws;
pub mod names;
mod null_text;
mod output;
mod part;
mod pieces;
mod place;
mod range;
mod read_parts;
mod read_rows;
mod read_whole;
mod records;
mod refused;
mod retrying;
mod stretches;
pub mod strict;
mod text;
mod texts;
mod write;
mod write_in_parts;
mod write_more;

pub use ambiguous::first_ambiguous;
pub use columns::{EndColumns, FirstColumns};
pub use cut::without_bom;
pub use ends::{RowEnds, null_end, texts_with_ends};
pub use fields::is_null_field;
pub use filling::{read_all, read_up_to};
pub use format::{InputFormat, OutputFormat};
pub use header::open_reader;
pub use input::{CountedReader, Input};
pub use laws::{
    cells_read_back, mark_is_of_the_first_name, null_texts_read_as_null, read_cells_read_back,
    read_tables_hold_their_types, read_tables_read_back, read_tables_read_back_by_others,
    tables_read_back, texts_follow_each_other, told_apart,
};
pub use null_text::{are_lawful_nulls, is_lawful_null};
pub use output::{CountedWriter, Failed, Output};
pub use pieces::Header;
pub use read_parts::read_table_in_parts;
pub use read_whole::read_table;
pub use records::{RowTexts, row_texts};
pub use refused::ReadRefused;
pub use retrying::RetryingReader;
pub use stretches::last_cut;
pub use texts::{texts_of_rows, write_texts};
pub use write::{WriteRefused, write_rows};
pub use write_in_parts::write_rows_in_parts;
pub use write_more::write_more_rows;
