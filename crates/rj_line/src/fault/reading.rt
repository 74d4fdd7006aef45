//! The errors of tables that can't be read.

ghost use Rattle.std.specs.Prelude.{◌≡◌};
ghost use Rattle.rj_line.specs.Faults.{read_fault};

use crate::fault::{Fault, Side};
use rj_csv_io::ReadRefused;

/// The error of this side's table, by why it can't be read.
pub fn fault_of_read(side: Side, refused: ReadRefused) -> Fault
    ensures { result ≡ read_fault side refused }
{
    match refused {
        ReadRefused::NoHeader => Fault::NoHeader(side),
        ReadRefused::BadName(column) => Fault::BadName(side, column),
        ReadRefused::RepeatedName(column) => Fault::RepeatedName(side, column),
        ReadRefused::TypeCount => Fault::TypeCount(side),
        ReadRefused::RaggedRow(row) => Fault::RaggedRow(side, row),
        ReadRefused::BadInteger(row, column) => Fault::BadInteger(side, row, column),
        ReadRefused::BadText(row, column) => Fault::BadText(side, row, column),
        ReadRefused::TooManyRows => Fault::TooManyRows(side),
        ReadRefused::TooManyColumns => Fault::TooManyColumns(side),
        ReadRefused::BadNull => Fault::BadNull,
        ReadRefused::ReadDevice => Fault::ReadDevice(side),
        ReadRefused::Memory => Fault::Memory,
    }
}
