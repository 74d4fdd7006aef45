//! The rows of a table, put to the outputs of their parts.

ghost use Rattle.std.specs.Prelude.{◌≡◌, ◌<◌, ◌+◌, ◌^◌, length, map, All, IsTrue, IfErr, OnOk};
ghost use Rattle.std.specs.Io.KnownBytes.{Appends};
ghost use Rattle.rj_csv_io.specs.Devices.{CountsFailure};
ghost use Rattle.rj_csv_io.specs.Shown.{rows_text, shown};
ghost use Rattle.rj_csv_io.specs.Tables.{is_null_text};
ghost use Rattle.rj_csv_io.specs.Grammar.{comma};
ghost use Rattle.rj_shards.specs.Divisions.{AreAppended, ArePartlyAppended, IsPutFault, counts_after};
ghost use Rattle.rj_shards.specs.Placed.{rows_at};

use crate::division::grouped::group_rows;
use crate::division::placed::PlacedRows;
use crate::division::refused::DivideRefused;
use crate::division::route::Route;
use rj_columns::Table;
use rj_csv_io::strict::Delimiter;
use rj_csv_io::{Output, OutputFormat, WriteRefused, write_more_rows};
use std::alloc::Global;

// Puts some rows of a table to an output, each with its place.
fn put_rows<O: Output>(
    alloc: Global,
    table: &Table,
    rows: &[u32],
    first: u64,
    null: &str,
    output: &mut O,
) -> Result<(), WriteRefused>
    requires rows { All (λ i. i < length table.now.rows) rows.now }
    requires places { first + length table.now.rows < 2 ^ 63 }
    requires null { IsTrue (is_null_text null.now) }
    ensures ok { OnOk result (Appends (O.told output.old) (O.told output.new)
        (rows_text comma (map (map (shown null.now)) (rows_at table.now.rows first rows.now)))) }
    ensures memory { result ≡ Err WriteRefused.Memory → output.new ≡ output.old }
    ensures count { CountsFailure result WriteRefused.WriteDevice (O.count output.new) (O.count output.old) }
{
    let placed = PlacedRows::new(table, rows, first);
    let format = OutputFormat {
        delimiter: Delimiter::comma(),
        null,
    };
    write_more_rows(alloc, output, &placed, &format)
}

/// Puts each row of a table, with its place, to the output of its part, in order. The first row has
/// the place `first`.
///
/// # Errors
///
/// `WriteDevice` if an output failed, `Memory` if memory ran out. Outputs may have got rows by
/// then.
pub(crate) fn divide_table<O: Output, R: Route>(
    alloc: Global,
    table: &Table,
    route: &R,
    first: u64,
    null: &str,
    outputs: &mut [O],
) -> Result<(), DivideRefused>
    requires types { R.fits route.now table.now.types }
    requires outputs { length outputs.old ≡ R.count route.now }
    requires places { first + length table.now.rows < 2 ^ 63 }
    requires null { IsTrue (is_null_text null.now) }
    ensures divided { OnOk result (AreAppended null.now (R.part route.now) first table.now.rows (map O.told outputs.old) (map O.told outputs.new)) }
    ensures counts { map O.count outputs.new ≡ counts_after result (map O.count outputs.old) }
    ensures fault { IfErr result (IsPutFault (length outputs.old)) }
    ensures partly { IfErr result (ArePartlyAppended null.now (R.part route.now) first table.now.rows (map O.told outputs.old) (map O.told outputs.new)) }
{
    let Ok(grouped) = group_rows(alloc, table, route) else {
        return Err(DivideRefused::Memory);
    };
    for part in 0..outputs.len() {
        match put_rows(
            alloc,
            table,
            grouped.part(part),
            first,
            null,
            &mut outputs[part],
        ) {
            Ok(()) => {}
            Err(WriteRefused::Memory) => return Err(DivideRefused::Memory),
            Err(WriteRefused::WriteDevice) => return Err(DivideRefused::WriteDevice(part)),
        }
    }
    Ok(())
}
