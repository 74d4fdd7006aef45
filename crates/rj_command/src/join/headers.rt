//! The tables of two headers, without rows.

ghost use Rattle.std.specs.Prelude.{◌≡◌, ◌≢◌, ◌∷◌, [], IfErr, IfOk, IsErr, IsTrue, MatchOption, Err, Ok};
ghost use Rattle.rj_csv_io.specs.Pieces.{names_in};
ghost use Rattle.rj_command.specs.Operands.{header_table};
ghost use Rattle.rj_command.specs.Sides.{has_lawful_nulls, side_records};

use crate::join::nulls::delimiter_of;
use crate::join::types::{types_of, types_of_header};
use rj_columns::Table;
use rj_csv_io::{Header, without_bom};
use rj_line::Request;
use rj_line::fault::{Fault, Side, fault_of_read};
use std::alloc::{AllocError, Global};

// The table without rows of a header of a side, or its error.
fn table_under(
    alloc: Global,
    header: &Header,
    request: &Request<'_>,
    side: Side,
) -> Result<Table, Fault>
    requires { IsTrue (has_lawful_nulls request.now) }
    ensures table { IfOk result (λ t. side_records request.now side (names_in header.now ∷ []) ≡ Ok t) }
    ensures fault { IfErr result (λ f. f ≢ Fault.Memory → side_records request.now side (names_in header.now ∷ []) ≡ Err f) }
{
    let types = types_of_header(alloc, header, types_of(request, side), side)?;
    match header.table(alloc, types.as_slice()) {
        Ok(table) => Ok(table),
        Err(refused) => Err(fault_of_read(side, refused)),
    }
}

// The table without rows of the header of a side's text, or its error.
fn table_of_text(
    alloc: Global,
    text: &[u8],
    request: &Request<'_>,
    side: Side,
) -> Result<Table, Fault>
    requires { IsTrue (has_lawful_nulls request.now) }
    ensures table { IfOk result (λ t. header_table request.now side text.now ≡ Ok t) }
    ensures fault { IfErr result (λ f. f ≢ Fault.Memory → header_table request.now side text.now ≡ Err f) }
{
    match Header::of(alloc, without_bom(text), delimiter_of(request, side)) {
        Ok(Some(header)) => table_under(alloc, &header, request, side),
        Ok(None) => Err(Fault::NoHeader(side)),
        Err(_) => Err(Fault::Memory),
    }
}

/// The table without rows of the header of a side's text; none if the header has an error.
///
/// # Errors
///
/// It fails only when memory runs out.
pub(crate) fn header_table(
    alloc: Global,
    text: &[u8],
    request: &Request<'_>,
    side: Side,
) -> Result<Option<Table>, AllocError>
    requires { IsTrue (has_lawful_nulls request.now) }
    ensures { IfOk result (λ o. MatchOption o (IsErr (header_table request.now side text.now)) (λ t. header_table request.now side text.now ≡ Ok t)) }
{
    match table_of_text(alloc, text, request, side) {
        Ok(table) => Ok(Some(table)),
        Err(Fault::Memory) => Err(AllocError),
        Err(_) => Ok(None),
    }
}
