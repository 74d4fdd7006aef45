//! The types that type lists give the columns of a text.

ghost use Rattle.std.specs.Prelude.{◌≡◌, ◌≢◌, IfOk, IfErr, IsTrue, None, Err, OnOk, Some};
ghost use Rattle.rj_columns.specs.Names.{empty_table};
ghost use Rattle.rj_columns.specs.declared.refused.BuildRefused.{BuildRefused};
ghost use Rattle.rj_csv_io.specs.Pieces.{names_in};
ghost use Rattle.rj_csv_io.specs.Tables.{of_begun, read_of};
ghost use Rattle.rj_settings.specs.Columns as columns;
ghost use Rattle.rj_command.specs.Sides.{delimiter_of, has_lawful_nulls, nulls_of, side_read, stands, told, type_fault, types_of};

use crate::join::nulls::delimiter_of;
use rj_columns::ColumnType;
use rj_condition::Word;
use rj_csv_io::{Header, ReadRefused, without_bom};
use rj_line::Request;
use rj_line::fault::{Fault, Side};
use rj_settings::types::{TypeEntry, name_fault, types_under};
use std::alloc::{AllocError, Global};

// Whether a header that is refused for this has no other error than the count of its types.
fn stands_refused(refused: ReadRefused) -> Result<bool, AllocError>
    ensures stands { IfOk result (λ b. (f : BuildRefused) → refused ≡ of_begun f → b ≡ stands (Err f)) }
    ensures memory { OnOk result (refused ≢ ReadRefused.Memory) }
{
    match refused {
        ReadRefused::TypeCount => Ok(true),
        ReadRefused::Memory => Err(AllocError),
        _ => Ok(false),
    }
}

// Whether a header has no error, or only another number of types.
fn header_stands(alloc: Global, header: &Header, types: &[ColumnType]) -> Result<bool, AllocError>
    ensures { IfOk result (λ b. b ≡ stands (empty_table (names_in header.now) types.now)) }
{
    match header.table(alloc, types) {
        Ok(_) => Ok(true),
        Err(refused) => stands_refused(refused),
    }
}

// The error of a name in a type list.
fn fault_of_name(alloc: Global, name: &Word, side: Side) -> Fault
    ensures { result ≢ Fault.Memory → result ≡ Fault.TypeName side name.now }
{
    match Word::new(alloc, name.as_str()) {
        Ok(copy) => Fault::TypeName(side, copy),
        Err(_) => Fault::Memory,
    }
}

/// The types that a list gives the columns of a side's header.
///
/// # Errors
///
/// `TypeName` with the first name in the list that means no column of the header, or one that an
/// earlier entry names. It comes only if the header itself has no error, except perhaps in the
/// count of types. `Memory` comes only when memory ran out.
pub fn types_of_header(
    alloc: Global,
    header: &Header,
    types: &[TypeEntry],
    side: Side,
) -> Result<Vec<ColumnType>, Fault>
    ensures types { IfOk result (λ v. v.items ≡ columns.types_under types.now (names_in header.now)) }
    ensures named { OnOk result (type_fault types.now side (names_in header.now) ≡ None) }
    ensures fault { IfErr result (λ f. f ≢ Fault.Memory → type_fault types.now side (names_in header.now) ≡ Some f) }
{
    let Ok(names) = header.names(alloc) else {
        return Err(Fault::Memory);
    };
    let Ok(kinds) = types_under(alloc, types, names.as_slice()) else {
        return Err(Fault::Memory);
    };
    let Some(name) = name_fault(types, names.as_slice()) else {
        return Ok(kinds);
    };
    match header_stands(alloc, header, kinds.as_slice()) {
        Ok(true) => Err(fault_of_name(alloc, name, side)),
        Ok(false) => Ok(kinds),
        Err(_) => Err(Fault::Memory),
    }
}

/// The entries of a side's list.
pub(crate) fn types_of<'a>(request: &'a Request<'_>, side: Side) -> &'a [TypeEntry]
    ensures { result.now ≡ types_of request.now side }
{
    match side {
        Side::Left => request.left_types.as_slice(),
        Side::Right => request.right_types.as_slice(),
    }
}

// The types of the columns of a side's text, under its header, if each NULL text is valid.
pub(crate) fn types_of_text(
    alloc: Global,
    text: &[u8],
    request: &Request<'_>,
    side: Side,
) -> Result<Vec<ColumnType>, Fault>
    requires { IsTrue (has_lawful_nulls request.now) }
    ensures types { IfOk result (λ v. side_read request.now side text.now ≡ told side (read_of (delimiter_of request.now side) text.now v.items (nulls_of request.now side))) }
    ensures fault { IfErr result (λ f. f ≢ Fault.Memory → side_read request.now side text.now ≡ Err f) }
{
    match Header::of(alloc, without_bom(text), delimiter_of(request, side)) {
        Ok(Some(header)) => types_of_header(alloc, &header, types_of(request, side), side),
        Ok(None) => Ok(Vec::new(alloc)),
        Err(_) => Err(Fault::Memory),
    }
}
