//! The header of a text of placed rows.

ghost use Rattle.std.specs.Prelude.{◌≡◌};
ghost use Rattle.std.specs.Cmp.Lexicographic.{pointwise};
ghost use Rattle.std.specs.Str.{bytes_eq};
ghost use Rattle.csv.specs.Records.{fields_of};
ghost use Rattle.rj_shards.specs.MergeHeaders.{columns_named, only_one, place_columns};

use crate::merge::columns::Columns;
use csv::ByteRecord;

// The names of the two columns of a place.
const LEFT_PLACE: &[u8] = b"left_place";

const RIGHT_PLACE: &[u8] = b"right_place";

/// The header that the inputs of a merge have, and where the places are under it.
#[derive(Drop)]
pub(crate) struct SharedHeader {
    pub(crate) names: ByteRecord,
    pub(crate) columns: Columns,
}

// The column of this name, if there is exactly one.
fn only_column(header: &ByteRecord, name: &[u8]) -> Option<usize>
    ensures { result ≡ only_one (columns_named name.now 0 (fields_of header.now)) }
{
    let mut fields = header.iter();
    let place = fields.position(|field| field == name)?;
    if fields.any(|field| field == name) {
        return None;
    }
    Some(place)
}

/// Where the places are under a header, which has exactly one column of each of the two names.
pub(crate) fn columns_of(header: &ByteRecord) -> Option<Columns>
    ensures { result ≡ place_columns (fields_of header.now) }
{
    match (
        only_column(header, LEFT_PLACE),
        only_column(header, RIGHT_PLACE),
    ) {
        (Some(left), Some(right)) => Some(Columns {
            left,
            right,
            width: header.len(),
        }),
        _ => None,
    }
}

/// Whether two records have the same fields.
pub(crate) fn are_same(first: &ByteRecord, second: &ByteRecord) -> bool
    ensures { result ≡ pointwise bytes_eq (fields_of first.now) (fields_of second.now) }
{
    // Not `==` of the records, which also compares bytes after the last field.
    first.iter().eq(second.iter())
}
