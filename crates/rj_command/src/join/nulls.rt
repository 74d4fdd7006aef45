//! The NULL texts and the delimiters of a request.

ghost use Rattle.std.specs.Prelude.{◌≡◌, true};
ghost use Rattle.rj_csv_io.specs.Typed.{null_texts};
ghost use Rattle.rj_csv_io.specs.Grammar.{may_delimit};
ghost use Rattle.rj_command.specs.Sides.{delimiter_of, has_lawful_nulls, nulls_of};

use rj_csv_io::strict::Delimiter;
use rj_csv_io::{are_lawful_nulls, is_lawful_null};
use rj_line::Request;
use rj_line::fault::Side;

/// The texts that stand for NULL in the table of one side.
pub(crate) fn nulls_of<'a, 'b>(request: &'a Request<'b>, side: Side) -> &'a [&'b str]
    ensures { null_texts result.now ≡ nulls_of request.now side }
{
    match side {
        Side::Left => request.left_nulls.as_slice(),
        Side::Right => request.right_nulls.as_slice(),
    }
}

/// Whether each text that is to stand for NULL may do so.
pub(crate) fn has_lawful_nulls(request: &Request<'_>) -> bool
    ensures { result ≡ has_lawful_nulls request.now }
{
    are_lawful_nulls(nulls_of(request, Side::Left))
        && are_lawful_nulls(nulls_of(request, Side::Right))
        && is_lawful_null(request.out_null)
}

// The delimiter of the table of one side.
fn own_delimiter(request: &Request<'_>, side: Side) -> Delimiter
    ensures { result ≡ delimiter_of request.now side }
{
    match side {
        Side::Left => request.left_delimiter,
        Side::Right => request.right_delimiter,
    }
}

/// The same, which may be a delimiter.
pub(crate) fn delimiter_of(request: &Request<'_>, side: Side) -> Delimiter
    ensures value { result ≡ delimiter_of request.now side }
    ensures lawful { may_delimit (delimiter_of request.now side) ≡ true }
{
    let delimiter = own_delimiter(request, side);
    let _byte = delimiter.byte();
    delimiter
}
