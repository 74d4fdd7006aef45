//! Where a check is in a text, and what a byte does there.

ghost use Rattle.std.specs.Prelude.{◌≡◌, ◌<◌, ◌≤◌, ◌+◌, ◌^◌, ◌-◌, Err};
ghost use Rattle.rj_csv_io.specs.Internal.StrictSteps.{at_cr, at_delimiter, at_dquote, at_lf, at_textdata, end_empty, end_of, initial_standing, next_field, next_line, step_of};

use crate::strict::fault::StrictFault;
use crate::strict::header::HeaderPlace;

/// A place in a text: at the start of a record, at the start of a further field, in a field without
/// quotes, between quotes, after a closing quote, after the CR of an empty line, and after the CR
/// that ends another record.
#[derive(Clone, Copy, Debug, PartialEq, Eq)]
pub(crate) enum Place {
    Start,
    Fresh,
    Inside,
    Open,
    Closed,
    Blank,
    Return,
}

/// The state of a check: its place, the header as far as it is known, and the row and the column.
#[derive(Clone, Copy, Debug, PartialEq, Eq)]
pub(crate) struct Standing {
    pub(crate) place: Place,
    pub(crate) header: HeaderPlace,
    pub(crate) row: u64,
    pub(crate) column: u64,
}

/// Before a text's first byte.
pub(crate) fn begin(header: HeaderPlace) -> Standing
    ensures { result ≡ initial_standing header }
{
    let row = match header {
        HeaderPlace::First => 0,
        HeaderPlace::Above(_) => 1,
    };
    Standing {
        place: Place::Start,
        header,
        row,
        column: 1,
    }
}

// After a line end.
fn below(standing: Standing) -> Standing
    requires { standing.row < 2 ^ 64 - 1 }
    ensures { result ≡ next_line standing }
{
    let header = match standing.header {
        HeaderPlace::First => HeaderPlace::Above(standing.column),
        HeaderPlace::Above(names) => HeaderPlace::Above(names),
    };
    Standing {
        place: Place::Start,
        header,
        row: standing.row + 1,
        column: 1,
    }
}

// After the end of an empty line.
fn below_empty(standing: Standing) -> Result<Standing, StrictFault>
    requires { standing.row < 2 ^ 64 - 1 }
    ensures { result ≡ end_empty standing }
{
    match standing.header {
        HeaderPlace::Above(names) if names > 1 => Err(StrictFault::EmptyLine(standing.row)),
        HeaderPlace::Above(_) | HeaderPlace::First => Ok(below(standing)),
    }
}

// No LF follows the CR.
fn bare_return(standing: Standing) -> Result<Standing, StrictFault>
    ensures { result ≡ Err (StrictFault.BareReturn standing.row standing.column) }
{
    Err(StrictFault::BareReturn(standing.row, standing.column))
}

fn moved(mut standing: Standing, place: Place) -> Standing
    ensures { result ≡ record standing { place = place } }
{
    standing.place = place;
    standing
}

fn on_delimiter(standing: Standing) -> Result<Standing, StrictFault>
    requires { standing.column < 2 ^ 64 - 1 }
    ensures { result ≡ at_delimiter standing }
{
    match standing.place {
        Place::Start | Place::Fresh | Place::Inside | Place::Closed => Ok(Standing {
            place: Place::Fresh,
            header: standing.header,
            row: standing.row,
            column: standing.column + 1,
        }),
        Place::Open => Ok(standing),
        Place::Blank | Place::Return => bare_return(standing),
    }
}

fn on_feed(standing: Standing) -> Result<Standing, StrictFault>
    requires { standing.row < 2 ^ 64 - 1 }
    ensures { result ≡ at_lf standing }
{
    match standing.place {
        Place::Start | Place::Blank => below_empty(standing),
        Place::Fresh | Place::Inside | Place::Closed | Place::Return => Ok(below(standing)),
        Place::Open => Ok(standing),
    }
}

fn on_return(standing: Standing) -> Result<Standing, StrictFault>
    ensures { result ≡ at_cr standing }
{
    match standing.place {
        Place::Start => Ok(moved(standing, Place::Blank)),
        Place::Fresh | Place::Inside | Place::Closed => Ok(moved(standing, Place::Return)),
        Place::Open => Ok(standing),
        Place::Blank | Place::Return => bare_return(standing),
    }
}

fn on_quote(standing: Standing) -> Result<Standing, StrictFault>
    ensures { result ≡ at_dquote standing }
{
    match standing.place {
        Place::Start | Place::Fresh | Place::Closed => Ok(moved(standing, Place::Open)),
        Place::Inside => Err(StrictFault::BareQuote(standing.row, standing.column)),
        Place::Open => Ok(moved(standing, Place::Closed)),
        Place::Blank | Place::Return => bare_return(standing),
    }
}

fn on_textdata(standing: Standing) -> Result<Standing, StrictFault>
    ensures { result ≡ at_textdata standing }
{
    match standing.place {
        Place::Start | Place::Fresh => Ok(moved(standing, Place::Inside)),
        Place::Inside | Place::Open => Ok(standing),
        Place::Closed => Err(StrictFault::AfterQuote(standing.row, standing.column)),
        Place::Blank | Place::Return => bare_return(standing),
    }
}

/// After one more byte, or its error.
pub(crate) fn step(standing: Standing, delimiter: u8, byte: u8) -> Result<Standing, StrictFault>
    requires row { standing.row < 2 ^ 64 - 1 }
    requires column { standing.column < 2 ^ 64 - 1 }
    ensures { result ≡ step_of delimiter standing byte }
{
    match byte {
        b'\n' => on_feed(standing),
        b'\r' => on_return(standing),
        b'"' => on_quote(standing),
        _ if byte == delimiter => on_delimiter(standing),
        _ => on_textdata(standing),
    }
}

/// What the end of the text says.
pub(crate) fn finish(standing: Standing, full: bool) -> Result<(), StrictFault>
    ensures { result ≡ end_of full standing }
{
    match standing.place {
        Place::Start => Ok(()),
        Place::Fresh | Place::Inside | Place::Closed => {
            if full {
                return Err(StrictFault::CutShort(standing.row));
            }
            Ok(())
        }
        Place::Open => Err(StrictFault::OpenQuote(standing.row, standing.column)),
        Place::Blank | Place::Return => Err(StrictFault::BareReturn(standing.row, standing.column)),
    }
}
