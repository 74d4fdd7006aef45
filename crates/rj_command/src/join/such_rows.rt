//! Rows that are asked for of a join whose type keeps none.

ghost use Rattle.std.specs.Prelude.{◌≡◌, Ok};
ghost use Rattle.rj_engine.specs.Join.{adds_left, adds_right};
ghost use Rattle.rj_command.specs.SuchRows.{are_all, unkept_side, with_rows};

use rj_condition::{BoundJoin, JoinKind};
use rj_line::Request;
use rj_line::fault::{Fault, Side};
use rj_settings::RowKinds;

// Whether a join of this type keeps unmatched left rows.
fn keeps_left(kind: JoinKind) -> bool
    ensures { result ≡ adds_left kind }
{
    match kind {
        JoinKind::Left | JoinKind::Full => true,
        JoinKind::Inner | JoinKind::Right => false,
    }
}

// Whether it keeps unmatched right rows.
fn keeps_right(kind: JoinKind) -> bool
    ensures { result ≡ adds_right kind }
{
    match kind {
        JoinKind::Right | JoinKind::Full => true,
        JoinKind::Inner | JoinKind::Left => false,
    }
}

fn are_all(rows: RowKinds) -> bool
    ensures { result ≡ are_all rows }
{
    rows.pairs && rows.lone_left && rows.lone_right
}

// The table whose unmatched rows are asked for by themselves, though a join of this type keeps none.
pub(crate) fn unkept_side(rows: RowKinds, kind: JoinKind) -> Option<Side>
    ensures { result ≡ unkept_side rows kind }
{
    if are_all(rows) {
        None
    } else if rows.lone_left && !keeps_left(kind) {
        Some(Side::Left)
    } else if rows.lone_right && !keeps_right(kind) {
        Some(Side::Right)
    } else {
        None
    }
}

// A join, unless the short form refuses it for such a table.
pub(crate) fn with_rows(join: BoundJoin, request: &Request<'_>) -> Result<BoundJoin, Fault>
    ensures { result ≡ with_rows request.now (Ok join) }
{
    if !request.short {
        return Ok(join);
    }
    match unkept_side(request.choice.rows, join.kind()) {
        Some(side) => Err(Fault::NoSuchRows(side)),
        None => Ok(join),
    }
}
