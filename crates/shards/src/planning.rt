//! To which parts the rows of a side's file go: by the key columns of the clause.

ghost use Rattle.std.specs.Prelude.{◌≡◌, ◌≢◌, ◌<◌, All, IfErr, IfOk, Ok, length, true};
ghost use Rattle.rj_condition.specs.Fits.{fits};
ghost use Rattle.rj_condition.specs.Parts.{split_fits};
ghost use Rattle.shards.specs.Plans.{AreKeyColumns, AreKeysOver, IsHeaderFault, IsJoinFaultOfSides, IsJoinOfSides, IsOtherFailure, IsPlanFailure, header_table, other_side};

use crate::failure::Failure;
use crate::head::Head;
use crate::line::{Line, Operand};
use crate::storage::{Storage, read_head};
use rj_columns::Table;
use rj_command::{bind_clause, types_of_header};
use rj_condition::{BoundJoin, split};
use rj_line::fault::{Fault, Side, fault_of_read};
use rj_shards::Shards;
use std::alloc::Global;

pub(crate) fn other_side(side: Side) -> Side
    ensures { result ≡ other_side side }
{
    match side {
        Side::Left => Side::Right,
        Side::Right => Side::Left,
    }
}

/// The table without rows that a header begins.
///
/// # Errors
///
/// `TypeName` with a name in the type list, or else an error of the header; `Memory`.
pub(crate) fn empty_table(
    alloc: Global,
    head: &Head,
    operand: &Operand<'_>,
    side: Side,
) -> Result<Table, Fault>
    ensures table { IfOk result (λ t. header_table head.now operand.now ≡ Ok t) }
    ensures fault { IfErr result (λ f. f ≢ Fault.Memory → IsHeaderFault head.now operand.now side f) }
{
    let types = types_of_header(alloc, &head.header, operand.types.as_slice(), side)?;
    match head.header.table(alloc, types.as_slice()) {
        Ok(table) => Ok(table),
        Err(refused) => Err(fault_of_read(side, refused)),
    }
}

// The join of the side's table and the other one.
fn bind_sides(
    alloc: Global,
    line: &Line<'_>,
    own: &Table,
    other: &Table,
) -> Result<BoundJoin, Fault>
    ensures join { IfOk result (IsJoinOfSides line.now own.now other.now) }
    ensures fault { IfErr result (λ f. f ≢ Fault.Memory → IsJoinFaultOfSides line.now own.now other.now f) }
    ensures fits { IfOk result (λ j. (line.now.side ≡ Side.Left → fits j own.now.types other.now.types ≡ true)
        × (line.now.side ≡ Side.Right → fits j other.now.types own.now.types ≡ true)) }
{
    match line.side {
        Side::Left => bind_clause(alloc, line.clause, own, other),
        Side::Right => bind_clause(alloc, line.clause, other, own),
    }
}

// The shards of a join, and the key columns of the side's table.
fn shards_of(
    alloc: Global,
    line: &Line<'_>,
    own: &Table,
    other: &Table,
) -> Result<(Shards, Vec<usize>), Failure>
    ensures parts { IfOk result (λ p. p.0.parts ≡ line.now.parts) }
    ensures keys { IfOk result (λ p. AreKeyColumns line.now own.now other.now p.1.items) }
    ensures within { IfOk result (λ p. All (λ c. c < length own.now.types) p.1.items) }
    ensures fault { IfErr result (IsPlanFailure line.now own.now other.now) }
{
    let join = bind_sides(alloc, line, own, other)?;
    let split = split(alloc, &join)?;
    let Some(shards) = Shards::of_split(&split, line.parts) else {
        return Err(Failure::NoKey);
    };
    let columns = match line.side {
        Side::Left => split.left_columns(alloc)?,
        Side::Right => split.right_columns(alloc)?,
    };
    Ok((shards, columns))
}

/// The shards of the join that a line asks for, and the key columns of the side's table. The other
/// table is that of its file's header.
///
/// # Errors
///
/// The first error of the other file's header; then one of the clause; `NoKey` if it has no key; or
/// one of the machine.
pub(crate) fn plan<S: Storage>(
    alloc: Global,
    storage: &S,
    line: &Line<'_>,
    own: &Table,
) -> Result<(Shards, Vec<usize>), Failure>
    ensures parts { IfOk result (λ p. p.0.parts ≡ line.now.parts) }
    ensures keys { IfOk result (λ p. AreKeysOver (S.holds storage.now) line.now own.now p.1.items) }
    ensures within { IfOk result (λ p. All (λ c. c < length own.now.types) p.1.items) }
    ensures fault { IfErr result (IsOtherFailure (S.holds storage.now) line.now own.now) }
{
    let side = other_side(line.side);
    let table = line.operand(side);
    let head = read_head(
        alloc,
        storage,
        table.file,
        side,
        table.delimiter,
        line.strict,
    )?;
    let other = empty_table(alloc, &head, table, side)?;
    shards_of(alloc, line, own, &other)
}
