//! The two tables of a run and the join bound to them.

ghost use Rattle.std.specs.Prelude.{◌≡◌, ◌≢◌, IfOk, IfErr, OnOk, Ok, IsTrue, length, true};
ghost use Rattle.rj_csv_io.specs.Tables.{is_null_text};
ghost use Rattle.rj_condition.specs.Fits.{fits};
ghost use Rattle.rj_command.specs.Operands.{AreOperands, HasNoHeaderFault, IsClauseFault, IsFirstFault, IsHeaderFault, IsJoinAsked, IsJoinFault, IsJoinOf};
ghost use Rattle.rj_command.specs.Refused.{bind_fault, parse_fault};
ghost use Rattle.rj_command.specs.Runs.{AreReadApart};
ghost use Rattle.rj_command.specs.Sides.{IsTable, IsTableFault};
ghost use Rattle.rj_command.specs.SuchRows.{with_rows};
ghost use Rattle.rj_command.specs.Undeclared.{bound_or, unbound_fault};

use crate::join::headers::header_table;
use crate::join::naming::refuse_names;
use crate::join::nulls::has_lawful_nulls;
use crate::join::shared::refuse_shared_names;
use crate::join::strict::{read_strictly, read_text};
use crate::join::such_rows::with_rows;
use crate::join::undeclared::undeclared_fault;
use crate::join::watching::{Step, Watch};
use rj_columns::Table;
use rj_condition::{BindRefused, BoundJoin, ParseRefused, bind, parse};
use rj_line::fault::{Fault, Side};
use rj_line::{Request, Strictness};
use std::alloc::Global;
use std::convert::AsSlice;
use std::thread::Threads;

/// The tables that the bytes of two files denote, and the clause bound to them.
#[derive(Drop)]
pub struct Operands {
    /// The left table.
    pub left: Table,
    /// The right table.
    pub right: Table,
    /// The join.
    pub join: BoundJoin,
}

impl Operands {
    // The step in which they are joined.
    pub(crate) fn join_step(&self) -> Step
        ensures { result ≡ Step.Join (length self.now.left.rows) (length self.now.right.rows) }
    {
        Step::Join {
            left_rows: self.left.rows(),
            right_rows: self.right.rows(),
        }
    }
}

fn fault_of_bind(refused: BindRefused) -> Fault
    ensures { result ≡ bind_fault refused }
{
    match refused {
        BindRefused::UnknownColumn => Fault::UnknownColumn,
        BindRefused::AmbiguousColumn => Fault::AmbiguousColumn,
        BindRefused::TypeMismatch => Fault::TypeMismatch,
        BindRefused::RepeatedUsing => Fault::RepeatedUsing,
        BindRefused::Memory => Fault::Memory,
    }
}

fn fault_of_parse(refused: ParseRefused) -> Fault
    ensures { result ≡ parse_fault refused }
{
    match refused {
        ParseRefused::Syntax(byte) => Fault::Syntax(byte),
        ParseRefused::TooDeep => Fault::TooDeep,
        ParseRefused::TooLong => Fault::ClauseTooLong,
        ParseRefused::Memory => Fault::Memory,
    }
}

// The table of one side, read as strictly as the request asks. Bytes that it owns are freed before
// it returns.
fn read_side<R: Threads + Sync, B: AsSlice<u8> + Drop>(
    rt: &R,
    alloc: Global,
    bytes: B,
    request: &Request<'_>,
    side: Side,
) -> Result<Table, Fault>
    ensures table { IfOk result (IsTable request.now side (B.items bytes)) }
    ensures fault { IfErr result (λ f. f ≢ Fault.Memory → IsTableFault request.now side (B.items bytes) f) }
    ensures lawful { OnOk result (IsTrue (is_null_text request.now.out_null.now)) }
{
    match request.strict {
        Strictness::Off => read_text(rt, alloc, bytes.as_slice(), request, side),
        Strictness::On => read_strictly(rt, alloc, bytes.as_slice(), request, side, false),
        Strictness::Full => read_strictly(rt, alloc, bytes.as_slice(), request, side, true),
    }
}

/// Binds a clause to two tables. Only their names and types are looked at, so a table without rows
/// is enough.
///
/// # Errors
///
/// The first error of the clause's text, or of its names and types. `Memory` comes only when memory
/// ran out.
#[tactic(auto, using(crate::proofs::OperandFacts::unread_fault, crate::proofs::OperandFacts::unbound_fault))]
pub fn bind_clause(
    alloc: Global,
    text: &str,
    left: &Table,
    right: &Table,
) -> Result<BoundJoin, Fault>
    ensures join { IfOk result (IsJoinOf text.now left.now right.now) }
    ensures fault { IfErr result (λ f. f ≢ Fault.Memory → IsJoinFault text.now left.now right.now f) }
    ensures bound { IfOk result (λ join. fits join left.now.types right.now.types ≡ true) }
{
    let clause = match parse(alloc, text) {
        Ok(clause) => clause,
        Err(refused) => return Err(fault_of_parse(refused)),
    };
    match bind(alloc, &clause, left, right) {
        Ok(join) => Ok(join),
        Err(refused) => Err(fault_of_bind(refused)),
    }
}

// The error of a clause that doesn't bind. That of a column of an undeclared type takes the place of
// a mismatch of types.
fn fault_of_unbound(refused: BindRefused, undeclared: Option<Fault>) -> Fault
    ensures { result ≡ unbound_fault refused undeclared }
{
    match refused {
        BindRefused::TypeMismatch => match undeclared {
            Some(fault) => fault,
            None => Fault::TypeMismatch,
        },
        other => fault_of_bind(other),
    }
}

// A join, unless a column of an undeclared type needs a declared one, or rows are asked for that it
// doesn't keep.
fn declared(
    join: BoundJoin,
    undeclared: Option<Fault>,
    request: &Request<'_>,
) -> Result<BoundJoin, Fault>
    ensures { result ≡ with_rows request.now (bound_or (Ok join) undeclared) }
{
    match undeclared {
        Some(fault) => Err(fault),
        None => with_rows(join, request),
    }
}

// The clause of a request bound to two tables, if its type list for both names their columns.
#[tactic(auto, using(crate::proofs::OperandFacts::text_fault, crate::proofs::OperandFacts::types_fault))]
fn bind_request(
    alloc: Global,
    request: &Request<'_>,
    left: &Table,
    right: &Table,
) -> Result<BoundJoin, Fault>
    ensures join { IfOk result (IsJoinAsked request.now left.now right.now) }
    ensures fault { IfErr result (λ f. f ≢ Fault.Memory → IsClauseFault request.now left.now right.now f) }
    ensures bound { IfOk result (λ join. fits join left.now.types right.now.types ≡ true) }
{
    refuse_shared_names(alloc, request, left, right)?;
    let clause = match parse(alloc, request.clause) {
        Ok(clause) => clause,
        Err(refused) => return Err(fault_of_parse(refused)),
    };
    let undeclared = match undeclared_fault(alloc, &clause, request, left, right) {
        Ok(undeclared) => undeclared,
        Err(_) => return Err(Fault::Memory),
    };
    match bind(alloc, &clause, left, right) {
        Ok(join) => declared(join, undeclared, request),
        Err(refused) => Err(fault_of_unbound(refused, undeclared)),
    }
}

// Both tables with the clause of a request bound to them.
fn bind_tables(
    alloc: Global,
    request: &Request<'_>,
    left: Table,
    right: Table,
) -> Result<Operands, Fault>
    ensures tables { IfOk result (λ o. (o.left ≡ left) × (o.right ≡ right) × IsJoinAsked request.now left right o.join) }
    ensures fault { IfErr result (λ f. f ≢ Fault.Memory → IsClauseFault request.now left right f) }
    ensures bound { IfOk result (λ o. fits o.join o.left.types o.right.types ≡ true) }
{
    let join = bind_request(alloc, request, &left, &right)?;
    Ok(Operands { left, right, join })
}

// Refuses, in the short form, a clause that has an error over the headers of the two texts, and
// then, if the chosen columns are to be named, columns that can't be. A header that has an error
// itself is left to the reading.
#[tactic(auto, using(crate::proofs::OperandFacts::none_in_long_form, crate::proofs::OperandFacts::none_by_nulls))]
fn refuse_by_headers(
    alloc: Global,
    request: &Request<'_>,
    left: &[u8],
    right: &[u8],
    named: bool,
) -> Result<(), Fault>
    ensures none { OnOk result (HasNoHeaderFault named left.now right.now request.now) }
    ensures fault { IfErr result (λ f. f ≢ Fault.Memory → IsHeaderFault named left.now right.now request.now f) }
{
    if !request.short || !has_lawful_nulls(request) {
        return Ok(());
    }
    let Some(left) = header_table(alloc, left, request, Side::Left)? else {
        return Ok(());
    };
    let Some(right) = header_table(alloc, right, request, Side::Right)? else {
        return Ok(());
    };
    let operands = bind_tables(alloc, request, left, right)?;
    refuse_names(alloc, &operands, request, named)?;
    Ok(())
}

// Reads both tables and binds the clause to them, or reports the first error. In the short form the
// clause is bound to the headers first, before rows are read, and the chosen columns have to have
// names, if they are to be named. Bytes that it owns are freed as soon as their table is there.
pub(crate) fn read_operands<R: Threads + Sync, B: AsSlice<u8> + Drop, G: Watch>(
    rt: &R,
    alloc: Global,
    left: B,
    right: B,
    request: &Request<'_>,
    gate: &G,
    named: bool,
) -> Result<Operands, Fault>
    ensures operands { IfOk result (λ o. AreOperands (B.items left) (B.items right) request.now o.left o.right o.join) }
    ensures fault { IfErr result (λ f. f ≢ Fault.Memory → IsFirstFault named (B.items left) (B.items right) request.now f) }
    ensures lawful { OnOk result (IsTrue (is_null_text request.now.out_null.now)) }
    ensures apart { IfOk result (AreReadApart request.now) }
    ensures bound { IfOk result (λ o. fits o.join o.left.types o.right.types ≡ true) }
{
    refuse_by_headers(alloc, request, left.as_slice(), right.as_slice(), named)?;
    gate.begin(Step::Read(Side::Left));
    let left = read_side(rt, alloc, left, request, Side::Left)?;
    gate.begin(Step::Read(Side::Right));
    let right = read_side(rt, alloc, right, request, Side::Right)?;
    bind_tables(alloc, request, left, right)
}
