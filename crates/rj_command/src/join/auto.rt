//! The types that a request takes from cells.

ghost use Rattle.std.specs.Prelude.{◌≡◌, ◌≢◌, ◌<◌, ◌∷◌, ◌++◌, [], ℕ, false, true, is_some, length, IfOk, IsErr, IsTrue, List, MatchOption, Ok, OnOk, Some, replicate, slice_get, take};
ghost use Rattle.std.specs.Option.{option_to_list};
ghost use Rattle.csv.specs.Reading.{records, strip_bom};
ghost use Rattle.rj_columns.specs.Names.{empty_table};
ghost use Rattle.rj_columns.specs.Tables.{TableValue};
ghost use Rattle.rj_csv_io.specs.Pieces.{names_in};
ghost use Rattle.rj_columns.specs.declared.cell.ColumnType.{ColumnType};
ghost use Rattle.rj_condition.specs.Bound.{bound};
ghost use Rattle.rj_condition.specs.Clauses.{HasClause};
ghost use Rattle.rj_condition.specs.Undeclared.{undeclared_in};
ghost use Rattle.rj_condition.specs.declared.tree.Clause.{Clause};
ghost use Rattle.rj_csv_io.specs.StrictReading.{config_of};
ghost use Rattle.rj_settings.specs.declared.types.entry.TypeEntry.{TypeEntry};
ghost use Rattle.rj_command.specs.Auto as auto;
ghost use Rattle.rj_command.specs.Auto.{AreKinds, AreKindsIn, AreStrictKinds, AreSuggestedEntries, HasFurther, IsBound, IsCompleted, IsNumberTable, TakesTypes, entries_from, entry_at, entry_for, table_of};
ghost use Rattle.rj_command.specs.Sides.{delimiter_of, has_lawful_nulls, nulls_of};

use crate::join::headers::header_table;
use crate::join::nulls::{delimiter_of, has_lawful_nulls, nulls_of};
use crate::join::types::types_of;
use crate::join::undeclared::{is_open, is_undeclared};
use rj_columns::{ColumnType, Table};
use rj_condition::{
    BindRefused, BoundJoin, Clause, Columns, Name, ParseRefused, Word, bind, first_undeclared,
    parse,
};
use rj_csv_io::strict::{HeaderPlace as Grammar, check, quote_empty_lines};
use rj_csv_io::{Header, InputFormat, ReadRefused, without_bom};
use rj_line::fault::Side;
use rj_line::suggest::suggested_kinds;
use rj_line::{Request, Strictness};
use rj_settings::types::{Label, TypeEntry, is_open as says_not_all};
use std::alloc::{AllocError, Global};

// The types that the cells of a text suggest for its columns; none if the text has an error.
fn kinds_of_text(
    alloc: Global,
    text: &[u8],
    request: &Request<'_>,
    side: Side,
) -> Result<Option<Vec<ColumnType>>, AllocError>
    ensures { IfOk result (λ o. MatchOption o
        ((kinds : List ColumnType) → AreKindsIn request.now side (records (config_of (delimiter_of request.now side)) (strip_bom text.now)) kinds → ⊥)
        (λ v. AreKindsIn request.now side (records (config_of (delimiter_of request.now side)) (strip_bom text.now)) v.items)) }
{
    let format = InputFormat {
        delimiter: delimiter_of(request, side),
        nulls: nulls_of(request, side),
    };
    match suggested_kinds(alloc, text, &format) {
        Ok(kinds) => Ok(Some(kinds)),
        Err(ReadRefused::Memory) => Err(AllocError),
        Err(_) => Ok(None),
    }
}

// The same of a text of RFC 4180's grammar, with its empty lines; none if it isn't of it.
fn kinds_of_strict_text(
    alloc: Global,
    text: &[u8],
    request: &Request<'_>,
    side: Side,
    full: bool,
) -> Result<Option<Vec<ColumnType>>, AllocError>
    ensures { IfOk result (λ o. MatchOption o
        ((kinds : List ColumnType) → AreStrictKinds full request.now side text.now kinds → ⊥)
        (λ v. AreStrictKinds full request.now side text.now v.items)) }
{
    let delimiter = delimiter_of(request, side);
    if check(text, delimiter, Grammar::First, full).is_err() {
        return Ok(None);
    }
    let quoted = quote_empty_lines(alloc, text, delimiter)?;
    kinds_of_text(alloc, quoted.as_slice(), request, side)
}

// The types that the cells of a side's file suggest for its columns; none if the file has an error.
fn kinds_of(
    alloc: Global,
    text: &[u8],
    request: &Request<'_>,
    side: Side,
) -> Result<Option<Vec<ColumnType>>, AllocError>
    ensures { IfOk result (λ o. MatchOption o
        ((kinds : List ColumnType) → AreKinds request.now side text.now kinds → ⊥)
        (λ v. AreKinds request.now side text.now v.items)) }
{
    match request.strict {
        Strictness::Off => kinds_of_text(alloc, text, request, side),
        Strictness::On => kinds_of_strict_text(alloc, text, request, side, false),
        Strictness::Full => kinds_of_strict_text(alloc, text, request, side, true),
    }
}

// The table without rows of a header, each column of which is of numbers; none if the header has an
// error.
fn table_under(alloc: Global, header: &Header) -> Result<Option<Table>, AllocError>
    ensures { IfOk result (λ o. MatchOption o
        ((t : TableValue) → empty_table (names_in header.now) (replicate (length (names_in header.now)) ColumnType.Int) ≡ Ok t → ⊥)
        (λ t. empty_table (names_in header.now) (replicate (length (names_in header.now)) ColumnType.Int) ≡ Ok t)) }
{
    let types = vec![in alloc; ColumnType::Int; header.columns()]?;
    match header.table(alloc, types.as_slice()) {
        Ok(table) => Ok(Some(table)),
        Err(ReadRefused::Memory) => Err(AllocError),
        Err(_) => Ok(None),
    }
}

// That of a side's file; none if its header has an error.
fn number_table(
    alloc: Global,
    text: &[u8],
    request: &Request<'_>,
    side: Side,
) -> Result<Option<Table>, AllocError>
    ensures { IfOk result (λ o. MatchOption o
        ((t : TableValue) → IsNumberTable (delimiter_of request.now side) text.now t → ⊥)
        (IsNumberTable (delimiter_of request.now side) text.now)) }
{
    match Header::of(alloc, without_bom(text), delimiter_of(request, side))? {
        Some(header) => table_under(alloc, &header),
        None => Ok(None),
    }
}

// For each column up to this one, whether it is this one.
fn marks_at(alloc: Global, column: usize) -> Result<Vec<bool>, AllocError>
    ensures { IfOk result (λ v. v.items ≡ replicate column false ++ true ∷ []) }
{
    let mut marks = vec![in alloc; false; column]?;
    marks.push(true)?;
    Ok(marks)
}

// A clause over two tables without rows, whose columns are all of numbers.
#[derive(Clone, Copy)]
struct Compared<'a> {
    clause: &'a Clause,
    left: &'a Table,
    right: &'a Table,
}

impl Compared<'_> {
    // Whether the clause has a column without a declared type where its type matters, if these columns
    // of both tables have none.
    fn needs_types(
        &self,
        alloc: Global,
        lefts: &[bool],
        rights: &[bool],
    ) -> Result<bool, AllocError>
        ensures { IfOk result (λ b. b ≡ is_some (undeclared_in (record { table = self.now.left.now; undeclared = lefts.now })
            (record { table = self.now.right.now; undeclared = rights.now }) self.now.clause.now)) }
    {
        let left = Columns {
            table: self.left,
            undeclared: lefts,
        };
        let right = Columns {
            table: self.right,
            undeclared: rights,
        };
        Ok(first_undeclared(alloc, self.clause, &left, &right)?.is_some())
    }

    // Whether the clause compares a column of a side, by an order or with a number.
    fn compares(&self, alloc: Global, side: Side, column: usize) -> Result<bool, AllocError>
        ensures { IfOk result (λ b. b ≡ auto.compares self.now.left.now self.now.right.now self.now.clause.now side column) }
    {
        let marks = marks_at(alloc, column)?;
        match side {
            Side::Left => self.needs_types(alloc, marks.as_slice(), &[]),
            Side::Right => self.needs_types(alloc, &[], marks.as_slice()),
        }
    }

    // The table of a side.
    fn table(&self, side: Side) -> &Table
        ensures { result.now ≡ table_of self.now.left.now self.now.right.now side }
    {
        match side {
            Side::Left => self.left,
            Side::Right => self.right,
        }
    }
}

// Whether the lists of a request say nothing of some columns of a side.
fn leaves_open(request: &Request<'_>, side: Side) -> bool
    ensures { result ≡ auto.leaves_open request.now side }
{
    is_open(request, side) || says_not_all(types_of(request, side))
}

// The entry by which a column of this name has this type.
fn entry_for(alloc: Global, name: &str, kind: ColumnType) -> Result<TypeEntry, AllocError>
    ensures { IfOk result (λ e. e ≡ entry_for name.now kind) }
{
    let text = Word::new(alloc, name)?;
    Ok(TypeEntry {
        label: Label::Shared(Name {
            text,
            delimited: true,
        }),
        kind,
    })
}

// The type at a place, if there is one.
fn kind_at(kinds: &[ColumnType], column: usize) -> Option<ColumnType>
    ensures { result ≡ slice_get kinds.now column }
{
    match kinds.get(column) {
        Some(kind) => Some(*kind),
        None => None,
    }
}

// The entry of a column, if the clause compares it and no list says anything of it.
fn entry_at(
    alloc: Global,
    compared: &Compared<'_>,
    request: &Request<'_>,
    side: Side,
    kinds: &[ColumnType],
    column: usize,
) -> Result<Option<TypeEntry>, AllocError>
    requires { column < length (table_of compared.now.left.now compared.now.right.now side).types }
    ensures { IfOk result (λ o. (name : List ℕ) × (slice_get (table_of compared.now.left.now compared.now.right.now side).names column ≡ Some name)
        × (o ≡ entry_at request.now side (auto.compares compared.now.left.now compared.now.right.now compared.now.clause.now side) kinds.now column name)) }
{
    let name = compared.table(side).name(column);
    if !is_undeclared(leaves_open(request, side), types_of(request, side), name) {
        return Ok(None);
    }
    if !compared.compares(alloc, side, column)? {
        return Ok(None);
    }
    match kind_at(kinds, column) {
        Some(kind) => Ok(Some(entry_for(alloc, name, kind)?)),
        None => Ok(None),
    }
}

// Adds an entry, if there is one.
fn push_some(entries: &mut Vec<TypeEntry>, entry: Option<TypeEntry>) -> Result<(), AllocError>
    ensures { OnOk result (entries.new.items ≡ entries.old.items ++ option_to_list entry) }
{
    match entry {
        Some(entry) => Ok(entries.push(entry)?),
        None => Ok(()),
    }
}

// The entries of the columns of a side that the clause compares, and of which no list says anything.
fn entries_of(
    alloc: Global,
    compared: &Compared<'_>,
    request: &Request<'_>,
    side: Side,
    kinds: &[ColumnType],
) -> Result<Vec<TypeEntry>, AllocError>
    ensures { IfOk result (λ v. v.items ≡ entries_from request.now side
        (auto.compares compared.now.left.now compared.now.right.now compared.now.clause.now side) kinds.now 0
        (table_of compared.now.left.now compared.now.right.now side).names) }
{
    let mut entries = Vec::new(alloc);
    for i in 0..compared.table(side).columns() {
        push_some(
            &mut entries,
            entry_at(alloc, compared, request, side, kinds, i)?,
        )?;
    }
    Ok(entries)
}

// The entries that cells suggest.
#[derive(Drop)]
struct Entries {
    left: Vec<TypeEntry>,
    right: Vec<TypeEntry>,
}

// Those of both sides, under headers and by a clause that have no error; none if a file has one.
fn entries_by(
    alloc: Global,
    compared: &Compared<'_>,
    left: &[u8],
    right: &[u8],
    request: &Request<'_>,
) -> Result<Option<Entries>, AllocError>
    requires lawful { IsTrue (has_lawful_nulls request.now) }
    requires clause { HasClause request.now.clause.now compared.now.clause.now }
    requires left { IsNumberTable (delimiter_of request.now Side.Left) left.now compared.now.left.now }
    requires right { IsNumberTable (delimiter_of request.now Side.Right) right.now compared.now.right.now }
    ensures { IfOk result (λ o. MatchOption o
        ((lefts rights : List TypeEntry) → AreSuggestedEntries left.now right.now request.now lefts rights → ⊥)
        (λ e. AreSuggestedEntries left.now right.now request.now e.left.items e.right.items)) }
{
    let Some(left_kinds) = kinds_of(alloc, left, request, Side::Left)? else {
        return Ok(None);
    };
    let Some(right_kinds) = kinds_of(alloc, right, request, Side::Right)? else {
        return Ok(None);
    };
    let left = entries_of(alloc, compared, request, Side::Left, left_kinds.as_slice())?;
    let right = entries_of(
        alloc,
        compared,
        request,
        Side::Right,
        right_kinds.as_slice(),
    )?;
    Ok(Some(Entries { left, right }))
}

// Fails if a text was refused since memory ran out.
fn refuse_memory(refused: ParseRefused) -> Result<(), AllocError>
    ensures { OnOk result (refused ≢ ParseRefused.Memory) }
{
    match refused {
        ParseRefused::Memory => Err(AllocError),
        _ => Ok(()),
    }
}

// The clause of a text; none if the text has an error.
fn clause_of(alloc: Global, text: &str) -> Result<Option<Clause>, AllocError>
    ensures { IfOk result (λ o. MatchOption o ((c : Clause) → HasClause text.now c → ⊥) (HasClause text.now)) }
{
    match parse(alloc, text) {
        Ok(clause) => Ok(Some(clause)),
        Err(refused) => {
            refuse_memory(refused)?;
            Ok(None)
        }
    }
}

// The entries that the cells of both files suggest; none if a file or the clause has an error.
fn suggested(
    alloc: Global,
    left: &[u8],
    right: &[u8],
    request: &Request<'_>,
) -> Result<Option<Entries>, AllocError>
    requires { IsTrue (has_lawful_nulls request.now) }
    ensures { IfOk result (λ o. MatchOption o
        ((lefts rights : List TypeEntry) → AreSuggestedEntries left.now right.now request.now lefts rights → ⊥)
        (λ e. AreSuggestedEntries left.now right.now request.now e.left.items e.right.items)) }
{
    let Some(clause) = clause_of(alloc, request.clause)? else {
        return Ok(None);
    };
    let Some(left_table) = number_table(alloc, left, request, Side::Left)? else {
        return Ok(None);
    };
    let Some(right_table) = number_table(alloc, right, request, Side::Right)? else {
        return Ok(None);
    };
    let compared = Compared {
        clause: &clause,
        left: &left_table,
        right: &right_table,
    };
    entries_by(alloc, &compared, left, right, request)
}

// A clause bound to two tables; none if it has an error over them.
fn join_of(
    alloc: Global,
    clause: &Clause,
    left: &Table,
    right: &Table,
) -> Result<Option<BoundJoin>, AllocError>
    ensures { IfOk result (λ o. MatchOption o (IsErr (bound clause.now left.now right.now)) (λ join. bound clause.now left.now right.now ≡ Ok join)) }
{
    match bind(alloc, clause, left, right) {
        Ok(join) => Ok(Some(join)),
        Err(BindRefused::Memory) => Err(AllocError),
        Err(_) => Ok(None),
    }
}

// Whether the clause of a request is bound to the headers of both files.
fn is_bound(
    alloc: Global,
    left: &[u8],
    right: &[u8],
    request: &Request<'_>,
) -> Result<bool, AllocError>
    requires { IsTrue (has_lawful_nulls request.now) }
    ensures bound { IfOk result (λ b. b ≡ true → IsBound left.now right.now request.now) }
    ensures unbound { IfOk result (λ b. b ≡ false → IsBound left.now right.now request.now → ⊥) }
{
    let Some(clause) = clause_of(alloc, request.clause)? else {
        return Ok(false);
    };
    let Some(left) = header_table(alloc, left, request, Side::Left)? else {
        return Ok(false);
    };
    let Some(right) = header_table(alloc, right, request, Side::Right)? else {
        return Ok(false);
    };
    match join_of(alloc, &clause, &left, &right)? {
        Some(_join) => Ok(true),
        None => Ok(false),
    }
}

// Puts entries behind the lists of a request.
fn add_entries(request: &mut Request<'_>, entries: Entries) -> Result<(), AllocError>
    ensures { OnOk result (HasFurther request.old request.new entries.left.items entries.right.items) }
{
    let Entries {
        mut left,
        mut right,
    } = entries;
    request.left_types.append(&mut left)?;
    request.right_types.append(&mut right)?;
    Ok(())
}

// Takes the entries behind so many of each list away.
fn cut_entries(request: &mut Request<'_>, lefts: usize, rights: usize)
    ensures left { request.new.left_types.items ≡ take lefts request.old.left_types.items }
    ensures right { request.new.right_types.items ≡ take rights request.old.right_types.items }
    ensures same { record request.new { left_types = request.old.left_types; right_types = request.old.right_types } ≡ request.old }
{
    request.left_types.truncate(lefts);
    request.right_types.truncate(rights);
}

// Puts the entries that cells suggest behind the lists of a request, if its clause is bound by them.
fn take_suggested(
    alloc: Global,
    left: &[u8],
    right: &[u8],
    request: &mut Request<'_>,
) -> Result<(), AllocError>
    ensures { OnOk result (TakesTypes left.now right.now request.old request.new) }
{
    if !has_lawful_nulls(request) {
        return Ok(());
    }
    let Some(entries) = suggested(alloc, left, right, request)? else {
        return Ok(());
    };
    let lefts = request.left_types.as_slice().len();
    let rights = request.right_types.as_slice().len();
    add_entries(request, entries)?;
    if is_bound(alloc, left, right, request)? {
        return Ok(());
    }
    cut_entries(request, lefts, rights);
    Ok(())
}

/// Completes the lists of a request that takes types from cells: behind its own entries come those
/// that the cells of both files suggest for the columns that its clause compares, and of which no
/// list says anything. A clause compares a column where its type matters: by an order, or with
/// anything but a text literal. The types are those of `--suggest-types`. If the clause can't be
/// bound to both headers by them, no type is taken, nor if the clause or a file has an error. Any
/// other request stays as it is.
///
/// # Errors
///
/// It fails only when memory runs out. Then some of the entries may be there.
pub fn complete_types(
    alloc: Global,
    left: &[u8],
    right: &[u8],
    request: &mut Request<'_>,
) -> Result<(), AllocError>
    ensures { OnOk result (IsCompleted left.now right.now request.old request.new) }
{
    if !request.auto_types {
        return Ok(());
    }
    take_suggested(alloc, left, right, request)
}
