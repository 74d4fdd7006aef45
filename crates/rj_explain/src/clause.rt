//! Names of a clause that are refused.

ghost use Rattle.std.specs.Prelude.{◌≡◌, ◌⊎◌, ℕ, IfOk, List, MatchOption, None, Ok, slice_get, string_bytes};
ghost use Rattle.std.specs.List.{list_any};
ghost use Rattle.std.specs.Option.{option_copied};
ghost use Rattle.rj_condition.specs.Names.{matches};
ghost use Rattle.rj_csv_io.specs.Pieces.{names_in};
ghost use Rattle.rj_line.specs.declared.fault.Side.TheVariants as sides;
ghost use Rattle.rj_explain.specs.Explained.{AreColumns, IsNameTold, IsRefusalTold, IsToldOfName, columns_in, refusal_told, side_names};
ghost use Rattle.rj_explain.specs.Lines.{clause_line};
ghost use Rattle.rj_explain.specs.Unknown as unknown;
ghost use Rattle.rj_explain.specs.Unknown.{IsBareTold, IsBehindTold, IsLackTold, IsReasonTold, IsUnknownTold, both_names, is_behind_quote, is_quoted_at, name_found, no_side_words, side_meant, table_at};

use crate::hints::separator_lines;
use crate::inputs::Inputs;
use crate::unknown::{
    IN_BOTH, side_of_case, words_of_case, words_of_lacking, words_of_neither, words_of_table,
};
use rj_columns::Table;
use rj_condition::{BindRefused, Name, RefusedColumn, Word, refused_column};
use rj_csv_io::{Header, ReadRefused};
use rj_line::fault::Side;
use rj_line::shown::Shown;
use std::alloc::{AllocError, Global};

// The most bytes of a clause.
const LONGEST: usize = 65_536;

// What is said of a name that occurs twice in USING.
const NAMED_BEFORE: &str = "; the column is named before\n";

// The table without rows whose columns are those of this header of a side's file, if there is one.
fn table_under(
    alloc: Global,
    inputs: &Inputs<'_, '_>,
    side: Side,
    header: &Header,
) -> Result<Option<Table>, AllocError>
    requires { names_in header.now ≡ side_names side inputs.now }
    ensures { IfOk result (λ o. AreColumns side inputs.now o) }
{
    let kinds = inputs.table(side).kinds(alloc, header)?;
    match header.table(alloc, kinds.as_slice()) {
        Ok(table) => Ok(Some(table)),
        Err(ReadRefused::Memory) => Err(AllocError),
        Err(_) => Ok(None),
    }
}

/// The table without rows whose columns are those of a side's file, if there is one.
pub(crate) fn columns_of(
    alloc: Global,
    inputs: &Inputs<'_, '_>,
    side: Side,
) -> Result<Option<Table>, AllocError>
    ensures { IfOk result (λ o. AreColumns side inputs.now o) }
{
    match inputs.table(side).header(alloc)? {
        Some(header) => table_under(alloc, inputs, side, &header),
        None => Ok(None),
    }
}

/// The columns of both sides' files, each as a table without rows.
#[derive(Drop)]
pub(crate) struct BothColumns {
    pub(crate) left: Table,
    pub(crate) right: Table,
}

impl BothColumns {
    /// Those of a side.
    pub(crate) fn of(&self, side: Side) -> &Table
        ensures { result.now ≡ table_at side self.now.left self.now.right }
    {
        match side {
            Side::Left => &self.left,
            Side::Right => &self.right,
        }
    }
}

/// Those of both sides, if both files have some.
pub(crate) fn columns_of_both(
    alloc: Global,
    inputs: &Inputs<'_, '_>,
) -> Result<Option<BothColumns>, AllocError>
    ensures { IfOk result (λ o. MatchOption o (AreColumns sides.Left inputs.now None ⊎ AreColumns sides.Right inputs.now None)
        (λ c. (columns_in sides.Left inputs.now ≡ Ok c.left) × (columns_in sides.Right inputs.now ≡ Ok c.right))) }
{
    let Some(left) = columns_of(alloc, inputs, Side::Left)? else {
        return Ok(None);
    };
    match columns_of(alloc, inputs, Side::Right)? {
        Some(right) => Ok(Some(BothColumns { left, right })),
        None => Ok(None),
    }
}

// The line for a name: the byte at which it begins, and these words.
fn name_line(alloc: Global, found: &RefusedColumn, words: &str) -> Result<String, AllocError>
    ensures { IfOk result (λ s. string_bytes s ≡ clause_line found.now words.now) }
{
    let at = found.at;
    let name = Shown {
        bytes: found.name.as_str().as_bytes(),
    };
    format!(in alloc; "  {name} at byte {at} of the clause{words}")
}

// What is said of a qualifier that is no table's name. If it differs from one by its case alone, it is
// delimited.
fn why_no_side(qualifier: &str) -> &'static str
    ensures { result.now ≡ unknown.why_no_side qualifier.now }
{
    if qualifier.eq_ignore_ascii_case("L") || qualifier.eq_ignore_ascii_case("R") {
        ": between double quotes a name matches exactly"
    } else {
        ""
    }
}

// The words for a name after such a qualifier.
fn words_of_no_table(alloc: Global, qualifier: &str) -> Result<String, AllocError>
    ensures { IfOk result (λ s. string_bytes s ≡ no_side_words qualifier.now) }
{
    let why = why_no_side(qualifier);
    let qualifier = Shown {
        bytes: qualifier.as_bytes(),
    };
    format!(in alloc; " stands behind {qualifier}, which is neither L nor R{why}\n")
}

// The table that a qualifier names. Unless it is delimited, case is ignored.
fn side_of(qualifier: &str, delimited: bool) -> Option<Side>
    ensures { result ≡ side_meant qualifier.now delimited }
{
    if qualifier == "L" || (qualifier == "l" && !delimited) {
        return Some(Side::Left);
    }
    if qualifier == "R" || (qualifier == "r" && !delimited) {
        return Some(Side::Right);
    }
    None
}

// What comes before a sign with which a text ends, but for white space.
fn before_sign(text: &[u8], sign: u8) -> Option<&[u8]>
    ensures { option_copied result ≡ unknown.before_sign sign text.now }
{
    let text = text.trim_ascii_end();
    if text.ends_with(&[sign]) {
        return Some(&text[..text.len() - 1]);
    }
    None
}

// Whether a delimited name and a point come before a byte of a clause.
fn is_behind_delimited(clause: &str, at: u64) -> bool
    ensures { result ≡ is_behind_quote clause.now at }
{
    let bytes = clause.as_bytes();
    match before_sign(&bytes[..(at as usize).min(bytes.len())], b'.') {
        Some(qualifier) => before_sign(qualifier, b'"').is_some(),
        None => false,
    }
}

// The byte of a clause at a place, if there is one.
fn byte_at(clause: &str, at: u64) -> Option<u8>
    ensures { result ≡ slice_get clause.now at }
{
    clause.as_bytes().get(at as usize).copied()
}

// Whether a delimited name begins at a byte of a clause.
fn is_delimited_at(clause: &str, at: u64) -> bool
    ensures { result ≡ is_quoted_at clause.now at }
{
    match byte_at(clause, at) {
        Some(byte) => byte == b'"',
        None => false,
    }
}

// The words for a name behind a qualifier of a side, or of none.
fn words_behind(
    alloc: Global,
    side: Option<Side>,
    qualifier: &str,
    name: &str,
    delimited: bool,
    columns: &BothColumns,
) -> Result<String, AllocError>
    ensures { IfOk result (λ s. IsBehindTold side qualifier.now (both_names columns.now.left columns.now.right) name.now delimited (string_bytes s)) }
{
    match side {
        Some(side) => words_of_table(alloc, columns, side, name, delimited),
        None => words_of_no_table(alloc, qualifier),
    }
}

// The words for a name after a qualifier that can't be resolved.
fn words_of_qualified(
    alloc: Global,
    clause: &str,
    found: &RefusedColumn,
    qualifier: &str,
    columns: &BothColumns,
) -> Result<String, AllocError>
    ensures { IfOk result (λ s. IsBehindTold (side_meant qualifier.now (is_behind_quote clause.now found.now.at)) qualifier.now
        (both_names columns.now.left columns.now.right) found.now.name (is_quoted_at clause.now found.now.at) (string_bytes s)) }
{
    let side = side_of(qualifier, is_behind_delimited(clause, found.at));
    let delimited = is_delimited_at(clause, found.at);
    words_behind(
        alloc,
        side,
        qualifier,
        found.name.as_str(),
        delimited,
        columns,
    )
}

// Whether a table has a column that a name means.
fn has_column(table: &Table, name: &Name) -> bool
    ensures { result ≡ list_any (matches name.now) table.now.names }
{
    for column in 0..table.columns() {
        let other = table.name(column);
        if name.means(other.as_bytes()) {
            return true;
        }
    }
    false
}

// The side whose table lacks a column that the other one has.
fn lacking_side(columns: &BothColumns, name: &Name) -> Option<Side>
    ensures { result ≡ unknown.lacking_side (both_names columns.now.left columns.now.right) name.now }
{
    match (
        has_column(&columns.left, name),
        has_column(&columns.right, name),
    ) {
        (true, false) => Some(Side::Right),
        (false, true) => Some(Side::Left),
        _ => None,
    }
}

// The words for a name that this side lacks, or both.
fn words_of_lack(
    alloc: Global,
    columns: &BothColumns,
    lacking: Option<Side>,
    wanted: &str,
) -> Result<String, AllocError>
    ensures { IfOk result (λ s. IsLackTold lacking (both_names columns.now.left columns.now.right) wanted.now (string_bytes s)) }
{
    match lacking {
        Some(side) => words_of_lacking(alloc, columns, side, "lacks it, and has", wanted),
        None => words_of_neither(alloc, columns, wanted),
    }
}

// What is said of a name without a qualifier that can't be found: in USING one table may have it.
fn words_of_bare(alloc: Global, name: &Name, columns: &BothColumns) -> Result<String, AllocError>
    ensures { IfOk result (λ s. IsBareTold name.now (both_names columns.now.left columns.now.right) (string_bytes s)) }
{
    let wanted = name.text.as_str();
    let lacking = lacking_side(columns, name);
    if name.delimited {
        if let Some((side, called)) = side_of_case(columns, lacking, wanted) {
            return words_of_case(alloc, side, called);
        }
    }
    words_of_lack(alloc, columns, lacking, wanted)
}

// The name that is refused, as the clause has it.
fn name_of(alloc: Global, clause: &str, found: &RefusedColumn) -> Result<Name, AllocError>
    ensures { IfOk result (λ name. name ≡ name_found clause.now found.now) }
{
    Ok(Name {
        text: Word::new(alloc, found.name.as_str())?,
        delimited: is_delimited_at(clause, found.at),
    })
}

// The words for a name that can't be resolved.
fn words_of_unknown(
    alloc: Global,
    clause: &str,
    found: &RefusedColumn,
    columns: &BothColumns,
) -> Result<String, AllocError>
    ensures { IfOk result (λ s. IsUnknownTold clause.now found.now found.now.qualifier (both_names columns.now.left columns.now.right) (string_bytes s)) }
{
    match &found.qualifier {
        Some(qualifier) => words_of_qualified(alloc, clause, found, qualifier.as_str(), columns),
        None => words_of_bare(alloc, &name_of(alloc, clause, found)?, columns),
    }
}

// The words for a name that is refused.
fn words_of(
    alloc: Global,
    clause: &str,
    found: &RefusedColumn,
    columns: &BothColumns,
) -> Result<String, AllocError>
    ensures { IfOk result (λ s. IsReasonTold found.now.refused clause.now found.now (both_names columns.now.left columns.now.right) (string_bytes s)) }
{
    match found.refused {
        BindRefused::UnknownColumn => words_of_unknown(alloc, clause, found, columns),
        BindRefused::AmbiguousColumn => String::from_str(alloc, IN_BOTH),
        BindRefused::RepeatedUsing => String::from_str(alloc, NAMED_BEFORE),
        BindRefused::TypeMismatch | BindRefused::Memory => String::from_str(alloc, "\n"),
    }
}

// What is said of both files for this reason why a name is refused.
fn lines_of_files(
    alloc: Global,
    inputs: &Inputs<'_, '_>,
    refused: BindRefused,
    columns: &BothColumns,
) -> Result<String, AllocError>
    ensures { IfOk result (λ s. string_bytes s ≡ refusal_told refused inputs.now columns.now.left columns.now.right) }
{
    match refused {
        BindRefused::UnknownColumn => {
            separator_lines(alloc, inputs, &columns.left, &columns.right)
        }
        _ => Ok(String::new(alloc)),
    }
}

// The line for a name that is refused: the byte at which it begins, and the words for it.
fn refused_line(
    alloc: Global,
    clause: &str,
    found: &RefusedColumn,
    columns: &BothColumns,
) -> Result<String, AllocError>
    ensures { IfOk result (λ s. (more : List ℕ) × IsReasonTold found.now.refused clause.now found.now (both_names columns.now.left columns.now.right) more
        × (string_bytes s ≡ clause_line found.now more)) }
{
    let words = words_of(alloc, clause, found, columns)?;
    name_line(alloc, found, words.as_str())
}

// The lines for a name that is refused: its own, and what is said of the files.
fn refused_lines(
    alloc: Global,
    inputs: &Inputs<'_, '_>,
    found: &RefusedColumn,
    columns: &BothColumns,
) -> Result<String, AllocError>
    ensures { IfOk result (λ s. IsToldOfName found.now inputs.now (string_bytes s) columns.now.left columns.now.right) }
{
    let mut lines = refused_line(alloc, inputs.request.clause, found, columns)?;
    let more = lines_of_files(alloc, inputs, found.refused, columns)?;
    lines.push_str(more.as_str())?;
    Ok(lines)
}

// The lines for the first name of the clause that is refused, if there is one.
fn first_refused_lines(
    alloc: Global,
    inputs: &Inputs<'_, '_>,
    columns: &BothColumns,
) -> Result<String, AllocError>
    ensures { IfOk result (λ s. IsRefusalTold inputs.now (string_bytes s) columns.now.left columns.now.right) }
{
    let clause = inputs.request.clause;
    if clause.len() > LONGEST {
        return Ok(String::new(alloc));
    }
    match refused_column(alloc, clause, &columns.left, &columns.right)? {
        Some(found) => refused_lines(alloc, inputs, &found, columns),
        None => Ok(String::new(alloc)),
    }
}

/// The lines for the first name of the clause that is refused: the byte at which it begins, and the
/// names that there are.
///
/// # Errors
///
/// It fails only when memory runs out.
pub(crate) fn name_lines(alloc: Global, inputs: &Inputs<'_, '_>) -> Result<String, AllocError>
    ensures { IfOk result (λ s. IsNameTold inputs.now (string_bytes s)) }
{
    match columns_of_both(alloc, inputs)? {
        Some(columns) => first_refused_lines(alloc, inputs, &columns),
        None => Ok(String::new(alloc)),
    }
}
