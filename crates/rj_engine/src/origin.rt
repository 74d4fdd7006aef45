//! Where each column of a joined table comes from.

ghost use Rattle.std.specs.Prelude.{◌≡◌, ◌++◌, ◌∷◌, [], IfOk, OnOk, filter, if◌then◌else◌, map};
ghost use Rattle.std.specs.List.{list_any};
ghost use Rattle.rj_condition.specs.Joins.{pairs_of};
ghost use Rattle.rj_engine.specs.Cells.{IsColumnOf, name_of};
ghost use Rattle.rj_engine.specs.Origins.{is_column, other_lefts, other_rights, origins_of};
ghost use Rattle.rj_engine.specs.declared.origin.Origin.TheVariants as origin;

use rj_columns::Table;
use std::alloc::{AllocError, Global};

/// Where a column of a joined table comes from: a pair of join columns, the left one first, or one column of one
/// table.
#[derive(Clone, Copy)]
pub(crate) enum Origin {
    Coalesced(usize, usize),
    Left(usize),
    Right(usize),
}

/// The columns of a joined table (SQL-92, 7.5): join columns in the order of the left table, other
/// left columns, other right columns.
#[tactic(auto, unfolding(crate::specs::Origins::origins_of))]
pub(crate) fn origins(
    alloc: Global,
    partners: &[Option<usize>],
    right_columns: usize,
) -> Result<Vec<Origin>, AllocError>
    ensures { IfOk result (λ v. v.items ≡ origins_of partners.now right_columns) }
{
    let mut found = Vec::new(alloc);
    add_pairs(&mut found, partners)?;
    add_lefts(&mut found, partners)?;
    add_rights(&mut found, partners, right_columns)?;
    Ok(found)
}

/// The name of a column. A join column has the left table's name.
pub(crate) fn name_at<'a>(left: &'a Table, right: &'a Table, origin: Origin) -> &'a str
    requires { IsColumnOf left.now right.now origin }
    ensures { result.now ≡ name_of left.now right.now origin }
{
    match origin {
        Origin::Coalesced(a, _) => left.name(a),
        Origin::Left(a) => left.name(a),
        Origin::Right(b) => right.name(b),
    }
}

// Adds the join columns.
fn add_pairs(found: &mut Vec<Origin>, partners: &[Option<usize>]) -> Result<(), AllocError>
    ensures { OnOk result (found.new.items ≡ found.old.items ++ map (λ p. origin.Coalesced p.0 p.1) (pairs_of partners.now)) }
{
    for left in 0..partners.len() {
        match partners[left] {
            None => {}
            Some(right) => found.push(Origin::Coalesced(left, right))?,
        }
    }
    Ok(())
}

// Adds the left columns that aren't join columns.
fn add_lefts(found: &mut Vec<Origin>, partners: &[Option<usize>]) -> Result<(), AllocError>
    ensures { OnOk result (found.new.items ≡ found.old.items ++ map (λ i. origin.Left i) (other_lefts partners.now)) }
{
    for left in 0..partners.len() {
        add_if(found, partners[left].is_none(), Origin::Left(left))?;
    }
    Ok(())
}

// Adds the right columns that aren't join columns.
fn add_rights(
    found: &mut Vec<Origin>,
    partners: &[Option<usize>],
    columns: usize,
) -> Result<(), AllocError>
    ensures { OnOk result (found.new.items ≡ found.old.items ++ map (λ j. origin.Right j) (other_rights partners.now columns)) }
{
    for right in 0..columns {
        add_if(found, !is_partner(partners, right), Origin::Right(right))?;
    }
    Ok(())
}

// Adds a column if it is wanted.
fn add_if(found: &mut Vec<Origin>, wanted: bool, origin: Origin) -> Result<(), AllocError>
    ensures { OnOk result (found.new.items ≡ found.old.items ++ (if wanted then origin ∷ [] else [])) }
{
    if wanted {
        found.push(origin)?;
    }
    Ok(())
}

// Whether a left column is joined with the right column.
fn is_partner(partners: &[Option<usize>], right: usize) -> bool
    ensures { result ≡ list_any (is_column right) partners.now }
{
    for partner in partners {
        if *partner == Some(right) {
            return true;
        }
    }
    false
}
