//! The corresponding columns of USING and NATURAL (SQL-92, 7.5).

ghost use Rattle.std.specs.Prelude.{◌≡◌, ◌≢◌, ◌<◌, IfOk, IfErr, Ok, Err, None, [], ◌∷◌, length, replicate, slice_get, true};
ghost use Rattle.std.specs.List.{list_all};
ghost use Rattle.rj_condition.specs.Names.{place};
ghost use Rattle.rj_condition.specs.Partners.{pair_of, using, natural_partner, natural};
ghost use Rattle.rj_condition.specs.Joins.{pairs_from};
ghost use Rattle.rj_condition.specs.Fits.{are_one_type, pair_fits, pairs_fit};

use crate::names::{column_called, column_named};
use crate::refused::BindRefused;
use crate::tree::Name;
use crate::typing::{agree, column_family};
use rj_columns::Table;
use std::alloc::{AllocError, Global};

// The left and the right column of a name of USING, after those named before.
fn pair_named(
    partners: &[Option<usize>],
    name: &Name,
    left: &Table,
    right: &Table,
) -> Result<(usize, usize), BindRefused>
    requires { length partners.now ≡ length left.now.types }
    ensures pair { result ≡ pair_of left.now right.now partners.now (place left.now.names name.now) (place right.now.names name.now) }
    ensures within { IfOk result (λ p. p.0 < length partners.now) }
    ensures fits { IfOk result (λ p. are_one_type (slice_get left.now.types p.0) (slice_get right.now.types p.1) ≡ true) }
{
    match column_named(left, name) {
        None => Err(BindRefused::UnknownColumn),
        Some(i) => match column_named(right, name) {
            None => Err(BindRefused::UnknownColumn),
            Some(j) => {
                if partners[i].is_some() {
                    Err(BindRefused::RepeatedUsing)
                } else if agree(column_family(left, i), column_family(right, j)) {
                    Ok((i, j))
                } else {
                    Err(BindRefused::TypeMismatch)
                }
            }
        },
    }
}

/// This many columns, none with a partner.
pub(crate) fn without_partners(
    alloc: Global,
    columns: usize,
) -> Result<Vec<Option<usize>>, AllocError>
    ensures { IfOk result (λ v. v.items ≡ replicate columns None) }
{
    let mut partners = Vec::new(alloc);
    for _ in 0..columns {
        partners.push(None)?;
    }
    Ok(partners)
}

/// The partners that USING names, or the first error, name by name.
pub(crate) fn partners_named(
    alloc: Global,
    names: &[Name],
    left: &Table,
    right: &Table,
) -> Result<Vec<Option<usize>>, BindRefused>
    ensures ok { IfOk result (λ v. using left.now right.now names.now ≡ Ok v.items) }
    ensures err { IfErr result (λ e. e ≢ BindRefused.Memory → using left.now right.now names.now ≡ Err e) }
    ensures fits { IfOk result (λ v. pairs_fit left.now.types right.now.types v.items ≡ true) }
    ensures len { IfOk result (λ v. length v.items ≡ length left.now.types) }
{
    let Ok(mut partners) = without_partners(alloc, left.columns()) else {
        return Err(BindRefused::Memory);
    };
    for name in names {
        let (i, j) = pair_named(&partners, name, left, right)?;
        partners[i] = Some(j);
    }
    Ok(partners)
}

// The partner of a left column of NATURAL, if both are of one type.
fn common_column(
    partner: Option<usize>,
    i: usize,
    left: &Table,
    right: &Table,
) -> Result<Option<usize>, BindRefused>
    ensures partner { result ≡ natural_partner left.now right.now i partner }
    ensures fits { IfOk result (λ p. list_all (pair_fits left.now.types right.now.types) (pairs_from i (p ∷ [])) ≡ true) }
{
    match partner {
        None => Ok(None),
        Some(j) => {
            if agree(column_family(left, i), column_family(right, j)) {
                Ok(Some(j))
            } else {
                Err(BindRefused::TypeMismatch)
            }
        }
    }
}

/// The partners of one name, ignoring ASCII case, or the first error.
pub(crate) fn common_partners(
    alloc: Global,
    left: &Table,
    right: &Table,
) -> Result<Vec<Option<usize>>, BindRefused>
    ensures ok { IfOk result (λ v. natural left.now right.now ≡ Ok v.items) }
    ensures err { IfErr result (λ e. e ≢ BindRefused.Memory → natural left.now right.now ≡ Err e) }
    ensures fits { IfOk result (λ v. pairs_fit left.now.types right.now.types v.items ≡ true) }
    ensures len { IfOk result (λ v. length v.items ≡ length left.now.types) }
{
    let mut partners = Vec::new(alloc);
    for i in 0..left.columns() {
        let found = column_called(right, left.name(i));
        let partner = match common_column(found, i, left, right) {
            Ok(partner) => partner,
            Err(e) => return Err(e),
        };
        if partners.push(partner).is_err() {
            return Err(BindRefused::Memory);
        }
    }
    Ok(partners)
}
