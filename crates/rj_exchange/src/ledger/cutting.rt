//! Cutting rows into parcels.

ghost use Rattle.std.specs.Prelude.{◌≡◌, ◌<◌, All, IfOk};
ghost use Rattle.rj_exchange.specs.Cutting.{plan, IsFor};

use crate::ledger::parcel::{Block, Body, Parcel};
use std::alloc::{AllocError, Global};

/// The plan of a sender for a partition to which these rows are due: blocks of `block` rows in the
/// given order, the last perhaps shorter and none empty, numbered from 0, then a close with the
/// next number. `block` is at least 1.
///
/// # Errors
///
/// It fails only when memory runs out.
pub fn cut(
    alloc: Global,
    rows: &[u32],
    sender: u32,
    partition: u32,
    block: u32,
) -> Result<Vec<Parcel>, AllocError>
    requires { 0 < block }
    ensures plan { IfOk result (λ parcels. parcels.items ≡ plan block rows.now sender partition) }
    ensures placed { IfOk result (λ parcels. All (IsFor sender partition) parcels.items) }
{
    let mut parcels = Vec::new(alloc);
    let mut left = rows;
    let mut number: u64 = 0;
    while !left.is_empty() {
        let count = (block as usize).min(left.len());
        let (first, others) = left.split_at(count);
        let body = Body::Rows(Block::new(Vec::from_slice(alloc, first)?));
        parcels.push(Parcel {
            sender,
            partition,
            number,
            body,
        })?;
        number += 1;
        left = others;
    }
    parcels.push(Parcel {
        sender,
        partition,
        number,
        body: Body::Close,
    })?;
    Ok(parcels)
}
