//! Places under locks, from which takers take the partitions that they draw.
ghost use Rattle.std.specs.Prelude.{◌≡◌, ◌<◌, ℕ, IfOk, IfSome, Some, length, vec_len, slice_get};
ghost use Rattle.rj_exchange.specs.Ledgers.{opened};
ghost use Rattle.rj_exchange.specs.declared.boxes.Inbox.{Inbox};

use rj_exchange::Inbox;
use rj_exchange::ledger::Ledger;
use std::alloc::{AllocError, Global};
use std::marker::{Brand, PhantomData};
use std::sync::{Mutex, Wait};

/// Names the inboxes of an exchange as they were opened, and how its ledgers are opened. Each run picks its own.
pub(crate) trait Fresh: Send + Sync {
    ghost use Rattle.std.specs.Prelude.{ℕ, List};
    ghost use Rattle.rj_exchange.specs.declared.boxes.Inbox.{Inbox};

    ghost inboxes: { List Inbox };

    ghost senders: { ℕ };

    ghost block: { ℕ };
}

impl Fresh for Brand {
    ghost use Rattle.std.specs.Prelude.{[]};

    ghost inboxes = { [] };

    ghost senders = { 0 };

    ghost block = { 0 };
}

/// The inbox of a partition as it was opened, with nothing taken, and its ledger, to which nothing was offered.
#[derive(Drop)]
pub(crate) struct Untouched<B: Fresh> {
    inbox: Inbox,
    ledger: Ledger,
    of: PhantomData<B>,
    ghost same: { slice_get B.inboxes inbox.partition ≡ Some inbox },
    ghost fresh: { ledger ≡ opened inbox.partition B.senders B.block },
}

/// What a place holds until it is taken.
pub(crate) type PartitionPlace<B> = Mutex<Option<Untouched<B>>>;

fn as_opened<B: Fresh>(inbox: Inbox, ledger: Ledger) -> Untouched<B>
    requires same { slice_get B.inboxes inbox.partition ≡ Some inbox }
    requires fresh { ledger ≡ opened inbox.partition B.senders B.block }
{
    Untouched {
        inbox,
        ledger,
        of: PhantomData,
    }
}

/// A place for each partition.
pub(crate) fn open_places<B: Fresh>(
    alloc: Global,
    inboxes: Vec<Inbox>,
    senders: u32,
    block: u32,
) -> Result<Vec<PartitionPlace<B>>, AllocError>
    requires inboxes { inboxes.items ≡ B.inboxes }
    requires partitions { (p : ℕ) (i : Inbox) → slice_get inboxes.items p ≡ Some i → i.partition ≡ p }
    requires ledgers { (senders ≡ B.senders) × (block ≡ B.block) }
    ensures { IfOk result (λ v. vec_len v ≡ length inboxes.items) }
{
    let mut places = Vec::with_capacity(alloc, inboxes.len())?;
    for inbox in inboxes {
        let ledger = Ledger::open(alloc, inbox.partition(), senders, block)?;
        places.push(Mutex::new(Some(as_opened::<B>(inbox, ledger))))?;
    }
    Ok(places)
}

/// Takes what the place of a partition holds. `None` if it is empty, or holds what is of another
/// partition.
pub(crate) fn take_place<B: Fresh, R: Wait>(
    rt: &R,
    places: &[PartitionPlace<B>],
    partition: usize,
) -> Option<(Inbox, Ledger)>
    requires { partition < length places.now }
    ensures { IfSome result (λ t. (slice_get B.inboxes partition ≡ Some t.0) × (t.1 ≡ opened partition B.senders B.block)) }
{
    let mut guard = places[partition].lock(rt);
    let held = guard.take()?;
    let Untouched {
        inbox,
        ledger,
        of: _,
    } = held;
    if inbox.partition() as usize == partition {
        Some((inbox, ledger))
    } else {
        None
    }
}
