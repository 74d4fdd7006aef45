//! How a scanner posts lists of parcels. If a queue is full, it goes on with the others.
ghost use Rattle.std.specs.Prelude.{◌≡◌, Contains, MatchOption};
ghost use Rattle.std.specs.List.{list_all};
ghost use Rattle.std.specs.List.Sorted.{IsPermutation};
ghost use Rattle.rj_exchange.specs.declared.ledger.parcel.Parcel.{Parcel};
ghost use Rattle.rj_exchange.specs.Boxes.{sent_by_queue};
ghost use Rattle.rj_workers.specs.Posts.{KeepsPosts, AddsLeft, AreInRange, PostsOrKeeps, IsLeft, IsPosted, is_sent, to_post};
ghost use Rattle.rj_workers.specs.Internal.Scans.{KnowsHalt, IsScanner, SameScanner};

use crate::gate::{Gate, Place};
use crate::pause::Pause;
use crate::scan::Scanner;
use crate::shared::Shared;
use rj_exchange::Full;
use rj_exchange::ledger::Parcel;
use std::sync::Wait;
use std::time::Clock;

/// What a sender has still to post for one partition: the next parcel, and those after it.
#[derive(Drop)]
pub(crate) struct Sending {
    next: Option<Parcel>,
    // Those after it, the last one first.
    rest: Vec<Parcel>,
}

impl Sending {
    /// All of these parcels, in their order.
    pub(crate) fn new(parcels: Vec<Parcel>) -> Self
        ensures { IsPermutation parcels.items (to_post result) }
    {
        let mut rest = parcels;
        rest.reverse();
        let next = rest.pop();
        Sending { next, rest }
    }

    fn is_sent(&self) -> bool
        ensures { result ≡ is_sent self.now }
    {
        match self.next {
            Some(_) => false,
            None => self.rest.is_empty(),
        }
    }
}

// Whether all lists are posted.
fn all_sent(lists: &[Sending]) -> bool
    ensures { result ≡ list_all is_sent lists.now }
{
    lists.iter().all(|list| list.is_sent())
}

// Posts the next parcel of a list, if there is one and its queue has room for it. Returns whether
// it did.
fn post_next<R: Wait, J, G: Gate>(
    rt: &R,
    shared: &Shared<'_, J, G>,
    me: &mut Scanner,
    list: &mut Sending,
) -> bool
    requires me { IsScanner shared.now me.old }
    requires parcels { AreInRange shared.now.exchange.now (Contains (to_post list.old)) }
    ensures me { IsScanner shared.now me.new × SameScanner me.old me.new }
    ensures sent { PostsOrKeeps shared.now.exchange.now (Contains (to_post list.old)) (Contains (to_post list.new)) (sent_by_queue me.old.outbox) (sent_by_queue me.new.outbox) }
{
    let Some(parcel) = list.next.take() else {
        return false;
    };
    let place = Place::Posted(parcel.partition);
    if let Err(Full(back)) = me.outbox.post(rt, shared.exchange, parcel) {
        list.next = Some(back);
        return false;
    }
    list.next = list.rest.pop();
    shared.gate.pass(place);
    true
}

// Posts a list until it finds a queue full. Returns whether it posted any parcel.
fn post_some<R: Wait, J, G: Gate>(
    rt: &R,
    shared: &Shared<'_, J, G>,
    me: &mut Scanner,
    list: &mut Sending,
) -> bool
    requires me { IsScanner shared.now me.old }
    requires parcels { AreInRange shared.now.exchange.now (Contains (to_post list.old)) }
    ensures me { IsScanner shared.now me.new × SameScanner me.old me.new }
    ensures sent { PostsOrKeeps shared.now.exchange.now (Contains (to_post list.old)) (Contains (to_post list.new)) (sent_by_queue me.old.outbox) (sent_by_queue me.new.outbox) }
{
    let mut posted = false;
    for _ in rt.forever() {
        if !post_next(rt, shared, me, list) {
            return posted;
        }
        posted = true;
    }
    unreachable!()
}

// Posts from each list what its queues have room for. Returns whether it posted any parcel.
fn post_round<R: Wait, J, G: Gate>(
    rt: &R,
    shared: &Shared<'_, J, G>,
    me: &mut Scanner,
    lists: &mut Vec<Sending>,
) -> bool
    requires me { IsScanner shared.now me.old }
    requires parcels { AreInRange shared.now.exchange.now (IsLeft lists.old.items) }
    ensures me { IsScanner shared.now me.new × SameScanner me.old me.new }
    ensures sent { PostsOrKeeps shared.now.exchange.now (IsLeft lists.old.items) (IsLeft lists.new.items) (sent_by_queue me.old.outbox) (sent_by_queue me.new.outbox) }
{
    let mut posted = false;
    for at in 0..lists.len() {
        if post_some(rt, shared, me, &mut lists[at]) {
            posted = true;
        }
    }
    posted
}

/// Posts all lists, each in its order. If nothing has room, it waits. `None` if it sees the halt
/// word raised.
pub(crate) fn post_all<R: Wait + Clock, J, G: Gate>(
    rt: &R,
    shared: &Shared<'_, J, G>,
    me: &mut Scanner,
    lists: Vec<Sending>,
) -> Option<()>
    requires me { IsScanner shared.now me.old }
    requires parcels { AreInRange shared.now.exchange.now (IsLeft lists.items) }
    ensures me { IsScanner shared.now me.new × SameScanner me.old me.new }
    ensures kept { KeepsPosts (sent_by_queue me.old.outbox) (sent_by_queue me.new.outbox) }
    ensures added { AddsLeft (IsLeft lists.items) (sent_by_queue me.old.outbox) (sent_by_queue me.new.outbox) }
    ensures all { MatchOption result (KnowsHalt me.new.seat)
        (λ _. (x : Parcel) → IsLeft lists.items x → IsPosted shared.now.exchange.now (sent_by_queue me.new.outbox) x) }
{
    let mut lists = lists;
    let mut pause = Pause::new();
    for _ in rt.forever() {
        let posted = post_round(rt, shared, me, &mut lists);
        if all_sent(lists.as_slice()) {
            return Some(());
        }
        if shared.halt.raised(&mut me.seat) {
            return None;
        }
        pause.after(rt, posted);
    }
    unreachable!()
}
