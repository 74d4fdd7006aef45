//! The moves on one queue.
ghost use Rattle.std.specs.Prelude.{◌≡◌, ◌∷◌, ◌++◌, [], length, vec_capacity, ◌+◌, ◌≤◌, All, MatchOption, MatchResult};
ghost use Rattle.crossbeam_queue.specs.Passes.{view, IsPassOf, IsSamePass, ruled_capacity};
ghost use Rattle.crossbeam_queue.specs.Fifo.{Held};
ghost use Rattle.rj_exchange.specs.Passing.{first_trace, taker, sender, IsTakerTrace, IsSenderTrace, Belongs, HeldAt, Left, Took, Interleaves};

use crate::ledger::Parcel;
use crate::posted::Posted;
use crate::queue::{Deal, Fix, ParcelQueue, PostsParcel, QueuePlace, Return, TakesParcel, Trace};
use crossbeam_queue::Pass;
use std::sync::Wait;

// The queue gets its place.
pub(crate) fn fix<B: QueuePlace>(queue: &ParcelQueue, pass: &mut Pass<Posted, Trace>)
    requires { IsPassOf queue.now pass.old × (view pass.old ≡ first_trace) }
    ensures { IsSamePass pass.old pass.new × (view pass.new ≡ taker B.place 0 [] []) }
{
    queue.another::<Fix<B>>(pass);
}

// One more outbox.
pub(crate) fn deal(queue: &ParcelQueue, pass: &mut Pass<Posted, Trace>) -> Pass<Posted, Trace>
    requires pass { IsPassOf queue.now pass.old }
    requires view { IsTakerTrace (view pass.old) }
    ensures pass { IsSamePass pass.old pass.new × IsPassOf queue.now result }
    ensures view { let v = view pass.old in (view pass.new ≡ taker v.place (v.made + 1) v.taken v.known) × (view result ≡ sender v.place v.made []) }
{
    queue.another::<Deal>(pass)
}

pub(crate) fn put<R: Wait>(
    rt: &R,
    queue: &ParcelQueue,
    pass: &mut Pass<Posted, Trace>,
    posted: Posted,
) -> Result<(), Posted>
    requires pass { IsPassOf queue.now pass.old }
    requires view { let v = view pass.old in IsSenderTrace v × (posted.outbox ≡ v.outbox) × Belongs v.place posted }
    ensures pass { IsSamePass pass.old pass.new }
    ensures view { let v = view pass.old in
        MatchResult result (λ _. view pass.new ≡ sender v.place v.outbox (v.sent ++ posted.parcel ∷ []))
        (λ x. (x ≡ posted) × (view pass.new ≡ v) × Held (ruled_capacity queue.now) (HeldAt v.place v.outbox v.sent)) }
{
    queue.push_as::<PostsParcel, R>(rt, pass, posted)
}

pub(crate) fn take<R: Wait>(
    rt: &R,
    queue: &ParcelQueue,
    pass: &mut Pass<Posted, Trace>,
) -> Option<Posted>
    requires pass { IsPassOf queue.now pass.old }
    requires view { IsTakerTrace (view pass.old) }
    ensures pass { IsSamePass pass.old pass.new }
    ensures view { let v = view pass.old in MatchOption result ((view pass.new ≡ v) × Held 0 (Left v)) (λ x. Took v x (view pass.new)) }
{
    queue.pop_as::<TakesParcel, R>(rt, pass)
}

// An outbox that has ended: the next one that the taker does not know yet.
pub(crate) fn give_back(
    queue: &ParcelQueue,
    pass: &mut Pass<Posted, Trace>,
    stub: Pass<Posted, Trace>,
)
    requires pass { IsPassOf queue.now pass.old × IsPassOf queue.now stub }
    requires view { let v = view pass.old in let w = view stub in
        IsTakerTrace v × IsSenderTrace w × (w.outbox ≡ length v.known) }
    ensures pass { IsSamePass pass.old pass.new }
    ensures view { let v = view pass.old in view pass.new ≡ taker v.place v.made v.taken (v.known ++ (view stub).sent ∷ []) }
{
    queue.absorb::<Return>(pass, stub);
}

// All that is left, after each outbox has ended.
pub(crate) fn drain<R: Wait>(
    rt: &R,
    queue: &ParcelQueue,
    pass: &mut Pass<Posted, Trace>,
    rest: &mut Vec<Posted>,
)
    requires pass { IsPassOf queue.now pass.old }
    requires view { let v = view pass.old in IsTakerTrace v × (length v.known ≡ v.made) }
    requires room { (rest.old.items ≡ []) × (ruled_capacity queue.now ≤ vec_capacity rest.old) }
    ensures pass { IsSamePass pass.old pass.new }
    ensures all { let v = view pass.old in Interleaves v.known (v.taken ++ rest.new.items) }
    ensures placed { All (Belongs (view pass.old).place) rest.new.items }
{
    queue.len_as::<TakesParcel, R>(rt, pass);
    for _ in rt.forever() {
        let Some(posted) = take(rt, queue, pass) else {
            break;
        };
        rest.push_reserved(posted);
    }
}
