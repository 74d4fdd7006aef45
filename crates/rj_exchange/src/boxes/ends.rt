//! The end of an inbox, which then gets what each outbox sent.
ghost use Rattle.std.specs.Prelude.{◌≡◌, ◌<◌, ◌+◌, length, All, IfOk, MatchResult};
ghost use Rattle.std.specs.Vec.Iter.{into_iter_items};
ghost use Rattle.crossbeam_queue.specs.Passes.{view, ruled_capacity};
ghost use Rattle.rj_exchange.specs.Passing.{Belongs};
ghost use Rattle.rj_exchange.specs.Boxes.{taken_by_lane, IsInboxOf, HasHeard, HearsOf, AreStubsOf, AreStubsFrom, AreRestsOf, BelongToLanes};
ghost use Rattle.rj_exchange.specs.Internal.Ends.{IsLater, IsTaker, AreTakers, HaveHeardAll, IsSender, BeginWithSenders, IsGrown, AreGrown, AllKnow};
ghost use Rattle.rj_exchange.specs.Internal.Ends.{IsRoom, AreRooms, IsRestOf, AreRests, BelongToQueues};

use crate::boxes::{Exchange, Finished, Inbox, Stub};
use crate::posted::Posted;
use crate::queue::{ParcelQueue, drain, give_back};
use std::alloc::{AllocError, Global};
use std::sync::Wait;
use std::vec::IntoIter;

fn rooms(alloc: Global, lanes: u32, capacity: usize) -> Result<Vec<Vec<Posted>>, AllocError>
    ensures { IfOk result (λ v. AreRooms lanes capacity v.items) }
{
    let mut rooms = Vec::new(alloc);
    for _ in 0..lanes {
        let room = Vec::with_capacity(alloc, capacity)?;
        rooms.push(room)?;
    }
    Ok(rooms)
}

fn give_back_at(queue: &ParcelQueue, end: &mut Stub, stub: Stub)
    requires end { IsTaker (length (view end.old.pass).known) queue.now end.old }
    requires stub { IsSender (length (view end.old.pass).known) queue.now stub }
    ensures { IsGrown queue.now end.old stub end.new }
{
    let Stub { pass } = stub;
    give_back(queue, &mut end.pass, pass);
}

// One outbox's tokens.
fn round(
    exchange: &Exchange,
    partition: u32,
    outbox: u32,
    ends: &mut Vec<Stub>,
    stubs: &mut IntoIter<Stub, Global>,
)
    requires place { partition < exchange.now.partitions }
    requires ends { AreTakers exchange.now partition outbox ends.old.items }
    requires stubs { BeginWithSenders exchange.now partition outbox (into_iter_items stubs.old) }
    ensures ends { AreGrown exchange.now partition ends.old.items (into_iter_items stubs.old) ends.new.items }
    ensures stubs { IsLater exchange.now.lanes (into_iter_items stubs.old) (into_iter_items stubs.new) }
{
    for lane in 0..exchange.lanes {
        let Some(stub) = stubs.next() else {
            unreachable!()
        };
        let at = exchange.index(partition, lane);
        give_back_at(&exchange.queues[at], &mut ends[lane as usize], stub);
    }
}

// The tokens of all outboxes.
fn give_back_all(exchange: &Exchange, partition: u32, ends: &mut Vec<Stub>, stubs: Vec<Stub>)
    requires place { partition < exchange.now.partitions }
    requires ends { AreTakers exchange.now partition 0 ends.old.items }
    requires stubs { AreStubsOf exchange.now partition stubs.items }
    ensures { AllKnow exchange.now partition ends.old.items stubs.items ends.new.items }
{
    let mut left = stubs.into_iter();
    for outbox in 0..exchange.outboxes {
        round(exchange, partition, outbox, ends, &mut left);
    }
}

fn drain_at<R: Wait>(rt: &R, queue: &ParcelQueue, end: &mut Stub, room: &mut Vec<Posted>)
    requires end { IsTaker (view end.old.pass).made queue.now end.old }
    requires room { IsRoom (ruled_capacity queue.now) room.old }
    ensures all { IsRestOf end.old room.new }
    ensures placed { All (Belongs (view end.old.pass).place) room.new.items }
{
    drain(rt, queue, &mut end.pass, room);
}

fn drain_all<R: Wait>(
    rt: &R,
    exchange: &Exchange,
    partition: u32,
    ends: &mut Vec<Stub>,
    rest: &mut Vec<Vec<Posted>>,
)
    requires place { partition < exchange.now.partitions }
    requires ends { HaveHeardAll exchange.now partition ends.old.items }
    requires rooms { AreRooms exchange.now.lanes exchange.now.capacity rest.old.items }
    ensures all { AreRests exchange.now.lanes ends.old.items rest.new.items }
    ensures placed { BelongToQueues exchange.now.lanes ends.old.items rest.new.items }
{
    for lane in 0..exchange.lanes {
        let at = exchange.index(partition, lane);
        drain_at(
            rt,
            &exchange.queues[at],
            &mut ends[lane as usize],
            &mut rest[lane as usize],
        );
    }
}

impl Inbox {
    /// Tells the inbox of the end of an outbox, the next one by number. It takes the outbox's stubs
    /// for this partition, lane by lane. From now on `None` of `take` means that all that this
    /// outbox posted there was taken. Once the inbox has heard of all outboxes, `None` means that
    /// it has all parcels of the lane. Allocates no memory.
    pub fn hear(&mut self, exchange: &Exchange, outbox: u32, stubs: Vec<Stub>)
        requires { HasHeard exchange.now outbox self.old × AreStubsFrom exchange.now self.old.partition outbox stubs.items }
        ensures same { HasHeard exchange.now (outbox + 1) self.new × (self.new.partition ≡ self.old.partition) × (taken_by_lane self.new ≡ taken_by_lane self.old) }
        ensures heard { HearsOf exchange.now stubs.items self.old self.new }
    {
        let mut left = stubs.into_iter();
        round(exchange, self.partition, outbox, &mut self.ends, &mut left);
    }

    /// The parcels that are left in this partition's queues, once every outbox has ended. It takes
    /// the stubs of its queues from all outboxes, by outbox and then lane. For each lane, what was
    /// taken, followed by the rest, interleaves what the outboxes posted there: nothing is lost,
    /// doubled or invented, and each outbox's parcels come in its order.
    ///
    /// # Errors
    ///
    /// It fails only when memory runs out. Room is made first, so everything is returned then, and
    /// nothing was taken.
    pub fn finish<R: Wait>(
        self,
        rt: &R,
        alloc: Global,
        exchange: &Exchange,
        stubs: Vec<Stub>,
    ) -> Result<Finished, (Inbox, Vec<Stub>)>
        requires { IsInboxOf exchange.now self × AreStubsOf exchange.now self.partition stubs.items }
        ensures all { MatchResult result (λ f. AreRestsOf exchange.now self stubs.items f.rest.items) (λ b. (b.0 ≡ self) × (b.1 ≡ stubs)) }
        ensures placed { IfOk result (λ f. BelongToLanes exchange.now self.partition f.rest.items) }
    {
        let Ok(mut rest) = rooms(alloc, exchange.lanes, exchange.capacity) else {
            return Err((self, stubs));
        };
        let Inbox { partition, ends } = self;
        let mut ends = ends;
        give_back_all(exchange, partition, &mut ends, stubs);
        drain_all(rt, exchange, partition, &mut ends, &mut rest);
        Ok(Finished { rest })
    }
}
