//! One queue of parcels. Its rule: what was taken, and then what it holds, interleaves what each
//! outbox posted.
use crate::ledger::Parcel;
use crate::posted::Posted;
use crossbeam_queue::protocol::{Join, Lesson, Outcome, Protocol, Split};
use crossbeam_queue::{Pass, RuledArrayQueue};
use std::collections::LinkedList;
use std::marker::{Brand, PhantomData};

mod moves;

pub(crate) use moves::{deal, drain, fix, give_back, put, take};

/// Which queue it is.
pub struct Where {
    pub partition: u32,
    pub lane: u32,
    pub lanes: u32,
    pub outboxes: u32,
}

/// What a pass knows. No value of it exists at run time. A pass that sends has an outbox's number,
/// and what this outbox sent. The one that takes knows how many senders were made, what it took,
/// and what the first senders, which have ended, sent in all.
pub struct Trace {
    pub place: Where,
    pub placed: bool,
    pub sends: bool,
    pub outbox: u32,
    pub sent: LinkedList<Parcel>,
    pub takes: bool,
    pub made: u32,
    pub taken: LinkedList<Posted>,
    pub known: LinkedList<LinkedList<Parcel>>,
}

/// Names the place that a queue gets when it is made.
pub trait QueuePlace {
    ghost use Rattle.rj_exchange.specs.declared.queue.Where.{Where};

    ghost place: { Where };
}

impl QueuePlace for Brand {
    ghost use Rattle.rj_exchange.specs.Passing.{no_place};

    ghost place = { no_place };
}

pub struct InOrder;

impl Protocol<Posted, Trace> for InOrder {
    ghost use Rattle.rj_exchange.specs.Passing.{Passing, first_trace};

    ghost holds = { Passing };

    ghost first = { first_trace };
}

struct Fix<B> {
    marker: PhantomData<B>,
}

impl<B: QueuePlace> Split<Trace> for Fix<B> {
    ghost use Rattle.rj_exchange.specs.Passing.{taker, no_trace};
    ghost use Rattle.std.specs.Prelude.{[]};

    ghost left = { λ v. taker B.place 0 [] [] };

    ghost right = { λ v. no_trace };
}

struct Deal;

impl Split<Trace> for Deal {
    ghost use Rattle.rj_exchange.specs.Passing.{taker, sender};
    ghost use Rattle.std.specs.Prelude.{[], ◌+◌};

    ghost left = { λ v. taker v.place (v.made + 1) v.taken v.known };

    ghost right = { λ v. sender v.place v.made [] };
}

struct Return;

impl Join<Trace> for Return {
    ghost use Rattle.rj_exchange.specs.Passing.{taker, no_trace};
    ghost use Rattle.std.specs.Prelude.{[], ◌∷◌, ◌++◌};

    ghost both = { λ v w. taker v.place v.made v.taken (v.known ++ w.sent ∷ []) };

    ghost spent = { no_trace };
}

struct PostsParcel;

impl Outcome<Posted, Trace> for PostsParcel {
    ghost use Rattle.rj_exchange.specs.Passing.{sender};
    ghost use Rattle.std.specs.Prelude.{[], ◌∷◌, ◌++◌, ◌≡◌};

    ghost then = { λ v x w. w ≡ sender v.place v.outbox (v.sent ++ x.parcel ∷ []) };
}

impl Lesson<Posted, Trace> for PostsParcel {
    ghost use Rattle.rj_exchange.specs.Passing.{HeldAt};

    ghost fact = { λ v items. HeldAt v.place v.outbox v.sent items };
}

struct TakesParcel;

impl Outcome<Posted, Trace> for TakesParcel {
    ghost use Rattle.rj_exchange.specs.Passing.{Took};

    ghost then = { Took };
}

impl Lesson<Posted, Trace> for TakesParcel {
    ghost use Rattle.rj_exchange.specs.Passing.{Left};

    ghost fact = { Left };
}

pub type ParcelQueue = RuledArrayQueue<Posted, Trace, InOrder>;
