//! Laws: each of these functions does nothing; its contract is a theorem about all seats, boxes
//! and parcels.

ghost use Rattle.std.specs.Prelude.{List, ◌≡◌, ◌<◌, ◌≤◌, ℕ, length, map};
ghost use Rattle.crossbeam_queue.specs.Fifo.{Held};
ghost use Rattle.rj_exchange.specs.declared.ledger.parcel.Parcel.{Parcel};
ghost use Rattle.rj_exchange.specs.declared.boxes.Exchange.{Exchange};
ghost use Rattle.rj_exchange.specs.declared.boxes.Inbox.{Inbox};
ghost use Rattle.rj_exchange.specs.declared.stripes.StripeSeat.{StripeSeat};
ghost use Rattle.rj_exchange.specs.declared.queue.Where.{Where};
ghost use Rattle.rj_exchange.specs.Passing.{HeldAt};
ghost use Rattle.rj_exchange.specs.Boxes.{IsInboxOf, HasHeard};
ghost use Rattle.rj_exchange.specs.Tickets.{EachOnce};
ghost use Rattle.rj_exchange.specs.Stripes.{held_by, HasHolder};

/// If seats together hold the numbers below n, each once, each of these numbers is held by exactly
/// one of them.
pub fn holder()
    ensures { (n x : ℕ) (ss : List StripeSeat) → EachOnce n (map held_by ss) → x < n → HasHolder x ss }
{}

/// An inbox that has heard of no outbox's end has heard of the first 0.
pub fn heard_of_none()
    ensures { (e : Exchange) (i : Inbox) → IsInboxOf e i → HasHeard e 0 i }
{}

/// If there is one outbox, `Full` comes only after it has posted as many parcels to the queue as
/// this holds.
pub fn full_alone()
    ensures { (p : Where) (n : ℕ) (sent : List Parcel) → p.outboxes ≡ 1 → Held n (HeldAt p 0 sent) → n ≤ length sent }
{}
