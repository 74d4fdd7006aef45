//! A law: the function does nothing; its contract is a theorem about every run.

ghost use Rattle.std.specs.Prelude.{List, ℕ};
ghost use Rattle.rj_exchange.specs.Ledgers.{LedgerValue};
ghost use Rattle.rj_workers.specs.Arrivals.{AcceptsNoMore, IsDelivered};

/// Nothing is accepted after a sender's close. Once all that was due was delivered to a partition's
/// ledger, it has the close of each sender. Whatever is offered to it then is refused and changes
/// nothing. A parcel that could have come (for this partition, of a known sender and of a valid
/// length) is refused because of that close.
pub fn closed_once_delivered()
    ensures { (due : ℕ → ℕ → List ℕ) (n p : ℕ) (v : LedgerValue) → IsDelivered due n p v → AcceptsNoMore n p v }
{}
