//! The exchange between threads: queues with a rule for parcels, tickets, a halt word, and stripes
//! that are drawn and put back.
//!
//! Everything here is shared by `&`. What a thread knows is in a token of its own: an [`Outbox`],
//! an [`Inbox`], a [`Seat`], a [`HaltSeat`] or a [`StripeSeat`]. Each step of a call is one step on
//! one queue or one atomic word. A rule over that queue or word and all tokens holds between any
//! two steps, whatever the schedule of the threads. Once all tokens are handed in, `finish` tells
//! what the rule says of them together.
//!
//! Every call needs boxes, stubs and seats that were opened with the value with which they are
//! used. The functions of `laws` do nothing; their contracts are theorems.
//!
//! [`ledger`] has parcels, and what a partition accepts, holds back and refuses of them.
#![tactic(auto)]

mod boxes;
mod halt;
mod laws;
pub mod ledger;
mod posted;
mod queue;
mod stripes;
mod tickets;

pub use boxes::{Exchange, Finished, Full, Inbox, Outbox, Stub};
pub use halt::{Halt, HaltSeat};
pub use laws::{full_alone, heard_of_none, holder};
pub use posted::Posted;
pub use stripes::{StripeSeat, Stripes};
pub use tickets::{Seat, Tickets};
