//! The workers of a partitioned join: scanners that post the rows of stripes, takers that keep the
//! ledgers of partitions and build them, and the starting thread, which ends the exchange. Then
//! workers draw shares of what was built.
//!
//! What is scanned and built is a [`Job`]. Whatever the schedule of the threads, in the end each
//! ledger has delivered what was due to its partition, or memory ran out. What is drawn then are
//! [`Shares`]. The function of `laws` does nothing; its contract is a theorem that callers use.
#![tactic(auto)]

mod closing;
mod coordination;
mod ending;
mod gate;
mod job;
mod laws;
mod pause;
mod places;
mod post;
mod run;
mod scan;
mod scope;
mod settings;
mod shared;
mod shares;
mod sharing;
mod start;
mod take;
mod workers;

pub use closing::Delivered;
pub use gate::{Gate, OpenGate, Place};
pub use job::Job;
pub use laws::closed_once_delivered;
pub use run::run_workers;
pub use settings::WorkerSettings;
pub use shares::Shares;
pub use sharing::run_shares;
