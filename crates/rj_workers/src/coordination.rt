//! The words, tickets and stripes of a run.
ghost use Rattle.std.specs.Prelude.{◌≡◌, ◌≤◌, IfOk};
ghost use Rattle.rj_workers.specs.Internal.Workers.{AreSeats, IsCoordination};

use crate::settings::WorkerSettings;
use crate::shared::Shared;
use rj_exchange::{Exchange, Halt, HaltSeat, Seat, StripeSeat, Stripes, Tickets};
use std::alloc::{AllocError, Global};
use std::sync::Wait;

/// What workers share beside the exchange.
#[derive(Drop)]
pub(crate) struct Coordination {
    pub(crate) halt: Halt,
    pub(crate) done: Halt,
    pub(crate) stripes: Stripes,
    pub(crate) tickets: Tickets,
}

impl Coordination {
    /// What all workers share.
    pub(crate) fn shared<'a, J, G>(
        &'a self,
        exchange: &'a Exchange,
        job: &'a J,
        gate: &'a G,
        settings: WorkerSettings,
    ) -> Shared<'a, J, G>
        ensures shared { (result.exchange ≡ exchange.entry) × (result.job ≡ job.entry) × (result.gate ≡ gate.entry) × (result.settings ≡ settings) }
        ensures words { (result.halt.now ≡ self.now.halt) × (result.done.now ≡ self.now.done)
            × (result.stripes.now ≡ self.now.stripes) × (result.tickets.now ≡ self.now.tickets) }
    {
        Shared {
            exchange,
            halt: &self.halt,
            done: &self.done,
            stripes: &self.stripes,
            tickets: &self.tickets,
            job,
            gate,
            settings,
        }
    }
}

/// The seats at the words, the stripes and the tickets.
#[derive(Drop)]
pub(crate) struct Seats {
    pub(crate) halt: Vec<HaltSeat>,
    pub(crate) done: Vec<HaltSeat>,
    pub(crate) stripes: Vec<StripeSeat>,
    pub(crate) tickets: Vec<Seat>,
}

/// The words of a run, with a seat at the halt word for each worker and the starting thread, and
/// one at the done word for each taker and the starting thread.
pub(crate) fn open_coordination<R: Wait>(
    rt: &R,
    alloc: Global,
    settings: WorkerSettings,
) -> Result<(Coordination, Seats), AllocError>
    requires workers { (1 ≤ settings.workers) × (settings.workers ≤ 64) }
    ensures words { IfOk result (λ r. IsCoordination settings r.0) }
    ensures seats { IfOk result (λ r. AreSeats r.0 settings.workers r.1) }
{
    let count = settings.workers;
    let (halt, at_halt) = Halt::open(alloc, count + count + 1)?;
    let (done, at_done) = Halt::open(alloc, count + 1)?;
    let (tickets, at_tickets) = Tickets::open(alloc, u64::from(settings.partitions), count)?;
    let (stripes, at_stripes) = Stripes::open(rt, alloc, count, count)?;
    let words = Coordination {
        halt,
        done,
        stripes,
        tickets,
    };
    let seats = Seats {
        halt: at_halt,
        done: at_done,
        stripes: at_stripes,
        tickets: at_tickets,
    };
    Ok((words, seats))
}
