//! The calls of the halt word.
ghost use Rattle.std.specs.Prelude.{◌≡◌, ◌≤◌, ◌⊎◌, ◌↔◌, All, IfOk, IsTrue};
ghost use Rattle.rj_exchange.specs.Halt.{HasRaised, HasSeen, IsUnraised, halt_seats_of, IsHaltSeatOf, IsNewHalt, AreAllHaltSeats, AnyRaised, AnySeen};
ghost use Rattle.std.specs.Bool.{OnFalse};

use crate::halt::{CutToken, Halt, HaltSeat, Looks, Raises};
use atomic_table::Table;
use std::alloc::{AllocError, Global};

impl Halt {
    /// A word that is not raised, and `seats` seats, 1 to 256.
    ///
    /// # Errors
    ///
    /// It fails only when memory runs out.
    pub fn open(alloc: Global, seats: u32) -> Result<(Halt, Vec<HaltSeat>), AllocError>
        requires { (1 ≤ seats) × (seats ≤ 256) }
        ensures counts { IfOk result (λ h. halt_seats_of h.0 ≡ seats) }
        ensures seats { IfOk result (λ h. AreAllHaltSeats h.0 h.1.items × All IsNewHalt h.1.items) }
    {
        let (table, mut all) = Table::of_words(alloc, &[0], &seats)?;
        let mut dealt = Vec::new(alloc);
        for _ in 1..seats {
            let seat = table.shared.split_seat::<CutToken>(&mut all);
            dealt.push(HaltSeat {
                seat,
                raised: false,
                seen: false,
            })?;
        }
        dealt.push(HaltSeat {
            seat: all,
            raised: false,
            seen: false,
        })?;
        Ok((Halt { table }, dealt))
    }

    /// Raises the word in one atomic step, a `fetch_max`. Allocates no memory and waits for nobody.
    pub fn raise(&self, seat: &mut HaltSeat)
        requires { IsHaltSeatOf self.now seat.old }
        ensures seat { IsHaltSeatOf self.now seat.new }
        ensures raised { HasRaised seat.new × (HasSeen seat.new ↔ HasSeen seat.old) }
    {
        self.table.shared.fetch_max::<Raises>(&mut seat.seat, 0, 1);
        seat.raised = true;
    }

    /// Whether this seat has raised the word, or has seen it raised, in this call by one load, or
    /// before. Allocates no memory and waits for nobody. That the load sees what another seat
    /// raised is tested and not proved.
    pub fn raised(&self, seat: &mut HaltSeat) -> bool
        requires { IsHaltSeatOf self.now seat.old }
        ensures seat { IsHaltSeatOf self.now seat.new }
        ensures told { IsTrue result ↔ (HasRaised seat.new ⊎ HasSeen seat.new) }
        ensures kept { (HasRaised seat.new ↔ HasRaised seat.old) × (HasSeen seat.old → HasSeen seat.new) }
    {
        if seat.raised || seat.seen {
            return true;
        }
        if self.table.shared.load::<Looks>(&mut seat.seat, 0) == 0 {
            return false;
        }
        seat.seen = true;
        true
    }

    /// Whether one of the seats raised the word. The seats are all that were opened. Allocates no
    /// memory and waits for nobody.
    pub fn finish(self, seats: Vec<HaltSeat>) -> bool
        requires { AreAllHaltSeats self seats.items }
        ensures raised { IsTrue result ↔ AnyRaised seats.items }
        ensures seen { AnySeen seats.items → IsTrue result }
        ensures calm { OnFalse result (All IsUnraised seats.items) }
    {
        let Halt { table } = self;
        let mut seats = seats;
        let Some(
            HaltSeat {
                seat: mut all,
                raised: _,
                seen: _,
            },
        ) = seats.pop()
        else {
            unreachable!()
        };
        while let Some(next) = seats.pop() {
            let HaltSeat {
                seat,
                raised: _,
                seen: _,
            } = next;
            table.shared.join_seat::<CutToken>(&mut all, seat);
        }
        let closed = table.close_with(all);
        let word = closed.word(0);
        closed.free();
        if word == 0 {
            return false;
        }
        true
    }
}
