//! The calls of tickets.
ghost use Rattle.std.specs.Prelude.{◌≡◌, ◌≤◌, ◌<◌, ◌++◌, ◌∷◌, [], ◌^◌, map, All, IfOk, IsNone, MatchOption};
ghost use Rattle.rj_exchange.specs.Tickets.{drawn_by, IsSpent, IsUnspent, limit_of, seats_of, IsSeatOf, IsNew, AreAllSeats, EachOnce, AnySpent};

use crate::tickets::{Claims, Cut, Plan, Seat, Tickets};
use atomic_table::Table;
use std::alloc::{AllocError, Global};

impl Tickets {
    /// The numbers below `n`, at most 2^32, and `seats` seats, 1 to 256. Nothing is drawn yet.
    ///
    /// # Errors
    ///
    /// It fails only when memory runs out.
    pub fn open(alloc: Global, n: u64, seats: u32) -> Result<(Tickets, Vec<Seat>), AllocError>
        requires limit { n ≤ 2 ^ 32 }
        requires seats { (1 ≤ seats) × (seats ≤ 256) }
        ensures counts { IfOk result (λ t. (limit_of t.0 ≡ n) × (seats_of t.0 ≡ seats)) }
        ensures seats { IfOk result (λ t. AreAllSeats t.0 t.1.items × All IsNew t.1.items) }
    {
        let plan = Plan { limit: n, seats };
        let (table, mut all) = Table::of_words(alloc, &[0], &plan)?;
        let mut dealt = Vec::new(alloc);
        for _ in 1..seats {
            let seat = table.shared.split_seat::<Cut>(&mut all);
            dealt.push(Seat { seat, spent: false })?;
        }
        dealt.push(Seat {
            seat: all,
            spent: false,
        })?;
        Ok((Tickets { table, limit: n }, dealt))
    }

    /// Draws the next number in one atomic step. `None` if all were drawn; the seat is spent then.
    /// A spent seat answers `None` without a step. Allocates no memory and waits for nobody.
    pub fn claim(&self, seat: &mut Seat) -> Option<u64>
        requires { IsSeatOf self.now seat.old }
        ensures seat { IsSeatOf self.now seat.new }
        ensures drawn { MatchOption result ((drawn_by seat.new ≡ drawn_by seat.old) × IsSpent seat.new)
            (λ x. (drawn_by seat.new ≡ drawn_by seat.old ++ x ∷ []) × (x < limit_of self.now) × IsUnspent seat.new) }
        ensures spent { IsSpent seat.old → IsNone result }
    {
        if seat.spent {
            return None;
        }
        let found = self.table.shared.fetch_add::<Claims>(&mut seat.seat, 0, 1);
        if found < self.limit {
            return Some(found);
        }
        seat.spent = true;
        None
    }

    /// How many numbers the seats drew, which is `n` if any seat is spent. The seats are all that
    /// were opened. Together they drew the numbers below the answer, each once. Allocates no memory
    /// and waits for nobody.
    pub fn finish(self, seats: Vec<Seat>) -> u64
        requires { AreAllSeats self seats.items }
        ensures numbers { EachOnce result (map drawn_by seats.items) }
        ensures most { result ≤ limit_of self }
        ensures spent { AnySpent seats.items → result ≡ limit_of self }
    {
        let Tickets { table, limit } = self;
        let mut seats = seats;
        let Some(
            Seat {
                seat: mut all,
                spent: _,
            },
        ) = seats.pop()
        else {
            unreachable!()
        };
        while let Some(next) = seats.pop() {
            let Seat { seat, spent: _ } = next;
            table.shared.join_seat::<Cut>(&mut all, seat);
        }
        let closed = table.close_with(all);
        let word = closed.word(0);
        closed.free();
        if word < limit { word } else { limit }
    }
}
