//! The calls of stripes.
ghost use Rattle.std.specs.Prelude.{◌≡◌, ◌≤◌, ◌<◌, ◌+◌, ◌++◌, ◌∷◌, [], ◌↔◌, ◌⊎◌, ℕ, map, All, IfOk, IfSome, IsTrue, MatchOption};
ghost use Rattle.crossbeam_queue.specs.Passes.{view, IsPassOf, IsSamePass, ruled_capacity};
ghost use Rattle.crossbeam_queue.specs.Fifo.{Held};
ghost use Rattle.rj_exchange.specs.Totals.{total};
ghost use Rattle.rj_exchange.specs.Tickets.{times, EachOnce};
ghost use Rattle.rj_exchange.specs.declared.stripes.Stripe.{Stripe};
ghost use Rattle.rj_exchange.specs.Striping.{share, below, opening, stripe, without};
ghost use Rattle.rj_exchange.specs.Stripes.{held_by, stripes_drawn_by, stripes_put_by, drew_in_all, put_in_all, Holds, Queued, stripes_of, stripe_seats_of, IsStripeSeatOf};
ghost use Rattle.rj_exchange.specs.Stripes.{IsNewStripeSeat, AreAllStripeSeats};

use crate::stripes::{
    CutShare, DealOut, Draws, Gives, Lot, Settle, Stripe, StripeQueue, StripeSeat, StripeShare,
    Stripes,
};
use crossbeam_queue::Pass;
use std::alloc::{AllocError, Global};
use std::marker::Brand;
use std::sync::Wait;

// An empty queue, with a token that holds every number.
fn empty<B: Lot>(
    alloc: Global,
    n: u32,
    seats: u32,
) -> Result<(StripeQueue, Pass<Stripe, StripeShare>), AllocError>
    requires some { (1 ≤ n) × (1 ≤ seats) }
    requires lot { (B.limit ≡ n) × (B.seats ≡ seats) }
    ensures { IfOk result (λ q. (ruled_capacity q.0 ≡ n) × IsPassOf q.0 q.1 × (view q.1 ≡ share n seats seats (below n) (opening n) [])) }
{
    let (queue, mut pass) = StripeQueue::ruled(alloc, n as usize)?;
    queue.another::<DealOut<B>>(&mut pass);
    Ok((queue, pass))
}

// There is room, as the token holds one of the numbers for which there is room.
fn give<R: Wait>(rt: &R, queue: &StripeQueue, pass: &mut Pass<Stripe, StripeShare>, stripe: Stripe)
    requires pass { IsPassOf queue.now pass.old }
    requires view { let v = view pass.old in (0 < v.parts) × (0 < times stripe.number v.held) × (v.limit ≡ ruled_capacity queue.now) }
    ensures pass { IsSamePass pass.old pass.new }
    ensures view { let v = view pass.old in view pass.new ≡ share v.limit v.seats v.parts (without stripe.number v.held) v.drawn (v.put ++ stripe ∷ []) }
{
    let Ok(()) = queue.push_as::<Gives, R>(rt, pass, stripe) else {
        unreachable!()
    };
}

// Each number goes into the queue.
fn fill<R: Wait>(rt: &R, queue: &StripeQueue, pass: &mut Pass<Stripe, StripeShare>, n: u32)
    requires pass { IsPassOf queue.now pass.old × (ruled_capacity queue.now ≡ n) }
    requires view { let v = view pass.old in (0 < v.parts) × (v ≡ share n v.seats v.parts (below n) (opening n) []) }
    ensures pass { IsPassOf queue.now pass.new }
    ensures view { let v = view pass.old in view pass.new ≡ share n v.seats v.parts [] (opening n) (opening n) }
{
    for number in 0..n {
        give(rt, queue, pass, Stripe { number, count: 0 });
    }
}

impl Stripes {
    /// The numbers below `n`, 1 to 64, each put in with count 0, and `seats` seats, 1 to 256.
    ///
    /// # Errors
    ///
    /// It fails only when memory runs out.
    pub fn open<R: Wait>(
        rt: &R,
        alloc: Global,
        n: u32,
        seats: u32,
    ) -> Result<(Stripes, Vec<StripeSeat>), AllocError>
        requires numbers { (1 ≤ n) × (n ≤ 64) }
        requires seats { (1 ≤ seats) × (seats ≤ 256) }
        ensures counts { IfOk result (λ t. (stripes_of t.0 ≡ n) × (stripe_seats_of t.0 ≡ seats)) }
        ensures seats { IfOk result (λ t. AreAllStripeSeats t.0 t.1.items × All IsNewStripeSeat t.1.items) }
    {
        let (queue, mut all) = empty::<Brand>(alloc, n, seats)?;
        fill(rt, &queue, &mut all, n);
        queue.another::<Settle>(&mut all);
        let mut dealt = Vec::new(alloc);
        for _ in 1..seats {
            let pass = queue.another::<CutShare>(&mut all);
            dealt.push(StripeSeat { pass })?;
        }
        dealt.push(StripeSeat { pass: all })?;
        Ok((
            Stripes {
                queue,
                limit: n,
                seats,
            },
            dealt,
        ))
    }

    /// Draws a number, which the seat then holds. Returns it with the count with which it was put
    /// in. `None` only if the queue was empty at a moment of the call. Allocates no memory.
    pub fn draw<R: Wait>(&self, rt: &R, seat: &mut StripeSeat) -> Option<(u32, u32)>
        requires { IsStripeSeatOf self.now seat.old }
        ensures seat { IsStripeSeatOf self.now seat.new }
        ensures held { MatchOption result ((held_by seat.new ≡ held_by seat.old) × Held 0 (Queued seat.old))
            (λ x. (held_by seat.new ≡ held_by seat.old ++ x.0 ∷ []) × (x.0 < stripes_of self.now)) }
        ensures holds { IfSome result (λ x. Holds seat.new x.0) }
        ensures gains { IfSome result (λ x. (y : ℕ) → Holds seat.new y ↔ (Holds seat.old y ⊎ (y ≡ x.0))) }
        ensures drawn { MatchOption result (stripes_drawn_by seat.new ≡ stripes_drawn_by seat.old) (λ x. stripes_drawn_by seat.new ≡ stripes_drawn_by seat.old ++ stripe x.0 x.1 ∷ []) }
        ensures put { stripes_put_by seat.new ≡ stripes_put_by seat.old }
    {
        let stripe = self.queue.pop_as::<Draws, R>(rt, &mut seat.pass)?;
        Some((stripe.number, stripe.count))
    }

    /// Puts back a number that the seat holds. There is always room. Allocates no memory.
    pub fn put_back<R: Wait>(&self, rt: &R, seat: &mut StripeSeat, number: u32, count: u32)
        requires seat { IsStripeSeatOf self.now seat.old }
        requires number { Holds seat.old number }
        ensures seat { IsStripeSeatOf self.now seat.new }
        ensures held { held_by seat.new ≡ without number (held_by seat.old) }
        ensures put { stripes_put_by seat.new ≡ stripes_put_by seat.old ++ stripe number count ∷ [] }
        ensures drawn { stripes_drawn_by seat.new ≡ stripes_drawn_by seat.old }
    {
        give(rt, &self.queue, &mut seat.pass, Stripe { number, count });
    }

    /// Whether the seats together hold the numbers below the limit, each once. The seats are all
    /// that were opened. What they drew, each number with its count, was put in at the opening or
    /// by one of them before. Allocates no memory.
    pub fn finish<R: Wait>(self, rt: &R, seats: Vec<StripeSeat>) -> bool
        requires { AreAllStripeSeats self seats.items }
        ensures held { IsTrue result ↔ EachOnce (stripes_of self) (map held_by seats.items) }
        ensures drawn { (h : Stripe → ℕ) → drew_in_all h seats.items ≤ put_in_all h seats.items + total h (opening (stripes_of self)) }
        ensures all { IsTrue result → (h : Stripe → ℕ) → drew_in_all h seats.items ≡ put_in_all h seats.items + total h (opening (stripes_of self)) }
    {
        let Stripes {
            queue,
            limit: _,
            seats: _,
        } = self;
        let mut seats = seats;
        let Some(StripeSeat { pass: mut all }) = seats.pop() else {
            unreachable!()
        };
        while let Some(next) = seats.pop() {
            let StripeSeat { pass } = next;
            queue.absorb::<CutShare>(&mut all, pass);
        }
        let left = queue.len_as::<Draws, R>(rt, &mut all);
        if left == 0 {
            return true;
        }
        false
    }
}
