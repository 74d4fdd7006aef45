//! Stripes: numbers that threads draw from one queue with a rule and put back, each with a count.
ghost use Rattle.std.specs.Prelude.{◌≡◌, ◌≤◌};
ghost use Rattle.crossbeam_queue.specs.Passes.{ruled_capacity};

use crossbeam_queue::protocol::{Join, Lesson, Outcome, Protocol, Split};
use crossbeam_queue::{Pass, RuledArrayQueue};
use std::collections::LinkedList;
use std::marker::{Brand, PhantomData};

mod calls;

/// A number, and how often it was put back.
#[derive(Clone, Copy)]
pub struct Stripe {
    pub number: u32,
    pub count: u32,
}

/// What a seat knows: the limit, how many seats there are, its part of the right to know the whole,
/// the numbers that it holds, and what it drew and put back so far. No value of it exists at run
/// time.
pub struct StripeShare {
    pub limit: u32,
    pub seats: u32,
    pub parts: u32,
    pub held: LinkedList<u32>,
    pub drawn: LinkedList<Stripe>,
    pub put: LinkedList<Stripe>,
}

/// Names the limit and the seats that a queue gets when it is made.
pub trait Lot {
    ghost use Rattle.std.specs.Prelude.{ℕ};

    ghost limit: { ℕ };

    ghost seats: { ℕ };
}

impl Lot for Brand {
    ghost limit = { 0 };

    ghost seats = { 1 };
}

pub struct EachStripeOnce;

impl Protocol<Stripe, StripeShare> for EachStripeOnce {
    ghost use Rattle.rj_exchange.specs.Striping.{Striping, first_share};

    ghost holds = { Striping };

    ghost first = { first_share };
}

struct DealOut<B> {
    marker: PhantomData<B>,
}

impl<B: Lot> Split<StripeShare> for DealOut<B> {
    ghost use Rattle.rj_exchange.specs.Striping.{share, below, opening, no_share};
    ghost use Rattle.std.specs.Prelude.{[]};

    ghost left = { λ v. share B.limit B.seats B.seats (below B.limit) (opening B.limit) [] };

    ghost right = { λ v. no_share };
}

struct Settle;

impl Split<StripeShare> for Settle {
    ghost use Rattle.rj_exchange.specs.Striping.{share_settled, no_share};

    ghost left = { share_settled };

    ghost right = { λ v. no_share };
}

struct CutShare;

impl Split<StripeShare> for CutShare {
    ghost use Rattle.rj_exchange.specs.Striping.{share_after_cut, share_cut_off};

    ghost left = { share_after_cut };

    ghost right = { share_cut_off };
}

impl Join<StripeShare> for CutShare {
    ghost use Rattle.rj_exchange.specs.Striping.{shares_joined, no_share};

    ghost both = { shares_joined };

    ghost spent = { no_share };
}

struct Gives;

impl Outcome<Stripe, StripeShare> for Gives {
    ghost use Rattle.rj_exchange.specs.Striping.{Gave};

    ghost then = { Gave };
}

impl Lesson<Stripe, StripeShare> for Gives {
    ghost use Rattle.rj_exchange.specs.Striping.{Accounts};

    ghost fact = { Accounts };
}

struct Draws;

impl Outcome<Stripe, StripeShare> for Draws {
    ghost use Rattle.rj_exchange.specs.Striping.{Drew};

    ghost then = { Drew };
}

impl Lesson<Stripe, StripeShare> for Draws {
    ghost use Rattle.rj_exchange.specs.Striping.{Accounts};

    ghost fact = { Accounts };
}

pub type StripeQueue = RuledArrayQueue<Stripe, StripeShare, EachStripeOnce>;

/// The numbers below a limit, each in the queue or with a seat. All calls may wait.
#[derive(Drop)]
pub struct Stripes {
    queue: StripeQueue,
    limit: u32,
    seats: u32,
    ghost room: { ruled_capacity queue ≡ limit },
    ghost some_seat: { 1 ≤ seats },
}

/// A right to draw from, and to put back to, the [`Stripes`] with which it was opened.
#[derive(Drop)]
pub struct StripeSeat {
    pass: Pass<Stripe, StripeShare>,
}
