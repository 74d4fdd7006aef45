//! Workers that draw shares by ticket.
ghost use Rattle.std.specs.Prelude.{◌≡◌, ◌<◌, ◌≤◌, IfOk, length, map};
ghost use Rattle.rj_exchange.specs.Tickets.{limit_of};
ghost use Rattle.rj_workers.specs.Sharing.{AreGathered, AreMade, IsDrawerOutput, IsMadeBehind, IsMadeOfEach, IsNewDrawer};

use crate::gate::Gate;
use crate::shares::Shares;
use rj_exchange::{Halt, HaltSeat, Seat, Tickets};
use std::alloc::{AllocError, Global};
use std::thread;
use std::thread::Threads;

// How many shares are drawn at most, the first ones: as many as there can be tickets.
const MOST_DRAWN: u64 = 1 << 32;

/// What a worker needs to draw shares.
#[derive(Drop)]
pub(crate) struct Drawer {
    draws: Seat,
    seat: HaltSeat,
}

/// What a worker returns.
#[derive(Drop)]
pub(crate) struct DrawerOutput<T> {
    drawer: Drawer,
    // What the shares made that it drew, in the order in which it drew them.
    made: Vec<T>,
}

/// What all workers return.
#[derive(Drop)]
pub(crate) struct Gathered<T> {
    draws: Vec<Seat>,
    seats: Vec<HaltSeat>,
    made: Vec<T>,
}

// A worker for each seat at the tickets and at the halt word.
fn make_drawers(
    alloc: Global,
    draws: Vec<Seat>,
    seats: Vec<HaltSeat>,
) -> Result<Vec<Drawer>, AllocError>
    requires { length draws.items ≡ length seats.items }
    ensures draws { IfOk result (λ v. map (λ d. d.draws) v.items ≡ draws.items) }
    ensures seats { IfOk result (λ v. map (λ d. d.seat) v.items ≡ seats.items) }
{
    let mut left = seats.into_iter();
    let mut drawers = Vec::with_capacity(alloc, draws.len())?;
    for draws in draws {
        let Some(seat) = left.next() else {
            unreachable!()
        };
        drawers.push(Drawer { draws, seat })?;
    }
    Ok(drawers)
}

// Does a share, and puts what it makes after the rest.
fn add_share<S: Shares, G: Gate>(
    alloc: Global,
    shares: &S,
    gate: &G,
    number: u64,
    made: &mut Vec<S::Done>,
) -> Result<(), AllocError>
    requires { number < S.shares shares.now }
    ensures { IfOk result (λ _. IsMadeBehind (S.makes shares.now) number made.old.items made.new.items) }
{
    gate.pass(shares.place(number));
    let done = shares.share(alloc, number)?;
    made.push(done)?;
    Ok(())
}

// What a worker makes of the shares that it draws, until none is left or it sees the halt word
// raised. If memory runs out, it raises the halt word.
fn draw_shares<S: Shares, G: Gate>(
    alloc: Global,
    shares: &S,
    gate: &G,
    tickets: &Tickets,
    halt: &Halt,
    drawer: Drawer,
) -> Result<DrawerOutput<S::Done>, AllocError>
    requires tickets { limit_of tickets.now ≤ S.shares shares.now }
    requires drawer { IsNewDrawer tickets.now halt.now drawer }
    ensures { IfOk result (IsDrawerOutput (S.makes shares.now) tickets.now halt.now) }
{
    let mut drawer = drawer;
    let mut made = Vec::new(alloc);
    // (it draws no more than all)
    for _ in 0..shares.count() {
        let Some(number) = tickets.claim(&mut drawer.draws) else {
            return Ok(DrawerOutput { drawer, made });
        };
        if halt.raised(&mut drawer.seat) {
            return Ok(DrawerOutput { drawer, made });
        }
        let Ok(()) = add_share(alloc, shares, gate, number, &mut made) else {
            halt.raise(&mut drawer.seat);
            return Err(AllocError);
        };
    }
    Ok(DrawerOutput { drawer, made })
}

// What all workers return, put together, unless memory ran out for one of them.
fn gather<T: Drop>(
    alloc: Global,
    results: Vec<Result<DrawerOutput<T>, AllocError>>,
) -> Result<Gathered<T>, AllocError>
    ensures { IfOk result (λ g. AreGathered results.items g.draws.items g.seats.items g.made.items) }
{
    let mut draws = Vec::new(alloc);
    let mut seats = Vec::new(alloc);
    let mut all = Vec::new(alloc);
    for result in results {
        let DrawerOutput { drawer, mut made } = result?;
        draws.push(drawer.draws)?;
        seats.push(drawer.seat)?;
        all.append(&mut made)?;
    }
    Ok(Gathered {
        draws,
        seats,
        made: all,
    })
}

// Does the shares from a number on.
fn make_rest<S: Shares, G: Gate>(
    alloc: Global,
    shares: &S,
    gate: &G,
    first: u64,
    made: &mut Vec<S::Done>,
) -> Result<(), AllocError>
    requires first { first ≤ S.shares shares.now }
    requires made { IsMadeOfEach (S.makes shares.now) first made.old.items }
    ensures { IfOk result (λ _. IsMadeOfEach (S.makes shares.now) (S.shares shares.now) made.new.items) }
{
    for number in first..shares.count() {
        add_share(alloc, shares, gate, number, made)?;
    }
    Ok(())
}

/// Does each share once, by `workers` workers, which borrow the shares and draw them by ticket.
/// They work at the same time (tested: no clause speaks of time). Returns what the shares made, in
/// any order. Tickets go up to 2^32. The calling thread does the shares from there on once the
/// workers have ended.
///
/// A worker whose thread can't be started draws in the thread that was to start it. So a lack of
/// threads leaves no share undone.
///
/// # Errors
///
/// It fails only when memory runs out. A worker that runs out of memory raises a word, at which the
/// others end. All threads have ended then, and what the shares made is dropped.
pub fn run_shares<R: Threads + Sync, S: Shares + Sync, G: Gate + Sync>(
    rt: &R,
    alloc: Global,
    shares: &S,
    gate: &G,
    workers: u32,
) -> Result<Vec<S::Done>, AllocError>
where
    S::Done: Send,
    requires workers { (1 ≤ workers) × (workers ≤ 64) }

    // each result is what some share makes
    ensures made { IfOk result (λ v. AreMade (S.makes shares.now) (S.shares shares.now) v.items) }

    // and each share made one of them
    ensures each { IfOk result (λ v. IsMadeOfEach (S.makes shares.now) (S.shares shares.now) v.items) }
{
    let (tickets, draws) = Tickets::open(alloc, shares.count().min(MOST_DRAWN), workers)?;
    let (halt, seats) = Halt::open(alloc, workers)?;
    let drawers = make_drawers(alloc, draws, seats)?;
    let at_tickets = &tickets;
    let at_halt = &halt;
    let results = thread::map_vec(
        rt,
        drawers,
        &|drawer: Drawer| -> Result<DrawerOutput<S::Done>, AllocError>
            requires { (limit_of at_tickets.now ≤ S.shares shares.now) × IsNewDrawer at_tickets.now at_halt.now drawer }
            ensures { IfOk result (IsDrawerOutput (S.makes shares.entry.now) at_tickets.entry.now at_halt.entry.now) }
        { draw_shares(alloc, shares, gate, at_tickets, at_halt, drawer) },
    )?;
    let Gathered {
        draws,
        seats,
        mut made,
    } = gather(alloc, results)?;
    if halt.finish(seats) {
        return Err(AllocError);
    }
    let drawn = tickets.finish(draws);
    make_rest(alloc, shares, gate, drawn, &mut made)?;
    Ok(made)
}
