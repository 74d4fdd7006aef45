//! Tickets: numbers that threads draw, each once, by one `fetch_add` on one atomic word.
ghost use Rattle.std.specs.Prelude.{◌≡◌, ◌≤◌, [], if◌then◌else◌};

use atomic_table::{Join, Play, Seat as TableSeat, Split, Table, TableRule};
use std::alloc::Global;
use std::collections::LinkedList;

mod calls;

/// What the rule knows from the opening of the tickets.
#[derive(Clone, Copy)]
pub struct Plan {
    pub limit: u64,
    pub seats: u32,
}

/// What a seat knows: the limit, its part of the right to know the whole, the numbers that it drew,
/// and how many of its steps drew nothing. No value of it exists at run time.
pub struct Draw {
    pub limit: u64,
    pub parts: u64,
    pub drawn: LinkedList<u64>,
    pub nones: u64,
}

pub struct EachNumberOnce;

impl TableRule<(), Draw, Plan> for EachNumberOnce {
    ghost use Rattle.rj_exchange.specs.Drawing.{Drawing, opening_view};

    ghost holds = { Drawing };

    ghost first = { opening_view };
}

struct Claims;

impl Play<(), Draw> for Claims {
    ghost use Rattle.rj_exchange.specs.Drawing.{drew};

    ghost then = { drew };
}

struct Cut;

impl Split<Draw> for Cut {
    ghost use Rattle.rj_exchange.specs.Drawing.{draw_after_cut, draw_cut_off};

    ghost left = { draw_after_cut };

    ghost right = { draw_cut_off };
}

impl Join<Draw> for Cut {
    ghost use Rattle.rj_exchange.specs.Drawing.{draws_joined, no_draw};

    ghost both = { draws_joined };

    ghost spent = { no_draw };
}

/// The numbers below a limit, 0 first, each to be drawn once.
#[derive(Drop)]
pub struct Tickets {
    table: Table<(), Draw, Plan, EachNumberOnce, Global>,
    limit: u64,
    ghost one_word: { (table.shared.table_id.words ≡ 1) × (table.shared.table_id.slots ≡ 0) },
    ghost limited: { (table.shared.key.limit ≡ limit) × (limit ≤ 4294967296) },
    ghost few: { (1 ≤ table.shared.key.seats) × (table.shared.key.seats ≤ 256) },
}

/// A right to draw from the [`Tickets`] with which it was opened. After the answer `None` it is
/// spent.
#[derive(Drop)]
pub struct Seat {
    seat: TableSeat<(), Draw>,
    spent: bool,
    ghost whole: { (seat.me.1 ≡ []) × (seat.me.0.parts ≡ 1) },
    ghost tells: { seat.me.0.nones ≡ (if spent then 1 else 0) },
}
