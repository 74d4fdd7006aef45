//! The halt word: one atomic word that any thread may raise, once and for all, and look at.
ghost use Rattle.std.specs.Prelude.{◌≡◌, ◌≤◌, [], if◌then◌else◌};

use atomic_table::{Join, Play, Seat, Split, Table, TableRule};
use std::alloc::Global;

mod calls;

/// What a seat knows: its part of the right to know the whole, and whether it has raised the word
/// and has seen it raised. No value of it exists at run time.
pub struct HaltToken {
    pub parts: u64,
    pub raises: u64,
    pub sees: u64,
}

/// The key is the number of seats.
pub struct RaisedBySome;

impl TableRule<(), HaltToken, u32> for RaisedBySome {
    ghost use Rattle.rj_exchange.specs.Halting.{Halting, halt_token};

    ghost holds = { Halting };

    ghost first = { λ n. halt_token n 0 0 };
}

struct Raises;

impl Play<(), HaltToken> for Raises {
    ghost use Rattle.rj_exchange.specs.Halting.{raising};

    ghost then = { raising };
}

struct Looks;

impl Play<(), HaltToken> for Looks {
    ghost use Rattle.rj_exchange.specs.Halting.{looking};

    ghost then = { looking };
}

struct CutToken;

impl Split<HaltToken> for CutToken {
    ghost use Rattle.rj_exchange.specs.Halting.{halt_token};
    ghost use Rattle.std.specs.Prelude.{◌-◌};

    ghost left = { λ v. halt_token (v.parts - 1) v.raises v.sees };

    ghost right = { λ v. halt_token 1 0 0 };
}

impl Join<HaltToken> for CutToken {
    ghost use Rattle.rj_exchange.specs.Halting.{halt_token};
    ghost use Rattle.std.specs.Prelude.{◌+◌};

    ghost both = { λ v w. halt_token (v.parts + w.parts) (v.raises + w.raises) (v.sees + w.sees) };

    ghost spent = { halt_token 0 0 0 };
}

/// A word that is raised or not, and once raised stays so.
#[derive(Drop)]
pub struct Halt {
    table: Table<(), HaltToken, u32, RaisedBySome, Global>,
    ghost one_word: { (table.shared.table_id.words ≡ 1) × (table.shared.table_id.slots ≡ 0) },
    ghost some_seat: { 1 ≤ table.shared.key },
}

/// A right to raise the [`Halt`] with which it was opened, and to look at it.
#[derive(Drop)]
pub struct HaltSeat {
    seat: Seat<(), HaltToken>,
    raised: bool,
    seen: bool,
    ghost whole: { (seat.me.1 ≡ []) × (seat.me.0.parts ≡ 1) },
    ghost tells: { (seat.me.0.raises ≡ (if raised then 1 else 0)) × (seat.me.0.sees ≡ (if seen then 1 else 0)) },
}
