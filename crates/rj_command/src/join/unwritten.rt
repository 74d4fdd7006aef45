//! Why a joined table of two tables that were read isn't written, and what is known of them.

ghost use Rattle.std.specs.Prelude.{◌≡◌, Err, IfOk, Ok, Result};
ghost use Rattle.rj_command.specs.Runs.{outcome_of};
ghost use Rattle.rj_command.specs.Sizes.{AreKnown, AreSizesOf, IsBound};

use crate::join::operands::Operands;
use crate::join::sizes::{Sizes, sizes_of};
use crate::join::stats::Stats;
use rj_line::fault::Fault;
use std::alloc::{AllocError, Global};

/// What is known of two tables whose joined table isn't written.
#[derive(Drop)]
pub enum Known {
    /// The tables themselves.
    Tables(Operands),
    /// How many rows they have, and their joined table. The left one is no longer there.
    Sizes(Sizes),
}

/// Why a joined table isn't written, and what is known of its tables.
#[derive(Drop)]
pub struct Unwritten {
    /// The error.
    pub fault: Fault,
    /// What is known.
    pub known: Known,
}

impl Known {
    /// How many rows the tables have, and their joined table, as far as that is known.
    ///
    /// # Errors
    ///
    /// It fails only when memory runs out.
    pub fn sizes(&self, alloc: Global) -> Result<Sizes, AllocError>
        requires { IsBound self.now }
        ensures { (o : Operands) → AreKnown o self.now → IfOk result (AreSizesOf o) }
    {
        match self {
            Known::Tables(operands) => sizes_of(alloc, operands),
            Known::Sizes(sizes) => Ok(*sizes),
        }
    }
}

/// What was written, or the error alone.
pub(crate) fn outcome_of(written: Result<Stats, Unwritten>) -> Result<Stats, Fault>
    ensures { result ≡ outcome_of written }
{
    match written {
        Ok(stats) => Ok(stats),
        Err(unwritten) => Err(unwritten.fault),
    }
}
