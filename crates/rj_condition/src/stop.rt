//! Why a parser of tokens stops.

use std::alloc::AllocError;

/// Why tokens have no tree.
#[derive(Clone, Copy)]
pub enum Stop {
    Memory,
    /// How many tokens were left at the first one that can't follow.
    Syntax(usize),
}

impl From<AllocError> for Stop {
    ghost use Rattle.std.specs.Prelude.{◌≡◌};
    ghost use Rattle.rj_condition.specs.declared.stop.Stop.TheVariants.{Memory};

    ghost from_gives = { λ _ e. e ≡ Memory };

    fn from(_error: AllocError) -> Stop {
        Stop::Memory
    }
}
