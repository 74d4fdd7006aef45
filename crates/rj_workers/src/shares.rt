//! Shares of work, as far as the workers that draw them know it.
ghost use Rattle.std.specs.Prelude.{◌≡◌, ◌<◌, ℕ, IfOk};

use crate::gate::Place;
use std::alloc::{AllocError, Global};

/// Work that is cut into shares. Any worker can do any of them.
pub trait Shares {
    /// How many shares there are.
    ghost shares: { Self → ℕ };

    /// What a share makes.
    type Done: Drop;

    /// What the share of this number makes.
    ghost makes: { Self → ℕ → Self.Done → Type 0 };

    /// How many shares there are. They are numbered from 0.
    fn count(&self) -> u64
        ensures { result ≡ shares self.now };

    /// The place that a worker passes at the gate before it does a share.
    fn place(&self, number: u64) -> Place
        requires { number < shares self.now };

    /// Does a share.
    ///
    /// # Errors
    ///
    /// It fails only when memory runs out.
    fn share(&self, alloc: Global, number: u64) -> Result<Self::Done, AllocError>
        requires { number < shares self.now }
        ensures { IfOk result (makes self.now number) };
}
