//! The settings of a join.

ghost use Rattle.std.specs.Prelude.{◌≡◌, ◌↔◌, true, IsSome, IfSome, nat_le, ◌&&◌};
ghost use Rattle.rj_settings.specs.Limits.{between, in_limits, is_piece};

/// How a join is done. No setting changes its result. A value is always within the limits.
#[derive(Clone, Copy, Debug, PartialEq, Eq)]
pub struct Settings {
    /// How many workers scan and join, 1 to 64.
    pub workers: u32,
    /// How many bits of the hash the first pass partitions by, 0 to 10.
    pub bits1: u32,
    /// How many bits of the hash the second pass partitions by, 0 to 10.
    pub bits2: u32,
    /// How many rows a block has at most, 1 to 65,536.
    pub block: u32,
    /// How many lanes lead to a partition, 1 to 4.
    pub lanes: u32,
    /// How many parcels a queue holds at most, 1 to 4,096.
    pub capacity: u32,
    /// How often a stripe may be scanned again, 0 to 3.
    pub retries: u32,
    /// How many probed rows a piece of a partition's join has at most, 1 to 1,048,576.
    pub piece: u32,
    ghost limits: { in_limits workers bits1 bits2 block lanes capacity retries ≡ true },
    ghost piece_limits: { is_piece piece ≡ true },
}

// Whether a number is from `low` to `high`.
fn is_between(low: u32, high: u32, number: u32) -> bool
    ensures { result ≡ between low high number }
{
    low <= number && number <= high
}

impl Settings {
    /// The settings with these numbers and pieces of 65,536 rows, or none if a number is out of its limits. Allocates no memory.
    pub fn new(
        workers: u32,
        bits1: u32,
        bits2: u32,
        block: u32,
        lanes: u32,
        capacity: u32,
        retries: u32,
    ) -> Option<Settings>
        ensures limits { IsSome result ↔ (in_limits workers bits1 bits2 block lanes capacity retries ≡ true) }
        ensures first { IfSome result (λ s. (s.workers ≡ workers) × (s.bits1 ≡ bits1) × (s.bits2 ≡ bits2) × (s.block ≡ block)) }
        ensures second { IfSome result (λ s. (s.lanes ≡ lanes) × (s.capacity ≡ capacity) × (s.retries ≡ retries)) }
        ensures piece { IfSome result (λ s. s.piece ≡ 65536) }
    {
        let passes = is_between(1, 64, workers)
            && is_between(0, 10, bits1)
            && is_between(0, 10, bits2);
        let exchange = is_between(1, 65536, block)
            && is_between(1, 4, lanes)
            && is_between(1, 4096, capacity)
            && is_between(0, 3, retries);
        if passes && exchange {
            Some(Settings {
                workers,
                bits1,
                bits2,
                block,
                lanes,
                capacity,
                retries,
                piece: 65536,
            })
        } else {
            None
        }
    }

    /// These settings with pieces of this many rows and all other numbers unchanged, or none if the
    /// number is not from 1 to 1,048,576. Allocates no memory.
    pub fn with_piece(self, piece: u32) -> Option<Settings>
        ensures limits { IsSome result ↔ (is_piece piece ≡ true) }
        ensures set { IfSome result (λ s. s.piece ≡ piece) }
        ensures first { IfSome result (λ s. (s.workers ≡ self.workers) × (s.bits1 ≡ self.bits1) × (s.bits2 ≡ self.bits2) × (s.block ≡ self.block)) }
        ensures second { IfSome result (λ s. (s.lanes ≡ self.lanes) × (s.capacity ≡ self.capacity) × (s.retries ≡ self.retries)) }
    {
        if is_between(1, 1_048_576, piece) {
            let mut settings = self;
            settings.piece = piece;
            Some(settings)
        } else {
            None
        }
    }
}
