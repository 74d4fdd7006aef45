//! The numbers of a run.

/// The numbers of a run.
#[derive(Clone, Copy, Debug)]
pub struct WorkerSettings {
    /// How many scanners there are, how many takers, and how many stripes each table has: 1 to 64.
    pub workers: u32,
    /// How many partitions there are, 1 to 1,024.
    pub partitions: u32,
    /// How many rows a block has at most, at least 1.
    pub block: u32,
    /// How many lanes lead to a partition, 1 to 4.
    pub lanes: u32,
    /// How many parcels a queue holds at most, 1 to 4,096.
    pub capacity: u32,
    /// How often a stripe may be scanned again.
    pub retries: u32,
}
