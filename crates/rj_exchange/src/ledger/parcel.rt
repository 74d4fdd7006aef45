//! Parcels, and the answers of a ledger.

ghost use Rattle.std.specs.Prelude.{◌≡◌, ℕ, List, length};

use std::marker::Model;

/// The row numbers that a parcel carries, in the order of their sender. Contracts see it as their list.
#[derive(Drop)]
pub struct Block {
    rows: Vec<u32>,
}

impl Model for Block {
    ghost use Rattle.std.specs.Prelude.{ℕ, List};

    ghost Value = { List ℕ };

    ghost view = { λ a. a.rows.items };
}

impl Block {
    /// A block of these rows. It allocates no memory.
    pub fn new(rows: Vec<u32>) -> Self
        ensures { result ≡ rows.items }
    {
        Self { rows }
    }

    /// The rows, in order.
    pub fn rows(&self) -> &[u32]
        ensures { result.now ≡ self.now }
    {
        self.rows.as_slice()
    }
}

/// What a parcel carries.
#[derive(Drop)]
pub enum Body {
    /// Rows of its sender, in their order. A ledger takes a block of at least one row, and of no more than its block size.
    Rows(Block),
    /// The end of what its sender sends to the partition.
    Close,
}

/// One parcel of one sender for one partition. What comes from outside may carry any numbers: a
/// ledger tests them all.
#[derive(Drop)]
pub struct Parcel {
    /// The number of the stripe whose rows it carries.
    pub sender: u32,
    /// The partition for which it is.
    pub partition: u32,
    /// Its place in its sender's plan for the partition, counted from 0.
    pub number: u64,
    /// What it carries.
    pub body: Body,
}

/// Why a parcel was refused. The reasons are tested in this order, and the first that fits is
/// reported.
#[derive(Clone, Copy, Debug, Drop, PartialEq, Eq)]
pub enum Reason {
    /// It is for another partition than the ledger's.
    WrongPartition,
    /// Its sender isn't below the ledger's number of senders.
    UnknownSender,
    /// It is a block of no rows, or of more than the ledger's block size.
    BadLength,
    /// Its sender's close was delivered.
    AfterClose,
    /// A parcel of its sender with its number was delivered or is held.
    Repeat,
    /// A close of its sender with a smaller number is held.
    BeyondClose,
    /// It is a close, and a parcel of its sender with a larger number is held.
    EarlyClose,
}

/// The answer to an offered parcel.
#[derive(Clone, Copy, Debug, Drop, PartialEq, Eq)]
pub enum Answer {
    /// The offer delivered this many parcels: the offered one, whose number was the next one, and
    /// the held ones that follow it without a gap. A close counts too.
    Accepted(u64),
    /// Kept until the gap before its number is filled.
    Held,
    /// The ledger stays as it was.
    Refused(Reason),
}
