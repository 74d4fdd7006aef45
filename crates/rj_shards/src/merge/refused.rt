//! Why a merge gives nothing more.

use crate::merge::place::Place;

/// Why a merge gives nothing more. Inputs count from 1, and so do their rows, without the header.
#[derive(Clone, Copy, Debug, PartialEq, Eq)]
pub enum MergeRefused {
    /// Out of memory.
    Memory,
    /// The device of an input failed.
    ReadDevice(u32),
    /// An input has no record at all.
    NoHeader(u32),
    /// The header of an input hasn't exactly one column `left_place` and one column `right_place`.
    NoPlaces(u32),
    /// The header of an input isn't that of the first input.
    OtherHeader(u32),
    /// A row of an input has another length than the header.
    RaggedRow(u32, u64),
    /// A place in a row of an input is neither NULL nor a whole number of 64 bits without a sign.
    BadPlace(u32, u64),
    /// Both places of a row of an input are NULL.
    NoPlace(u32, u64),
    /// The place of a row of an input isn't above that of the row before it.
    NotInOrder(u32, u64),
    /// Two inputs have a row of this place.
    RepeatedPlace(Place),
}

/// Why texts are not merged.
#[derive(Clone, Copy, Debug, PartialEq, Eq)]
pub enum MergeTextsRefused {
    /// An error of the inputs or of the machine.
    Merge(MergeRefused),
    /// The output failed. How much it took is unknown.
    WriteDevice,
}
