//! Where the header of a text is.

/// Where the header of a text is.
#[derive(Clone, Copy, Debug, PartialEq, Eq)]
pub enum HeaderPlace {
    /// It is the text's first record, and has row 0.
    First,
    /// It is above the text and has this many names. The text's first record has row 1.
    Above(u64),
}
