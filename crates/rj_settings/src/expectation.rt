//! What is expected of a joined table.

/// How rows may be matched.
#[derive(Clone, Copy, Debug, PartialEq, Eq)]
pub enum Matching {
    /// Each left row is in at most one match, and so is each right row.
    OneToOne,
    /// Each left row is in at most one match.
    ManyToOne,
    /// Each right row is in at most one match.
    OneToMany,
}

/// What is expected of a joined table. One that isn't as expected isn't written.
#[derive(Clone, Copy, Debug, PartialEq, Eq)]
pub struct Expectation {
    /// How rows may be matched; in any way if it is `None`.
    pub matching: Option<Matching>,
    /// Whether each left row has to be in a match.
    pub matched: bool,
    /// How many rows it may have at most; any number if it is `None`.
    pub most_rows: Option<u32>,
}
