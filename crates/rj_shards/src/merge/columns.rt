//! Where the places are in the records of a text.

ghost use Rattle.std.specs.Prelude.{◌≡◌, ◌==◌, ◌||◌};

/// The columns of a text of placed rows: where its places are, counted from 0, and how many columns
/// it has.
#[derive(Clone, Copy, Debug, PartialEq, Eq)]
pub(crate) struct Columns {
    /// The column of the left row's number.
    pub(crate) left: usize,
    /// The column of the right row's number.
    pub(crate) right: usize,
    /// How many columns there are.
    pub(crate) width: usize,
}

impl Columns {
    /// Whether this column is one of the two of a place.
    pub(crate) fn holds_place(self, column: usize) -> bool
        ensures { result ≡ ((column == self.left) || (column == self.right)) }
    {
        column == self.left || column == self.right
    }
}
