//! Where a row is in a joined table.

ghost use Rattle.std.specs.Prelude.{◌≡◌};
ghost use Rattle.std.proofs.Common.{rules};
ghost use Rattle.std.specs.Cmp.{eq_by_cmp_equiv, partial_equiv_from_equiv, partial_order_from_own_ties};
ghost use Rattle.std.specs.Cmp.Rules.{comparing};
ghost use Rattle.std.specs.Ordering.{as_partial_cmp, eq_by_cmp};
ghost use Rattle.rj_shards.specs.Places.{behind_pairs, class, first_number, place_order, place_total, second_number};

use std::cmp::Ordering;

/// The place of a row in a joined table: the numbers of its rows in the left and the right table.
/// Matches come first, by left, then right number; then unmatched left rows, and then unmatched
/// right rows, by number. If each left row is at its place, unmatched left rows come among the
/// matches, by number.
#[derive(Clone, Copy, Debug)]
pub enum Place {
    /// A left row with a right row.
    Pair(u64, u64),
    /// An unmatched left row, among the matches.
    LoneAmongPairs(u64),
    /// An unmatched left row, after the matches.
    LoneLeft(u64),
    /// An unmatched right row.
    LoneRight(u64),
}

// How places compare: by their class, then the number of their left row, and for a match that of
// its right row.
fn rank(place: &Place) -> (u8, u64, u8, u64)
    ensures { result ≡ (class place.now, first_number place.now, behind_pairs place.now, second_number place.now) }
{
    match *place {
        Place::Pair(left, right) => (0, left, 0, right),
        Place::LoneAmongPairs(left) => (0, left, 1, 0),
        Place::LoneLeft(left) => (1, left, 0, 0),
        Place::LoneRight(right) => (2, right, 0, 0),
    }
}

impl Ord for Place {
    ghost cmp = { place_order };

    ghost total = { Prim.search (comparing, rules) };

    ghost matches_partial_cmp = { Prim.search (comparing, rules) };

    ghost matches_eq = { Prim.search (comparing, rules) };

    fn cmp(&self, other: &Place) -> Ordering {
        match (*self, *other) {
            // (most rows of most joins are matches)
            (Place::Pair(left, right), Place::Pair(other_left, other_right)) => {
                (left, right).cmp(&(other_left, other_right))
            }
            _ => rank(self).cmp(&rank(other)),
        }
    }
}

impl PartialOrd for Place {
    ghost partial_cmp = { as_partial_cmp place_order };

    ghost laws = { partial_order_from_own_ties (Prim.search (comparing, place_total, rules)) (Prim.search (comparing, rules)) };

    fn partial_cmp(&self, other: &Place) -> Option<Ordering> {
        Some(self.cmp(other))
    }
}

impl Eq for Place {
    ghost laws = { eq_by_cmp_equiv place_total };
}

impl PartialEq for Place {
    ghost eq = { eq_by_cmp place_order };

    ghost laws = { partial_equiv_from_equiv (eq_by_cmp_equiv place_total) };

    fn eq(&self, other: &Place) -> bool {
        self.cmp(other) == Ordering::Equal
    }
}

/// A row with its place.
#[derive(Drop)]
pub struct Placed<T> {
    /// Where the row is.
    pub place: Place,
    /// The row.
    pub row: T,
}
