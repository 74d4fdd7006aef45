//! How texts of placed rows are merged.

ghost use Rattle.std.specs.Prelude.{◌≡◌};
ghost use Rattle.rj_shards.specs.MergeRanges.{is_before, is_from};

use crate::merge::place::Place;
use rj_csv_io::strict::Delimiter;
use rj_settings::RowOrder;

/// How texts of placed rows are merged.
#[derive(Debug, Drop)]
pub struct MergeOptions<'n> {
    /// What stands between two fields of the merge. The texts have commas.
    pub delimiter: Delimiter,
    /// The bytes of a field of a place that stand for no number.
    pub null: &'n [u8],
    /// The order of the rows, in each text and in the merge.
    pub order: RowOrder,
    /// The first place of the rows that are merged, or `None` if there is no such limit.
    pub from: Option<Place>,
    /// The place before which the rows that are merged end, or `None` if there is no such limit.
    pub to: Option<Place>,
}

impl<'n> MergeOptions<'n> {
    // Whether a place isn't below the first one of the range.
    pub(crate) fn is_from(&self, place: Place) -> bool
        ensures { result ≡ is_from self.now.from place }
    {
        match self.from {
            Some(first) => place >= first,
            None => true,
        }
    }

    // Whether a place is below the end of the range.
    pub(crate) fn is_before(&self, place: Place) -> bool
        ensures { result ≡ is_before self.now.to place }
    {
        match self.to {
            Some(end) => place < end,
            None => true,
        }
    }
}
