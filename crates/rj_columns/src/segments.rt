//! The segments of a table one after another, and how to find the segment of a row.

ghost use Rattle.std.specs.Prelude.{◌≡◌, ◌<◌, ◌+◌, ◌^◌, ◌++◌, ◌∷◌, [], length, map, IfErr, OnOk, OnErr};
ghost use Rattle.rj_columns.specs.Internal.Segments.{IsFound};
ghost use Rattle.rj_columns.specs.Tables.{rows_of_all};

use crate::segment::Segment;
use std::alloc::{AllocError, Global};
use std::marker::Model;

// There is a hint for each row whose number is a multiple of this.
const HINTED: u64 = 65536;

/// A segment at its place in a table: its rows are those from `start` up to `end`.
#[derive(Drop)]
pub(crate) struct Placed {
    pub(crate) start: u64,
    pub(crate) end: u64,
    pub(crate) segment: Segment,
}

/// Segments, one after another.
pub(crate) struct Segments {
    placed: Vec<Placed>,
    // For each row whose number is a multiple of `HINTED`: a segment that begins at that row or
    // before it.
    hints: Vec<usize>,
    rows: u64,
}

impl Drop for Segments {
    fn drop(self) {
        let Segments {
            placed: _placed,
            hints: _hints,
            rows: _rows,
        } = self;
    }
}

impl Model for Segments {
    ghost use Rattle.std.specs.Prelude.{List};
    ghost use Rattle.rj_columns.specs.Tables.{TableValue};

    ghost Value = { List TableValue };

    ghost use Rattle.rj_columns.specs.Internal.Placed.{segments_in, ArePlaced};

    ghost view = { λ a. segments_in a.placed.items };

    ghost invariant = { λ a. ArePlaced a.placed.items a.hints.items a.rows };
}

impl Segments {
    // No segments.
    pub(crate) fn new(alloc: Global) -> Segments
        ensures { result ≡ [] }
    {
        Segments {
            placed: Vec::new(alloc),
            hints: Vec::new(alloc),
            rows: 0,
        }
    }

    // How many rows they have in all.
    #[inline]
    pub(crate) fn rows(&self) -> u64
        ensures count { result ≡ length (rows_of_all self.now) }
        ensures within { result < 2 ^ 31 }
    {
        self.rows
    }

    // Adds a segment after the others. If memory runs out, it is given back, and nothing is changed.
    pub(crate) fn push(&mut self, segment: Segment) -> Result<(), Segment>
        requires { length (rows_of_all self.old) + length segment.rows < 2 ^ 31 }
        ensures ok { OnOk result (self.new ≡ self.old ++ segment ∷ []) }
        ensures err { OnErr result (self.new ≡ self.old) }
        ensures back { IfErr result (λ s. s ≡ segment) }
    {
        let start = self.rows;
        let end = start + segment.rows();
        let place = self.placed.len();
        if self.placed.reserve(1).is_err() {
            return Err(segment);
        }
        let hints = end.div_ceil(HINTED) as usize;
        if self.hints.resize(hints, place).is_err() {
            return Err(segment);
        }
        self.placed
            .push(Placed {
                start,
                end,
                segment,
            })
            .unwrap();
        self.rows = end;
        Ok(())
    }

    // Adds other segments after these. If memory runs out, some may have been added.
    pub(crate) fn append(&mut self, other: Segments) -> Result<(), AllocError>
        requires { length (rows_of_all self.old) + length (rows_of_all other) < 2 ^ 31 }
        ensures { OnOk result (self.new ≡ self.old ++ other) }
    {
        let mut left = other.into_placed().into_iter();
        while let Some(next) = left.next() {
            if self.push(next.segment).is_err() {
                return Err(AllocError);
            }
        }
        Ok(())
    }

    // The segments, each with its place.
    pub(crate) fn into_placed(self) -> Vec<Placed>
        ensures { map (λ p. p.segment) result.items ≡ self }
    {
        let Segments {
            placed,
            hints: _hints,
            rows: _rows,
        } = self;
        placed
    }

    // The segment that has a row. It is the one of the hint, or one of the few after it.
    #[inline(always)]
    pub(crate) fn find(&self, row: u64) -> &Placed
        requires { row < length (rows_of_all self.now) }
        ensures { IsFound self.now row result.now.start result.now.segment }
    {
        let mut at = self.hints[(row / HINTED) as usize];
        while row >= self.placed[at].end {
            at += 1;
        }
        &self.placed[at]
    }
}
