//! Inputs on the heap.

use crate::merge::copies::Copies;
use crate::merge::place::Placed;
use crate::merge::refused::MergeRefused;
use crate::merge::source::Source;

/// An input on the heap, so that a merge moves little when it orders its inputs.
impl<S: Source> Source for Box<S> {
    type Row = S::Row;

    ghost tells = { λ b. S.tells b.value };

    ghost reading = { λ b. S.reading b.value };

    ghost last = { λ b. S.last b.value };

    ghost number = { λ b. S.number b.value };

    ghost copies = { λ b. S.copies b.value };

    fn copies(&self) -> Copies {
        self.as_ref().copies()
    }

    fn next(&mut self) -> Result<Option<Placed<S::Row>>, MergeRefused> {
        self.as_mut().next()
    }

    fn reuse(&mut self, row: S::Row) {
        self.as_mut().reuse(row);
    }
}
