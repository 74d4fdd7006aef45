//! Where the texts of a column end in its buffer of bytes.

ghost use Rattle.std.specs.Prelude.{◌≡◌, ◌<◌, ◌≤◌, ◌+◌, ◌-◌, ◌^◌, ◌++◌, ◌∷◌, [], All, map, length, take, drop, slice_index, IfOk, OnOk, OnErr};
ghost use Rattle.rj_columns.specs.Internal.Packed.{ends_in, start_at};

use std::alloc::{AllocError, Global};
use std::marker::Model;

// The ends, in 4 bytes each while they are below 4 GiB, and in 8 from then on.
#[derive(Drop)]
pub(crate) enum Places {
    Narrow(Vec<u32>),
    Wide(Vec<u64>),
}

/// Ends of texts, in order.
#[derive(Drop)]
pub(crate) struct Ends {
    places: Places,
}

impl Model for Ends {
    ghost use Rattle.std.specs.Prelude.{List, ℕ};

    ghost Value = { List ℕ };

    ghost use Rattle.rj_columns.specs.Internal.Packed.{ends_in};

    ghost view = { λ a. ends_in a.places };
}

// The same ends in 8 bytes each.
fn widened(ends: &Vec<u32>) -> Result<Vec<u64>, AllocError>
    ensures { IfOk result (λ v. v.items ≡ ends.now.items) }
{
    ends.iter()
        .map(|end| u64::from(*end))
        .collect(*ends.allocator())
}

// Lowers the ends from a place on.
fn lower_narrow(ends: &mut Vec<u32>, from: usize, by: usize)
    requires { from ≤ length ends.old.items }
    ensures { ends.new.items ≡ take from ends.old.items ++ map (λ e. e - by) (drop from ends.old.items) }
{
    for i in from..ends.len() {
        ends[i] = (ends[i] as usize).saturating_sub(by) as u32;
    }
}

// The same of wide ones.
fn lower_wide(ends: &mut Vec<u64>, from: usize, by: usize)
    requires { from ≤ length ends.old.items }
    ensures { ends.new.items ≡ take from ends.old.items ++ map (λ e. e - by) (drop from ends.old.items) }
{
    for i in from..ends.len() {
        ends[i] = ends[i].saturating_sub(by as u64);
    }
}

impl Ends {
    // No ends.
    pub(crate) fn new(alloc: Global) -> Ends
        ensures { result ≡ [] }
    {
        Ends {
            places: Places::Narrow(Vec::new(alloc)),
        }
    }

    // How many there are.
    #[inline]
    pub(crate) fn len(&self) -> usize
        ensures { result ≡ length self.now }
    {
        match &self.places {
            Places::Narrow(ends) => ends.len(),
            Places::Wide(ends) => ends.len(),
        }
    }

    // Room for more.
    pub(crate) fn reserve(&mut self, rows: usize) -> Result<(), AllocError>
        ensures { self.new ≡ self.old }
    {
        match &mut self.places {
            Places::Narrow(ends) => ends.reserve(rows),
            Places::Wide(ends) => ends.reserve(rows),
        }
    }

    // Where the text at a place ends.
    #[inline]
    pub(crate) fn end(&self, i: usize) -> usize
        requires { i < length self.now }
        ensures { result ≡ slice_index self.now i }
    {
        match &self.places {
            Places::Narrow(ends) => ends[i] as usize,
            Places::Wide(ends) => ends[i] as usize,
        }
    }

    // Where the text at a place starts, or would start after the last one.
    #[inline]
    pub(crate) fn start(&self, i: usize) -> usize
        requires { i ≤ length self.now }
        ensures { result ≡ start_at 0 self.now i }
    {
        if i == 0 { 0 } else { self.end(i - 1) }
    }

    // Adds an end. The ends become wide if it doesn't fit 4 bytes. If memory runs out, they stay as
    // they were.
    #[inline(always)]
    pub(crate) fn push(&mut self, end: usize) -> Result<(), AllocError>
        ensures ok { OnOk result (self.new ≡ self.old ++ end ∷ []) }
        ensures err { OnErr result (self.new ≡ self.old) }
    {
        match &mut self.places {
            Places::Narrow(ends) => {
                if let Ok(narrow) = u32::try_from(end) {
                    ends.push(narrow)?;
                    return Ok(());
                }
                let mut wide = widened(ends)?;
                wide.push(end as u64)?;
                self.places = Places::Wide(wide);
            }
            Places::Wide(ends) => {
                ends.push(end as u64)?;
            }
        }
        Ok(())
    }

    // Drops all but the first.
    pub(crate) fn truncate(&mut self, rows: usize)
        ensures { self.new ≡ take rows self.old }
    {
        match &mut self.places {
            Places::Narrow(ends) => ends.truncate(rows),
            Places::Wide(ends) => ends.truncate(rows),
        }
    }

    // Drops the end at a place, and lowers those after it by the size of the text there.
    pub(crate) fn remove(&mut self, at: usize, size: usize)
        requires { at < length self.old }
        ensures { self.new ≡ take at self.old ++ map (λ e. e - size) (drop (at + 1) self.old) }
    {
        match &mut self.places {
            Places::Narrow(ends) => {
                ends.remove(at);
                lower_narrow(ends, at, size);
            }
            Places::Wide(ends) => {
                ends.remove(at);
                lower_wide(ends, at, size);
            }
        }
    }
}
