//! Whole numbers, in 4 bytes each while all of them fit.

ghost use Rattle.std.specs.Prelude.{◌≡◌, ◌<◌, ◌++◌, ◌∷◌, [], Some, length, slice_get, take, IfOk, OnOk, OnErr};
ghost use Rattle.std.specs.List.{remove};
ghost use Rattle.rj_columns.specs.Internal.Widths.{numbers_lent};

use crate::removing::remove_at;
use std::alloc::{AllocError, Global};
use std::marker::Model;

// The numbers, in 4 bytes each until one comes that doesn't fit, and in 8 from then on.
#[derive(Drop)]
pub(crate) enum Values {
    Narrow(Vec<i32>),
    Wide(Vec<i64>),
}

/// Whole numbers of 64 bits, in order.
#[derive(Drop)]
pub(crate) struct Numbers {
    values: Values,
}

impl Model for Numbers {
    ghost use Rattle.std.specs.Prelude.{List, ℤ};

    ghost Value = { List ℤ };

    ghost use Rattle.rj_columns.specs.Internal.Widths.{numbers_in};

    ghost view = { λ a. numbers_in a.values };
}

/// Borrowed whole numbers, as they are stored.
#[derive(Clone, Copy)]
pub(crate) enum NumberSlice<'a> {
    Narrow(&'a [i32]),
    Wide(&'a [i64]),
}

// Adds numbers of 4 bytes to those of 8. If memory runs out, nothing is changed.
fn extend_widened(wide: &mut Vec<i64>, more: &Vec<i32>) -> Result<(), AllocError>
    ensures ok { OnOk result (wide.new.items ≡ wide.old.items ++ more.now.items) }
    ensures err { OnErr result (wide.new.items ≡ wide.old.items) }
{
    let rows = wide.len();
    if wide.extend(more.iter().map(|n| i64::from(*n))).is_err() {
        wide.truncate(rows);
        return Err(AllocError);
    }
    Ok(())
}

// The same numbers in 8 bytes each. As far as memory allows, there is room for as many as these had
// room for.
fn widened(narrow: &Vec<i32>) -> Result<Vec<i64>, AllocError>
    ensures { IfOk result (λ v. v.items ≡ narrow.now.items) }
{
    let mut wide = Vec::new(*narrow.allocator());
    let _ = wide.reserve(narrow.capacity());
    extend_widened(&mut wide, narrow)?;
    Ok(wide)
}

impl Numbers {
    // No numbers.
    pub(crate) fn new(alloc: Global) -> Numbers
        ensures { result ≡ [] }
    {
        Numbers {
            values: Values::Narrow(Vec::new(alloc)),
        }
    }

    // How many there are.
    #[inline]
    pub(crate) fn len(&self) -> usize
        ensures { result ≡ length self.now }
    {
        match &self.values {
            Values::Narrow(values) => values.len(),
            Values::Wide(values) => values.len(),
        }
    }

    // Room for more.
    pub(crate) fn reserve(&mut self, rows: usize) -> Result<(), AllocError>
        ensures { self.new ≡ self.old }
    {
        match &mut self.values {
            Values::Narrow(values) => values.reserve(rows),
            Values::Wide(values) => values.reserve(rows),
        }
    }

    // Makes all wide, and adds a number: apart, so that `push` stays small. If memory runs out,
    // nothing is changed.
    #[cold]
    #[inline(never)]
    fn push_wide(&mut self, n: i64) -> Result<(), AllocError>
        ensures ok { OnOk result (self.new ≡ self.old ++ n ∷ []) }
        ensures err { OnErr result (self.new ≡ self.old) }
    {
        match &mut self.values {
            Values::Narrow(values) => {
                let mut wide = widened(values)?;
                wide.push(n)?;
                self.values = Values::Wide(wide);
            }
            Values::Wide(values) => {
                values.push(n)?;
            }
        }
        Ok(())
    }

    // Adds a number. All become wide if it doesn't fit 4 bytes. If memory runs out, nothing is
    // changed.
    #[inline(always)]
    pub(crate) fn push(&mut self, n: i64) -> Result<(), AllocError>
        ensures ok { OnOk result (self.new ≡ self.old ++ n ∷ []) }
        ensures err { OnErr result (self.new ≡ self.old) }
    {
        match &mut self.values {
            Values::Narrow(values) => {
                if let Ok(narrow) = i32::try_from(n) {
                    values.push(narrow)?;
                    return Ok(());
                }
            }
            Values::Wide(values) => {
                values.push(n)?;
                return Ok(());
            }
        }
        self.push_wide(n)
    }

    // Drops all but the first.
    pub(crate) fn truncate(&mut self, rows: usize)
        ensures { self.new ≡ take rows self.old }
    {
        match &mut self.values {
            Values::Narrow(values) => values.truncate(rows),
            Values::Wide(values) => values.truncate(rows),
        }
    }

    // Drops the number at a place, if there is one.
    pub(crate) fn remove(&mut self, at: usize)
        ensures { self.new ≡ remove self.old at }
    {
        match &mut self.values {
            Values::Narrow(values) => remove_at(values, at),
            Values::Wide(values) => remove_at(values, at),
        }
    }

    // The number at a place.
    #[inline]
    pub(crate) fn get(&self, i: usize) -> i64
        requires { i < length self.now }
        ensures { slice_get self.now i ≡ Some result }
    {
        match &self.values {
            Values::Narrow(values) => i64::from(values[i]),
            Values::Wide(values) => values[i],
        }
    }

    // All of them, as they are stored.
    #[inline]
    pub(crate) fn as_slice(&self) -> NumberSlice<'_>
        ensures { numbers_lent result ≡ self.now }
    {
        match &self.values {
            Values::Narrow(values) => NumberSlice::Narrow(values.as_slice()),
            Values::Wide(values) => NumberSlice::Wide(values.as_slice()),
        }
    }
}
