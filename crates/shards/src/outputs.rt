//! Where rows and lines go.

ghost use Rattle.std.specs.Prelude.{◌≡◌, IfErr, OnOk};
ghost use Rattle.shards.specs.Outputs.{IsOfOutput, IsPrinted, printed_in};

use crate::failure::Failure;
use rj_columns::Table;
use rj_csv_io::{Failed, Output};
use rj_line::fault::Fault;
use rj_shards::division::Route;

/// One part, to which all rows go.
#[derive(Clone, Copy)]
pub(crate) struct OnePart;

impl Route for OnePart {
    ghost part = { λ _ _. 0 };

    ghost count = { λ _. 1 };

    ghost fits = { λ _ _. Unit {0} };

    fn parts(&self) -> u32 {
        1
    }

    fn part_of(&self, _table: &Table, _row: u32) -> u32 {
        0
    }
}

/// An output that takes all bytes and discards them.
#[derive(Clone, Copy)]
pub(crate) struct NullSink;

impl Output for NullSink {
    ghost count = { λ _. 0 };

    fn put(&mut self, _bytes: &[u8]) -> Result<(), Failed> {
        Ok(())
    }

    fn failures(&self) -> u64 {
        0
    }
}

/// Puts a text to the output on which lines are printed.
///
/// # Errors
///
/// `WriteDevice`.
pub(crate) fn print_text<O: Output>(output: &mut O, text: &str) -> Result<(), Failure>
    ensures printed { OnOk result (IsPrinted (printed_in O.told O.count output.old) (printed_in O.told O.count output.new) text.now) }
    ensures fault { IfErr result (IsOfOutput (printed_in O.told O.count output.old) (printed_in O.told O.count output.new)) }
{
    match output.put(text.as_bytes()) {
        Ok(()) => Ok(()),
        Err(_) => Err(Failure::Told(Fault::WriteDevice)),
    }
}
