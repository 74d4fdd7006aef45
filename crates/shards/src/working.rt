//! What the words of the command line ask for is done.

ghost use Rattle.std.specs.Prelude.{◌≡◌, Err, IfErr, OnOk, map};
ghost use Rattle.rj_line.specs.declared.fault.Fault.TheVariants.{Memory};
ghost use Rattle.shards.specs.Lines.{IsShardsLine};
ghost use Rattle.shards.specs.Outputs.{printed_in};
ghost use Rattle.shards.specs.Works.{IsFailure, IsWorkDone};
ghost use Rattle.shards.specs.declared.line.Line.{Line};

use crate::cutting::print_cuts;
use crate::dividing::divide_range;
use crate::failure::Failure;
use crate::line::{Task, read_line};
use crate::storage::Storage;
use rj_csv_io::Output;
use std::alloc::Global;

/// Reads the words after the program's name, and divides the range of a file that they name among
/// parts, or prints where it can be cut. The answer is whether all this was done, and the parts,
/// which are none in the second case or if they weren't made.
///
/// # Errors
///
/// Those of [`read_line`]; the output is unchanged then. Those of [`divide_range`] and of
/// [`print_cuts`]. Nothing is printed if memory ran out. Parts may have got rows by then: each but
/// one that failed has exactly the header and its rows among the first ones, or nothing.
pub(crate) fn divide_words<S: Storage, O: Output>(
    alloc: Global,
    storage: &S,
    words: &[&str],
    output: &mut O,
) -> (Result<(), Failure>, Vec<S::Part>)
    ensures done { OnOk result.0 (IsWorkDone (S.holds storage.now) (S.tells_parts storage.now) (map (λ w. w.now) words.now)
        (map S.Part.told result.1.items) (printed_in O.told O.count output.old) (printed_in O.told O.count output.new)) }
    ensures failure { IfErr result.0 (IsFailure (S.holds storage.now) (S.tells_parts storage.now) (map (λ w. w.now) words.now)
        (map S.Part.told result.1.items) (printed_in O.told O.count output.old) (printed_in O.told O.count output.new)) }
    ensures memory { result.0 ≡ Err (Failure.Told Memory) → printed_in O.told O.count output.new ≡ printed_in O.told O.count output.old }
    ensures unchanged { ((line : Line) → IsShardsLine (map (λ w. w.now) words.now) line → ⊥) → output.new ≡ output.old }
{
    let line = match read_line(alloc, words) {
        Ok(line) => line,
        Err(failure) => return (Err(failure), Vec::new(alloc)),
    };
    match line.task {
        Task::Divide(bounds, folder) => {
            divide_range(alloc, storage, &line, bounds, folder, output)
        }
        Task::Cut(ranges) => {
            let printed = print_cuts(alloc, storage, &line, ranges, output);
            (printed, Vec::new(alloc))
        }
    }
}
