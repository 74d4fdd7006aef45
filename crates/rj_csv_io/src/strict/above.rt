//! The lines above an error.

ghost use Rattle.std.specs.Prelude.{◌≡◌, ◌≤◌, ◌+◌, ◌-◌, ◌^◌, ◌<◌, Bool, true, List, ℕ, length, take};
ghost use Rattle.rj_csv_io.specs.StrictFaults.{AreAbove, HasFault, row_at};
ghost use Rattle.rj_csv_io.specs.Grammar.{Line, lines_text, may_delimit};
ghost use Rattle.rj_csv_io.specs.StrictReading.{body_of};
ghost use Rattle.rj_csv_io.specs.declared.strict.fault.StrictFault.{StrictFault as Told};

use crate::strict::delimiter::Delimiter;
use crate::strict::fault::StrictFault;
use crate::strict::header::HeaderPlace;
use crate::strict::mark::body;
use crate::strict::standing::{begin, step};

// Where the row with the error begins.
fn start_of_row(text: &[u8], delimiter: u8, header: HeaderPlace, row: u64) -> usize
    requires lawful { may_delimit delimiter ≡ true }
    requires fault { (full : Bool) × (f : Told) × HasFault delimiter header full text.now f × (row_at f ≡ row) }
    ensures within { result ≤ length text.now }
    ensures lines { (lines : List Line) × AreAbove delimiter header text.now row lines × (take result text.now ≡ lines_text delimiter lines) }
{
    let mut standing = begin(header);
    for i in 0..text.len() {
        if standing.row == row {
            return i;
        }
        match step(standing, delimiter, text[i]) {
            Ok(next) => standing = next,
            Err(_) => return i, // not reached, since the fault is in a later row
        }
    }
    text.len()
}

/// The lines above the row of a text's error, with the byte order mark that may come before them.
/// It allocates no memory.
pub fn above_fault(
    text: &[u8],
    delimiter: Delimiter,
    header: HeaderPlace,
    fault: StrictFault,
) -> &[u8]
    requires { (full : Bool) × HasFault delimiter header full (body_of header text.now) fault }
    ensures { (lines : List Line) × AreAbove delimiter header (body_of header text.now) (row_at fault) lines
        × (body_of header result.now ≡ lines_text delimiter lines) }
{
    let unmarked = body(text, header);
    let mark = text.len() - unmarked.len();
    let start = start_of_row(unmarked, delimiter.byte(), header, fault.row());
    &text[..mark + start]
}
