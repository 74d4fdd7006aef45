//! Whether a text is derived by RFC 4180's grammar.

ghost use Rattle.std.specs.Prelude.{◌≡◌, true, Ok, Err, OnOk, IfErr};
ghost use Rattle.rj_csv_io.specs.StrictFaults.{HasFault};
ghost use Rattle.rj_csv_io.specs.Grammar.{Derives, File, may_delimit};
ghost use Rattle.rj_csv_io.specs.StrictReading.{body_of};
ghost use Rattle.rj_csv_io.specs.Internal.StrictSteps.{initial_standing, verdict};
ghost use Rattle.rj_csv_io.specs.declared.strict.fault.StrictFault.{StrictFault};

use crate::strict::clean::is_clean;
use crate::strict::delimiter::Delimiter;
use crate::strict::fault::StrictFault;
use crate::strict::header::HeaderPlace;
use crate::strict::mark::body;
use crate::strict::standing::{begin, finish, step};

// The verdict, byte by byte.
fn check_bytes(
    text: &[u8],
    delimiter: u8,
    header: HeaderPlace,
    full: bool,
) -> Result<(), StrictFault>
    ensures { result ≡ verdict delimiter full (initial_standing header) text.now }
{
    let mut standing = begin(header);
    for i in 0..text.len() {
        match step(standing, delimiter, text[i]) {
            Ok(next) => standing = next,
            Err(e) => return Err(e),
        }
    }
    finish(standing, full)
}

// The verdict, by the fast look if that is enough.
fn judge(
    text: &[u8],
    delimiter: Delimiter,
    header: HeaderPlace,
    full: bool,
) -> Result<(), StrictFault>
    ensures told { result ≡ verdict delimiter full (initial_standing header) text.now }
    ensures lawful { may_delimit delimiter ≡ true }
{
    let byte = delimiter.byte();
    if is_clean(text, delimiter, full) {
        return Ok(());
    }
    check_bytes(text, byte, header, full)
}

/// Checks whether a text is derived by RFC 4180's grammar with this delimiter, and finds the first
/// place where it isn't. If `full` is set, the last record needs its line end. It allocates no
/// memory.
///
/// # Errors
/// The one error that the text has.
pub fn check(
    text: &[u8],
    delimiter: Delimiter,
    header: HeaderPlace,
    full: bool,
) -> Result<(), StrictFault>
    // Each answer is right.
    ensures derived { OnOk result ((file : File) × Derives delimiter header full (body_of header text.now) file) }
    ensures fault { IfErr result (λ f. HasFault delimiter header full (body_of header text.now) f) }
    // Each right answer is given.
    ensures each_file { (file : File) → Derives delimiter header full (body_of header text.now) file → result ≡ Ok tt }
    ensures each_fault { (f : StrictFault) → HasFault delimiter header full (body_of header text.now) f → result ≡ Err f }
{
    judge(body(text, header), delimiter, header, full)
}
