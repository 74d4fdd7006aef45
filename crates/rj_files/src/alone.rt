//! What is said of the only file of `--suggest-types`: how it is read, why it can't be, and what may
//! be wrong with it.

ghost use Rattle.std.specs.Prelude.{◌≡◌, None, Ok, false, true};
ghost use Rattle.rj_explain.specs.Explained.{IsExplainedAlone, file_of_texts};
ghost use Rattle.rj_files.specs.Alone.{IsUnreadTold};
ghost use Rattle.rj_files.specs.Told.{IsThere};

use crate::explained::ExplainedFault;
use crate::reading::Stream;
use rj_csv_io::strict::Delimiter;
use rj_explain::explain_alone;
use rj_line::Strictness;
use rj_line::fault::Fault;
use rj_line::suggest::ListedColumns;
use std::alloc::Global;

/// What is asked of the only file of `--suggest-types`.
#[derive(Clone, Copy)]
pub struct Suggesting {
    /// How strictly it is read.
    pub strict: Strictness,
    /// Which of its columns are listed.
    pub listed: ListedColumns,
    /// Whether an error is explained by further lines.
    pub explain: bool,
}

/// An error of the bytes of the only file, explained if that is asked for.
pub(crate) fn explained_alone(
    alloc: Global,
    bytes: &[u8],
    delimiter: Delimiter,
    asked: Suggesting,
    fault: Fault,
) -> ExplainedFault
    ensures fault { result.fault ≡ fault }
    ensures unasked { asked.explain ≡ false → result.lines ≡ Ok None }
    ensures asked { asked.explain ≡ true → IsThere result.lines (IsExplainedAlone fault (file_of_texts delimiter asked.strict bytes.now)) }
    ensures told { result.is_told ≡ true }
{
    if !asked.explain {
        return ExplainedFault::from(fault);
    }
    let lines = explain_alone(alloc, &fault, bytes, delimiter, asked.strict);
    ExplainedFault::new(fault, lines)
}

/// The error of an only file that can't be read, explained if that is asked for, unless memory ran
/// out.
pub(crate) fn unread_alone<S: Stream>(
    alloc: Global,
    stream: &S,
    explain: bool,
    fault: Fault,
) -> ExplainedFault
    ensures fault { result.fault ≡ fault }
    ensures unasked { explain ≡ false → result.lines ≡ Ok None }
    ensures asked { explain ≡ true → IsUnreadTold (S.explains stream.now) fault result.lines }
    ensures told { result.is_told ≡ true }
{
    if !explain {
        return ExplainedFault::from(fault);
    }
    match fault {
        Fault::ReadDevice(_) => {
            let lines = stream.explain_unread(alloc);
            ExplainedFault::new(fault, lines)
        }
        _ => ExplainedFault::from(fault),
    }
}
