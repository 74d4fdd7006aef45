//! Tables that are read before their joined table is asked for, so that their bytes can be freed.

ghost use Rattle.std.specs.Prelude.{◌≡◌, ◌≢◌, Err, IfErr, IfOk, IsTrue, OnOk, true};
ghost use Rattle.rj_csv_io.specs.Tables.{is_null_text};
ghost use Rattle.rj_condition.specs.Fits.{fits};
ghost use Rattle.rj_command.specs.Expected.{expects_nothing};
ghost use Rattle.rj_command.specs.Operands.{AreOperands, HasNames};
ghost use Rattle.rj_command.specs.Runs.{AreReadApart, IsRunFault, takes_any, tells_nulls};

use crate::join::counting::expects_rows_alone;
use crate::join::naming::refuse_names;
use crate::join::operands::{Operands, read_operands};
use crate::join::running::is_read_as_null;
use crate::join::watching::Watch;
use rj_line::fault::Fault;
use rj_line::{Request, Strictness};
use rj_settings::Expectation;
use std::alloc::Global;
use std::thread::Threads;

// Whether nothing is expected of a joined table.
fn expects_nothing(expectation: &Expectation) -> bool
    ensures { result ≡ expects_nothing expectation.now }
{
    expects_rows_alone(expectation) && expectation.most_rows.is_none()
}

// Whether a NULL of a joined table can be told from its cells, or needn't be.
fn tells_nulls(request: &Request<'_>) -> bool
    ensures { result ≡ tells_nulls request.now }
{
    match request.strict {
        Strictness::Off => true,
        Strictness::On | Strictness::Full => is_read_as_null(request),
    }
}

/// Whether any joined table is taken, once its chosen columns have names: nothing is expected of
/// it, and if the files are read strictly, the text that is written for NULL is read as NULL from
/// both. Then only `Memory` and `WriteDevice` come after [`open_tables`].
pub fn takes_any(request: &Request<'_>) -> bool
    ensures { result ≡ takes_any request.now }
{
    expects_nothing(&request.expectation) && tells_nulls(request)
}

/// Reads the tables that the two files' bytes denote, binds the clause to them, and sees that the
/// chosen columns can be named. [`write_joined`](crate::write_joined) does the rest of a
/// [`run`](crate::run), for which the bytes aren't needed any more.
///
/// # Errors
///
/// Those of [`run`](crate::run) up to `NoFreeName` and `SelectedName`, in the same order.
#[tactic(auto, using(crate::proofs::RunFacts::not_of_device))]
pub fn open_tables<R: Threads + Sync, G: Watch>(
    rt: &R,
    alloc: Global,
    left: &[u8],
    right: &[u8],
    request: &Request<'_>,
    gate: &G,
) -> Result<Operands, Fault>
    ensures operands { IfOk result (λ o. AreOperands left.now right.now request.now o.left o.right o.join) }
    ensures named { IfOk result (λ o. HasNames request.now o.join o.left o.right) }
    ensures bound { IfOk result (λ o. fits o.join o.left.types o.right.types ≡ true) }
    ensures lawful { OnOk result (IsTrue (is_null_text request.now.out_null.now)) }
    ensures apart { IfOk result (AreReadApart request.now) }
    ensures fault { IfErr result (IsRunFault left.now right.now request.now) }
    ensures unwritten { result ≢ Err Fault.WriteDevice }
{
    let operands = read_operands(rt, alloc, left, right, request, gate, true)?;
    refuse_names(alloc, &operands, request, true)?;
    Ok(operands)
}
