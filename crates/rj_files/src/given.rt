//! The bytes that are joined in place of those that were read: under completed headers, if the line
//! asks for that.

ghost use Rattle.std.specs.Prelude.{◌≡◌, IfErr, IfOk, None, Ok, true};
ghost use Rattle.rj_command.specs.Sides.{delimiter_of as delimiter_of_side};
ghost use Rattle.rj_files.specs.Given.{IsGiven, is_strict};

use crate::explained::ExplainedFault;
use crate::joining::Tables;
use crate::progress::Progress;
use rj_command::Line;
use rj_csv_io::names::{GivenName, complete_header};
use rj_csv_io::strict::Delimiter;
use rj_line::fault::{Fault, Side};
use rj_line::{Request, Strictness};
use std::time::Clock;

// Whether texts have to be of RFC 4180's grammar.
fn is_strict(strictness: Strictness) -> bool
    ensures { result ≡ is_strict strictness }
{
    match strictness {
        Strictness::Off => false,
        Strictness::On | Strictness::Full => true,
    }
}

// The delimiter of a side's table.
fn delimiter_of(request: &Request<'_>, side: Side) -> Delimiter
    ensures { result ≡ delimiter_of_side request.now side }
{
    match side {
        Side::Left => request.left_delimiter,
        Side::Right => request.right_delimiter,
    }
}

// Tells which names the columns of a side were given.
fn tell_given<R: Clock + Eprint>(
    rt: &R,
    progress: &Progress<'_, R>,
    side: Side,
    given: &[GivenName],
) {
    if given.is_empty() {
        return;
    }
    progress.clear();
    for named in given {
        let (column, name) = (named.column, named.name.as_str());
        let _ = eprintln!(rt;
            "radixjoin: {side} column {column} has no name of its own, and is called {name}"
        );
    }
}

// The bytes that are joined in place of those of a side.
fn given_bytes<R: AllocGlobal + Clock + Eprint>(
    rt: &R,
    line: &Line<'_>,
    progress: &Progress<'_, R>,
    side: Side,
    bytes: Vec<u8>,
) -> Result<Vec<u8>, ExplainedFault>
    ensures given { IfOk result (λ v. IsGiven line.now side bytes.items v.items) }
    ensures fault { IfErr result (λ e. e.fault ≡ Fault.Memory) }
    ensures unnamed { IfErr result (λ _. line.now.unnamed ≡ true) }
    ensures lines { IfErr result (λ e. e.lines ≡ Ok None) }
    ensures told { IfErr result (λ e. e.is_told ≡ true) }
{
    if !line.unnamed {
        return Ok(bytes);
    }
    let delimiter = delimiter_of(&line.request, side);
    let strict = is_strict(line.request.strict);
    match complete_header(rt.alloc(), bytes, delimiter, strict) {
        Ok(completed) => {
            if !line.quiet {
                tell_given(rt, progress, side, completed.given.as_slice());
            }
            Ok(completed.bytes)
        }
        Err(_) => Err(ExplainedFault::from(Fault::Memory)),
    }
}

/// The bytes that are joined in place of those that were read. With `--unnamed` both headers are
/// completed, and each name that a column is given is told, unless the line is quiet.
///
/// # Errors
///
/// It fails only when memory runs out.
pub(crate) fn given_tables<R: AllocGlobal + Clock + Eprint>(
    rt: &R,
    line: &Line<'_>,
    progress: &Progress<'_, R>,
    tables: Tables,
) -> Result<Tables, ExplainedFault>
    ensures left { IfOk result (λ t. IsGiven line.now Side.Left tables.left.items t.left.items) }
    ensures right { IfOk result (λ t. IsGiven line.now Side.Right tables.right.items t.right.items) }
    ensures fault { IfErr result (λ e. e.fault ≡ Fault.Memory) }
    ensures unnamed { IfErr result (λ _. line.now.unnamed ≡ true) }
    ensures lines { IfErr result (λ e. e.lines ≡ Ok None) }
    ensures told { IfErr result (λ e. e.is_told ≡ true) }
{
    let Tables { left, right } = tables;
    let left = match given_bytes(rt, line, progress, Side::Left, left) {
        Ok(left) => left,
        Err(e) => return Err(e),
    };
    match given_bytes(rt, line, progress, Side::Right, right) {
        Ok(right) => Ok(Tables { left, right }),
        Err(e) => Err(e),
    }
}
