//! From two streams of bytes to the bytes of their joined table.

ghost use Rattle.std.specs.Prelude.{◌≡◌, ◌≢◌, ◌⊎◌, IfOk, IfErr, None, Ok, false, option_map, string_bytes, true};
ghost use Rattle.rj_files.specs.Explained.{AreLinesOf, IsUnreadExplained};
ghost use Rattle.rj_files.specs.Streams.{AreBytesOf, IsFaultOf, IsUnread, WritesOf};
ghost use Rattle.rj_files.specs.FaultFiles.{output_name};
ghost use Rattle.rj_files.specs.Texts.{IsIndented, IsSystemLine, unread_memory_text};
ghost use Rattle.rj_files.specs.Told.{IsThere};

use crate::explained::ExplainedFault;
use crate::given::given_tables;
use crate::joining::{Tables, Written, write_tables};
use crate::progress::Progress;
use crate::reading::{Stream, read_stream};
use crate::taking::complete_line;
use rj_command::Line;
use rj_line::fault::{Fault, Side};
use std::alloc::{AllocError, Global};
use std::io::Write;
use std::sync::Wait;
use std::thread::Threads;
use std::time::Clock;

// The lines that explain why a side's table wasn't read.
fn unread_lines<S: Stream>(
    alloc: Global,
    stream: &S,
    side: Side,
    fault: &Fault,
) -> Result<String, AllocError>
    ensures memory { fault.now ≡ Fault.Memory → IfOk result (λ text. string_bytes text ≡ unread_memory_text side) }
    ensures other { fault.now ≢ Fault.Memory → IfOk result (λ text. IsIndented (string_bytes text) × S.explains stream.now (string_bytes text)) }
{
    match fault {
        Fault::Memory => format!(in alloc; "  while the {side} file was read\n"),
        _ => stream.explain_unread(alloc),
    }
}

// The bytes of a side's table, or why they can't be read, explained if that is asked for.
fn read_side<R: AllocGlobal + Eprint + Clock, S: Stream>(
    rt: &R,
    line: &Line<'_>,
    progress: &Progress<'_, R>,
    stream: &S,
    side: Side,
) -> Result<Vec<u8>, ExplainedFault>
    ensures bytes { IfOk result (λ v. AreBytesOf (S.tells stream.now) v.items) }
    ensures fault { IfErr result (λ e. IsUnread side e.fault) }
    ensures unasked { line.now.explain ≡ false → IfErr result (λ e. e.lines ≡ Ok None) }
    ensures asked { line.now.explain ≡ true → IfErr result (λ e. IsUnreadExplained side (S.explains stream.now) e.fault e.lines) }
    ensures told { IfErr result (λ e. e.is_told ≡ true) }
{
    let alloc = rt.alloc();
    match read_stream(alloc, stream, side, progress) {
        Ok(bytes) => Ok(bytes),
        Err(fault) => {
            if !line.explain {
                return Err(ExplainedFault::from(fault));
            }
            let lines = unread_lines(alloc, stream, side, &fault);
            Err(ExplainedFault::new(fault, lines))
        }
    }
}

// The bytes of both tables. The right one is opened when the left one was read to its end.
fn read_both<R: AllocGlobal + Eprint + Clock, L: Stream, S: Stream>(
    rt: &R,
    line: &Line<'_>,
    progress: &Progress<'_, R>,
    left: &L,
    right: &S,
) -> Result<Tables, ExplainedFault>
    ensures left { IfOk result (λ tables. AreBytesOf (L.tells left.now) tables.left.items) }
    ensures right { IfOk result (λ tables. AreBytesOf (S.tells right.now) tables.right.items) }
    ensures fault { IfErr result (λ e. IsUnread Side.Left e.fault ⊎ IsUnread Side.Right e.fault) }
    ensures unasked { line.now.explain ≡ false → IfErr result (λ e. e.lines ≡ Ok None) }
    ensures asked { line.now.explain ≡ true → IfErr result (λ e.
        IsUnreadExplained Side.Left (L.explains left.now) e.fault e.lines ⊎ IsUnreadExplained Side.Right (S.explains right.now) e.fault e.lines) }
    ensures told { IfErr result (λ e. e.is_told ≡ true) }
{
    let left = match read_side(rt, line, progress, left, Side::Left) {
        Ok(bytes) => bytes,
        Err(e) => return Err(e),
    };
    match read_side(rt, line, progress, right, Side::Right) {
        Ok(right) => Ok(Tables { left, right }),
        Err(e) => Err(e),
    }
}

/// Reads the tables that two streams give, each to its end, and writes what the line asks for after
/// what the writer already has. That is what is chosen of their joined table, or with `--count` the
/// line of how many rows of each kind it has. The right stream is opened when the left one was read
/// to its end, and nothing is written before both are. With `--unnamed` their headers are completed
/// first. With `--types auto` the lists of the line get the types that it takes from the cells. It
/// returns the writer, and the statistics of the joined table, or with `--count` the report, if one
/// is asked for.
///
/// # Errors
///
/// `ReadDevice` of the side whose stream can't be opened or read, and else the error of
/// [`run`](rj_command::run) or [`count`](rj_command::count) on the bytes of both, with the lines
/// that explain it if the line asks for them. The writer is unchanged, except after `WriteDevice`,
/// when it is unknown how much it took. `Memory` comes only when memory ran out.
pub fn write_streams<R, L, S, W>(
    rt: &R,
    line: &mut Line<'_>,
    progress: &Progress<'_, R>,
    left: &L,
    right: &S,
    writer: W,
) -> (Result<Written, ExplainedFault>, W)
where
    R: AllocGlobal + Eprint + Threads + Wait + Clock + Sync,
    L: Stream,
    S: Stream,
    W: Write,
    ensures written { IfOk result.0 (WritesOf line.old line.new (L.tells left.now) (S.tells right.now) (W.contents writer) (W.contents result.1)) }
    ensures fault { IfErr result.0 (λ e. IsFaultOf line.old line.new (L.tells left.now) (S.tells right.now) e.fault) }
    ensures unasked { line.old.explain ≡ false → IfErr result.0 (λ e. e.lines ≡ Ok None) }
    ensures asked { line.old.explain ≡ true → IfErr result.0 (λ e. e.fault ≢ Fault.WriteDevice
        → AreLinesOf line.old line.new (L.tells left.now) (S.tells right.now) (L.explains left.now) (S.explains right.now) e.fault e.lines) }
    ensures unwritten { line.old.explain ≡ true → IfErr result.0 (λ e. e.fault ≡ Fault.WriteDevice → e.is_told ≡ true
        → IsThere e.lines (IsSystemLine (output_name (option_map (λ name. name.now) line.old.output)))) }
    ensures line { record line.new { request = line.old.request } ≡ line.old }
    ensures unchanged { IfErr result.0 (λ e. e.fault ≢ Fault.WriteDevice → result.1 ≡ writer) }
    ensures told { IfErr result.0 (λ e. e.fault ≢ Fault.WriteDevice → e.is_told ≡ true) }
{
    let tables = match read_both(rt, line, progress, left, right) {
        Ok(tables) => tables,
        Err(e) => return (Err(e), writer),
    };
    let tables = match given_tables(rt, line, progress, tables) {
        Ok(tables) => tables,
        Err(e) => return (Err(e), writer),
    };
    match complete_line(rt, line, progress, &tables) {
        Ok(()) => write_tables(rt, line, progress, tables, writer),
        Err(fault) => (Err(ExplainedFault::from(fault)), writer),
    }
}
