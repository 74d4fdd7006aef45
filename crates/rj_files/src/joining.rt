//! What a line asks for of the bytes of two tables: their joined table, or how many rows it has.

ghost use Rattle.std.specs.Prelude.{◌≡◌, ◌≢◌, IfOk, IfErr, IsTrue, None, Ok, OnOk, false, length, option_map, true};
ghost use Rattle.rj_condition.specs.Fits.{fits};
ghost use Rattle.rj_csv_io.specs.Tables.{is_null_text};
ghost use Rattle.rj_command.specs.Operands.{AreOperands, HasNames};
ghost use Rattle.rj_command.specs.Runs.{AreReadApart, IsRunFault, takes_any};
ghost use Rattle.rj_command.specs.Sizes.{IsBound};
ghost use Rattle.rj_files.specs.Explained.{AreLinesBy};
ghost use Rattle.rj_files.specs.FaultFiles.{output_name};
ghost use Rattle.rj_files.specs.Memory.{AreFilesOf, IsMemoryTold, sizes_of};
ghost use Rattle.rj_files.specs.Streams.{IsAskedFault, WritesAsked};
ghost use Rattle.rj_files.specs.Texts.{IsSystemLine};
ghost use Rattle.rj_files.specs.Told.{IsThere};

use crate::explained::ExplainedFault;
use crate::explaining::{explained, with_write_error};
use crate::memory::{FileSizes, memory_lines_by};
use crate::progress::Progress;
use crate::recording::ErrorRecordingWriter;
use crate::watched::WatchedWriter;
use rj_command::{
    Line, Operands, Stats, Unwritten, count, open_tables, run, takes_any, write_joined,
};
use rj_csv_io::{CountedWriter, Output};
use rj_explain::Inputs;
use rj_line::Request;
use rj_line::fault::Fault;
use std::alloc::Global;
use std::convert::AsSlice;
use std::io::Write;
use std::sync::Wait;
use std::thread::Threads;
use std::time::Clock;

/// What was written of two tables.
#[derive(Drop)]
pub enum Written {
    /// Their joined table, with its statistics.
    Joined(Stats),
    /// With `--count` the line of how many rows it has of each kind, with the report, if one is
    /// asked for.
    Counted(Option<String>),
}

/// The bytes of two tables.
#[derive(Drop)]
pub(crate) struct Tables {
    pub(crate) left: Vec<u8>,
    pub(crate) right: Vec<u8>,
}

impl Tables {
    // The bytes, and what is asked of them.
    fn inputs<'a, 'r>(&'a self, request: &'a Request<'r>) -> Inputs<'a, 'r>
        ensures left { result.left.now ≡ self.now.left.items }
        ensures right { result.right.now ≡ self.now.right.items }
        ensures request { result.request.now ≡ request.now }
    {
        Inputs {
            left: self.left.as_slice(),
            right: self.right.as_slice(),
            request,
        }
    }

    // How many bytes they are.
    fn sizes(&self) -> FileSizes
        ensures { result ≡ record { left = length self.now.left.items; right = length self.now.right.items } }
    {
        FileSizes {
            left: self.left.len() as u64,
            right: self.right.len() as u64,
        }
    }
}

// Writes what the line asks for of the bytes of two tables. Bytes that it owns are freed as soon as
// their table is there.
fn write_bytes<R, B, O>(
    rt: &R,
    line: &Line<'_>,
    progress: &Progress<'_, R>,
    left: B,
    right: B,
    writer: &mut O,
) -> Result<Written, Fault>
where
    R: AllocGlobal + Eprint + Threads + Wait + Clock + Sync,
    B: AsSlice<u8> + Drop,
    O: Output,
    ensures written { IfOk result (WritesAsked line.now (B.items left) (B.items right) (O.told writer.old) (O.told writer.new)) }
    ensures fault { IfErr result (IsAskedFault line.now (B.items left) (B.items right)) }
    ensures unchanged { IfErr result (λ f. f ≢ Fault.WriteDevice → writer.new ≡ writer.old) }
{
    let (alloc, request) = (rt.alloc(), &line.request);
    if line.count {
        return match count(rt, alloc, left, right, request, progress, writer) {
            Ok(report) => Ok(Written::Counted(report)),
            Err(fault) => Err(fault),
        };
    }
    match run(rt, alloc, left, right, request, progress, writer) {
        Ok(stats) => Ok(Written::Joined(stats)),
        Err(fault) => Err(fault),
    }
}

// The error of a joined table that isn't written, explained by what is known of its tables.
fn told_by_sizes(
    alloc: Global,
    request: &Request<'_>,
    files: FileSizes,
    unwritten: Unwritten,
) -> ExplainedFault
    requires { IsBound unwritten.known }
    ensures fault { result.fault ≡ unwritten.fault }
    ensures lines { (inputs : Inputs) → AreFilesOf inputs unwritten.known → files ≡ sizes_of inputs → request.now ≡ inputs.request.now
        → unwritten.fault ≡ Fault.Memory → IsThere result.lines (IsMemoryTold false inputs) }
    ensures told { result.is_told ≡ true }
{
    let Unwritten { fault, known } = unwritten;
    match fault {
        Fault::Memory => {
            let lines = memory_lines_by(alloc, request, files, &known);
            ExplainedFault::new(Fault::Memory, lines)
        }
        other => ExplainedFault::from(other),
    }
}

// The tables that two files' bytes denote, with the clause bound to them.
fn opened<R>(
    rt: &R,
    line: &Line<'_>,
    progress: &Progress<'_, R>,
    tables: &Tables,
) -> Result<Operands, ExplainedFault>
where
    R: AllocGlobal + Eprint + Threads + Wait + Clock + Sync,
    ensures operands { IfOk result (λ o. AreOperands tables.now.left.items tables.now.right.items line.now.request o.left o.right o.join) }
    ensures named { IfOk result (λ o. HasNames line.now.request o.join o.left o.right) }
    ensures bound { IfOk result (λ o. fits o.join o.left.types o.right.types ≡ true) }
    ensures lawful { OnOk result (IsTrue (is_null_text line.now.request.out_null.now)) }
    ensures apart { IfOk result (AreReadApart line.now.request) }
    ensures fault { IfErr result (λ e. IsRunFault tables.now.left.items tables.now.right.items line.now.request e.fault) }
    ensures asked { IfErr result (λ e. AreLinesBy line.now tables.now.left.items tables.now.right.items e.fault e.lines) }
    ensures told { IfErr result (λ e. e.is_told ≡ true) }
{
    let inputs = tables.inputs(&line.request);
    let request = &line.request;
    match open_tables(rt, rt.alloc(), inputs.left, inputs.right, request, progress) {
        Ok(operands) => Ok(operands),
        Err(fault) => Err(explained(rt, line, fault, &inputs)),
    }
}

// Writes the joined table of two tables. Their bytes are freed when they are read, since no later
// error is explained by them.
fn write_freed<R, O>(
    rt: &R,
    line: &Line<'_>,
    progress: &Progress<'_, R>,
    tables: Tables,
    writer: &mut O,
) -> Result<Written, ExplainedFault>
where
    R: AllocGlobal + Eprint + Threads + Wait + Clock + Sync,
    O: Output,
    requires joined { line.now.count ≡ false }
    requires taken { takes_any line.now.request ≡ true }
    ensures written { IfOk result (WritesAsked line.now tables.left.items tables.right.items (O.told writer.old) (O.told writer.new)) }
    ensures fault { IfErr result (λ e. IsAskedFault line.now tables.left.items tables.right.items e.fault) }
    ensures asked { IfErr result (λ e. e.fault ≢ Fault.WriteDevice → AreLinesBy line.now tables.left.items tables.right.items e.fault e.lines) }
    ensures unchanged { IfErr result (λ e. e.fault ≢ Fault.WriteDevice → writer.new ≡ writer.old) }
    ensures told { IfErr result (λ e. e.is_told ≡ true) }
{
    let (alloc, request) = (rt.alloc(), &line.request);
    let files = tables.sizes();
    let operands = match opened(rt, line, progress, &tables) {
        Ok(operands) => operands,
        Err(e) => return Err(e),
    };
    drop(tables);
    match write_joined(rt, alloc, operands, request, progress, writer) {
        Ok(stats) => Ok(Written::Joined(stats)),
        Err(unwritten) => Err(told_by_sizes(alloc, request, files, unwritten)),
    }
}

// Writes what the line asks for of two tables. Bytes are kept only where an error may be explained
// by them.
fn write_asked<R, O>(
    rt: &R,
    line: &Line<'_>,
    progress: &Progress<'_, R>,
    tables: Tables,
    writer: &mut O,
) -> Result<Written, ExplainedFault>
where
    R: AllocGlobal + Eprint + Threads + Wait + Clock + Sync,
    O: Output,
    ensures written { IfOk result (WritesAsked line.now tables.left.items tables.right.items (O.told writer.old) (O.told writer.new)) }
    ensures fault { IfErr result (λ e. IsAskedFault line.now tables.left.items tables.right.items e.fault) }
    ensures unasked { line.now.explain ≡ false → IfErr result (λ e. e.lines ≡ Ok None) }
    ensures asked { line.now.explain ≡ true → IfErr result (λ e. e.fault ≢ Fault.WriteDevice
        → AreLinesBy line.now tables.left.items tables.right.items e.fault e.lines) }
    ensures unchanged { IfErr result (λ e. e.fault ≢ Fault.WriteDevice → writer.new ≡ writer.old) }
    ensures told { IfErr result (λ e. e.is_told ≡ true) }
{
    if !line.explain {
        let Tables { left, right } = tables;
        return match write_bytes(rt, line, progress, left, right, writer) {
            Ok(written) => Ok(written),
            Err(fault) => Err(ExplainedFault::from(fault)),
        };
    }
    if !line.count && takes_any(&line.request) {
        return write_freed(rt, line, progress, tables, writer);
    }
    let inputs = tables.inputs(&line.request);
    let fault = match write_bytes(rt, line, progress, inputs.left, inputs.right, writer) {
        Ok(written) => return Ok(written),
        Err(fault) => fault,
    };
    Err(explained(rt, line, fault, &inputs))
}

/// Writes what the line asks for of two tables, and returns the writer.
///
/// # Errors
///
/// Those of `run` or `count` of `rj_command`, explained if that is asked for. The writer stays as
/// it was, except after `WriteDevice`.
pub(crate) fn write_tables<R, W>(
    rt: &R,
    line: &Line<'_>,
    progress: &Progress<'_, R>,
    tables: Tables,
    writer: W,
) -> (Result<Written, ExplainedFault>, W)
where
    R: AllocGlobal + Eprint + Threads + Wait + Clock + Sync,
    W: Write,
    ensures written { IfOk result.0 (WritesAsked line.now tables.left.items tables.right.items (W.contents writer) (W.contents result.1)) }
    ensures fault { IfErr result.0 (λ e. IsAskedFault line.now tables.left.items tables.right.items e.fault) }
    ensures unasked { line.now.explain ≡ false → IfErr result.0 (λ e. e.lines ≡ Ok None) }
    ensures asked { line.now.explain ≡ true → IfErr result.0 (λ e. e.fault ≢ Fault.WriteDevice → AreLinesBy line.now tables.left.items tables.right.items e.fault e.lines) }
    ensures unwritten { line.now.explain ≡ true → IfErr result.0 (λ e. e.fault ≡ Fault.WriteDevice → e.is_told ≡ true
        → IsThere e.lines (IsSystemLine (output_name (option_map (λ name. name.now) line.now.output)))) }
    ensures unchanged { IfErr result.0 (λ e. e.fault ≢ Fault.WriteDevice → result.1 ≡ writer) }
    ensures told { IfErr result.0 (λ e. e.fault ≢ Fault.WriteDevice → e.is_told ≡ true) }
{
    let mut writer = CountedWriter::new(ErrorRecordingWriter::new(WatchedWriter::new(
        progress, writer,
    )));
    let written = write_asked(rt, line, progress, tables, &mut writer);
    let (writer, error) = writer.into_inner().into_parts();
    let writer = writer.into_inner();
    match written {
        Ok(written) => (Ok(written), writer),
        Err(e) => (Err(with_write_error(rt.alloc(), line, e, &error)), writer),
    }
}
