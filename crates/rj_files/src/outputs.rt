//! Where the result is written: to standard output, or to a file that is none of the tables.

ghost use Rattle.std.specs.Prelude.{◌≡◌, ◌≢◌, ◌⊎◌, IfOk, IfErr, IsSome, None, Ok, OnOk, false, option_map, string_bytes, true};
ghost use Rattle.rj_files.specs.Explained.{AreLinesOf};
ghost use Rattle.rj_files.specs.FaultFiles.{fault_file};
ghost use Rattle.rj_files.specs.Identities.{are_one_file};
ghost use Rattle.rj_files.specs.Outputs.{AreAccepted, AreStandard, IsInputFault, IsJudged, file_of, input_path, judged, output_path};
ghost use Rattle.rj_files.specs.Streams.{IsFaultOf, IsWrittenOf};
ghost use Rattle.rj_files.specs.Told.{IsKept};
ghost use Rattle.rj_files.specs.Unwritten.{IsFolderLine, IsUnmade, IsUnplacedTold};

use crate::draft::{Draft, Unwritten};
use crate::explained::ExplainedFault;
use crate::explaining::{is_unwritten, unwritten};
use crate::fault_file::{names_of, with_file};
use crate::identities::{Identities, Identity};
use crate::joining::Written;
use crate::named::{is_standard_stream, told_by_system};
use crate::progress::Progress;
use crate::reading::Stream;
use crate::streams::write_streams;
use rj_command::Line;
use rj_line::fault::{Fault, Side};
use std::alloc::{AllocError, Global};
use std::fs::Files;
use std::io;
use std::sync::Wait;
use std::thread::Threads;
use std::time::Clock;

// The paths by which the system shows the files of standard input and standard output.
const STANDARD_INPUT: &str = "/proc/self/fd/0";

const STANDARD_OUTPUT: &str = "/proc/self/fd/1";

/// The file of an output's name, or none if the name is `-` or isn't given.
pub(crate) fn file_of(output: Option<&str>) -> Option<&str>
    ensures { option_map (λ name. name.now) result ≡ file_of (option_map (λ name. name.now) output.entry) }
{
    match output {
        Some(name) if !is_standard_stream(name) => Some(name),
        _ => None,
    }
}

/// The file to which the result of a line is written, or none if that is standard output.
pub(crate) fn output_of<'a>(line: &Line<'a>) -> Option<&'a str>
    ensures { option_map (λ name. name.now) result ≡ file_of (option_map (λ name. name.now) line.now.output) }
{
    file_of(line.output)
}

// The path by which the system shows where the result of a line is written.
fn output_path<'a>(line: &Line<'a>) -> &'a str
    ensures { result.now ≡ output_path (option_map (λ name. name.now) line.now.output) }
{
    output_of(line).unwrap_or(STANDARD_OUTPUT)
}

// The path by which the system shows from where a table is read.
fn input_path(name: &str) -> &str
    ensures { result.now ≡ input_path name.now }
{
    if is_standard_stream(name) {
        STANDARD_INPUT
    } else {
        name
    }
}

// Whether two names lead to one regular file.
fn are_one_file(output: Option<Identity>, input: Option<Identity>) -> bool
    ensures { result ≡ are_one_file output input }
{
    match (output, input) {
        (Some(output), Some(input)) => {
            output.is_regular && output.device == input.device && output.number == input.number
        }
        _ => false,
    }
}

// What becomes of a side's table, by the answers to the paths of the output and of the table.
fn judged(
    side: Side,
    output: Result<Option<Identity>, AllocError>,
    input: Result<Option<Identity>, AllocError>,
) -> Result<(), Fault>
    ensures { result ≡ judged side output input }
{
    if are_one_file(output?, input?) {
        return Err(Fault::OutputIsInput(side));
    }
    Ok(())
}

// Refuses a table whose file is the one that is written, as far as the system tells.
fn refuse_input<I: Identities>(files: &I, output: &str, name: &str, side: Side) -> Result<(), Fault>
    ensures { IsJudged (I.answers files.now) side output.now (input_path name.now) result }
{
    judged(
        side,
        files.identity_of(output),
        files.identity_of(input_path(name)),
    )
}

/// Refuses two tables of a line that can't be read, before anything of them is read.
///
/// # Errors
///
/// `TwoStandardInputs` if both are standard input. `OutputIsInput` of the side whose file is the
/// one that is written, by whatever name, as far as the system tells. `Memory` comes only when the
/// system has none.
pub fn refuse_inputs<I: Identities>(files: &I, line: &Line<'_>) -> Result<(), Fault>
    ensures standard { AreStandard line.now.left.now line.now.right.now → result ≡ Err Fault.TwoStandardInputs }
    ensures accepted { OnOk result (AreAccepted (I.answers files.now) (option_map (λ name. name.now) line.now.output) line.now.left.now line.now.right.now) }
    ensures fault { IfErr result (IsInputFault (I.answers files.now) (option_map (λ name. name.now) line.now.output) line.now.left.now line.now.right.now) }
{
    if is_standard_stream(line.left) && is_standard_stream(line.right) {
        return Err(Fault::TwoStandardInputs);
    }
    let output = output_path(line);
    refuse_input(files, output, line.left, Side::Left)?;
    refuse_input(files, output, line.right, Side::Right)
}

/// Refuses a table whose file is the one that standard output writes.
///
/// # Errors
///
/// `OutputIsInput` of the left side, as in [`refuse_inputs`].
pub fn refuse_printed<I: Identities>(files: &I, name: &str) -> Result<(), Fault>
    ensures { IsJudged (I.answers files.now) Side.Left (output_path None) (input_path name.now) result }
{
    refuse_input(files, STANDARD_OUTPUT, name, Side::Left)
}

// The error of an output that can't be made or put in its place, explained if that is asked for.
fn unplaced(alloc: Global, line: &Line<'_>, refused: Unwritten) -> ExplainedFault
    requires { IsSome (file_of (option_map (λ name. name.now) line.now.output)) }
    ensures fault { result.fault ≡ refused.fault }
    ensures told { refused.fault ≢ Fault.WriteDevice → result.is_told ≡ true }
    ensures other { refused.fault ≢ Fault.WriteDevice → result.lines ≡ Ok None }
    ensures unasked { line.now.explain ≡ false → result.lines ≡ Ok None }
    ensures asked { line.now.explain ≡ true → refused.fault ≡ Fault.WriteDevice → result.is_told ≡ true
        → IsUnplacedTold (option_map (λ name. name.now) line.now.output) result.lines }
{
    let Unwritten {
        fault,
        error,
        folder,
    } = refused;
    match folder {
        Some(folder) if line.explain && is_unwritten(&fault) => {
            ExplainedFault::new(fault, told_of_folder(alloc, folder.as_str(), &error))
        }
        _ => unwritten(alloc, output_of(line), line.explain, fault, &error),
    }
}

// The line that tells why no new file can be made in a folder.
fn told_of_folder(
    alloc: Global,
    folder: &str,
    error: &Option<io::Error>,
) -> Result<String, AllocError>
    ensures { IfOk result (λ s. IsFolderLine (string_bytes s)) }
{
    let name = format!(in alloc; "the folder {folder}")?;
    told_by_system(alloc, name.as_str(), error)
}

// Reads two tables and writes what the line asks for into a file, atomically: the file has the
// whole of it, or what it had before.
fn write_file<R, L, S>(
    rt: &R,
    line: &mut Line<'_>,
    progress: &Progress<'_, R>,
    left: &L,
    right: &S,
    name: &str,
) -> Result<Written, ExplainedFault>
where
    R: Files + AllocGlobal + Eprint + Threads + Wait + Clock + Sync,
    L: Stream,
    S: Stream,
    requires { IsSome (file_of (option_map (λ name. name.now) line.old.output)) }
    ensures written { IfOk result (IsWrittenOf line.old line.new (L.tells left.now) (S.tells right.now)) }
    ensures fault { IfErr result (λ e. IsFaultOf line.old line.new (L.tells left.now) (S.tells right.now) e.fault) }
    ensures unasked { line.old.explain ≡ false → IfErr result (λ e. e.lines ≡ Ok None) }
    ensures asked { line.old.explain ≡ true → IfErr result (λ e. e.fault ≢ Fault.WriteDevice
        → IsUnmade (option_map (λ name. name.now) line.old.output) e.fault e.lines
        ⊎ AreLinesOf line.old line.new (L.tells left.now) (S.tells right.now) (L.explains left.now) (S.explains right.now) e.fault e.lines) }
    ensures unwritten { line.old.explain ≡ true → IfErr result (λ e. e.fault ≡ Fault.WriteDevice → e.is_told ≡ true
        → IsUnplacedTold (option_map (λ name. name.now) line.old.output) e.lines) }
    ensures line { record line.new { request = line.old.request } ≡ line.old }
    ensures told { IfErr result (λ e. e.fault ≢ Fault.WriteDevice → e.is_told ≡ true) }
{
    let (draft, file) = match Draft::open(rt, name) {
        Ok(opened) => opened,
        Err(refused) => return Err(unplaced(rt.alloc(), line, refused)),
    };
    let (written, file) = write_streams(rt, line, progress, left, right, file);
    match written {
        Ok(written) => match draft.finish(rt, file) {
            Ok(()) => Ok(written),
            Err(refused) => Err(unplaced(rt.alloc(), line, refused)),
        },
        Err(e) => {
            draft.discard(rt);
            Err(e)
        }
    }
}

// Reads two tables and writes what a line asks for, to standard output or into a file.
fn write_named<R, L, S>(
    rt: &R,
    line: &mut Line<'_>,
    progress: &Progress<'_, R>,
    left: &L,
    right: &S,
) -> Result<Written, ExplainedFault>
where
    R: Files + AllocGlobal + Print + Eprint + Threads + Wait + Clock + Sync,
    L: Stream,
    S: Stream,
    ensures written { IfOk result (IsWrittenOf line.old line.new (L.tells left.now) (S.tells right.now)) }
    ensures fault { IfErr result (λ e. IsFaultOf line.old line.new (L.tells left.now) (S.tells right.now) e.fault) }
    ensures unasked { line.old.explain ≡ false → IfErr result (λ e. e.lines ≡ Ok None) }
    ensures asked { line.old.explain ≡ true → IfErr result (λ e. e.fault ≢ Fault.WriteDevice
        → IsUnmade (option_map (λ name. name.now) line.old.output) e.fault e.lines
        ⊎ AreLinesOf line.old line.new (L.tells left.now) (S.tells right.now) (L.explains left.now) (S.explains right.now) e.fault e.lines) }
    ensures unwritten { line.old.explain ≡ true → IfErr result (λ e. e.fault ≡ Fault.WriteDevice → e.is_told ≡ true
        → IsUnplacedTold (option_map (λ name. name.now) line.old.output) e.lines) }
    ensures line { record line.new { request = line.old.request } ≡ line.old }
    ensures told { IfErr result (λ e. e.fault ≢ Fault.WriteDevice → e.is_told ≡ true) }
{
    match output_of(line) {
        Some(name) => write_file(rt, line, progress, left, right, name),
        None => {
            let (written, _writer) = write_streams(rt, line, progress, left, right, io::writer(rt));
            written
        }
    }
}

/// Reads two tables and writes what a line asks for: to standard output, or into a file,
/// atomically. The file has the whole of it, or what it had before. It returns the statistics of
/// the joined table, or with `--count` the report, if one is asked for.
///
/// # Errors
///
/// Those of [`write_streams`](crate::write_streams). `WriteDevice` also if there can be no such
/// file. A file that can't be made is reported before anything is read. An error of a file has its
/// name, and no other error has one, unless memory ran out for it.
pub fn write_output<R, L, S>(
    rt: &R,
    line: &mut Line<'_>,
    progress: &Progress<'_, R>,
    left: &L,
    right: &S,
) -> Result<Written, ExplainedFault>
where
    R: Files + AllocGlobal + Print + Eprint + Threads + Wait + Clock + Sync,
    L: Stream,
    S: Stream,
    ensures written { IfOk result (IsWrittenOf line.old line.new (L.tells left.now) (S.tells right.now)) }
    ensures fault { IfErr result (λ e. IsFaultOf line.old line.new (L.tells left.now) (S.tells right.now) e.fault) }
    ensures unasked { line.old.explain ≡ false → IfErr result (λ e. e.lines ≡ Ok None) }
    ensures asked { line.old.explain ≡ true → IfErr result (λ e. e.fault ≢ Fault.WriteDevice
        → IsUnmade (option_map (λ name. name.now) line.old.output) e.fault e.lines
        ⊎ AreLinesOf line.old line.new (L.tells left.now) (S.tells right.now) (L.explains left.now) (S.explains right.now) e.fault e.lines) }
    ensures unwritten { line.old.explain ≡ true → IfErr result (λ e. e.fault ≡ Fault.WriteDevice → e.is_told ≡ true
        → IsUnplacedTold (option_map (λ name. name.now) line.old.output) e.lines) }
    ensures line { record line.new { request = line.old.request } ≡ line.old }
    ensures told { IfErr result (λ e. e.fault ≢ Fault.WriteDevice → e.is_told ≡ true) }
    ensures file { IfErr result (λ e. IsKept e.file
        (fault_file line.old.left.now line.old.right.now (option_map (λ name. name.now) line.old.output) e.fault)) }
{
    let names = names_of(line);
    match write_named(rt, line, progress, left, right) {
        Ok(written) => Ok(written),
        Err(e) => Err(with_file(rt.alloc(), names, e)),
    }
}
