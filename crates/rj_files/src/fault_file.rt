//! The file that an error is of.

ghost use Rattle.std.specs.Prelude.{◌≡◌, option_map};
ghost use Rattle.rj_files.specs.FaultFiles.{fault_file, table_name};
ghost use Rattle.rj_files.specs.Told.{IsKept};

use crate::explained::ExplainedFault;
use crate::named::is_standard_stream;
use crate::outputs::file_of;
use rj_command::Line;
use rj_line::fault::{Fault, Side};
use std::alloc::{AllocError, Global};

/// The names of the files of a line: of the tables, and of the output, if it has one.
#[derive(Clone, Copy)]
pub(crate) struct FileNames<'a> {
    left: &'a str,
    right: &'a str,
    output: Option<&'a str>,
}

/// Those that a line gives.
pub(crate) fn names_of<'a>(line: &Line<'a>) -> FileNames<'a>
    ensures left { result.left.now ≡ line.now.left.now }
    ensures right { result.right.now ≡ line.now.right.now }
    ensures output { option_map (λ name. name.now) result.output ≡ option_map (λ name. name.now) line.now.output }
{
    FileNames {
        left: line.left,
        right: line.right,
        output: line.output,
    }
}

// A table by its file's name.
fn table_name(name: &str) -> &str
    ensures { result.now ≡ table_name name.now }
{
    if is_standard_stream(name) {
        "standard input"
    } else {
        name
    }
}

// The file that can't be read or written, if that is the error.
fn fault_file<'a>(names: FileNames<'a>, fault: &Fault) -> Option<&'a str>
    ensures { option_map (λ name. name.now) result
        ≡ fault_file names.entry.left.now names.entry.right.now (option_map (λ name. name.now) names.entry.output) fault.now }
{
    match fault {
        Fault::ReadDevice(Side::Left) => Some(table_name(names.left)),
        Fault::ReadDevice(Side::Right) => Some(table_name(names.right)),
        Fault::WriteDevice => Some(file_of(names.output).unwrap_or("standard output")),
        _ => None,
    }
}

// A copy of a name.
fn copied(alloc: Global, name: Option<&str>) -> Result<Option<String>, AllocError>
    ensures { IsKept result (option_map (λ name. name.now) name.entry) }
{
    match name {
        Some(name) => Ok(Some(String::from_str(alloc, name)?)),
        None => Ok(None),
    }
}

/// The same error, of the file that can't be read or written, if that is why.
pub(crate) fn with_file(alloc: Global, names: FileNames<'_>, e: ExplainedFault) -> ExplainedFault
    ensures fault { result.fault ≡ e.fault }
    ensures lines { result.lines ≡ e.lines }
    ensures told { result.is_told ≡ e.is_told }
    ensures file { IsKept result.file
        (fault_file names.entry.left.now names.entry.right.now (option_map (λ name. name.now) names.entry.output) e.fault) }
{
    let file = copied(alloc, fault_file(names, e.fault()));
    e.of_file(file)
}
