//! What a join of two files takes in memory, as far as that is known when memory has run out.

ghost use Rattle.std.specs.Prelude.{◌≡◌, IfOk, false, string_bytes};
ghost use Rattle.rj_command.specs.Sizes.{IsBound};
ghost use Rattle.rj_files.specs.Memory as memory;
ghost use Rattle.rj_files.specs.Memory.{AreFilesOf, IsMemoryTold, IsMoreTold, files_text, members_text, sizes_text, unknown_text};

use rj_command::{Known, Line, Request, Sizes, early_sizes};
use rj_engine::Counts;
use rj_explain::Inputs;
use rj_line::fault::Fault;
use std::alloc::{AllocError, Global};
use std::thread::Threads;

// The line if memory runs out once more.
const TABLES_TEXT: &str =
    "  it ran out once more when these were looked at again: the likely cause is the tables\n";

/// How many bytes the two files have.
#[derive(Clone, Copy)]
pub(crate) struct FileSizes {
    pub(crate) left: u64,
    pub(crate) right: u64,
}

// A number of bytes, in whole kB or MB if it is large.
fn size_text(alloc: Global, bytes: u64) -> Result<String, AllocError>
    ensures { IfOk result (λ s. string_bytes s ≡ memory.size_text bytes) }
{
    if bytes < 10_000 {
        return format!(in alloc; "{bytes} bytes");
    }
    if bytes < 10_000_000 {
        let thousands = bytes / 1000;
        return format!(in alloc; "{thousands} kB");
    }
    let millions = bytes / 1_000_000;
    format!(in alloc; "{millions} MB")
}

// The line for the files and their tables.
fn files_line(alloc: Global, files: FileSizes) -> Result<String, AllocError>
    ensures { IfOk result (λ s. string_bytes s ≡ files_text files) }
{
    let (left, right) = (
        size_text(alloc, files.left)?,
        size_text(alloc, files.right)?,
    );
    format!(in alloc;
        "  the files have {left} and {right}, and their tables take about as much again\n"
    )
}

// The mean length of a file's rows.
fn mean_length(bytes: u64, rows: u64) -> u64
    ensures { result ≡ memory.mean_length bytes rows }
{
    if rows == 0 {
        return 0;
    }
    bytes / rows
}

// The number of members of a kind, if these are written.
fn count_if(is_written: bool, members: u64) -> u64
    ensures { result ≡ memory.count_if is_written members }
{
    if is_written { members } else { 0 }
}

// About how many bytes the text of these members has from one file, whose rows have this length.
fn part_bytes(pairs: u64, lone: u64, mean: u64) -> u64
    ensures { result ≡ memory.part_bytes pairs lone mean }
{
    pairs.saturating_add(lone).saturating_mul(mean)
}

// About how many bytes the text has of what is written, with all columns.
fn text_bytes(request: &Request<'_>, files: FileSizes, sizes: &Sizes, members: Counts) -> u64
    ensures { result ≡ memory.text_bytes request.now files sizes.now members }
{
    let kinds = request.choice.rows;
    let pairs = count_if(kinds.pairs, members.pairs);
    let lone_left = count_if(kinds.lone_left, members.lone_left);
    let lone_right = count_if(kinds.lone_right, members.lone_right);
    let left = part_bytes(pairs, lone_left, mean_length(files.left, sizes.left_rows));
    let right = part_bytes(
        pairs,
        lone_right,
        mean_length(files.right, sizes.right_rows),
    );
    count_if(kinds.matched_left, files.left)
        .saturating_add(left)
        .saturating_add(right)
}

// What is largest of the tables, the matches and the text.
fn likely_cause(tables: u64, matches: u64, text: u64) -> &'static str
    ensures { result.now ≡ memory.likely_cause tables matches text }
{
    if tables < text && matches < text {
        return "the text of the result";
    }
    if tables < matches {
        return "the matches";
    }
    "the tables, or the stacks of too many --workers"
}

// The rows of a joined table.
fn rows_of(members: Counts) -> u64
    ensures { result ≡ memory.rows_of members }
{
    members
        .pairs
        .saturating_add(members.lone_left)
        .saturating_add(members.lone_right)
}

// How many bytes its list of matches has.
fn match_bytes(members: Counts) -> u64
    ensures { result ≡ memory.match_bytes members }
{
    members.pairs.saturating_mul(8)
}

// The lines for so many rows, by the bytes of their matches and of their text, and the likely cause.
#[tactic(auto, unfolding(crate::specs::Memory::joined_text))]
fn joined_lines(
    alloc: Global,
    rows: u64,
    matches: u64,
    text: u64,
    cause: &str,
) -> Result<String, AllocError>
    ensures { IfOk result (λ s. string_bytes s ≡ memory.joined_text rows matches text cause.now) }
{
    let (matches, text) = (size_text(alloc, matches)?, size_text(alloc, text)?);
    format!(in alloc;
        "  the joined table has {rows} rows, and its matches take {matches}\n  the text of what is written takes about {text}, if it has all columns\n  so the likely cause is {cause}\n"
    )
}

// The lines for a joined table whose members are known.
fn members_lines(
    alloc: Global,
    request: &Request<'_>,
    files: FileSizes,
    sizes: &Sizes,
    members: Counts,
) -> Result<String, AllocError>
    ensures { IfOk result (λ s. string_bytes s ≡ members_text request.now files sizes.now members) }
{
    let (rows, matches) = (rows_of(members), match_bytes(members));
    let text = text_bytes(request, files, sizes, members);
    let cause = likely_cause(files.left.saturating_add(files.right), matches, text);
    joined_lines(alloc, rows, matches, text, cause)
}

// The line for a joined table whose members aren't known before it is made.
fn unknown_line(alloc: Global, files: FileSizes, sizes: &Sizes) -> Result<String, AllocError>
    ensures { IfOk result (λ s. string_bytes s ≡ unknown_text files sizes.now) }
{
    let left = mean_length(files.left, sizes.left_rows);
    let mean = left.saturating_add(mean_length(files.right, sizes.right_rows));
    format!(in alloc;
        "  how many rows match isn't known before the join, since the clause has more than equalities\n  each match takes 8 bytes, and about {mean} bytes of text\n"
    )
}

// The lines for tables and a joined table of these sizes.
fn sizes_lines(
    alloc: Global,
    request: &Request<'_>,
    files: FileSizes,
    sizes: &Sizes,
) -> Result<String, AllocError>
    ensures { IfOk result (λ s. string_bytes s ≡ sizes_text request.now files sizes.now) }
{
    match sizes.members {
        Some(members) => members_lines(alloc, request, files, sizes, members),
        None => unknown_line(alloc, files, sizes),
    }
}

// The lines behind that for the files. Both tables are read once more for them.
fn more_lines<R: AllocGlobal + Threads + Sync>(
    rt: &R,
    inputs: &Inputs<'_, '_>,
    files: FileSizes,
) -> Result<String, AllocError>
    requires { files ≡ memory.sizes_of inputs.now }
    ensures { IfOk result (λ s. IsMoreTold inputs.now (string_bytes s)) }
{
    let (alloc, request) = (rt.alloc(), inputs.request);
    match early_sizes(rt, alloc, inputs.left, inputs.right, request) {
        Ok(sizes) => sizes_lines(alloc, request, files, &sizes),
        Err(Fault::Memory) => String::from_str(alloc, TABLES_TEXT),
        Err(_) => Ok(String::new(alloc)),
    }
}

/// The lines for running out of memory in what a line asks for of two files: how large these are,
/// and for a joined table that is written how large it is, and what of all likely didn't fit.
///
/// # Errors
///
/// It fails only when memory runs out.
pub(crate) fn memory_lines<R: AllocGlobal + Threads + Sync>(
    rt: &R,
    line: &Line<'_>,
    inputs: &Inputs<'_, '_>,
) -> Result<String, AllocError>
    ensures { IfOk result (λ s. IsMemoryTold line.now.count inputs.now (string_bytes s)) }
{
    let files = FileSizes {
        left: inputs.left.len() as u64,
        right: inputs.right.len() as u64,
    };
    let mut lines = files_line(rt.alloc(), files)?;
    if line.count {
        return Ok(lines);
    }
    let more = more_lines(rt, inputs, files)?;
    lines.push_str(more.as_str())?;
    Ok(lines)
}

// The lines behind that for the files, by what is known of their tables.
fn known_lines(
    alloc: Global,
    request: &Request<'_>,
    files: FileSizes,
    known: &Known,
) -> Result<String, AllocError>
    requires { IsBound known.now }
    ensures { (inputs : Inputs) → AreFilesOf inputs known.now → files ≡ memory.sizes_of inputs → request.now ≡ inputs.request.now
        → IfOk result (λ s. IsMoreTold inputs (string_bytes s)) }
{
    match known.sizes(alloc) {
        Ok(sizes) => sizes_lines(alloc, request, files, &sizes),
        Err(_) => String::from_str(alloc, TABLES_TEXT),
    }
}

/// The lines of [`memory_lines`] for a joined table that isn't written, by what is known of its
/// tables. The bytes of their files aren't needed.
///
/// # Errors
///
/// It fails only when memory runs out.
pub(crate) fn memory_lines_by(
    alloc: Global,
    request: &Request<'_>,
    files: FileSizes,
    known: &Known,
) -> Result<String, AllocError>
    requires { IsBound known.now }
    ensures { (inputs : Inputs) → AreFilesOf inputs known.now → files ≡ memory.sizes_of inputs → request.now ≡ inputs.request.now
        → IfOk result (λ s. IsMemoryTold false inputs (string_bytes s)) }
{
    let mut lines = files_line(alloc, files)?;
    let more = known_lines(alloc, request, files, known)?;
    lines.push_str(more.as_str())?;
    Ok(lines)
}
