//! The types that a line takes from the cells of its tables, and what is told of them.

ghost use Rattle.std.specs.Prelude.{◌≡◌, IfErr, OnErr, OnOk, true};
ghost use Rattle.rj_files.specs.Streams.{IsCompletedLine};

use crate::joining::Tables;
use crate::progress::Progress;
use rj_command::{Line, TypeEntry, complete_types};
use rj_line::fault::Fault;
use rj_line::suggest::list_of_entries;
use std::time::Clock;

// Tells the types that were taken for the columns of a file.
fn tell_entries<R: AllocGlobal + Eprint>(rt: &R, name: &str, entries: &[TypeEntry]) {
    if entries.is_empty() {
        return;
    }
    if let Ok(Some(list)) = list_of_entries(rt.alloc(), entries) {
        let _ = eprintln!(rt; "radixjoin: {name}: {list}");
    }
}

// Tells the types that a line took, behind so many entries of each list.
fn tell_taken<R: AllocGlobal + Eprint>(rt: &R, line: &Line<'_>, lefts: usize, rights: usize) {
    let left = entries_behind(line.request.left_types.as_slice(), lefts);
    let right = entries_behind(line.request.right_types.as_slice(), rights);
    tell_entries(rt, line.left, left);
    tell_entries(rt, line.right, right);
    if left.is_empty() && right.is_empty() {
        let _ = eprintln!(rt; "radixjoin: --types auto takes no type");
    }
}

// The entries behind so many.
fn entries_behind(entries: &[TypeEntry], count: usize) -> &[TypeEntry] {
    match entries.get(count..) {
        Some(behind) => behind,
        None => &[],
    }
}

/// Completes the lists of a line that takes types from the cells of its tables, and tells which,
/// unless it is quiet. Any other line stays as it is.
///
/// # Errors
///
/// It fails only when memory runs out.
pub(crate) fn complete_line<R: AllocGlobal + Clock + Eprint>(
    rt: &R,
    line: &mut Line<'_>,
    progress: &Progress<'_, R>,
    tables: &Tables,
) -> Result<(), Fault>
    ensures completed { OnOk result (IsCompletedLine tables.now.left.items tables.now.right.items line.old line.new) }
    ensures fault { IfErr result (λ f. f ≡ Fault.Memory) }
    ensures auto_types { OnErr result (line.old.request.auto_types ≡ true) }
    ensures line { record line.new { request = line.old.request } ≡ line.old }
{
    if !line.request.auto_types {
        return Ok(());
    }
    let (lefts, rights) = (
        line.request.left_types.len(),
        line.request.right_types.len(),
    );
    let (left, right) = (tables.left.as_slice(), tables.right.as_slice());
    complete_types(rt.alloc(), left, right, &mut line.request)?;
    if !line.quiet {
        progress.clear();
        tell_taken(rt, line, lefts, rights);
    }
    Ok(())
}
