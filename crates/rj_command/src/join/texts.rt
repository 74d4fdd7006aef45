//! The texts of the rows that are shown of a joined table, made segment by segment of its left table.

ghost use Rattle.std.specs.Prelude.{◌≡◌, ◌<◌, ℕ, Err, IsTrue, List, OnOk, All, IfOk, IfSome, Ok, Some, length, map, slice_index_or, string_bytes};
ghost use Rattle.std.specs.Fork.{AcceptsEach, ChangesEach};
ghost use Rattle.std.specs.Io.KnownBytes.{Appends};
ghost use Rattle.std.specs.List.{concat};
ghost use Rattle.std.specs.Option.{ForSome};
ghost use Rattle.rj_csv_io.specs.Devices.{CountsFailure};
ghost use Rattle.rj_csv_io.specs.Shown.{table_text};
ghost use Rattle.rj_csv_io.specs.Tables.{is_null_text};
ghost use Rattle.rj_engine.specs.Shown.{IsRunWithin};
ghost use Rattle.rj_engine.specs.declared.runs.Run.{Run};
ghost use Rattle.rj_command.specs.declared.join.texts.Share.{Share};
ghost use Rattle.rj_command.specs.Internal.Ends.{AreEndsOf};
ghost use Rattle.rj_command.specs.Internal.Texts.{AreCounted, AreRunTexts, AreShownOf, AreTextsOf, AreWithin, HasEnds, cells_text, no_table, run_text, shown_cells, text_in, whole_text};

use crate::join::ends::Ends;
use rj_columns::Table;
use rj_csv_io::{
    FirstColumns, Output, OutputFormat, RowEnds, WriteRefused, texts_of_rows, texts_with_ends,
    write_rows_in_parts, write_texts,
};
use rj_engine::{Joined, Run, RunView, Shown, cut_runs, right_rows};
use rj_line::fault::texts_of;
use std::alloc::{AllocError, Global};
use std::sync::atomic::{AtomicU64, Ordering};
use std::thread::{self, Threads};

// A left table that has at least this many rows for each thread is taken apart, so that there are
// segments for each.
const SHARE_ROWS: u64 = 98_304;

// The texts of consecutive rows, one after another.
type Texts = Vec<Vec<u8>>;

/// What is written of a joined table, but for its left table: the rows that are shown of it, under
/// these names, with this delimiter and this text for NULL. At most `workers` threads make their
/// texts, the calling one among them. If the left table is taken apart, the left rows whose texts
/// are made are added to `made`. If the texts of the rows' ends are there, each row is written as its
/// front and the text of its end.
#[derive(Drop)]
pub(crate) struct Written<'a> {
    pub(crate) names: &'a [String],
    pub(crate) right: &'a Table,
    pub(crate) joined: &'a Joined,
    pub(crate) shown: &'a Shown,
    pub(crate) format: OutputFormat<'a>,
    pub(crate) workers: usize,
    pub(crate) made: Option<&'a AtomicU64>,
    pub(crate) ends: &'a Option<Ends>,
}

// A segment of the left table until the texts of its runs are made, and then these texts.
#[derive(Drop)]
struct Share {
    segment: Option<Table>,
    texts: Result<Vec<Texts>, AllocError>,
}

// The texts of a run, each row's front and then the text of its end.
fn texts_by_ends(
    alloc: Global,
    segment: &Table,
    run: Run,
    written: &Written<'_>,
    ends: &Ends,
) -> Result<Texts, AllocError>
    requires within { IsRunWithin segment.now written.now.right.now written.now.joined.now.members written.now.shown.now run }
    requires ends { AreEndsOf written.now.format.delimiter written.now.format.null.now written.now.shown.now written.now.right.now ends.now }
    ensures { IfOk result (λ v. whole_text v ≡ run_text written.now segment.now run) }
{
    let (right, joined, shown) = (written.right, written.joined, written.shown);
    let numbers = right_rows(alloc, joined, shown, run, right.rows() as u32)?;
    let rows = RunView::open(segment, right, joined, shown, run);
    let fronts = FirstColumns {
        source: &rows,
        columns: ends.front,
    };
    let ends = RowEnds {
        texts: &ends.texts,
        numbers: numbers.as_slice(),
    };
    texts_with_ends(alloc, &fronts, &ends, &written.format)
}

// The texts of a run.
fn texts_of_run(
    alloc: Global,
    segment: &Table,
    run: Run,
    written: &Written<'_>,
) -> Result<Texts, AllocError>
    requires within { IsRunWithin segment.now written.now.right.now written.now.joined.now.members written.now.shown.now run }
    requires ends { HasEnds written.now }
    ensures { IfOk result (λ v. whole_text v ≡ run_text written.now segment.now run) }
{
    match written.ends {
        Some(ends) => texts_by_ends(alloc, segment, run, written, ends),
        None => {
            let rows = RunView::open(segment, written.right, written.joined, written.shown, run);
            texts_of_rows(alloc, &rows, &written.format)
        }
    }
}

// The texts of the runs that are in a segment of the left table, in their order.
fn texts_of_segment(
    alloc: Global,
    segment: &Table,
    number: usize,
    written: &Written<'_>,
    runs: &[Run],
) -> Result<Vec<Texts>, AllocError>
    requires { AreWithin written.now segment.now number runs.now }
    ensures { IfOk result (AreRunTexts written.now segment.now number runs.now) }
{
    let mut texts = Vec::new(alloc);
    for run in runs {
        if run.segment() == number {
            texts.push(texts_of_run(alloc, segment, *run, written)?)?;
        }
    }
    Ok(texts)
}

// Notes that the texts of so many left rows are made.
fn count_made(written: &Written<'_>, rows: u64) {
    if let Some(made) = written.made {
        made.fetch_add(rows, Ordering::SeqCst);
    }
}

// Makes the texts of the runs that are in a segment, and frees the segment.
fn make_texts(alloc: Global, share: &mut Share, number: usize, written: &Written<'_>, runs: &[Run])
    requires { ForSome share.old.segment (λ t. AreWithin written.now t number runs.now) }
    ensures { IfSome share.old.segment (λ t. IfOk share.new.texts (AreRunTexts written.now t number runs.now)) }
{
    let Some(segment) = share.segment.take() else {
        return;
    };
    share.texts = texts_of_segment(alloc, &segment, number, written, runs);
    count_made(written, segment.rows());
}

// A share for each segment, whose texts aren't made yet.
fn shares_of(alloc: Global, segments: Vec<Table>) -> Result<Vec<Share>, AllocError>
    ensures { IfOk result (λ v. map (λ s. s.segment) v.items ≡ map (λ t. Some t) segments.items) }
{
    let mut shares = Vec::with_capacity(alloc, segments.len())?;
    for segment in segments {
        shares.push(Share {
            segment: Some(segment),
            texts: Err(AllocError),
        })?;
    }
    Ok(shares)
}

// The texts of all segments, if each was made.
fn all_made(alloc: Global, shares: Vec<Share>) -> Result<Vec<Vec<Texts>>, AllocError>
    ensures { IfOk result (λ v. map (λ s. s.texts) shares.items ≡ map (λ t. Ok t) v.items) }
{
    let mut made = Vec::with_capacity(alloc, shares.len())?;
    for share in shares {
        let Share { segment: _, texts } = share;
        made.push(texts?)?;
    }
    Ok(made)
}

// Calls a task with each item and its number, by at most this many threads, the calling one among
// them. Answers the items as the calls leave them.
fn call_each<R: Threads + Sync, T: Send + Drop, F: Fn(usize, &mut T) + Sync>(
    rt: &R,
    mut items: Vec<T>,
    threads: usize,
    task: &F,
) -> Vec<T>
    requires threads { 0 < threads }
    requires accepts { AcceptsEach F.Fn task.now items.items }
    ensures many { length result.items ≡ length items.items }
    ensures each { ChangesEach F.Fn task.now items.items result.items }
{
    thread::for_each_mut(rt, items.as_mut_slice(), threads, task);
    items
}

// Does the same without the calling thread. New threads reuse the memory that ended ones gave back,
// and the calling thread has none of it.
fn call_each_elsewhere<R: Threads + Sync, T: Send + Drop, F: Fn(usize, &mut T) + Sync>(
    rt: &R,
    items: Vec<T>,
    threads: usize,
    task: &F,
) -> Vec<T>
    requires threads { 0 < threads }
    requires accepts { AcceptsEach F.Fn task.now items.items }
    ensures many { length result.items ≡ length items.items }
    ensures each { ChangesEach F.Fn task.now items.items result.items }
{
    let call = move || -> Vec<T>
        requires { (0 < threads) × AcceptsEach F.Fn task.now items.items }
        ensures many { length result.items ≡ length items.items }
        ensures each { ChangesEach F.Fn task.entry.now items.items result.items }
    { call_each(rt, items, threads, task) };
    let (called, ()) = thread::join(rt, call, || {});
    called
}

// Makes the texts of all shares. Each thread frees its segments one by one, as their texts are made.
fn make_shares<R: Threads + Sync>(
    rt: &R,
    alloc: Global,
    shares: Vec<Share>,
    written: &Written<'_>,
    runs: &[Run],
) -> Vec<Share>
    requires workers { 0 < written.now.workers }
    requires within { (k : ℕ) (d : Share) → k < length shares.items
        → ForSome (slice_index_or shares.items k d).segment (λ t. AreWithin written.now t k runs.now) }
    ensures many { length result.items ≡ length shares.items }
    ensures each { (k : ℕ) (d : Share) → k < length shares.items → IfSome (slice_index_or shares.items k d).segment (λ t.
        IfOk (slice_index_or result.items k d).texts (AreRunTexts written.now t k runs.now)) }
{
    // (what `thread::join` calls tells what it ensures only where it captures plain references)
    call_each_elsewhere(
        rt,
        shares,
        written.workers,
        &|number, share: &mut Share|
            requires { ForSome share.now.segment (λ t. AreWithin written.now t number runs.now) }
            ensures { IfSome share.entry.now.segment (λ t. IfOk share.exit.now.texts (AreRunTexts written.entry.now t number runs.entry.now)) }
        { make_texts(alloc, share, number, written, runs) },
    )
}

// The texts of the runs of each segment.
fn texts_of_segments<R: Threads + Sync>(
    rt: &R,
    alloc: Global,
    segments: Vec<Table>,
    written: &Written<'_>,
    runs: &[Run],
) -> Result<Vec<Vec<Texts>>, AllocError>
    requires workers { 0 < written.now.workers }
    requires within { (k : ℕ) → k < length segments.items
        → AreWithin written.now (slice_index_or segments.items k no_table) k runs.now }
    ensures { IfOk result (λ v. (length v.items ≡ length segments.items)
        × AreTextsOf (text_in written.now segments.items) runs.now v.items) }
{
    let shares = shares_of(alloc, segments)?;
    let made = make_shares(rt, alloc, shares, written, runs);
    all_made(alloc, made)
}

// The texts of the runs, in the runs' order: those of each segment are in the order of its runs.
fn in_order(alloc: Global, mut made: Vec<Vec<Texts>>, runs: &[Run]) -> Result<Texts, AllocError>
    requires segments { All (λ run. run.segment < length made.items) runs.now }
    requires count { AreCounted runs.now made.items }
    ensures { (text : Run → List ℕ) → AreTextsOf text runs.now made.items → IfOk result (λ v. whole_text v ≡ concat (map text runs.now)) }
{
    let mut texts = Vec::new(alloc);
    for run in runs {
        let own = &mut made[run.segment()];
        let mut next = own.remove(0);
        texts.append(&mut next)?;
    }
    Ok(texts)
}

// The texts of the runs of these segments, in the runs' order.
fn texts_of_runs<R: Threads + Sync>(
    rt: &R,
    alloc: Global,
    segments: Vec<Table>,
    written: &Written<'_>,
    runs: &[Run],
) -> Result<Texts, AllocError>
    requires workers { 0 < written.now.workers }
    requires segments { All (λ run. run.segment < length segments.items) runs.now }
    requires within { (k : ℕ) → k < length segments.items
        → AreWithin written.now (slice_index_or segments.items k no_table) k runs.now }
    ensures { IfOk result (λ v. whole_text v ≡ concat (map (text_in written.now segments.items) runs.now)) }
{
    let made = texts_of_segments(rt, alloc, segments, written, runs)?;
    in_order(alloc, made, runs)
}

// The texts of the rows that are shown, one after another. The left table is taken apart into
// segments of at most 65,536 rows. A thread takes segments one after another, and frees each as soon
// as the texts of its rows are there. It fails only when memory runs out.
fn texts_of_joined<R: Threads + Sync>(
    rt: &R,
    alloc: Global,
    left: Table,
    written: &Written<'_>,
) -> Result<Texts, AllocError>
    requires workers { 0 < written.now.workers }
    requires shown { AreShownOf written.now left }
    requires ends { HasEnds written.now }
    ensures { IfOk result (λ v. whole_text v ≡ cells_text written.now.format.delimiter written.now.format.null.now (shown_cells written.now left)) }
{
    let _rows = left.rows();
    let segments = left.into_segments(alloc)?;
    let runs = cut_runs(alloc, &segments, written.joined, written.shown)?;
    texts_of_runs(rt, alloc, segments, written, &runs)
}

// Writes a header and then the rows that are shown. Their texts are made segment by segment of the
// left table.
fn write_segments<R: Threads + Sync, O: Output>(
    rt: &R,
    alloc: Global,
    writer: &mut O,
    header: &[&str],
    left: Table,
    written: &Written<'_>,
) -> Result<(), WriteRefused>
    requires workers { 0 < written.now.workers }
    requires shown { AreShownOf written.now left }
    requires ends { HasEnds written.now }
    ensures ok { OnOk result (Appends (O.told writer.old) (O.told writer.new)
        (table_text written.now.format.delimiter written.now.format.null.now (map (λ n. n.now) header.now) (shown_cells written.now left))) }
    ensures memory { result ≡ Err WriteRefused.Memory → writer.new ≡ writer.old }
    ensures count { CountsFailure result WriteRefused.WriteDevice (O.count writer.new) (O.count writer.old) }
{
    let Ok(texts) = texts_of_joined(rt, alloc, left, written) else {
        return Err(WriteRefused::Memory);
    };
    write_texts(
        alloc,
        writer,
        header,
        texts.as_slice(),
        written.format.delimiter,
    )
}

// Writes the same with the rows divided evenly among the threads, and the left table whole.
fn write_whole<R: Threads + Sync, O: Output>(
    rt: &R,
    alloc: Global,
    writer: &mut O,
    header: &[&str],
    left: &Table,
    written: &Written<'_>,
) -> Result<(), WriteRefused>
    requires shown { AreShownOf written.now left.now }
    requires header { length header.now ≡ length written.now.shown.now.origins.items }
    requires null { IsTrue (is_null_text written.now.format.null.now) }
    ensures ok { OnOk result (Appends (O.told writer.old) (O.told writer.new)
        (table_text written.now.format.delimiter written.now.format.null.now (map (λ n. n.now) header.now) (shown_cells written.now left.now))) }
    ensures memory { result ≡ Err WriteRefused.Memory → writer.new ≡ writer.old }
    ensures count { CountsFailure result WriteRefused.WriteDevice (O.count writer.new) (O.count writer.old) }
{
    let rows = RunView::whole(left, written.right, written.joined, written.shown);
    let (format, workers) = (&written.format, written.workers);
    write_rows_in_parts(rt, alloc, writer, header, &rows, format, workers)
}

/// Whether a left table has segments for each of this many threads.
pub(crate) fn has_shares(left: &Table, workers: usize) -> bool {
    left.rows() / SHARE_ROWS >= workers as u64
}

/// Writes the names as a header, and then the rows that are shown of the joined table of two tables.
/// All texts are made before the first is put. A left table of many rows is freed segment by segment,
/// as the texts of its rows are made. If it has few, the rows are divided evenly among the threads,
/// unless the texts of the rows' ends are there.
///
/// # Errors
///
/// `Memory` if memory ran out: the device stays as it was. `WriteDevice` if the device failed: how
/// much it took is unknown.
pub(crate) fn write_shown<R: Threads + Sync, O: Output>(
    rt: &R,
    alloc: Global,
    writer: &mut O,
    left: Table,
    written: &Written<'_>,
) -> Result<(), WriteRefused>
    requires shown { AreShownOf written.now left }
    requires ends { HasEnds written.now }
    requires names { length written.now.names.now ≡ length written.now.shown.now.origins.items }
    requires null { IsTrue (is_null_text written.now.format.null.now) }
    ensures ok { OnOk result (Appends (O.told writer.old) (O.told writer.new)
        (table_text written.now.format.delimiter written.now.format.null.now (map string_bytes written.now.names.now) (shown_cells written.now left))) }
    ensures memory { result ≡ Err WriteRefused.Memory → writer.new ≡ writer.old }
    ensures count { CountsFailure result WriteRefused.WriteDevice (O.count writer.new) (O.count writer.old) }
{
    let Ok(header) = texts_of(alloc, written.names) else {
        return Err(WriteRefused::Memory);
    };
    let header = header.as_slice();
    if written.workers > 0 && (written.ends.is_some() || has_shares(&left, written.workers)) {
        return write_segments(rt, alloc, writer, header, left, written);
    }
    write_whole(rt, alloc, writer, header, &left, written)
}
