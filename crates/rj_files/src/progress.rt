//! The progress of a run, shown on standard error if that is a terminal. Contracts say of which
//! runs it isn't shown, and none says when it is: the runs of `rj_command` meet theirs for every
//! watch.

ghost use Rattle.std.specs.Prelude.{◌≡◌, false, option_map, true};
ghost use Rattle.rj_files.specs.Outputs.{input_side};
ghost use Rattle.rj_files.specs.Shares.{cuts_of, handed, joined, parts, share};
ghost use Rattle.rj_files.specs.Terminals.{is_shown, shares_terminal, side_by_hand};

use crate::message::{CLEARED, Message};
use crate::named::is_standard_stream;
use crate::outputs::output_of;
use rj_command::{Gate, Line, Place, Step, Watch};
use rj_line::Request;
use rj_line::fault::Side;
use std::sync::Wait;
use std::sync::atomic::{AtomicBool, AtomicU64, Ordering};
use std::thread::Parker;
use std::time::{Clock, Duration};

// Milliseconds after which it is shown if that isn't asked for.
const PATIENCE: u64 = 2000;

// Milliseconds for which a line stays at least, unless it is of an earlier step.
const PAUSE: u64 = 200;

/// Which of the standard streams are terminals.
#[derive(Clone, Copy)]
pub struct Terminals {
    /// Standard input.
    pub input: bool,
    /// Standard output.
    pub output: bool,
    /// Standard error.
    pub error: bool,
}

// The steps of a run, in their order, as lines show them.
#[derive(Clone, Copy)]
enum Stage {
    LeftFile,
    RightFile,
    LeftTable,
    RightTable,
    Partitioning,
    Joining,
    Writing,
}

// Into what the tables of a join are cut. The numbers are those of its settings.
#[derive(Clone, Copy)]
struct Cuts {
    workers: u64,
    partitions: u64,
    block: u64,
    piece: u64,
}

/// The progress of a run. All its threads share it.
#[derive(Drop)]
pub struct Progress<'a, R> {
    rt: &'a R,
    // Whether the rows that are written go to a terminal, and the side whose table is typed by
    // hand, if there is one.
    shares_terminal: bool,
    by_hand: Option<Side>,
    cuts: Cuts,
    // Whether it is shown at all, the time of the clock, in milliseconds, from which it is, and from
    // which a further line of a step is.
    is_shown: bool,
    from: u64,
    next: AtomicU64,
    // Whether a line is there, and whether none is shown any more.
    stands: AtomicBool,
    is_over: AtomicBool,
    // Whether the run has ended, and where a thread that waits for that is parked.
    has_ended: AtomicBool,
    parker: Parker,
    // The number of the current step, or 0 before the first.
    stage: AtomicU64,
    // The bytes that were read from each file, and about how many it has, or 0.
    left_bytes: AtomicU64,
    right_bytes: AtomicU64,
    left_size: AtomicU64,
    right_size: AtomicU64,
    // The rows of each table, the parcels that were posted, the partition of the first piece, plus
    // one, and the last piece with its partition.
    left_rows: AtomicU64,
    right_rows: AtomicU64,
    posted: AtomicU64,
    first: AtomicU64,
    partition: AtomicU64,
    piece: AtomicU64,
    // The rows that are written, the left rows whose texts are made, if these are counted, and the
    // bytes that were written.
    written_rows: AtomicU64,
    made_rows: AtomicU64,
    written_bytes: AtomicU64,
}

// The number of a step, by which threads share it.
fn number_of(stage: Stage) -> u64 {
    match stage {
        Stage::LeftFile => 1,
        Stage::RightFile => 2,
        Stage::LeftTable => 3,
        Stage::RightTable => 4,
        Stage::Partitioning => 5,
        Stage::Joining => 6,
        Stage::Writing => 7,
    }
}

// The step of a number.
fn stage_of(number: u64) -> Option<Stage> {
    match number {
        1 => Some(Stage::LeftFile),
        2 => Some(Stage::RightFile),
        3 => Some(Stage::LeftTable),
        4 => Some(Stage::RightTable),
        5 => Some(Stage::Partitioning),
        6 => Some(Stage::Joining),
        7 => Some(Stage::Writing),
        _ => None,
    }
}

// Into what the settings of a join cut its tables.
fn cuts_of(request: &Request<'_>) -> Cuts
    ensures { result ≡ cuts_of request.now }
{
    let settings = &request.settings;
    Cuts {
        workers: u64::from(settings.workers),
        partitions: 1 << settings.bits1,
        block: u64::from(settings.block),
        piece: u64::from(settings.piece),
    }
}

// How many parts of `size` rows the rows make.
fn parts_of(rows: u64, size: u64) -> u64
    ensures { result ≡ parts rows size }
{
    if size == 0 {
        return 0;
    }
    rows.div_ceil(size)
}

// The same share of these rows as `this` is of `all`, and never more than there are.
fn share_of(rows: u64, this: u64, all: u64) -> u64
    ensures { result ≡ share rows this all }
{
    if all == 0 {
        return 0;
    }
    (rows.saturating_mul(this) / all).min(rows)
}

// About how many of the rows of both tables were handed to partitions, when this many parcels were
// posted. A sender has a list for each partition, of blocks and a close.
fn handed_rows(cuts: Cuts, rows: u64, posted: u64) -> u64
    ensures { result ≡ handed cuts rows posted }
{
    let lists = cuts
        .workers
        .saturating_mul(2)
        .saturating_mul(cuts.partitions);
    let blocks = parts_of(parts_of(rows, lists), cuts.block);
    share_of(rows, posted, lists.saturating_mul(blocks.saturating_add(1)))
}

// About how many of the rows of the larger table were joined, after this many partitions and this
// many pieces of the next one.
fn joined_rows(cuts: Cuts, rows: u64, behind: u64, pieces: u64) -> u64
    ensures { result ≡ joined cuts rows behind pieces }
{
    let before = share_of(rows, behind, cuts.partitions);
    let size = parts_of(rows, cuts.workers.saturating_mul(4)).min(cuts.piece);
    before.saturating_add(pieces.saturating_mul(size)).min(rows)
}

// The side of a line whose table is standard input.
fn side_of_input(line: &Line<'_>) -> Option<Side>
    ensures { result ≡ input_side line.now.left.now line.now.right.now }
{
    if is_standard_stream(line.left) {
        return Some(Side::Left);
    }
    if is_standard_stream(line.right) {
        Some(Side::Right)
    } else {
        None
    }
}

// The side of a line whose table is typed by hand, at a terminal that is standard input.
fn side_by_hand(line: &Line<'_>, terminals: Terminals) -> Option<Side>
    ensures { result ≡ side_by_hand terminals line.now.left.now line.now.right.now }
{
    if terminals.input {
        side_of_input(line)
    } else {
        None
    }
}

// The milliseconds of a clock, or 0 if it can't be read.
fn milliseconds<R: Clock>(rt: &R) -> u64 {
    match rt.monotonic() {
        Ok(time) => time
            .as_secs()
            .saturating_mul(1000)
            .saturating_add(u64::from(time.subsec_millis())),
        Err(_) => 0,
    }
}

impl<'a, R: Clock> Progress<'a, R> {
    /// The progress of a run that begins now. It is shown at once if the line asks for it, never if
    /// the line is quiet, and else after two seconds. If rows go to a terminal, nothing is shown
    /// once they come.
    pub fn of(rt: &'a R, line: &Line<'_>, terminals: Terminals) -> Progress<'a, R>
        ensures runtime { result.rt ≡ rt.entry }
        ensures cuts { result.cuts ≡ cuts_of line.now.request }
        ensures shown { result.is_shown ≡ is_shown terminals line.now.quiet }
        ensures terminal { result.shares_terminal ≡ shares_terminal terminals (option_map (λ name. name.now) line.now.output) }
        ensures by_hand { result.by_hand ≡ side_by_hand terminals line.now.left.now line.now.right.now }
    {
        let patience = if line.progress { 0 } else { PATIENCE };
        let from = milliseconds(rt).saturating_add(patience);
        let is_shown = terminals.error && !line.quiet;
        let mut progress = Progress::from(rt, from, cuts_of(&line.request), is_shown);
        progress.shares_terminal = terminals.output && output_of(line).is_none();
        progress.by_hand = side_by_hand(line, terminals);
        progress
    }

    /// Progress that is never shown.
    pub(crate) fn hidden(rt: &'a R) -> Progress<'a, R>
        ensures { result.is_shown ≡ false }
    {
        let cuts = Cuts {
            workers: 1,
            partitions: 1,
            block: 1,
            piece: 1,
        };
        Progress::from(rt, 0, cuts, false)
    }

    // Progress that is shown from a time of the clock on, if it is shown at all.
    fn from(rt: &'a R, from: u64, cuts: Cuts, is_shown: bool) -> Progress<'a, R>
        ensures runtime { result.rt ≡ rt.entry }
        ensures cuts { result.cuts ≡ cuts }
        ensures shown { result.is_shown ≡ is_shown }
    {
        Progress {
            rt,
            shares_terminal: false,
            by_hand: None,
            cuts,
            is_shown,
            from,
            next: AtomicU64::new(from),
            stands: AtomicBool::new(false),
            is_over: AtomicBool::new(false),
            has_ended: AtomicBool::new(false),
            parker: Parker::new(),
            stage: AtomicU64::new(0),
            left_bytes: AtomicU64::new(0),
            right_bytes: AtomicU64::new(0),
            left_size: AtomicU64::new(0),
            right_size: AtomicU64::new(0),
            left_rows: AtomicU64::new(0),
            right_rows: AtomicU64::new(0),
            posted: AtomicU64::new(0),
            first: AtomicU64::new(0),
            partition: AtomicU64::new(0),
            piece: AtomicU64::new(0),
            written_rows: AtomicU64::new(0),
            made_rows: AtomicU64::new(0),
            written_bytes: AtomicU64::new(0),
        }
    }

    // Whether a side's table is typed by hand, at a terminal that is standard input. Nothing is
    // shown then.
    fn is_written_by_hand(&self, side: Side) -> bool {
        self.by_hand == Some(side)
    }

    // Whether a further line of a step is to be shown. Among threads that ask at the same time, one
    // gets the answer yes.
    fn is_due(&self) -> bool
        ensures { self.now.is_shown ≡ false → result ≡ false }
    {
        if !self.is_shown || self.is_over.load(Ordering::SeqCst) {
            return false;
        }
        let now = milliseconds(self.rt);
        let next = self.next.load(Ordering::SeqCst);
        let after = now.saturating_add(PAUSE);
        now >= next
            && self
                .next
                .compare_exchange(next, after, Ordering::SeqCst, Ordering::SeqCst)
                .is_ok()
    }

    // Whether the first line of a step is to be shown. The step may be a long one without a further
    // line.
    fn is_begun(&self) -> bool
        ensures { self.now.is_shown ≡ false → result ≡ false }
    {
        if !self.is_shown || self.is_over.load(Ordering::SeqCst) {
            return false;
        }
        let now = milliseconds(self.rt);
        let after = now.saturating_add(PAUSE);
        self.next.store(after.max(self.from), Ordering::SeqCst);
        now >= self.from
    }

    // Notes that a step begins.
    fn reach(&self, stage: Stage) {
        self.stage.store(number_of(stage), Ordering::SeqCst);
    }

    // The bytes that were read from a side's file.
    fn bytes_of(&self, side: Side) -> &AtomicU64 {
        match side {
            Side::Left => &self.left_bytes,
            Side::Right => &self.right_bytes,
        }
    }

    // About how many bytes a side's file has, or 0.
    fn size_of(&self, side: Side) -> &AtomicU64 {
        match side {
            Side::Left => &self.left_size,
            Side::Right => &self.right_size,
        }
    }

    // The line of a side's file, unless its table is typed by hand.
    fn file_line(&self, side: Side) -> Option<Message> {
        if self.is_written_by_hand(side) {
            return None;
        }
        let bytes = self.bytes_of(side).load(Ordering::SeqCst);
        let size = self.size_of(side).load(Ordering::SeqCst);
        Some(Message::File { side, bytes, size })
    }

    // The line of a table that is read from the bytes of its file.
    fn table_line(&self, side: Side) -> Message {
        let bytes = self.bytes_of(side).load(Ordering::SeqCst);
        Message::Table { side, bytes }
    }

    // The line of the rows that were handed to partitions.
    fn partitioning_line(&self) -> Message {
        let (done, rows) = self.partitioned(self.posted.load(Ordering::SeqCst));
        Message::Partitioned { done, rows }
    }

    // The line of the rows that were joined.
    fn joining_line(&self) -> Message {
        let partition = self.partition.load(Ordering::SeqCst);
        let piece = self.piece.load(Ordering::SeqCst);
        let (done, rows) = self.joined(partition, piece);
        Message::Joined { done, rows }
    }

    // The line of the rows whose text is made.
    fn making_line(&self, rows: u64) -> Message {
        let left = self.left_rows.load(Ordering::SeqCst);
        match self.made_rows.load(Ordering::SeqCst) {
            0 => Message::Writing { rows },
            made => Message::Making {
                done: share_of(rows, made, left),
                rows,
            },
        }
    }

    // The line of the rows that are written, once their text is made.
    fn writing_line(&self) -> Message {
        let rows = self.written_rows.load(Ordering::SeqCst);
        match self.written_bytes.load(Ordering::SeqCst) {
            0 => self.making_line(rows),
            bytes => Message::Written { rows, bytes },
        }
    }

    // The line of the current step, if there is one.
    fn current_line(&self) -> Option<Message> {
        match stage_of(self.stage.load(Ordering::SeqCst))? {
            Stage::LeftFile => self.file_line(Side::Left),
            Stage::RightFile => self.file_line(Side::Right),
            Stage::LeftTable => Some(self.table_line(Side::Left)),
            Stage::RightTable => Some(self.table_line(Side::Right)),
            Stage::Partitioning => Some(self.partitioning_line()),
            Stage::Joining => Some(self.joining_line()),
            Stage::Writing => Some(self.writing_line()),
        }
    }

    /// Whether lines may be shown until the run ends. If rows go to a terminal, they may only until
    /// these come.
    pub fn is_shown_throughout(&self) -> bool
        ensures shown { self.now.is_shown ≡ false → result ≡ false }
        ensures terminal { self.now.shares_terminal ≡ true → result ≡ false }
    {
        self.is_shown && !self.shares_terminal && !self.is_over.load(Ordering::SeqCst)
    }

    /// The run has ended: whoever [keeps the line up to date](Progress::keep_up) returns.
    pub fn end(&self) {
        self.has_ended.store(true, Ordering::SeqCst);
        self.parker.unpark();
    }

    // About how many rows of both tables were handed to partitions, when this many parcels were
    // posted, and how many rows there are.
    fn partitioned(&self, posted: u64) -> (u64, u64) {
        let left = self.left_rows.load(Ordering::SeqCst);
        let rows = left.saturating_add(self.right_rows.load(Ordering::SeqCst));
        (handed_rows(self.cuts, rows, posted), rows)
    }

    // Notes that a worker has come to a piece of a partition, and says whether it is the first one.
    fn is_first_piece(&self, partition: u32) -> bool {
        let number = u64::from(partition).saturating_add(1);
        self.first
            .compare_exchange(0, number, Ordering::SeqCst, Ordering::SeqCst)
            .is_ok()
    }

    // About how many rows of the larger table were joined before a piece of a partition, and how
    // many it has. Pieces are joined in the order of their partitions. (Without a key the first
    // partition is the only one.)
    fn joined(&self, partition: u64, piece: u64) -> (u64, u64) {
        let left = self.left_rows.load(Ordering::SeqCst);
        let rows = left.max(self.right_rows.load(Ordering::SeqCst));
        let number = partition.saturating_add(1);
        let behind = number.saturating_sub(self.first.load(Ordering::SeqCst));
        (joined_rows(self.cuts, rows, behind, piece), rows)
    }
}

impl<R: Clock + Eprint> Progress<'_, R> {
    // Shows a line in place of the current one.
    fn show(&self, message: Message) {
        self.stands.store(true, Ordering::SeqCst);
        let _ = eprint!(self.rt; "{CLEARED}{message}");
    }

    // Shows the line of the current step, if there is one.
    fn show_current(&self) {
        if let Some(line) = self.current_line() {
            self.show(line);
        }
    }

    /// Clears the current line, so that something else can be written.
    pub fn clear(&self) {
        if self.stands.swap(false, Ordering::SeqCst) {
            let _ = eprint!(self.rt; "{CLEARED}");
        }
    }

    /// The table of a side is being read. It has about `size` bytes, or 0 if that isn't known.
    pub(crate) fn begin_file(&self, side: Side, size: u64) {
        self.size_of(side).store(size, Ordering::SeqCst);
        self.reach(match side {
            Side::Left => Stage::LeftFile,
            Side::Right => Stage::RightFile,
        });
        if self.is_written_by_hand(side) {
            self.clear();
            return;
        }
        if self.is_begun() {
            self.show(Message::File {
                side,
                bytes: 0,
                size,
            });
        }
    }

    /// This many bytes were read from a side's file, which has about `size` bytes, or 0 if that
    /// isn't known.
    pub(crate) fn read(&self, side: Side, bytes: u64, size: u64) {
        if self.is_written_by_hand(side) {
            return;
        }
        self.bytes_of(side).store(bytes, Ordering::SeqCst);
        if self.is_due() {
            self.show(Message::File { side, bytes, size });
        }
    }

    /// Something is about to be written. If that goes to a terminal, nothing is shown from now on.
    pub(crate) fn before_output(&self) {
        if self.shares_terminal {
            self.is_over.store(true, Ordering::SeqCst);
            self.clear();
        }
    }

    /// This many bytes were written.
    pub(crate) fn wrote(&self, bytes: u64) {
        self.written_bytes.store(bytes, Ordering::SeqCst);
        let rows = self.written_rows.load(Ordering::SeqCst);
        if rows > 0 && self.is_due() {
            self.show(Message::Written { rows, bytes });
        }
    }
}

impl<R: Clock + Eprint + Wait> Progress<'_, R> {
    /// Shows the current step, and again while it lasts, until the run [ends](Progress::end). So a
    /// step is shown too that takes long and passes no place. A thread of its own does this.
    pub fn keep_up(&self) {
        let pause = Duration::from_millis(PAUSE);
        for _ in self.rt.forever() {
            self.parker.park_timeout(self.rt, pause);
            if self.has_ended.load(Ordering::SeqCst) {
                break;
            }
            if self.is_due() {
                self.show_current();
            }
        }
    }
}

impl<R: Clock + Eprint> Gate for Progress<'_, R> {
    fn pass(&self, place: Place) {
        match place {
            Place::Posted(_) => {
                let before = self.posted.fetch_add(1, Ordering::SeqCst);
                if self.is_due() {
                    let (done, rows) = self.partitioned(before.saturating_add(1));
                    self.show(Message::Partitioned { done, rows });
                }
            }
            Place::Piece(partition, piece) => {
                self.partition.store(u64::from(partition), Ordering::SeqCst);
                self.piece.store(piece, Ordering::SeqCst);
                let is_shown = if self.is_first_piece(partition) {
                    self.reach(Stage::Joining);
                    self.is_begun()
                } else {
                    self.is_due()
                };
                if is_shown {
                    self.show(self.joining_line());
                }
            }
            Place::Stripe(_) | Place::Take(_) | Place::Partition(_) => {}
        }
    }
}

impl<R: Clock + Eprint> Watch for Progress<'_, R> {
    fn made_rows(&self) -> Option<&AtomicU64> {
        Some(&self.made_rows)
    }

    fn begin(&self, step: Step) {
        let message = match step {
            Step::Read(side) => {
                self.reach(match side {
                    Side::Left => Stage::LeftTable,
                    Side::Right => Stage::RightTable,
                });
                self.table_line(side)
            }
            Step::Join {
                left_rows,
                right_rows,
            } => {
                self.left_rows.store(left_rows, Ordering::SeqCst);
                self.right_rows.store(right_rows, Ordering::SeqCst);
                self.reach(Stage::Partitioning);
                let (done, rows) = self.partitioned(0);
                Message::Partitioned { done, rows }
            }
            Step::Write { rows } => {
                self.written_rows.store(rows, Ordering::SeqCst);
                self.reach(Stage::Writing);
                Message::Writing { rows }
            }
        };
        if self.is_begun() {
            self.show(message);
        }
    }
}
