//! Runs by the words of a command line over the bytes of two tables, which are lent to the run or
//! given to it.

ghost use Rattle.std.specs.Prelude.{◌<◌, ◌^◌};

use rj_command::{
    Fault, OpenGate, Request, Side, Stats, Step, Violation, Watch, first_violation, read_line, run,
};
use rj_csv_io::{CountedWriter, Output};
use rj_engine::{Gate, Place};
use std::alloc::Global;
use std::sync::Wait;
use std::sync::atomic::{AtomicU64, Ordering};
use std::thread::Threads;
use std::time::Clock;

const PEOPLE: &[u8] = b"id,name\n1,ann\n2,bob\n3,cy\n";

const CITIES: &[u8] = b"id,city\n4,rome\n2,oslo\n5,lima\n";

/// The words of a command line that joins two tables of a number and a text by a clause: by two workers, in two partitions, and in
/// blocks and pieces of one row.
pub fn words_of<'a>(clause: &'a str, option: &'a str) -> [&'a str; 11] {
    [
        "--left=left",
        "--left-types=int,text",
        "--right=right",
        "--right-types=int,text",
        "--workers=2",
        "--bits1=1",
        "--block=1",
        "--piece=1",
        "--join",
        clause,
        option,
    ]
}

// How often workers came to each kind of place, and which number each step had, from 1 on; 0 if it
// didn't come.
#[derive(Drop)]
struct Seen {
    places: [AtomicU64; 5],
    steps: [AtomicU64; 5],
    begun: AtomicU64,
}

fn zeros() -> [AtomicU64; 5] {
    [
        AtomicU64::new(0),
        AtomicU64::new(0),
        AtomicU64::new(0),
        AtomicU64::new(0),
        AtomicU64::new(0),
    ]
}

fn numbers_of(counters: &[AtomicU64; 5]) -> [u64; 5] {
    [
        counters[0].load(Ordering::SeqCst),
        counters[1].load(Ordering::SeqCst),
        counters[2].load(Ordering::SeqCst),
        counters[3].load(Ordering::SeqCst),
        counters[4].load(Ordering::SeqCst),
    ]
}

// Which counter is that of a place.
fn counter_of_place(place: Place) -> usize
    ensures { result < 5 }
{
    match place {
        Place::Stripe(_) => 0,
        Place::Posted(_) => 1,
        Place::Take(_) => 2,
        Place::Partition(_) => 3,
        Place::Piece(_, _) => 4,
    }
}

// Which counter is that of a step of a join of three left and three right rows, of which one row is written; 4 of any other step.
fn counter_of_step(step: Step) -> usize
    ensures { result < 5 }
{
    match step {
        Step::Read(Side::Left) => 0,
        Step::Read(Side::Right) => 1,
        Step::Join {
            left_rows: 3,
            right_rows: 3,
        } => 2,
        Step::Write { rows: 1 } => 3,
        Step::Join { .. } | Step::Write { .. } => 4,
    }
}

impl Seen {
    fn nothing() -> Seen {
        Seen {
            places: zeros(),
            steps: zeros(),
            begun: AtomicU64::new(0),
        }
    }
}

impl Gate for Seen {
    fn pass(&self, place: Place) {
        self.places[counter_of_place(place)].fetch_add(1, Ordering::SeqCst);
    }
}

impl Watch for Seen {
    fn begin(&self, step: Step) {
        let before = self.begun.fetch_add(1, Ordering::SeqCst);
        self.steps[counter_of_step(step)].store(before.saturating_add(1), Ordering::SeqCst);
    }
}

// Joins the people and the cities, whose bytes are lent or given.
fn run_by<R: Threads + Wait + Clock + Sync, O: Output>(
    rt: &R,
    alloc: Global,
    request: &Request<'_>,
    owned: bool,
    seen: &Seen,
    writer: &mut O,
) -> Result<Stats, Fault> {
    if !owned {
        return run(rt, alloc, PEOPLE, CITIES, request, seen, writer);
    }
    let (left, right) = (PEOPLE.to_vec(alloc)?, CITIES.to_vec(alloc)?);
    run(rt, alloc, left, right, request, seen, writer)
}

// A clause, an option, and whether the bytes of the tables are given to the run.
type Asked<'a> = (&'a str, &'a str, bool);

// What a run with these words writes, and its counts.
fn joined<R: Threads + Wait + Clock + Sync>(
    rt: &R,
    alloc: Global,
    asked: Asked<'_>,
    seen: &Seen,
) -> Result<(Vec<u8>, Stats), Fault> {
    let words = words_of(asked.0, asked.1);
    let line = read_line(alloc, words.as_slice(), 1)?;
    let mut writer = CountedWriter::new(Vec::new(alloc));
    let stats = run_by(rt, alloc, &line.request, asked.2, seen, &mut writer)?;
    Ok((writer.into_inner(), stats))
}

fn has_line(alloc: Global, fault: &Fault, line: &str) -> bool {
    match format!(in alloc; "{fault}") {
        Ok(text) => text.as_str() == line,
        Err(_) => false,
    }
}

// Whether a run writes this, or ends with the error of this line.
fn ends_by<R: Threads + Wait + Clock + Sync>(
    rt: &R,
    alloc: Global,
    asked: Asked<'_>,
    wanted: &str,
) -> bool {
    match joined(rt, alloc, asked, &Seen::nothing()) {
        Ok(ended) => ended.0.as_slice() == wanted.as_bytes(),
        Err(fault) => has_line(alloc, &fault, wanted),
    }
}

// The number of the first run that ends otherwise.
fn first_ended_otherwise<R: Threads + Wait + Clock + Sync>(
    rt: &R,
    alloc: Global,
    cases: &[(Asked<'_>, &str)],
) -> Option<usize> {
    for number in 0..cases.len() {
        let (asked, wanted) = cases[number];
        if !ends_by(rt, alloc, asked, wanted) {
            return Some(number);
        }
    }
    None
}

const INNER: &str = "JOIN USING (id)";

const PLAIN: &str = "--hash=plain";

const MIXED: &str = "--hash=mixed";

const RUNS: [(Asked<'static>, &str); 4] = [
    ((INNER, PLAIN, false), "id,name,city\n2,bob,oslo\n"),
    ((INNER, MIXED, true), "id,name,city\n2,bob,oslo\n"),
    (
        ("FULL JOIN ON L.id = R.id", MIXED, false),
        "id,name,id,city\n2,bob,2,oslo\n1,ann,,\n3,cy,,\n,,4,rome\n,,5,lima\n",
    ),
    (
        ("JOIN USING (age)", PLAIN, false),
        "radixjoin: E13 UnknownColumn",
    ),
];

#[test]
fn joined_tables_are_written(rt: HostRuntime) {
    assert_eq!(rt;
        first_ended_otherwise(&rt, rt.alloc(), RUNS.as_slice()),
        None
    );
}

const DELIMITED: [&str; 8] = [
    "--left=left",
    "--left-types=int,text",
    "--right=right",
    "--right-types=int,text",
    "--left-delimiter=;",
    "--right-delimiter=tab",
    "--out-delimiter=|",
    "--join=JOIN USING (id)",
];

const LEFT: &[u8] = b"id;name\n1;ann\n2;\"b;o|b\"\n";

const RIGHT: &[u8] = b"id\tcity\n2\t\"o\tslo, \"\n";

const BARRED: &[u8] = b"id|name|city\n2|\"b;o|b\"|o\tslo, \n";

// What a run writes whose tables and whose result have three delimiters.
fn delimited<R: Threads + Wait + Clock + Sync>(rt: &R, alloc: Global) -> Result<Vec<u8>, Fault> {
    let line = read_line(alloc, DELIMITED.as_slice(), 1)?;
    let mut writer = CountedWriter::new(Vec::new(alloc));
    run(
        rt,
        alloc,
        LEFT,
        RIGHT,
        &line.request,
        &Seen::nothing(),
        &mut writer,
    )?;
    Ok(writer.into_inner())
}

fn is_barred<R: Threads + Wait + Clock + Sync>(rt: &R, alloc: Global) -> bool {
    match delimited(rt, alloc) {
        Ok(written) => written.as_slice() == BARRED,
        Err(_) => false,
    }
}

#[test]
fn three_delimiters(rt: HostRuntime) {
    assert!(rt; is_barred(&rt, rt.alloc()));
}

// Whether each of two workers scans a stripe; a parcel for each of six rows, and a close of each of four senders for each of two
// partitions, are posted; each partition is drawn and built; and workers come to each piece that is counted.
fn passes_each_place<R: Threads + Wait + Clock + Sync>(
    rt: &R,
    alloc: Global,
    asked: Asked<'_>,
) -> bool {
    let seen = Seen::nothing();
    match joined(rt, alloc, asked, &seen) {
        Ok(ended) => numbers_of(&seen.places) == [2, 14, 2, 2, ended.1.pieces],
        Err(_) => false,
    }
}

// The number of the first run that doesn't.
fn first_without_gate<R: Threads + Wait + Clock + Sync>(
    rt: &R,
    alloc: Global,
    cases: &[Asked<'_>],
) -> Option<usize> {
    for number in 0..cases.len() {
        if !passes_each_place(rt, alloc, cases[number]) {
            return Some(number);
        }
    }
    None
}

const GATED: [Asked<'static>; 4] = [
    (INNER, PLAIN, false),
    (INNER, PLAIN, true),
    (INNER, MIXED, false),
    (INNER, MIXED, true),
];

#[test]
fn gate_is_heeded(rt: HostRuntime) {
    assert_eq!(rt; first_without_gate(&rt, rt.alloc(), GATED.as_slice()), None);
}

// The number of the first run whose steps have other numbers.
fn first_other_steps<R: Threads + Wait + Clock + Sync>(
    rt: &R,
    alloc: Global,
    cases: &[(Asked<'_>, [u64; 5])],
) -> Option<usize> {
    for number in 0..cases.len() {
        let (asked, steps) = cases[number];
        let seen = Seen::nothing();
        let _ = joined(rt, alloc, asked, &seen);
        if numbers_of(&seen.steps) != steps {
            return Some(number);
        }
    }
    None
}

const STEPS: [(Asked<'static>, [u64; 5]); 3] = [
    ((INNER, PLAIN, false), [1, 2, 3, 4, 0]),
    ((INNER, PLAIN, true), [1, 2, 3, 4, 0]),
    (("JOIN USING (name)", PLAIN, false), [1, 2, 0, 0, 0]),
];

#[test]
fn steps_come_in_order(rt: HostRuntime) {
    assert_eq!(rt; first_other_steps(&rt, rt.alloc(), STEPS.as_slice()), None);
}

// How the CROSS JOIN differs from what is expected.
fn violation<R: Threads + Wait + Clock + Sync>(
    rt: &R,
    alloc: Global,
) -> Result<Option<Violation>, Fault> {
    let words = words_of("CROSS JOIN", "--expect=many-to-one");
    let line = read_line(alloc, words.as_slice(), 1)?;
    first_violation(rt, alloc, PEOPLE, CITIES, &line.request, &OpenGate)
}

#[test]
fn violations_are_found(rt: HostRuntime) {
    let found = violation(&rt, rt.alloc());
    assert!(rt; matches!(found, Ok(Some(Violation::LeftRow(0, 3)))));
}

// Whether the error of these words is one of `clap`, whose text is its line.
fn has_line_of_clap(alloc: Global, words: &[&str]) -> bool {
    let Err(fault) = read_line(alloc, words, 1) else {
        return false;
    };
    let Fault::CommandLine(error) = &fault else {
        return false;
    };
    match format!(in alloc; "{error}") {
        Ok(text) => has_line(alloc, &fault, text.as_str()),
        Err(_) => false,
    }
}

// No run of a test has so many rows, and programs have `clap` print its errors itself.
#[test]
fn lines_that_no_run_prints(rt: HostRuntime) {
    let alloc = rt.alloc();
    let fault = Fault::TooManyRows(Side::Right);
    assert!(rt; has_line(alloc, &fault, "radixjoin: E8 TooManyRows right"));
    assert!(rt; has_line_of_clap(alloc, ["--left"].as_slice()));
}
