//! The program `radixjoin`: joins two tables read from CSV files, and writes the joined table as
//! CSV to standard output or into a file; or prints the types that the cells of a file suggest.
//! Statistics, errors and the progress of a run go to standard error.
#![tactic(auto)]

mod stack;
mod suggesting;

use crate::stack::{PAGES, take_stack};
use crate::suggesting::suggest;
use rj_command::{Line, Stats, UnkeptRows};
use rj_files::{
    Asking, ExplainedFault, NamedStream, Progress, Terminals, Written, asking_of, processors,
    read_lists, read_words_of_line, refuse_inputs, tell_explained, tell_explained_alone,
    tell_texts, write_output,
};
use rj_line::fault::{Fault, read_words, texts_of};
use rj_line::{Form, form_of};
use std::env::Env;
use std::fs::Files;
use std::io::IsTerminal;
use std::process::ExitCode;
use std::sync::Wait;
use std::thread::{self, Threads};
use std::time::Clock;

// Does what the words of a line ask for, and shows its progress meanwhile. A thread of its own keeps
// the line up to date; if none can be started, a line comes only where the run passes a place.
fn write_watched<R: Files + Input + AllocGlobal + Print + Eprint + Threads + Wait + Clock + Sync>(
    rt: &R,
    line: &mut Line<'_>,
    terminals: Terminals,
) -> Result<Written, ExplainedFault> {
    let progress = Progress::of(rt, line, terminals);
    let (left, right) = (
        NamedStream::new(rt, line.left),
        NamedStream::new(rt, line.right),
    );
    let shown = &progress;
    let written = thread::scope(thread::scope_env(), rt, |scope| {
        if shown.is_shown_throughout() {
            let _keeper = scope.spawn(move || shown.keep_up());
        }
        let written = write_output(rt, line, shown, &left, &right);
        shown.end();
        written
    });
    progress.clear();
    written
}

// Prints the report on standard error, if one is asked for.
fn tell_report<R: Eprint>(rt: &R, report: &Option<String>) {
    if let Some(report) = report {
        let _ = eprintln!(rt; "{report}");
    }
}

// Prints on standard error what is told beside the rows: what the line asks for and, unless it is
// quiet, what the user may not have meant.
fn tell_joined<R: Eprint>(rt: &R, line: &Line<'_>, stats: &Stats) {
    if line.stats {
        let _ = eprintln!(rt; "{stats}");
    }
    tell_report(rt, &stats.report);
    if line.quiet {
        return;
    }
    if let Some(side) = stats.unkept {
        let rows = UnkeptRows { side };
        let _ = eprintln!(rt; "radixjoin: {rows}");
    }
    tell_texts(rt, line, stats);
}

// Reads words with their lists of types, and writes what they ask for.
fn join<R: Files + Input + AllocGlobal + Print + Eprint + Threads + Wait + Clock + Sync>(
    rt: &R,
    words: Vec<String>,
    terminals: Terminals,
) -> Result<(), ExplainedFault> {
    let alloc = rt.alloc();
    let words = read_lists(rt, words)?;
    let texts = texts_of(alloc, words.as_slice())?;
    let mut line = read_words_of_line(alloc, texts.as_slice(), processors(rt))?;
    refuse_inputs(rt, &line)?;
    match write_watched(rt, &mut line, terminals)? {
        Written::Joined(stats) => tell_joined(rt, &line, &stats),
        Written::Counted(report) => tell_report(rt, &report),
    }
    Ok(())
}

// Prints the types that a file's cells suggest, or why there are none, and returns the exit status.
fn tell_types<R: Files + Input + AllocGlobal + Print + Eprint + Clock>(
    rt: &R,
    words: &[&str],
    asking: Asking,
) -> u8 {
    match suggest(rt, words, asking) {
        Ok(()) => 0,
        Err(e) => tell_explained_alone(rt, &mut &*rt, &e),
    }
}

// Reads the command line, does what it asks for, and returns the exit status.
fn run<R: Env + Files + Input + AllocGlobal + Print + Eprint + Threads + Wait + Clock + Sync>(
    rt: &R,
    terminals: Terminals,
) -> Result<u8, ExplainedFault> {
    let Some(words) = read_words(rt)? else {
        return Err(ExplainedFault::from(Fault::NotText));
    };
    let form = {
        let texts = texts_of(rt.alloc(), words.as_slice())?;
        if let Some(asking) = asking_of(texts.as_slice()) {
            return Ok(tell_types(rt, texts.as_slice(), asking));
        }
        form_of(texts.as_slice())
    };
    match join(rt, words, terminals) {
        Ok(()) => Ok(0),
        Err(e) => Ok(tell_explained(rt, &mut &*rt, &e, form)),
    }
}

fn main(rt: HostRuntime) -> ExitCode {
    // (The compiler leaves out a call whose answer nobody asks for.)
    if take_stack(1) < PAGES {
        return ExitCode::from(Fault::Memory.status());
    }
    let terminals = Terminals {
        input: rt.stdin().is_terminal(),
        output: rt.stdout().is_terminal(),
        error: rt.stderr().is_terminal(),
    };
    match run(&rt, terminals) {
        Ok(status) => ExitCode::from(status),
        Err(e) => ExitCode::from(tell_explained(&rt, &mut &rt, &e, Form::Long)),
    }
}
