//! The program `arrivals`: replays a script of arrivals at one partition, which it reads from
//! standard input to its end. It prints the answer of the partition's ledger to each line, and what
//! the ledger delivered of each sender. Errors go to standard error.
#![tactic(auto)]

ghost use Rattle.arrivals.specs.Failures.{IsStatusOf};

mod failure;
mod line;
mod replaying;

use crate::failure::Failure;
use crate::replaying::replay;
use rj_csv_io::{CountedReader, CountedWriter};
use rj_line::fault::{read_words, tell, texts_of};
use std::env::Env;
use std::io;
use std::process::ExitCode;

// Replays standard input as the command line says, and prints the answers. Returns whether every
// line was readable.
fn run<R: Env + Input + AllocGlobal + Print>(rt: &R) -> Result<bool, Failure> {
    let Some(words) = read_words(rt)? else {
        return Err(Failure::NotText);
    };
    let texts = texts_of(rt.alloc(), words.as_slice())?;
    let mut reader = CountedReader::new(rt.reader());
    let mut writer = CountedWriter::new(io::writer(rt));
    replay(rt.alloc(), texts.as_slice(), &mut reader, &mut writer)
}

// Prints a failure, or help or the version, and returns the exit status.
fn end<R: Print + Eprint>(rt: &R, ended: Result<bool, Failure>) -> u8
    ensures { IsStatusOf ended result }
{
    match ended {
        Ok(true) => 0,
        Ok(false) => 3,
        Err(failure) => tell(rt, &failure),
    }
}

fn main(rt: HostRuntime) -> ExitCode {
    ExitCode::from(end(&rt, run(&rt)))
}
