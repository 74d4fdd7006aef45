//! The program `shards`: divides the rows of a CSV file among files by the hash of their keys, so
//! that a join can be done part by part, and says where a file can be cut. Errors go to standard
//! error.
#![tactic(auto)]

mod cutting;
mod dividing;
mod explaining;
mod failure;
mod files;
mod first_line;
mod head;
mod help;
mod line;
mod options;
mod outputs;
mod planning;
mod storage;
mod working;

ghost use Rattle.shards.specs.Failures.{IsStatusOf};

use crate::explaining::{ExplainedFailure, explained, tell_explained};
use crate::failure::Failure;
use crate::files::Disk;
use crate::working::divide_words;
use rj_command::{read_words, texts_of};
use rj_csv_io::CountedWriter;
use std::env::Env;
use std::fs::Files;
use std::io;
use std::process::ExitCode;

// Reads the command line, and does what it asks for.
fn run<R: Env + Files + AllocGlobal + Print>(rt: &R) -> Result<(), ExplainedFailure> {
    let alloc = rt.alloc();
    let Some(words) = read_words(rt)? else {
        return Err(ExplainedFailure::from(Failure::NotText));
    };
    let texts = texts_of(alloc, words.as_slice())?;
    let disk = Disk { rt };
    let mut output = CountedWriter::new(io::writer(rt));
    let (ended, _parts) = divide_words(alloc, &disk, texts.as_slice(), &mut output);
    match ended {
        Ok(()) => Ok(()),
        Err(failure) => Err(explained(alloc, &disk, texts.as_slice(), failure)),
    }
}

// Prints a failure, or help or the version, and returns the exit status.
fn end<R: Print + Eprint>(rt: &R, ended: Result<(), ExplainedFailure>) -> u8
    ensures { IsStatusOf ended result }
{
    match ended {
        Ok(()) => 0,
        Err(reason) => tell_explained(rt, &reason),
    }
}

fn main(rt: HostRuntime) -> ExitCode {
    ExitCode::from(end(&rt, run(&rt)))
}
