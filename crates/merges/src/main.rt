//! The program `merges`: merges joined shards, CSV files whose rows have their places, into one CSV text on standard output, without
//! the places. Errors go to standard error.
#![tactic(auto)]

ghost use Rattle.merges.specs.Failures.{IsStatusOf};

mod copies;
mod failure;
mod line;
mod merging;

use crate::failure::Failure;
use crate::merging::merge_words;
use rj_csv_io::CountedWriter;
use rj_line::fault::{read_words, tell, texts_of};
use rj_shards::merge::Opener;
use std::env::Env;
use std::fs::{self, Files};
use std::io;
use std::process::ExitCode;

// The files of the system.
#[derive(Drop)]
struct Disk<'r, R: Files> {
    rt: &'r R,
}

impl<'r, R: Files> Opener for Disk<'r, R> {
    type Reader = R::File;

    fn open(&self, name: &str) -> io::Result<R::File> {
        fs::open(self.rt, name)
    }
}

// Reads the command line, and puts the merge on standard output.
fn run<R: Env + Files + AllocGlobal + Print>(rt: &R) -> Result<(), Failure> {
    let Some(words) = read_words(rt)? else {
        return Err(Failure::NotText);
    };
    let texts = texts_of(rt.alloc(), words.as_slice())?;
    let mut output = CountedWriter::new(io::writer(rt));
    merge_words(rt.alloc(), &Disk { rt }, texts.as_slice(), &mut output)
}

// Prints a failure, or help or the version, and returns the exit status.
fn end<R: Print + Eprint>(rt: &R, ended: Result<(), Failure>) -> u8
    ensures { IsStatusOf ended result }
{
    match ended {
        Ok(()) => 0,
        Err(failure) => tell(rt, &failure),
    }
}

fn main(rt: HostRuntime) -> ExitCode {
    ExitCode::from(end(&rt, run(&rt)))
}
