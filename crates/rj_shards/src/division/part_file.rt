//! Parts that are stored in files.

ghost use Rattle.std.specs.Prelude.{◌≡◌, string_bytes, true};
ghost use Rattle.std.specs.Fs.{new_options, with_append, with_create, with_truncate, with_write};
ghost use Rattle.rj_shards.specs.Stored.{path_of};

use crate::division::stored::PartStore;
use rj_csv_io::Failed;
use std::fs::{Files, OpenOptions};

// How a file is opened anew: it is made if it doesn't exist, and emptied if it does.
fn emptying() -> OpenOptions
    ensures { result ≡ with_truncate (with_create (with_write new_options true) true) true }
{
    let mut options = OpenOptions::new();
    options.write(true).create(true).truncate(true);
    options
}

// How a file is opened to be written after what it holds.
fn appending() -> OpenOptions
    ensures { result ≡ with_append new_options true }
{
    let mut options = OpenOptions::new();
    options.append(true);
    options
}

/// The file of a part. It tells nothing of its content, as std's files don't either.
#[derive(Drop)]
pub struct PartFile<'r, R: Files> {
    rt: &'r R,
    path: String,
}

impl<'r, R: Files> PartFile<'r, R> {
    /// The file at this path.
    pub fn new(rt: &'r R, path: String) -> PartFile<'r, R>
        ensures { path_of result ≡ string_bytes path }
    {
        PartFile { rt, path }
    }

    // Opens it.
    fn open(&self, options: &OpenOptions) -> Result<R::File, Failed> {
        match options.open(self.rt, self.path.as_str()) {
            Ok(file) => Ok(file),
            Err(_) => Err(Failed),
        }
    }
}

impl<'r, R: Files> PartStore for PartFile<'r, R> {
    type Writer = R::File;

    fn begin(&self) -> Result<R::File, Failed> {
        self.open(&emptying())
    }

    fn resume(&self) -> Result<R::File, Failed> {
        self.open(&appending())
    }

    fn close(&mut self, _file: R::File) {}
}
