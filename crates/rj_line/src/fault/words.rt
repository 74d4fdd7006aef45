//! The words with which a program is started.

ghost use Rattle.std.specs.Prelude.{◌≡◌, IfOk, map, string_bytes};

use std::alloc::{AllocError, Global};
use std::env::{self, Env};
use std::io;

/// The words after the program's name, or `None` if one of them isn't text.
///
/// # Errors
///
/// It fails only when memory runs out.
pub fn read_words<R: Env + AllocGlobal>(rt: &R) -> Result<Option<Vec<String>>, AllocError> {
    match env::args(rt) {
        Ok(words) => Ok(Some(words.skip(1).collect(rt.alloc())?)),
        Err(error) if error.kind() == io::ErrorKind::OutOfMemory => Err(AllocError),
        Err(_) => Ok(None),
    }
}

/// The words as texts, as `clap` takes them.
///
/// # Errors
///
/// It fails only when memory runs out.
pub fn texts_of<'a>(alloc: Global, words: &'a [String]) -> Result<Vec<&'a str>, AllocError>
    ensures { IfOk result (λ texts. map (λ text. text.now) texts.items ≡ map string_bytes words.entry.now) }
{
    words.iter().map(|word| word.as_str()).collect(alloc)
}
