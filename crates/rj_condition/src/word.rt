//! Texts that contracts see as their bytes.

ghost use Rattle.std.specs.Prelude.{◌≡◌, string_bytes, IfOk, Some};

use std::alloc::{AllocError, Global};
use std::fmt;
use std::marker::Model;

/// The text of a name or of a literal, without its quotes. Contracts see its bytes of UTF-8.
#[derive(Debug)]
pub struct Word {
    text: String,
}

// Written out, so that a drop is one call in the proofs of those who hold a word.
impl Drop for Word {
    fn drop(self) {
        let Word { text: _text } = self;
    }
}

impl Model for Word {
    ghost use Rattle.std.specs.Prelude.{List, ℕ, string_bytes};

    ghost Value = { List ℕ };

    ghost view = { λ w. string_bytes w.text };
}

impl fmt::Display for Word {
    ghost output = { λ word. Some word };

    fn fmt<W: fmt::Write>(&self, f: &mut fmt::Formatter<W>) -> fmt::Result {
        f.write_str(self.as_str())
    }
}

impl Word {
    /// A copy of the text.
    ///
    /// # Errors
    ///
    /// It fails only when memory runs out.
    pub fn new(alloc: Global, text: &str) -> Result<Word, AllocError>
        ensures { IfOk result (λ w. w ≡ text.now) }
    {
        Ok(Word {
            text: String::from_str(alloc, text)?,
        })
    }

    /// The text itself, without a copy.
    pub fn from_string(text: String) -> Word
        ensures { result ≡ string_bytes text }
    {
        Word { text }
    }

    /// The text.
    pub fn as_str(&self) -> &str
        ensures { result.now ≡ self.now }
    {
        self.text.as_str()
    }
}
