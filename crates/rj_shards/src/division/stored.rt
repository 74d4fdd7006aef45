//! Parts that are open only while something is put to them.

ghost use Rattle.std.specs.Prelude.{◌≡◌, [], ℕ, List, Option, None, Some, IfOk, IfSome, OnOk, if◌then◌else◌, option_map};
ghost use Rattle.std.specs.Io.KnownBytes.{Appends};
ghost use Rattle.rj_shards.specs.Stored.{put_failures_of, told_of};

use rj_csv_io::{CountedWriter, Failed, Output};
use std::io::Write;

/// Where the text of a part is stored.
pub trait PartStore: Drop {
    /// What takes bytes while the store is open.
    type Writer: Write + Drop;

    // The bytes that it holds while it is closed, if it tells them.
    ghost holds: { Self → Option (List ℕ) } = { λ _. None };

    /// Opens it, and empties it.
    ///
    /// # Errors
    ///
    /// `Failed` if it can't be opened.
    fn begin(&self) -> Result<Self::Writer, Failed>
        ensures { IfOk result (λ w. IfSome (holds self.now) (λ _. Self.Writer.contents w ≡ Some [])) };

    /// Opens it, to be written after what it holds.
    ///
    /// # Errors
    ///
    /// `Failed` if it can't be opened.
    fn resume(&self) -> Result<Self::Writer, Failed>
        ensures { IfOk result (λ w. IfSome (holds self.now) (λ text. Self.Writer.contents w ≡ Some text)) };

    /// Closes it.
    fn close(&mut self, writer: Self::Writer)
        ensures { IfSome (holds self.old) (λ _. holds self.new ≡ Self.Writer.contents writer) };
}

/// A part as a device that takes bytes. Its store is open only while something is put, so that
/// there can be more parts than a process may have open files. When something is put for the first
/// time, what the store held before is dropped. From then on it holds only what was put.
#[derive(Drop)]
pub struct StoredPart<S: PartStore> {
    store: S,
    is_begun: bool,
    failures: u64,
}

impl<S: PartStore> StoredPart<S> {
    /// A part in this store, to which nothing was put and which hasn't failed.
    pub fn new(store: S) -> StoredPart<S>
        ensures told { told_of S.holds result ≡ option_map (λ _. []) (S.holds store) }
        ensures failures { put_failures_of result ≡ 0 }
    {
        StoredPart {
            store,
            is_begun: false,
            failures: 0,
        }
    }

    // Opens the store: after what was put, or empty if nothing was put yet.
    fn open(&self) -> Result<S::Writer, Failed>
        ensures { IfOk result (λ w. IfSome (S.holds self.now.store) (λ text. S.Writer.contents w ≡ Some (if self.now.is_begun then text else []))) }
    {
        if self.is_begun {
            self.store.resume()
        } else {
            self.store.begin()
        }
    }

    // Puts bytes after those that were put before.
    fn append(&mut self, bytes: &[u8]) -> Result<(), Failed>
        ensures ok { OnOk result (Appends (told_of S.holds self.old) (told_of S.holds self.new) bytes.now) }
        ensures kept { self.new.failures ≡ self.old.failures }
    {
        let mut writer = match self.open() {
            Ok(writer) => CountedWriter::new(writer),
            Err(Failed) => return Err(Failed),
        };
        match writer.put(bytes) {
            Ok(()) => {}
            Err(Failed) => return Err(Failed),
        }
        self.store.close(writer.into_inner());
        self.is_begun = true;
        Ok(())
    }
}

impl<S: PartStore> Output for StoredPart<S> {
    ghost told = { told_of S.holds };

    ghost count = { λ p. p.failures };

    fn put(&mut self, bytes: &[u8]) -> Result<(), Failed> {
        match self.append(bytes) {
            Ok(()) => Ok(()),
            Err(Failed) => {
                self.failures = self.failures.saturating_add(1);
                Err(Failed)
            }
        }
    }

    fn failures(&self) -> u64 {
        self.failures
    }
}
