//! Which files names lead to.

ghost use Rattle.std.specs.Prelude.{◌≡◌, ◌↔◌, IsTrue, List, None, Option, ℕ};
ghost use Rattle.std.specs.Fs.{IsFile, file_type};
ghost use Rattle.rj_files.specs.Identities.{Answer, IsAnswer};

use std::alloc::AllocError;
use std::fs::{self, Files, Metadata};
use std::io::ErrorKind;
use std::os::unix::fs::MetadataExt;

/// Which file it is, as the system tells: it is the same by each of its names.
#[derive(Clone, Copy)]
pub struct Identity {
    /// Whether it is a regular file: no pipe, device or folder.
    pub is_regular: bool,
    /// The device on which it is.
    pub device: u64,
    /// Its number there.
    pub number: u64,
}

/// Who tells which files names lead to.
pub trait Identities {
    // The answer to a name, if it is known.
    ghost answers: { Self → List ℕ → Option Answer } = { λ _ _. None };

    /// The file to which a name leads, or none if there is none.
    ///
    /// # Errors
    ///
    /// It fails only when the system has no memory.
    fn identity_of(&self, name: &str) -> Result<Option<Identity>, AllocError>
        ensures { IsAnswer (answers self.now name.now) result };
}

// What the system's metadata of a file tell.
fn identity_in(metadata: &Metadata) -> Identity
    ensures { IsTrue result.is_regular ↔ IsFile (file_type metadata.now) }
{
    Identity {
        is_regular: metadata.is_file(),
        device: metadata.dev(),
        number: metadata.ino(),
    }
}

impl<R: Files> Identities for R {
    fn identity_of(&self, name: &str) -> Result<Option<Identity>, AllocError> {
        match fs::metadata(self, name) {
            Ok(metadata) => Ok(Some(identity_in(&metadata))),
            Err(error) if error.kind() == ErrorKind::OutOfMemory => Err(AllocError),
            Err(_) => Ok(None),
        }
    }
}
