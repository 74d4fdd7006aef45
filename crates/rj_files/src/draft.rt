//! The file of `--output`, which is written atomically: it has the whole result, or what it had
//! before.

ghost use Rattle.std.specs.Prelude.{◌≡◌, ◌≢◌, ◌↔◌, IfOk, IfErr, IfSome, IsTrue, MatchResult, false, option_map, string_bytes};
ghost use Rattle.std.specs.Fs.{IsFile, file_type};
ghost use Rattle.std.specs.IoError.{error_kind};
ghost use Rattle.std.specs.Path.{path_parent};
ghost use Rattle.rj_line.specs.Faults.{IsOfWriting};
ghost use Rattle.rj_files.specs.Drafts.{draft_name, folder_of, in_folder, named_folder, repeated, without_group};

use rj_line::fault::Fault;
use std::alloc::{AllocError, Global};
use std::fs::{self, Files, Metadata, OpenFile, OpenOptions};
use std::io::{self, ErrorKind};
use std::os::unix::fs::{MetadataExt, PermissionsExt, chown};
use std::path::Path;

// How many symbolic links are followed: as many as Linux follows.
const LINKS: u32 = 40;

// How many names are tried for a new file. A run that was killed may have left a file behind.
const NAMES: u32 = 1000;

// The longest name that a new file's name repeats, so that the new name has no more than 255 bytes.
const LONGEST: usize = 200;

/// What becomes of a file once the result is written to it.
#[derive(Drop)]
pub(crate) enum Draft {
    /// It is a new file of this name in the target's folder, and takes the target's place.
    Replacing { name: String, target: String },
    /// It is a pipe or a device, and gets the bytes as they come.
    Stream,
}

/// Why there is no file to write to.
#[derive(Drop)]
pub(crate) struct Unwritten {
    pub(crate) fault: Fault,
    /// The system's error, if there is one.
    pub(crate) error: Option<io::Error>,
    /// The folder in which no new file can be made, if that is why.
    pub(crate) folder: Option<String>,
}

impl From<Fault> for Unwritten {
    ghost from_gives = { λ fault refused. refused.fault ≡ fault };

    fn from(fault: Fault) -> Unwritten {
        Unwritten {
            fault,
            error: None,
            folder: None,
        }
    }
}

// Why a file can't be written, by the system's error.
fn unwritten_by(error: io::Error) -> Unwritten
    ensures { IsOfWriting result.fault }
{
    let fault = match error.kind() {
        ErrorKind::OutOfMemory => Fault::Memory,
        _ => Fault::WriteDevice,
    };
    Unwritten {
        fault,
        error: Some(error),
        folder: None,
    }
}

// Whether it is for its folder that a file can't be made.
fn is_of_folder(error: &io::Error) -> bool {
    match error.kind() {
        ErrorKind::NotFound | ErrorKind::PermissionDenied | ErrorKind::ReadOnlyFilesystem => true,
        _ => false,
    }
}

// A folder as a path names it, also the one in which the program runs.
fn named_folder(folder: &str) -> &str
    ensures { result.now ≡ named_folder folder.now }
{
    if folder.is_empty() { "." } else { folder }
}

// The folder of a path, if it has one.
fn folder_of(alloc: Global, path: &str) -> Result<Option<String>, AllocError>
    ensures { IfOk result (λ folder. option_map string_bytes folder ≡ folder_of path.now) }
{
    match Path::new(path).parent() {
        Some(folder) => Ok(Some(String::from_str(alloc, named_folder(folder.as_str()))?)),
        None => Ok(None),
    }
}

// The folder of a path, if it is for the folder that no file can be made there.
fn refused_folder(alloc: Global, path: &str, error: &io::Error) -> Option<String>
    ensures { IfSome result (λ folder. folder_of path.now ≡ Some (string_bytes folder)) }
{
    match folder_of(alloc, path) {
        Ok(Some(folder)) if is_of_folder(error) => Some(folder),
        _ => None,
    }
}

// Why a new file can't be made at a path, by the system's error.
fn unmade_by(alloc: Global, path: &str, error: io::Error) -> Unwritten
    ensures fault { IsOfWriting result.fault }
    ensures folder { IfSome result.folder (λ folder. folder_of path.now ≡ Some (string_bytes folder)) }
{
    let folder = refused_folder(alloc, path, &error);
    let Unwritten {
        fault,
        error,
        folder: _,
    } = unwritten_by(error);
    Unwritten {
        fault,
        error,
        folder,
    }
}

// A file name in the folder of a path. A name that begins with a slash is taken as it is.
fn in_folder_of(alloc: Global, path: &str, name: &str) -> Result<String, Fault>
    ensures path { IfOk result (λ s. string_bytes s ≡ in_folder (path_parent path.now) name.now) }
    ensures fault { IfErr result IsOfWriting }
{
    match Path::new(path).parent() {
        Some(folder) => Ok(String::from_str(alloc, folder.join(alloc, name)?.as_str())?),
        None => Ok(String::from_str(alloc, name)?),
    }
}

// The path to which a path leads by symbolic links, whether a file is there or not.
fn followed<R: Files + AllocGlobal>(rt: &R, path: &str) -> Result<String, Fault>
    ensures { IfErr result IsOfWriting }
{
    let alloc = rt.alloc();
    let mut followed = String::from_str(alloc, path)?;
    for _link in 0..LINKS {
        match fs::read_link(rt, followed.as_str()) {
            Ok(link) => followed = in_folder_of(alloc, followed.as_str(), link.as_str())?,
            Err(error) if error.kind() == ErrorKind::OutOfMemory => return Err(Fault::Memory),
            Err(_) => return Ok(followed),
        }
    }
    Err(Fault::WriteDevice)
}

// What a new file's name has of the name of a file.
fn repeated(file: &str) -> &str
    ensures { result.now ≡ repeated file.now }
{
    if file.len() > LONGEST { "" } else { file }
}

// A name for a new file in the target's folder.
fn draft_name(alloc: Global, target: &str, number: u32) -> Result<String, Fault>
    ensures name { IfOk result (λ s. draft_name target.now number ≡ Some (string_bytes s)) }
    ensures fault { IfErr result IsOfWriting }
{
    let Some(file) = Path::new(target).file_name() else {
        return Err(Fault::WriteDevice);
    };
    let repeated = repeated(file);
    let name = format!(in alloc; ".{repeated}.radixjoin-{number}")?;
    in_folder_of(alloc, target, name.as_str())
}

// Whether a path leads to something that isn't a regular file: a pipe, a device or a folder.
fn is_special(found: &io::Result<Metadata>) -> bool
    ensures { MatchResult found.now (λ metadata. IsTrue result ↔ ¬ (IsFile (file_type metadata))) (λ _. result ≡ false) }
{
    match found {
        Ok(metadata) => !metadata.is_file(),
        Err(_) => false,
    }
}

// Gives a new file the owner and the group of another, or the group alone if the user may not give
// files away. It returns whether the group is that of the other.
fn take_owner<R: Files>(rt: &R, name: &str, there: &Metadata) -> io::Result<bool>
    ensures { IfErr result (λ error. error_kind error ≢ ErrorKind.PermissionDenied) }
{
    match chown(rt, name, Some(there.uid()), Some(there.gid())) {
        Ok(()) => return Ok(true),
        Err(error) if error.kind() != ErrorKind::PermissionDenied => return Err(error),
        Err(_) => {}
    }
    match chown(rt, name, None, Some(there.gid())) {
        Ok(()) => Ok(true),
        Err(error) if error.kind() != ErrorKind::PermissionDenied => Err(error),
        Err(_) => Ok(false),
    }
}

// A mode in which the group may do no more than all others may.
fn without_group(mode: u32) -> u32
    ensures { result ≡ without_group mode }
{
    mode & (0o7707 | (mode & 0o007) << 3)
}

// Gives a new file the owner, the group and the mode of the file whose place it is to take, if one
// is there. A user who may not give files away stays the owner. If the group can't be kept either,
// the rights of the old one aren't given to another.
fn take_after<R: Files>(rt: &R, name: &str, target: &str) -> io::Result<()> {
    let Ok(there) = fs::metadata(rt, target) else {
        return Ok(());
    };
    let mut permissions = there.permissions();
    if !take_owner(rt, name, &there)? {
        permissions.set_mode(without_group(permissions.mode()));
    }
    fs::set_permissions(rt, name, permissions)
}

impl Draft {
    /// Opens a file to which a result for this output is written: a new one in the same folder,
    /// with the owner and the mode of the file that is there, or the pipe or device that is there.
    /// So it is known before anything is read whether such a file can be made.
    ///
    /// # Errors
    ///
    /// `WriteDevice` if it can't be made: nothing is left of it. `Memory` if memory ran out.
    pub(crate) fn open<R: Files + AllocGlobal>(
        rt: &R,
        output: &str,
    ) -> Result<(Draft, R::File), Unwritten>
        ensures { IfErr result (λ refused. IsOfWriting refused.fault) }
    {
        if is_special(&fs::metadata(rt, output)) {
            return match OpenOptions::new().write(true).open(rt, output) {
                Ok(file) => Ok((Draft::Stream, file)),
                Err(error) => Err(unwritten_by(error)),
            };
        }
        Draft::beside(rt, followed(rt, output)?)
    }

    // A new file in the target's folder, under the first name that is free.
    fn beside<R: Files + AllocGlobal>(rt: &R, target: String) -> Result<(Draft, R::File), Unwritten>
        ensures { IfErr result (λ refused. IsOfWriting refused.fault) }
    {
        for number in 0..NAMES {
            let name = draft_name(rt.alloc(), target.as_str(), number)?;
            let made = OpenOptions::new()
                .write(true)
                .create_new(true)
                .open(rt, name.as_str());
            match made {
                Ok(file) => return Draft::made(rt, name, target, file),
                Err(error) if error.kind() == ErrorKind::AlreadyExists => {}
                Err(error) => return Err(unmade_by(rt.alloc(), name.as_str(), error)),
            }
        }
        Err(Unwritten::from(Fault::WriteDevice))
    }

    // A new file that was made, with the owner and the mode of the target.
    fn made<R: Files>(
        rt: &R,
        name: String,
        target: String,
        file: R::File,
    ) -> Result<(Draft, R::File), Unwritten>
        ensures { IfErr result (λ refused. IsOfWriting refused.fault) }
    {
        match take_after(rt, name.as_str(), target.as_str()) {
            Ok(()) => Ok((Draft::Replacing { name, target }, file)),
            Err(error) => {
                let _ = fs::remove_file(rt, name.as_str());
                Err(unwritten_by(error))
            }
        }
    }

    /// Syncs the file to the disk and renames it to the target.
    ///
    /// # Errors
    ///
    /// `WriteDevice` if one of the two fails: the target stays as it was, and the new file is
    /// removed.
    pub(crate) fn finish<R: Files>(self, rt: &R, file: R::File) -> Result<(), Unwritten>
        ensures { IfErr result (λ refused. refused.fault ≡ Fault.WriteDevice) }
    {
        let Draft::Replacing { name, target } = self else {
            return Ok(());
        };
        let placed = match file.sync_all() {
            Ok(()) => fs::rename(rt, name.as_str(), target.as_str()),
            Err(error) => Err(error),
        };
        match placed {
            Ok(()) => Ok(()),
            Err(error) => {
                let _ = fs::remove_file(rt, name.as_str());
                Err(Unwritten {
                    fault: Fault::WriteDevice,
                    error: Some(error),
                    folder: None,
                })
            }
        }
    }

    /// Removes the file, when nothing is to take the target's place.
    pub(crate) fn discard<R: Files>(self, rt: &R) {
        if let Draft::Replacing { name, target: _ } = self {
            let _ = fs::remove_file(rt, name.as_str());
        }
    }
}
