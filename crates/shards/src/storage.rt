//! The files that are read and written, by their names.

ghost use Rattle.std.specs.Prelude.{◌≡◌, ◌≢◌, ◌<◌, ◌-◌, ◌^◌, [], ℕ, All, Bool, IfErr, IfOk, IfSome, List, None, Option, Some, false, length, true};
ghost use Rattle.std.specs.IoError.{error_kind};
ghost use Rattle.shards.specs.Heads.{Begins, HasHead, HasHeadFault};
ghost use Rattle.shards.specs.Ranges.{IsFileFault, bytes_between};
ghost use Rattle.shards.specs.Storages.{IsUnfailing};

use crate::head::{Head, read_head_of};
use rj_command::{Fault, Side, Strictness, fault_of_read};
use rj_csv_io::strict::Delimiter;
use rj_csv_io::{Input, Output, read_up_to};
use std::alloc::{AllocError, Global};
use std::io::{self, ErrorKind};

/// The bytes that are read from a file whose header is shown.
const BEGINNING: usize = 1 << 20;

/// Files by their names: those of a disk, or of something like one.
pub(crate) trait Storage {
    /// What gives the bytes of a file.
    type Reader: Input + Drop;

    /// What takes the bytes of a part.
    type Part: Output + Drop;

    // The bytes of the file of a name, if they are told.
    ghost holds: { Self → List ℕ → Option (List ℕ) } = { λ _ _. None };

    // Whether the file of this name is known to be there, so that only memory can lack to open it.
    ghost opens: { Self → List ℕ → Bool } = { λ _ _. false };

    // Whether the parts of this folder tell what they got.
    ghost tells_parts: { Self → List ℕ → Bool } = { λ _ _. false };

    /// Opens the file of this name.
    ///
    /// # Errors
    ///
    /// Why it can't be opened: `OutOfMemory` if memory ran out.
    fn open(&self, name: &str) -> io::Result<Self::Reader>
        ensures bytes { IfOk result (λ r. IfSome (holds self.now name.now) (λ text. Self.Reader.tells r ≡ Some text)) }
        ensures unfailed { IfOk result (λ r. Self.Reader.count r ≡ 0) }
        ensures opened { opens self.now name.now ≡ true → IfErr result (λ e. error_kind e ≡ ErrorKind.OutOfMemory) };

    /// Opens the file of this name from one place up to another, or up to its end.
    ///
    /// # Errors
    ///
    /// Those of [`Storage::open`].
    fn open_range(&self, name: &str, from: u64, to: Option<u64>) -> io::Result<Self::Reader>
        ensures bytes { IfOk result (λ r. IfSome (holds self.now name.now) (λ text. Self.Reader.tells r ≡ Some (bytes_between from to text))) }
        ensures unfailed { IfOk result (λ r. Self.Reader.count r ≡ 0) }
        ensures opened { opens self.now name.now ≡ true → IfErr result (λ e. error_kind e ≡ ErrorKind.OutOfMemory) };

    /// How many bytes the file of this name has.
    ///
    /// # Errors
    ///
    /// Those of [`Storage::open`].
    fn size(&self, name: &str) -> io::Result<u64>
        ensures size { IfOk result (λ n. IfSome (holds self.now name.now) (λ text. n ≡ length text)) }
        ensures opened { opens self.now name.now ≡ true → IfErr result (λ e. error_kind e ≡ ErrorKind.OutOfMemory) };

    /// This many parts in a folder, which is made if it doesn't exist. Nothing was put to them.
    ///
    /// # Errors
    ///
    /// It fails only when memory runs out. If the folder can't be made, this shows when something
    /// is put to a part.
    fn parts(&self, folder: &str, count: u32) -> Result<Vec<Self::Part>, AllocError>
        ensures count { IfOk result (λ v. length v.items ≡ count) }
        ensures empty { IfOk result (λ v. tells_parts self.now folder.now ≡ true → All (λ p. Self.Part.told p ≡ Some []) v.items) };
}

// The error of a side's file that can't be opened.
fn fault_of_open(side: Side, error: &io::Error) -> Fault
    ensures memory { error_kind error.now ≡ ErrorKind.OutOfMemory → result ≡ Fault.Memory }
    ensures device { error_kind error.now ≢ ErrorKind.OutOfMemory → result ≡ Fault.ReadDevice side }
    ensures fault { IsFileFault side result }
{
    match error.kind() {
        ErrorKind::OutOfMemory => Fault::Memory,
        _ => Fault::ReadDevice(side),
    }
}

/// Opens a side's file.
///
/// # Errors
///
/// `ReadDevice`, or `Memory` if memory ran out.
pub(crate) fn open_file<S: Storage>(storage: &S, name: &str, side: Side) -> Result<S::Reader, Fault>
    ensures bytes { IfOk result (λ r. IfSome (S.holds storage.now name.now) (λ text. S.Reader.tells r ≡ Some text)) }
    ensures unfailed { IfOk result (λ r. S.Reader.count r ≡ 0) }
    ensures fault { IfErr result (IsFileFault side) }
    ensures unfailing { IsUnfailing S.Reader.count (S.opens storage.now) → IfErr result (λ f. f ≡ Fault.Memory) }
{
    match storage.open(name) {
        Ok(reader) => Ok(reader),
        Err(error) => Err(fault_of_open(side, &error)),
    }
}

/// Opens a side's file to be read from one place up to another, or up to its end.
///
/// # Errors
///
/// Those of [`open_file`].
pub(crate) fn open_range<S: Storage>(
    storage: &S,
    name: &str,
    side: Side,
    from: u64,
    to: Option<u64>,
) -> Result<S::Reader, Fault>
    ensures bytes { IfOk result (λ r. IfSome (S.holds storage.now name.now) (λ text. S.Reader.tells r ≡ Some (bytes_between from to text))) }
    ensures unfailed { IfOk result (λ r. S.Reader.count r ≡ 0) }
    ensures fault { IfErr result (IsFileFault side) }
    ensures unfailing { IsUnfailing S.Reader.count (S.opens storage.now) → IfErr result (λ f. f ≡ Fault.Memory) }
{
    match storage.open_range(name, from, to) {
        Ok(reader) => Ok(reader),
        Err(error) => Err(fault_of_open(side, &error)),
    }
}

/// How many bytes a side's file has.
///
/// # Errors
///
/// Those of [`open_file`].
pub(crate) fn file_size<S: Storage>(storage: &S, name: &str, side: Side) -> Result<u64, Fault>
    ensures size { IfOk result (λ n. IfSome (S.holds storage.now name.now) (λ text. n ≡ length text)) }
    ensures fault { IfErr result (IsFileFault side) }
    ensures unfailing { IsUnfailing S.Reader.count (S.opens storage.now) → IfErr result (λ f. f ≡ Fault.Memory) }
{
    match storage.size(name) {
        Ok(size) => Ok(size),
        Err(error) => Err(fault_of_open(side, &error)),
    }
}

/// Reads the header of a side's file with this delimiter, as strictly as is asked for.
///
/// # Errors
///
/// Those of [`open_file`], and of [`read_head_of`].
pub(crate) fn read_head<S: Storage>(
    alloc: Global,
    storage: &S,
    name: &str,
    side: Side,
    delimiter: Delimiter,
    strict: Strictness,
) -> Result<Head, Fault>
    ensures head { IfOk result (HasHead strict delimiter (S.holds storage.now name.now)) }
    ensures fault { IfErr result (HasHeadFault strict delimiter side (S.holds storage.now name.now)) }
{
    match open_file(storage, name, side) {
        Ok(mut input) => read_head_of(alloc, &mut input, side, delimiter, strict),
        Err(fault) => Err(fault),
    }
}

/// The first bytes of a side's file, which hold its header unless that has more than a mebibyte.
///
/// # Errors
///
/// Those of [`open_file`].
pub(crate) fn read_beginning<S: Storage>(
    alloc: Global,
    storage: &S,
    name: &str,
    side: Side,
) -> Result<Vec<u8>, Fault>
    ensures beginning { IfOk result (λ v. Begins (S.holds storage.now name.now) v.items) }
    ensures fault { IfErr result (IsFileFault side) }
    ensures unfailing { IsUnfailing S.Reader.count (S.opens storage.now) → IfErr result (λ f. f ≡ Fault.Memory) }
{
    let mut input = match open_file(storage, name, side) {
        Ok(input) => input,
        Err(fault) => return Err(fault),
    };
    let mut bytes = Vec::new(alloc);
    match read_up_to(&mut input, &mut bytes, BEGINNING) {
        Ok(_is_whole) => Ok(bytes),
        Err(refused) => Err(fault_of_read(side, refused)),
    }
}
