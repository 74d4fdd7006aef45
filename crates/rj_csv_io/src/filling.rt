//! Reading the bytes of a device, piece by piece.

ghost use Rattle.std.specs.Prelude.{◌≡◌, ◌≢◌, ◌<◌, ◌≤◌, ◌+◌, ◌^◌, ℕ, List, Option, Ok, true, false, [], length, take, drop, vec_len, IfOk, IfErr, IfSome, OnOk, OnErr};
ghost use Rattle.std.specs.Io.KnownBytes.{Consumes, IsAtEnd};
ghost use Rattle.rj_csv_io.specs.Devices.{CountsFailure, after_failure};

use crate::input::Input;
use crate::output::Failed;
use crate::refused::ReadRefused;
use std::alloc::Global;

// How many bytes are asked of a device at once.
const PIECE: usize = 65536;

// Reads the next bytes of a device into a buffer, after its first `filled` bytes, and returns how
// many they are.
fn get_behind<I: Input>(input: &mut I, buffer: &mut [u8], filled: usize) -> Result<usize, Failed>
    requires room { filled < length buffer.old }
    ensures size { length buffer.new ≡ length buffer.old }
    ensures front { take filled buffer.new ≡ take filled buffer.old }
    ensures fits { IfOk result (λ k. filled + k ≤ length buffer.new) }
    ensures bytes { IfOk result (λ k. Consumes (I.tells input.old) (I.tells input.new) (take k (drop filled buffer.new))) }
    ensures end { result ≡ Ok 0 → IsAtEnd (I.tells input.new) }
    ensures kept { OnOk result (I.count input.new ≡ I.count input.old) }
    ensures failed { OnErr result (I.count input.new ≡ after_failure (I.count input.old)) }
{
    input.get(&mut buffer[filled..])
}

// Appends the next piece of a device's bytes. The answer is whether there was one.
fn read_piece<I: Input>(input: &mut I, bytes: &mut Vec<u8>) -> Result<bool, ReadRefused>
    ensures bytes { OnOk result ((start : Option (List ℕ)) → Consumes start (I.tells input.old) bytes.old.items
        → Consumes start (I.tells input.new) bytes.new.items) }
    ensures front { OnOk result (take (length bytes.old.items) bytes.new.items ≡ bytes.old.items) }
    ensures bound { OnOk result (vec_len bytes.new ≤ vec_len bytes.old + 2 ^ 16) }
    ensures more { result ≡ Ok true → vec_len bytes.old < vec_len bytes.new }
    ensures end { result ≡ Ok false → IsAtEnd (I.tells input.new) }
    ensures count { CountsFailure result ReadRefused.ReadDevice (I.count input.new) (I.count input.old) }
    ensures fault { IfErr result (λ e. e ≢ ReadRefused.Memory → e ≡ ReadRefused.ReadDevice) }
{
    let filled = bytes.len();
    if bytes.resize(filled + PIECE, 0).is_err() {
        return Err(ReadRefused::Memory);
    }
    match get_behind(input, bytes.as_mut_slice(), filled) {
        Ok(k) => {
            bytes.truncate(filled + k);
            Ok(k > 0)
        }
        Err(Failed) => Err(ReadRefused::ReadDevice),
    }
}

/// Reads the next bytes of a device and appends them, until there are at least `size` bytes or the
/// device is at its end. The answer is whether it is at its end. If any bytes were read, there are
/// less than `size` bytes plus 64 KiB.
///
/// # Errors
///
/// `ReadDevice` if the device failed, `Memory` if memory ran out. How much was read is unknown
/// then.
pub fn read_up_to<I: Input>(
    input: &mut I,
    bytes: &mut Vec<u8>,
    size: usize,
) -> Result<bool, ReadRefused>
    ensures bytes { OnOk result ((start : Option (List ℕ)) → Consumes start (I.tells input.old) bytes.old.items
        → Consumes start (I.tells input.new) bytes.new.items) }
    ensures front { OnOk result (take (length bytes.old.items) bytes.new.items ≡ bytes.old.items) }
    ensures bound { OnOk result (vec_len bytes.old < vec_len bytes.new → vec_len bytes.new < size + 2 ^ 16) }
    ensures end { result ≡ Ok true → IsAtEnd (I.tells input.new) }
    ensures full { result ≡ Ok false → size ≤ vec_len bytes.new }
    ensures count { CountsFailure result ReadRefused.ReadDevice (I.count input.new) (I.count input.old) }
    ensures fault { IfErr result (λ e. e ≢ ReadRefused.Memory → e ≡ ReadRefused.ReadDevice) }
{
    while bytes.len() < size {
        if !read_piece(input, bytes)? {
            return Ok(true);
        }
    }
    Ok(false)
}

// An empty list. As far as memory allows, it has room for about this many bytes and a piece more.
fn likely_room(alloc: Global, size: u64) -> Vec<u8>
    ensures { result.items ≡ [] }
{
    let mut bytes = Vec::new(alloc);
    let _ = bytes.reserve((size as usize).saturating_add(PIECE));
    bytes
}

/// All bytes of a device, to its end.
///
/// # Errors
///
/// `ReadDevice` if the device failed, `Memory` if memory ran out. How much was read is unknown
/// then.
pub fn read_all<I: Input>(alloc: Global, input: &mut I) -> Result<Vec<u8>, ReadRefused>
    ensures bytes { IfOk result (λ v. IfSome (I.tells input.old) (λ xs. v.items ≡ xs)) }
    ensures end { OnOk result (IsAtEnd (I.tells input.new)) }
    ensures count { CountsFailure result ReadRefused.ReadDevice (I.count input.new) (I.count input.old) }
    ensures fault { IfErr result (λ e. e ≢ ReadRefused.Memory → e ≡ ReadRefused.ReadDevice) }
{
    let mut bytes = likely_room(alloc, input.likely_size());
    read_up_to(input, &mut bytes, usize::MAX)?;
    Ok(bytes)
}
