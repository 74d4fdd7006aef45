//! Lists in a file, with a line for each entry.

ghost use Rattle.std.specs.Prelude.{◌≡◌, ◌++◌, IfOk, IfSome, IfNone, OnOk, string_bytes, false};
ghost use Rattle.std.specs.Option.{option_to_list};
ghost use Rattle.std.specs.Str.{is_utf8};
ghost use Rattle.rj_line.specs.Listed.{in_list, list_in, quoted_behind};

use std::alloc::{AllocError, Global};

// What a byte gives in the list, by whether double quotes are open before it, and by what follows
// it.
fn in_list(quoted: bool, byte: u8, rest: &[u8]) -> Option<u8>
    ensures { result ≡ in_list quoted byte rest.now }
{
    if quoted {
        return Some(byte);
    }
    match (byte, rest) {
        (b'\n', []) => None,
        (b'\n', _) => Some(b','),
        (b'\r', [b'\n', ..]) => None,
        _ => Some(byte),
    }
}

// Whether double quotes are open after a byte.
fn quoted_behind(quoted: bool, byte: u8) -> bool
    ensures { result ≡ quoted_behind quoted byte }
{
    if byte == b'"' { !quoted } else { quoted }
}

// Adds a byte, if there is one.
fn push_some(list: &mut Vec<u8>, byte: Option<u8>) -> Result<(), AllocError>
    ensures { OnOk result (list.new.items ≡ list.old.items ++ option_to_list byte) }
{
    match byte {
        Some(byte) => Ok(list.push(byte)?),
        None => Ok(()),
    }
}

// The bytes of the list that a file's bytes write.
fn list_in(alloc: Global, bytes: &[u8]) -> Result<Vec<u8>, AllocError>
    ensures { IfOk result (λ list. list.items ≡ list_in bytes.now) }
{
    let mut list = Vec::new(alloc);
    let mut quoted = false;
    for i in 0..bytes.len() {
        let byte = bytes[i];
        push_some(&mut list, in_list(quoted, byte, &bytes[i + 1..]))?;
        quoted = quoted_behind(quoted, byte);
    }
    Ok(list)
}

/// The list that the bytes of a file write, with a comma for each line end, LF or CR LF. The line
/// end of the last line gives nothing, and one between double quotes stays as it is. There is none
/// if that isn't UTF-8.
///
/// # Errors
///
/// It fails only when memory runs out.
pub fn list_of_lines(alloc: Global, bytes: &[u8]) -> Result<Option<String>, AllocError>
    ensures list { IfOk result (λ list. IfSome list (λ text. string_bytes text ≡ list_in bytes.now)) }
    ensures none { IfOk result (λ list. IfNone list (is_utf8 (list_in bytes.now) ≡ false)) }
{
    let list = list_in(alloc, bytes)?;
    match String::from_utf8(list) {
        Ok(list) => Ok(Some(list)),
        Err(_) => Ok(None),
    }
}
