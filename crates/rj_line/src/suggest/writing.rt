//! The text of a list of types by name.

ghost use Rattle.std.specs.Prelude.{◌≡◌, ◌++◌, ◌∷◌, [], length, IfOk, OnOk, string_bytes};
ghost use Rattle.std.specs.List.{list_all};
ghost use Rattle.rj_condition.specs.Tokens.{doubled, in_quotes, is_name_byte};
ghost use Rattle.rj_line.specs.Suggested.{column_line, column_lines, is_identifier, name_text, type_word};

use rj_columns::{ColumnType, Table};
use std::alloc::{AllocError, Global};

fn is_name_byte(byte: u8) -> bool
    ensures { result ≡ is_name_byte byte }
{
    byte.is_ascii_alphanumeric() || byte == b'_'
}

fn are_name_bytes(bytes: &[u8]) -> bool
    ensures { result ≡ list_all is_name_byte bytes.now }
{
    bytes.iter().all(|b| is_name_byte(*b))
}

// Whether a name is an identifier: a letter, and then letters, digits and underscores. A list of
// types would take an underscore in front, too, but a clause needs quotes around such a name, and
// so it gets them here.
fn is_identifier(name: &[u8]) -> bool
    ensures { result ≡ is_identifier name.now }
{
    match name {
        [] => false,
        [first, rest @ ..] => first.is_ascii_alphabetic() && are_name_bytes(rest),
    }
}

// Adds a text with each double quote doubled.
fn push_doubled(out: &mut Vec<u8>, text: &[u8]) -> Result<(), AllocError>
    ensures { OnOk result (out.new.items ≡ out.old.items ++ doubled 34 text.now) }
{
    for i in 0..text.len() {
        let byte = text[i];
        if byte == b'"' {
            out.push(byte)?;
        }
        out.push(byte)?;
    }
    Ok(())
}

// Adds a name as a list of types has it.
fn push_name(out: &mut Vec<u8>, name: &[u8]) -> Result<(), AllocError>
    ensures { OnOk result (out.new.items ≡ out.old.items ++ name_text name.now) }
{
    if is_identifier(name) {
        return out.extend_from_slice(name);
    }
    out.push(b'"')?;
    push_doubled(out, name)?;
    out.push(b'"')?;
    Ok(())
}

// The word of a type.
fn word_of(alloc: Global, kind: ColumnType) -> Result<String, AllocError>
    ensures { IfOk result (λ word. string_bytes word ≡ type_word kind) }
{
    match kind {
        ColumnType::Int => String::from_str(alloc, "int"),
        ColumnType::Num(numeric) => {
            let (precision, scale) = (numeric.precision, numeric.scale);
            format!(in alloc; "num({precision},{scale})")
        }
        ColumnType::Text => String::from_str(alloc, "text"),
    }
}

// Adds the line of a column.
pub(crate) fn push_line(
    alloc: Global,
    out: &mut Vec<u8>,
    name: &str,
    kind: ColumnType,
) -> Result<(), AllocError>
    ensures { OnOk result (out.new.items ≡ out.old.items ++ column_line name.now kind) }
{
    push_name(out, name.as_bytes())?;
    out.push(b'=')?;
    let word = word_of(alloc, kind)?;
    out.extend_from_slice(word.as_bytes())?;
    out.push(b'\n')?;
    Ok(())
}

// A line for each column of a table, with its name and one of the types, in order.
pub(crate) fn lines_of(
    alloc: Global,
    table: &Table,
    kinds: &[ColumnType],
) -> Result<Vec<u8>, AllocError>
    requires { length kinds.now ≡ length table.now.types }
    ensures { IfOk result (λ lines. lines.items ≡ column_lines table.now.names kinds.now) }
{
    let mut lines = Vec::new(alloc);
    for col in 0..table.columns() {
        push_line(alloc, &mut lines, table.name(col), kinds[col])?;
    }
    Ok(lines)
}
