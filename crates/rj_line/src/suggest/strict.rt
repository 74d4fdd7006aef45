//! Suggestions for a file whose text has to be of RFC 4180's grammar.

ghost use Rattle.std.specs.Prelude.{◌≡◌, ◌≢◌, Bool, IfErr, IfOk};
ghost use Rattle.rj_csv_io.specs.Typed.{null_texts};
ghost use Rattle.rj_csv_io.specs.Grammar.{Derives, File, records_of};
ghost use Rattle.rj_csv_io.specs.StrictReading.{body_of};
ghost use Rattle.rj_csv_io.specs.declared.strict.header.HeaderPlace.TheVariants.{First};
ghost use Rattle.rj_line.specs.Keys.{IsListingOf};
ghost use Rattle.rj_line.specs.StrictListings.{IsStrictListing, IsStrictRefusal, refused_below};
ghost use Rattle.rj_line.specs.Suggested.{IsFaultOf};

use crate::fault::Fault;
use crate::suggest::suggest_listed;
use crate::suggest::suggestion::{ListedColumns, Suggestion};
use rj_csv_io::InputFormat;
use rj_csv_io::strict::{HeaderPlace, StrictFault, above_fault, check, quote_empty_lines};
use std::alloc::Global;

/// Why a file suggests nothing if its text has to be of RFC 4180's grammar.
#[derive(Debug, Drop)]
pub enum StrictlyRefused {
    /// Its records, or those above the place where it stops being of the grammar, don't read as
    /// texts.
    Records(Fault),
    /// Its text isn't of the grammar.
    Text(StrictFault),
}

// What all records of a text that is derived suggest of these columns. `""` is written into each of
// its empty lines first.
fn suggest_derived(
    alloc: Global,
    text: &[u8],
    format: &InputFormat<'_>,
    listed: ListedColumns,
) -> Result<Suggestion, Fault>
    requires { (full : Bool) × (file : File) × Derives format.now.delimiter First full (body_of First text.now) file }
    ensures suggestion { (full : Bool) (file : File) → Derives format.now.delimiter First full (body_of First text.now) file
        → IfOk result (IsListingOf listed (records_of file) (null_texts format.now.nulls.now)) }
    ensures fault { (full : Bool) (file : File) → Derives format.now.delimiter First full (body_of First text.now) file
        → IfErr result (λ f. f ≢ Fault.Memory → IsFaultOf (records_of file) (null_texts format.now.nulls.now) f) }
{
    let _byte = format.delimiter.byte();
    let quoted = quote_empty_lines(alloc, text, format.delimiter)?;
    suggest_listed(alloc, quoted.as_slice(), format, listed)
}

// Why a text that isn't of the grammar suggests nothing, given the error of the records above it.
fn refused_below(fault: StrictFault, above: Option<Fault>) -> StrictlyRefused
    ensures { result ≡ refused_below fault above }
{
    match above {
        None | Some(Fault::NoHeader(_)) => StrictlyRefused::Text(fault),
        Some(found) => StrictlyRefused::Records(found),
    }
}

/// What [`suggest_listed`] gives, for a file whose text has to be of RFC 4180's grammar, with the
/// format's delimiter in place of the comma. It goes by exactly the records of the text's one
/// derivation. If `full` is set, the last record needs its line end.
///
/// # Errors
///
/// Errors come in the order of the file: those of the records above the place where the text stops
/// being of the grammar, and then that one. `Memory` comes only when memory ran out.
pub fn suggest_listed_strictly(
    alloc: Global,
    bytes: &[u8],
    format: &InputFormat<'_>,
    full: bool,
    listed: ListedColumns,
) -> Result<Suggestion, StrictlyRefused>
    ensures suggestion { IfOk result (IsStrictListing listed full format.now.delimiter bytes.now (null_texts format.now.nulls.now)) }
    ensures refused { IfErr result (λ e. e ≢ StrictlyRefused.Records Fault.Memory
        → IsStrictRefusal full format.now.delimiter bytes.now (null_texts format.now.nulls.now) e) }
{
    match check(bytes, format.delimiter, HeaderPlace::First, full) {
        Ok(()) => match suggest_derived(alloc, bytes, format, listed) {
            Ok(list) => Ok(list),
            Err(fault) => Err(StrictlyRefused::Records(fault)),
        },
        Err(fault) => {
            let above = above_fault(bytes, format.delimiter, HeaderPlace::First, fault);
            let found = suggest_derived(alloc, above, format, ListedColumns::All).err();
            Err(refused_below(fault, found))
        }
    }
}
