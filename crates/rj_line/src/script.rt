//! Scripts of arrivals at a partition of an exchange: their lines read as parcels, and what is
//! printed for them.

ghost use Rattle.std.specs.Prelude.{Err, IfErr, ◌≡◌, ◌++◌, ◌∷◌, [], OnOk, IfOk, string_bytes, length, is_some};
ghost use Rattle.std.specs.Io.KnownBytes.{Appends};
ghost use Rattle.rj_csv_io.specs.Devices.{CountsFailure};
ghost use Rattle.rj_exchange.specs.Ledgers.{after_all};
ghost use Rattle.rj_line.specs.Faults.{IsOfWriting};
ghost use Rattle.rj_line.specs.Script.{reading, readings, parcels_of, are_readable};
ghost use Rattle.rj_line.specs.Report.{answers_text, printed};

mod lines;
mod parcels;
mod report;

use crate::fault::Fault;
use crate::script::lines::first_line;
use crate::script::parcels::read_parcel;
use crate::script::report::{write_answer, write_last_line, write_senders};
use rj_csv_io::{Failed, Output};
use rj_exchange::ledger::Ledger;
use std::alloc::{AllocError, Global};

// Offers the parcel of a line and writes its answer, or that the line is unreadable.
fn answer_line(
    alloc: Global,
    line: &[u8],
    ledger: &mut Ledger,
    out: &mut String,
) -> Result<bool, AllocError>
    ensures readable { IfOk result (λ r. r ≡ is_some (reading line.now)) }
    ensures written { OnOk result (string_bytes out.new ≡ string_bytes out.old ++ answers_text ledger.old (reading line.now ∷ [])) }
    ensures ledger { OnOk result (ledger.new ≡ after_all ledger.old (parcels_of (reading line.now ∷ []))) }
    ensures senders { length ledger.new.senders ≡ length ledger.old.senders }
{
    let Some(parcel) = read_parcel(alloc, line)? else {
        out.push_str("unreadable\n")?;
        return Ok(false)
    };
    match ledger.offer(parcel) {
        Ok(answer) => write_answer(out, answer)?,
        Err((_, e)) => return Err(e),
    }
    Ok(true)
}

// The same for each line of a script that isn't empty.
fn answer_script(
    alloc: Global,
    script: &[u8],
    ledger: &mut Ledger,
    out: &mut String,
) -> Result<bool, AllocError>
    ensures readable { IfOk result (λ r. r ≡ are_readable (readings script.now)) }
    ensures written { OnOk result (string_bytes out.new ≡ string_bytes out.old ++ answers_text ledger.old (readings script.now)) }
    ensures ledger { OnOk result (ledger.new ≡ after_all ledger.old (parcels_of (readings script.now))) }
    ensures senders { length ledger.new.senders ≡ length ledger.old.senders }
{
    let mut readable = true;
    let mut rest = script;
    while !rest.is_empty() {
        let (line, more) = first_line(rest);
        if !line.is_empty() {
            readable &= answer_line(alloc, line, ledger, out)?;
        }
        rest = more;
    }
    Ok(readable)
}

// All that is printed for a script, and whether each of its lines was readable.
fn print_script(
    alloc: Global,
    script: &[u8],
    partition: u32,
    senders: u32,
    block: u32,
    gaps: bool,
) -> Result<(String, bool), AllocError>
    ensures text { IfOk result (λ r. string_bytes r.0 ≡ printed gaps partition senders block script.now) }
    ensures readable { IfOk result (λ r. r.1 ≡ are_readable (readings script.now)) }
{
    let mut ledger = Ledger::open(alloc, partition, senders, block)?;
    let mut out = String::new(alloc);
    let readable = answer_script(alloc, script, &mut ledger, &mut out)?;
    write_senders(&mut out, senders, &ledger, gaps)?;
    write_last_line(&mut out, &ledger)?;
    Ok((out, readable))
}

/// Replays a script of arrivals at a partition, and puts what is printed for it: a line for each of
/// its lines that isn't empty, a line for each of the senders below `senders`, and `complete` or
/// `incomplete`.
///
/// A line reads `SENDER PARTITION NUMBER close` or `SENDER PARTITION NUMBER rows{ ROW}`, with
/// single spaces. It ends with LF. A CR before that LF is dropped, and the last line may lack its
/// LF. The ledger of `partition`, with blocks of at most `block` rows, answers its parcel:
/// `accepted N`, `held` or `refused REASON`. A line of another form is `unreadable`. For a sender
/// it prints `sender S complete rows{ ROW}` once its close was delivered, else
/// `sender S waiting N rows{ ROW}` with the next number. With `gaps`, if parcels of it are held, it
/// also prints `sender S gap A B`, the next number and the smallest held one.
///
/// `Ok` is whether every line was readable. `block` is at least 1.
///
/// # Errors
///
/// `Memory` if memory ran out; the writer is unchanged. `WriteDevice` if the writer failed; how
/// much it got is unknown. There is no other error.
pub fn arrivals<W: Output>(
    alloc: Global,
    script: &[u8],
    partition: u32,
    senders: u32,
    block: u32,
    gaps: bool,
    writer: &mut W,
) -> Result<bool, Fault>
    ensures written { OnOk result (Appends (W.told writer.old) (W.told writer.new) (printed gaps partition senders block script.now)) }
    ensures readable { IfOk result (λ r. r ≡ are_readable (readings script.now)) }
    ensures faults { IfErr result IsOfWriting }
    ensures memory { result ≡ Err Fault.Memory → writer.new ≡ writer.old }
    ensures count { CountsFailure result Fault.WriteDevice (W.count writer.new) (W.count writer.old) }
{
    let Ok((text, readable)) = print_script(alloc, script, partition, senders, block, gaps) else {
        return Err(Fault::Memory);
    };
    match writer.put(text.as_bytes()) {
        Ok(()) => Ok(readable),
        Err(Failed) => Err(Fault::WriteDevice),
    }
}
