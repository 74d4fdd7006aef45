//! The lines that are printed.

ghost use Rattle.std.specs.Prelude.{◌≡◌, ◌++◌, ◌∷◌, [], OnOk, string_bytes, length, ◌<◌, codes, decimal, true};
ghost use Rattle.rj_exchange.specs.Ledgers.{standing};
ghost use Rattle.rj_exchange.specs.Reading.{gap_at};
ghost use Rattle.rj_line.specs.Report.{reason_text, answer_text, rows_text, standing_text, sender_lines, gap_lines, senders_lines, last_line, text_of_lines};

use rj_exchange::ledger::{Answer, Ledger, Reason};
use std::alloc::AllocError;
use std::fmt::Write;

fn reason_text(reason: Reason) -> &'static str
    ensures { result.now ≡ reason_text reason }
{
    match reason {
        Reason::WrongPartition => "wrong-partition",
        Reason::UnknownSender => "unknown-sender",
        Reason::BadLength => "bad-length",
        Reason::AfterClose => "after-close",
        Reason::Repeat => "repeat",
        Reason::BeyondClose => "beyond-close",
        Reason::EarlyClose => "early-close",
    }
}

pub(crate) fn write_answer(out: &mut String, answer: Answer) -> Result<(), AllocError>
    ensures { OnOk result (string_bytes out.new ≡ string_bytes out.old ++ (answer_text answer ++ 10 ∷ [])) }
{
    match answer {
        Answer::Accepted(count) => writeln!(out, "accepted {count}"),
        Answer::Held => out.push_str("held\n"),
        Answer::Refused(reason) => writeln!(out, "refused {}", reason_text(reason)),
    }
}

fn write_rows(out: &mut String, rows: &[u32]) -> Result<(), AllocError>
    ensures { OnOk result (string_bytes out.new ≡ string_bytes out.old ++ rows_text rows.now) }
{
    for row in rows {
        write!(out, " {row}")?;
    }
    Ok(())
}

fn write_standing(out: &mut String, sender: u32, ledger: &Ledger) -> Result<(), AllocError>
    requires { sender < length ledger.now.senders }
    ensures { OnOk result (string_bytes out.new ≡ string_bytes out.old
        ++ (codes "sender " ++ (decimal sender ++ (32 ∷ standing_text (standing ledger.now sender))))) }
{
    match ledger.waiting(sender) {
        Some(next) => write!(out, "sender {sender} waiting {next}"),
        None => write!(out, "sender {sender} complete"),
    }
}

fn write_gap(out: &mut String, sender: u32, ledger: &Ledger) -> Result<(), AllocError>
    requires { sender < length ledger.now.senders }
    ensures { OnOk result (string_bytes out.new ≡ string_bytes out.old ++ text_of_lines (gap_lines true sender (gap_at (standing ledger.now sender)))) }
{
    match ledger.gap(sender) {
        Some((next, held)) => writeln!(out, "sender {sender} gap {next} {held}"),
        None => Ok(()),
    }
}

fn write_sender(
    out: &mut String,
    sender: u32,
    ledger: &Ledger,
    gaps: bool,
) -> Result<(), AllocError>
    requires { sender < length ledger.now.senders }
    ensures { OnOk result (string_bytes out.new ≡ string_bytes out.old ++ text_of_lines (sender_lines gaps sender (standing ledger.now sender))) }
{
    write_standing(out, sender, ledger)?;
    out.push_str(" rows")?;
    write_rows(out, ledger.delivered(sender))?;
    out.push_str("\n")?;
    if gaps {
        write_gap(out, sender, ledger)?;
    }
    Ok(())
}

// The lines of all senders.
pub(crate) fn write_senders(
    out: &mut String,
    senders: u32,
    ledger: &Ledger,
    gaps: bool,
) -> Result<(), AllocError>
    requires { length ledger.now.senders ≡ senders }
    ensures { OnOk result (string_bytes out.new ≡ string_bytes out.old ++ text_of_lines (senders_lines gaps 0 ledger.now.senders)) }
{
    for sender in 0..senders {
        write_sender(out, sender, ledger, gaps)?;
    }
    Ok(())
}

pub(crate) fn write_last_line(out: &mut String, ledger: &Ledger) -> Result<(), AllocError>
    ensures { OnOk result (string_bytes out.new ≡ string_bytes out.old ++ (last_line ledger.now ++ 10 ∷ [])) }
{
    if ledger.complete() {
        out.push_str("complete\n")
    } else {
        out.push_str("incomplete\n")
    }
}
