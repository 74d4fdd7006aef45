//! A script that is replayed as the words of the command line say.

ghost use Rattle.std.specs.Prelude.{◌≡◌, ◌≢◌, Err, IfErr, IfOk, OnOk, map};
ghost use Rattle.arrivals.specs.Lines.{IsReplayLine};
ghost use Rattle.arrivals.specs.Replays.{IsFailure, IsReplay};
ghost use Rattle.arrivals.specs.declared.failure.Failure.{Failure};
ghost use Rattle.arrivals.specs.declared.line.Line.{Line};
ghost use Rattle.std.specs.Io.KnownBytes.{IsAtEnd};
ghost use Rattle.rj_csv_io.specs.Devices.{after_failure};

use crate::failure::Failure;
use crate::line::{Line, read_line};
use rj_csv_io::{Input, Output, ReadRefused, read_all};
use rj_line::fault::Fault;
use rj_line::script::arrivals;
use std::alloc::Global;

/// Reads the words after the program's name, and then the script to its end, and puts what is
/// printed for it. Returns whether every line of the script was readable.
///
/// # Errors
///
/// Those of [`read_line`], before the script is read. `ReadDevice` if the input failed, `Memory` if
/// memory ran out. After all these the output is unchanged. `WriteDevice` if it failed; how much it
/// got is unknown.
pub fn replay<I: Input, W: Output>(
    alloc: Global,
    words: &[&str],
    input: &mut I,
    writer: &mut W,
) -> Result<bool, Failure>
    ensures replay { IfOk result (IsReplay (map (λ w. w.now) words.now) (I.tells input.old) (W.told writer.old) (W.told writer.new)) }
    ensures failure { IfErr result (IsFailure (map (λ w. w.now) words.now)) }
    ensures unread { ((line : Line) → IsReplayLine (map (λ w. w.now) words.now) line → ⊥) → input.new ≡ input.old }
    ensures end { OnOk result (IsAtEnd (I.tells input.new)) }
    ensures read { result ≡ Err Failure.ReadDevice → I.count input.new ≡ after_failure (I.count input.old) }
    ensures readable { result ≢ Err Failure.ReadDevice → I.count input.new ≡ I.count input.old }
    ensures unchanged { IfErr result (λ f. f ≢ Failure.WriteDevice → writer.new ≡ writer.old) }
    ensures written { result ≡ Err Failure.WriteDevice → W.count writer.new ≡ after_failure (W.count writer.old) }
    ensures kept { result ≢ Err Failure.WriteDevice → W.count writer.new ≡ W.count writer.old }
{
    let Line {
        partition,
        senders,
        block,
        gaps,
    } = match read_line(alloc, words) {
        Ok(line) => line,
        Err(failure) => return Err(failure),
    };
    let script = match read_all(alloc, input) {
        Ok(script) => script,
        Err(ReadRefused::Memory) => return Err(Failure::Memory),
        Err(_) => return Err(Failure::ReadDevice),
    };
    match arrivals(
        alloc,
        script.as_slice(),
        partition,
        senders,
        block,
        gaps,
        writer,
    ) {
        Ok(readable) => Ok(readable),
        Err(Fault::Memory) => Err(Failure::Memory),
        Err(_) => Err(Failure::WriteDevice),
    }
}
