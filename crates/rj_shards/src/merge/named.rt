//! Texts that are opened by their names, and merged.

ghost use Rattle.std.specs.Prelude.{◌≡◌, ◌≢◌, ◌<◌, ◌^◌, ◌⊎◌, true, ℕ, List, Err, IfOk, IfErr, OnOk, OnErr, length, map, vec_len};
ghost use Rattle.std.specs.IoError.{error_kind};
ghost use Rattle.rj_csv_io.specs.Devices.{CountsFailure};
ghost use Rattle.rj_shards.specs.declared.merge.refused.MergeRefused.{MergeRefused};
ghost use Rattle.rj_shards.specs.Inputs.{copies_of, is_input};
ghost use Rattle.rj_shards.specs.MergedTexts.{GotMerge, HaveNoFault, HeedsHeaders, IsFaultOfTexts, IsPartlyMerged, IsRefusedBy, IsUntouched};
ghost use Rattle.rj_shards.specs.Named.{AreOpened, ForNamed, IsOpenFault, IsShut, OpensNothing};
ghost use Rattle.rj_shards.specs.Sources.{TellsAmong, is_outside};

use crate::merge::copies::{Copies, MergeInput};
use crate::merge::options::MergeOptions;
use crate::merge::refused::{MergeRefused, MergeTextsRefused};
use crate::merge::texts::merge_texts;
use rj_csv_io::{Output, RetryingReader};
use std::alloc::Global;
use std::io::{self, ErrorKind, Read};

/// Opens texts by their names.
pub trait Opener {
    /// The reader of a text.
    type Reader: Read + Drop;

    // Whether a name may open this reader.
    ghost opens: { Self → List ℕ → Self.Reader → Type 0 } = { λ _ _ _. Unit {0} };

    // Whether a name may open nothing.
    ghost shut: { Self → List ℕ → Type 0 } = { λ _ _. Unit {0} };

    /// Opens the text of this name.
    ///
    /// # Errors
    ///
    /// Why it can't be opened: `OutOfMemory` if memory ran out.
    fn open(&self, name: &str) -> io::Result<Self::Reader>
        ensures opens { IfOk result (λ r. opens self.now name.now r) }
        ensures shut { OnErr result (shut self.now name.now) };
}

// Why an input can't be opened.
fn fault_of_open(input: u32, error: &io::Error) -> MergeRefused
    ensures memory { error_kind error.now ≡ ErrorKind.OutOfMemory → result ≡ MergeRefused.Memory }
    ensures device { error_kind error.now ≢ ErrorKind.OutOfMemory → result ≡ MergeRefused.ReadDevice input }
    ensures either { (result ≡ MergeRefused.Memory) ⊎ (result ≡ MergeRefused.ReadDevice input) }
{
    if error.kind() == ErrorKind::OutOfMemory {
        MergeRefused::Memory
    } else {
        MergeRefused::ReadDevice(input)
    }
}

// Opens the texts, in order, each with its copies.
fn open_named<P: Opener>(
    alloc: Global,
    opener: &P,
    names: &[&str],
    copies: &[Copies],
) -> Result<Vec<MergeInput<RetryingReader<P::Reader>>>, MergeRefused>
    requires copies { length copies.now ≡ length names.now }
    requires count { length names.now < 2 ^ 32 }
    ensures opened { IfOk result (λ v. AreOpened (P.opens opener.now) (map (λ n. n.now) names.now) v.items) }
    ensures copies { IfOk result (λ v. copies_of v.items ≡ copies.now) }
    ensures count { IfOk result (λ v. vec_len v ≡ length names.now) }
    ensures outside { IfErr result (λ e. is_outside e ≡ true) }
    ensures shut { IfErr result (λ e. (i : ℕ) → e ≡ MergeRefused.ReadDevice i → IsShut (P.shut opener.now) (map (λ n. n.now) names.now) i) }
    ensures unopened { (i : ℕ) → OpensNothing (P.opens opener.now) (map (λ n. n.now) names.now) i
        → (e : MergeRefused) × (result ≡ Err e) × IsOpenFault (P.shut opener.now) (map (λ n. n.now) names.now) i e }
{
    let mut inputs = Vec::new(alloc);
    let mut number = 0;
    'names: for i in 0..names.len() {
        number += 1;
        let reader = match opener.open(names[i]) {
            Ok(reader) => RetryingReader::new(reader),
            Err(error) => return Err(fault_of_open(number, &error)),
        };
        let input = MergeInput {
            reader,
            copies: copies[i],
        };
        if inputs.push(input).is_err() {
            return Err(MergeRefused::Memory);
        }
    }
    Ok(inputs)
}

/// Opens texts by their names, in order, and merges all of them, each with its copies, as
/// [`merge_texts`] does.
///
/// # Errors
///
/// Those of [`merge_texts`]. `ReadDevice` also for a text that can't be opened, the first of them;
/// nothing is put then.
pub fn merge_named<P: Opener, O: Output>(
    alloc: Global,
    opener: &P,
    names: &[&str],
    copies: &[Copies],
    how: &MergeOptions<'_>,
    output: &mut O,
) -> Result<(), MergeTextsRefused>
    requires some { 0 < length names.now }
    requires count { length names.now < 2 ^ 32 }
    requires copies { length copies.now ≡ length names.now }
    ensures merge { OnOk result (ForNamed (P.opens opener.now) P.Reader.remaining (map (λ n. n.now) names.now)
        (λ texts. GotMerge how.now copies.now texts (O.told output.old) (O.told output.new))) }
    ensures faults { OnOk result (ForNamed (P.opens opener.now) P.Reader.remaining (map (λ n. n.now) names.now) (HaveNoFault how.now)) }
    ensures fault { (e : MergeRefused) → IsRefusedBy result e
        → ForNamed (P.opens opener.now) P.Reader.remaining (map (λ n. n.now) names.now) (λ texts. IsFaultOfTexts how.now copies.now texts e) }
    ensures first { ForNamed (P.opens opener.now) P.Reader.remaining (map (λ n. n.now) names.now) (HeedsHeaders result) }
    ensures untouched { ForNamed (P.opens opener.now) P.Reader.remaining (map (λ n. n.now) names.now) (IsUntouched output.old output.new) }
    ensures partly { (e : MergeRefused) → result ≡ Err (MergeTextsRefused.Merge e)
        → ForNamed (P.opens opener.now) P.Reader.remaining (map (λ n. n.now) names.now) (λ texts. IsPartlyMerged how.now copies.now texts (O.told output.old) (O.told output.new)) }
    ensures input { (e : MergeRefused) → result ≡ Err (MergeTextsRefused.Merge e) → TellsAmong (is_input (length names.now)) e }
    ensures unopened { (i : ℕ) → OpensNothing (P.opens opener.now) (map (λ n. n.now) names.now) i
        → (output.new ≡ output.old) × ((e : MergeRefused) × (result ≡ Err (MergeTextsRefused.Merge e)) × IsOpenFault (P.shut opener.now) (map (λ n. n.now) names.now) i e) }
    ensures count { CountsFailure result MergeTextsRefused.WriteDevice (O.count output.new) (O.count output.old) }
{
    let inputs = match open_named(alloc, opener, names, copies) {
        Ok(inputs) => inputs,
        Err(e) => return Err(MergeTextsRefused::Merge(e)),
    };
    match merge_texts(alloc, inputs, how, output) {
        Ok(()) => Ok(()),
        Err(e) => Err(e),
    }
}
