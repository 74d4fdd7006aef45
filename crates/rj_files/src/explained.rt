//! Why a run ended without its output, and the lines that explain it.

ghost use Rattle.std.specs.Prelude.{◌≡◌, ◌≢◌, ◌⊎◌, IfOk, IfErr, Err, None, Ok, Some, false, option_map, true};
ghost use Rattle.rj_line.specs.Faults.{IsAskedFor, clap_error_of, status_of};
ghost use Rattle.rj_files.specs.Told.{kept_text, told_file, told_lines};

use crate::listener::{Listener, Told};
use rj_line::Form;
use rj_line::fault::{ExitReason, Fault, tell};
use std::alloc::AllocError;

/// Why there is no output, the file that can't be read or written, if that is why, and the lines
/// that explain it, if there are any; or that memory ran out for these. If nobody reads the output
/// any more, nothing is printed of it.
#[derive(Drop)]
pub struct ExplainedFault {
    fault: Fault,
    file: Result<Option<String>, AllocError>,
    lines: Result<Option<String>, AllocError>,
    is_told: bool,
}

impl From<Fault> for ExplainedFault {
    ghost from_gives = { λ fault e. (e.fault ≡ fault) × (e.file ≡ Ok None) × (e.lines ≡ Ok None) × (e.is_told ≡ true) };

    fn from(fault: Fault) -> ExplainedFault {
        ExplainedFault::with_lines(fault, Ok(None))
    }
}

impl From<AllocError> for ExplainedFault {
    ghost use Rattle.rj_line.specs.declared.fault.Fault.TheVariants.{Memory};

    ghost from_gives = { λ _ e. (e.fault ≡ Memory) × (e.file ≡ Ok None) × (e.lines ≡ Ok None) × (e.is_told ≡ true) };

    fn from(_error: AllocError) -> ExplainedFault {
        ExplainedFault::from(Fault::Memory)
    }
}

impl ExplainedFault {
    /// An error with the lines that explain it, if there are any, or that memory ran out for them.
    pub(crate) fn with_lines(
        fault: Fault,
        lines: Result<Option<String>, AllocError>,
    ) -> ExplainedFault
        ensures fault { result.fault ≡ fault }
        ensures file { result.file ≡ Ok None }
        ensures lines { result.lines ≡ lines }
        ensures told { result.is_told ≡ true }
    {
        ExplainedFault {
            fault,
            file: Ok(None),
            lines,
            is_told: true,
        }
    }

    /// An error with the lines that explain it, or that memory ran out for them.
    pub(crate) fn new(fault: Fault, lines: Result<String, AllocError>) -> ExplainedFault
        ensures fault { result.fault ≡ fault }
        ensures file { result.file ≡ Ok None }
        ensures lines { IfOk lines (λ text. result.lines ≡ Ok (Some text)) }
        ensures none { IfErr lines (λ e. result.lines ≡ Err e) }
        ensures told { result.is_told ≡ true }
    {
        match lines {
            Ok(text) => ExplainedFault::with_lines(fault, Ok(Some(text))),
            Err(error) => ExplainedFault::with_lines(fault, Err(error)),
        }
    }

    /// An error of which nothing is printed: whoever reads the output has gone.
    pub(crate) fn unheard(fault: Fault) -> ExplainedFault
        ensures fault { result.fault ≡ fault }
        ensures file { result.file ≡ Ok None }
        ensures lines { result.lines ≡ Ok None }
        ensures told { result.is_told ≡ false }
    {
        ExplainedFault {
            fault,
            file: Ok(None),
            lines: Ok(None),
            is_told: false,
        }
    }

    /// The same error, of this file, if it is one of a file, or that memory ran out for the name.
    pub(crate) fn of_file(self, file: Result<Option<String>, AllocError>) -> ExplainedFault
        ensures fault { result.fault ≡ self.fault }
        ensures file { result.file ≡ file }
        ensures lines { result.lines ≡ self.lines }
        ensures told { result.is_told ≡ self.is_told }
    {
        let ExplainedFault {
            fault,
            file: _,
            lines,
            is_told,
        } = self;
        ExplainedFault {
            fault,
            file,
            lines,
            is_told,
        }
    }

    /// The error.
    pub(crate) fn fault(&self) -> &Fault
        ensures { result.now ≡ self.now.fault }
    {
        &self.fault
    }

    /// The error alone.
    pub(crate) fn into_fault(self) -> Fault
        ensures { result ≡ self.fault }
    {
        let ExplainedFault {
            fault,
            file: _,
            lines: _,
            is_told: _,
        } = self;
        fault
    }
}

// A text, if there is one, and memory didn't run out for it.
fn kept_text(text: &Result<Option<String>, AllocError>) -> Option<&str>
    ensures { option_map (λ t. t.now) result ≡ kept_text text.now }
{
    match text {
        Ok(Some(text)) => Some(text.as_str()),
        Ok(None) | Err(_) => None,
    }
}

// The file that a form of the command line tells.
fn told_file(reason: &ExplainedFault, form: Form) -> Option<&str>
    ensures { option_map (λ name. name.now) result ≡ told_file form reason.now.file }
{
    match form {
        Form::Short => kept_text(&reason.file),
        Form::Long => None,
    }
}

// The lines that explain an error.
fn told_lines(reason: &ExplainedFault) -> &str
    ensures { result.now ≡ told_lines reason.now.lines }
{
    kept_text(&reason.lines).unwrap_or("")
}

// What is printed of an error in a form of the command line.
fn told_in(reason: &ExplainedFault, form: Form) -> Told<'_, Fault>
    ensures reason { result.reason.now ≡ reason.now.fault }
    ensures file { option_map (λ name. name.now) result.file ≡ told_file form reason.now.file }
    ensures lines { result.lines.now ≡ told_lines reason.now.lines }
{
    Told {
        reason: &reason.fault,
        file: told_file(reason, form),
        lines: told_lines(reason),
    }
}

/// Tells why there is no output, and what explains it, in one piece, unless whoever reads the output
/// has gone. In the short form of a command line the file that can't be read or written is told
/// behind the error. What `clap` has to say is printed: help and the version on standard output, the
/// rest on standard error. The answer is the exit status: that of the error or, if help or the
/// version was asked for and couldn't be printed, that of a failed write.
pub fn tell_explained<R: Print + Eprint, L: Listener>(
    rt: &R,
    listener: &mut L,
    reason: &ExplainedFault,
    form: Form,
) -> u8
    ensures status { (result ≡ status_of reason.now.fault) ⊎ (IsAskedFor (clap_error_of reason.now.fault) × (result ≡ status_of Fault.WriteDevice)) }
    ensures heard { reason.now.is_told ≡ true → clap_error_of reason.now.fault ≡ None
        → L.hears listener.old reason.now.fault (told_file form reason.now.file) (told_lines reason.now.lines) listener.new }
    ensures unheard { reason.now.is_told ≡ false → listener.new ≡ listener.old }
    ensures by_clap { clap_error_of reason.now.fault ≢ None → listener.new ≡ listener.old }
{
    if !reason.is_told {
        return reason.fault.status();
    }
    match reason.fault.by_clap() {
        Some(_) => tell(rt, &reason.fault),
        None => {
            listener.hear(&told_in(reason, form));
            reason.fault.status()
        }
    }
}

/// Tells why nothing is said of the only file, as [`tell_explained`] does. There is one file, so its
/// side isn't told.
pub fn tell_explained_alone<R: Print + Eprint, L: Listener>(
    rt: &R,
    listener: &mut L,
    reason: &ExplainedFault,
) -> u8
    ensures status { (result ≡ status_of reason.now.fault) ⊎ (IsAskedFor (clap_error_of reason.now.fault) × (result ≡ status_of Fault.WriteDevice)) }
    ensures heard { reason.now.is_told ≡ true → clap_error_of reason.now.fault ≡ None
        → L.hears_alone listener.old reason.now.fault (told_lines reason.now.lines) listener.new }
    ensures unheard { reason.now.is_told ≡ false → listener.new ≡ listener.old }
    ensures by_clap { clap_error_of reason.now.fault ≢ None → listener.new ≡ listener.old }
{
    if !reason.is_told {
        return reason.fault.status();
    }
    match reason.fault.by_clap() {
        Some(_) => tell(rt, &reason.fault),
        None => {
            listener.hear_alone(&told_in(reason, Form::Long));
            reason.fault.status()
        }
    }
}
