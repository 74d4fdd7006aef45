//! How a program reports why it ended without its output.

ghost use Rattle.std.specs.Prelude.{◌≡◌, ◌⊎◌, ℕ, Option, Some, false, is_ok, true};
ghost use Rattle.std.specs.Option.{option_copied};
ghost use Rattle.clap.specs.declared.error.Error.{Error};
ghost use Rattle.rj_line.specs.Faults.{IsAskedFor};

use clap::Error;
use std::fmt::Display;
use std::io;

/// Why a program ended without its output. Its text is the line that is printed, without its line end.
pub trait ExitReason: Display + Drop {
    // The exit status.
    ghost exit: { Self → ℕ };

    // What `clap` prints in place of the line, if it does.
    ghost of_clap: { Self → Option Error };

    // The reason that standard output couldn't be written.
    ghost unwritten: { Self };

    /// The exit status. It allocates no memory.
    fn status(&self) -> u8
        ensures { result ≡ exit self.now };

    /// What `clap` prints in place of the line, if it refused the words, or if they ask for help or
    /// for the version.
    fn by_clap(&self) -> Option<&Error>
        ensures { option_copied result ≡ of_clap self.now };

    /// The reason that standard output couldn't be written.
    fn failed_write() -> Self
        ensures { result ≡ unwritten };
}

// Prints the line, and returns the exit status.
fn tell_line<T: ExitReason>(rt: &impl Eprint, reason: &T) -> u8
    ensures { result ≡ T.exit reason.now }
{
    let _ = eprintln!(rt; "{reason}");
    reason.status()
}

// The exit status after `clap` printed its text, given how printing went. If help or the version
// couldn't be printed, that is reported, and the status is that of a failed write.
fn status_by_clap<T: ExitReason>(
    rt: &impl Eprint,
    reason: &T,
    error: &Error,
    printed: io::Result<()>,
) -> u8
    ensures printed { is_ok printed ≡ true → result ≡ T.exit reason.now }
    ensures unprinted { is_ok printed ≡ false → IsAskedFor (Some error.now) → result ≡ T.exit T.unwritten }
    ensures refused { (IsAskedFor (Some error.now) → ⊥) → result ≡ T.exit reason.now }
    ensures either { (result ≡ T.exit reason.now) ⊎ (IsAskedFor (Some error.now) × (result ≡ T.exit T.unwritten)) }
{
    if printed.is_ok() || error.use_stderr() {
        return reason.status();
    }
    tell_line(rt, &T::failed_write())
}

/// Prints on standard error why there is no output, or on standard output help or the version, and
/// returns the exit status. If help or the version couldn't be printed, the status is that of a
/// failed write.
pub fn tell<R: Print + Eprint, T: ExitReason>(rt: &R, reason: &T) -> u8
    ensures { (result ≡ T.exit reason.now) ⊎ (IsAskedFor (T.of_clap reason.now) × (result ≡ T.exit T.unwritten)) }
{
    if let Some(error) = reason.by_clap() {
        return status_by_clap(rt, reason, error, error.print(rt));
    }
    tell_line(rt, reason)
}
