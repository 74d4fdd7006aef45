//! Why a file wasn't divided.

ghost use Rattle.std.specs.Prelude.{◌≡◌};

use rj_command::{ExitReason, Fault};
use std::alloc::AllocError;
use std::fmt;

/// Why a file wasn't divided. The text is the line that is printed, without its line end; an error
/// of a file or of the clause has the line that `radixjoin` prints.
#[derive(Drop)]
pub(crate) enum Failure {
    /// An error of the command line, a file, the clause or the machine.
    Told(Fault),
    /// A word of the command line isn't text.
    NotText,
    /// Both or neither of `--out` and `--cuts` are given.
    NoTask,
    /// The clause has no key.
    NoKey,
}

impl fmt::Display for Failure {
    ghost use Rattle.shards.specs.Failures.{line_of};

    ghost output = { line_of };

    fn fmt<W: fmt::Write>(&self, f: &mut fmt::Formatter<W>) -> fmt::Result {
        match self {
            Failure::Told(fault) => write!(f, "{fault}"),
            Failure::NotText => f.write_str("shards: an argument is not text"),
            Failure::NoTask => f.write_str("shards: one of --out and --cuts has to be given"),
            Failure::NoKey => f.write_str(
                "shards: the clause has no key, so that its tables can't be divided",
            ),
        }
    }
}

impl From<Fault> for Failure {
    ghost use Rattle.shards.specs.declared.failure.Failure.TheVariants.{Told};

    ghost from_gives = { λ fault failure. failure ≡ Told fault };

    fn from(fault: Fault) -> Failure {
        Failure::Told(fault)
    }
}

impl From<AllocError> for Failure {
    ghost use Rattle.rj_line.specs.declared.fault.Fault.TheVariants.{Memory};
    ghost use Rattle.shards.specs.declared.failure.Failure.TheVariants.{Told};

    ghost from_gives = { λ _ failure. failure ≡ Told Memory };

    fn from(_error: AllocError) -> Failure {
        Failure::Told(Fault::Memory)
    }
}

impl ExitReason for Failure {
    ghost use Rattle.shards.specs.Failures.{clap_error_of, exit_of, unwritten};

    ghost exit = { exit_of };

    ghost of_clap = { clap_error_of };

    ghost unwritten = { unwritten };

    fn status(&self) -> u8 {
        match self {
            Failure::Told(fault) => fault.status(),
            Failure::NotText | Failure::NoTask => 2,
            Failure::NoKey => 4,
        }
    }

    fn by_clap(&self) -> Option<&clap::Error> {
        match self {
            Failure::Told(fault) => fault.by_clap(),
            _ => None,
        }
    }

    fn failed_write() -> Failure {
        Failure::Told(Fault::WriteDevice)
    }
}
