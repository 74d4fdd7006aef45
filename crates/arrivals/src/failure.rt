//! Why nothing, or not all, was printed.

ghost use Rattle.std.specs.Prelude.{◌≡◌};

use clap::Error;
use rj_line::fault::ExitReason;
use std::alloc::AllocError;
use std::fmt;

/// Why nothing, or not all, was printed. The text is the line that is printed, without its line
/// end.
#[derive(Drop)]
pub enum Failure {
    /// `clap` refused the words, or they ask for help or for the version. The text is that of
    /// `clap`.
    CommandLine(Error),
    /// A word isn't text.
    NotText,
    /// Memory ran out.
    Memory,
    /// The script can't be read.
    ReadDevice,
    /// The answers can't be written.
    WriteDevice,
}

impl From<AllocError> for Failure {
    ghost use Rattle.arrivals.specs.declared.failure.Failure.TheVariants.{Memory};

    ghost from_gives = { λ _ f. f ≡ Memory };

    fn from(_error: AllocError) -> Failure {
        Failure::Memory
    }
}

impl fmt::Display for Failure {
    ghost use Rattle.arrivals.specs.Failures.{line_of};

    ghost output = { line_of };

    fn fmt<W: fmt::Write>(&self, f: &mut fmt::Formatter<W>) -> fmt::Result {
        match self {
            Failure::CommandLine(error) => write!(f, "{error}"),
            Failure::NotText => f.write_str("arrivals: an argument is not text"),
            Failure::Memory => f.write_str("arrivals: E18 Memory"),
            Failure::ReadDevice => f.write_str("arrivals: E19 ReadDevice"),
            Failure::WriteDevice => f.write_str("arrivals: E20 WriteDevice"),
        }
    }
}

impl ExitReason for Failure {
    ghost use Rattle.arrivals.specs.Failures.{clap_error_of, exit_of};
    ghost use Rattle.arrivals.specs.declared.failure.Failure.TheVariants.{WriteDevice};

    ghost exit = { exit_of };

    ghost of_clap = { clap_error_of };

    ghost unwritten = { WriteDevice };

    fn status(&self) -> u8 {
        match self {
            Failure::CommandLine(error) => { if error.use_stderr() { 2 } else { 0 } }
            Failure::NotText => 2,
            Failure::Memory => 5,
            Failure::ReadDevice | Failure::WriteDevice => 6,
        }
    }

    fn by_clap(&self) -> Option<&Error> {
        match self {
            Failure::CommandLine(error) => Some(error),
            _ => None,
        }
    }

    fn failed_write() -> Failure {
        Failure::WriteDevice
    }
}
