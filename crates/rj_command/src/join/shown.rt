//! How a report shows a text.

ghost use Rattle.std.specs.Prelude.{◌≡◌, IfOk, string_bytes};
ghost use Rattle.rj_line.specs.Shown.{shown};

use rj_line::shown::Shown;
use std::alloc::{AllocError, Global};

/// A text as a report shows it, on one line: its first 60 bytes, and how many more there are.
///
/// # Errors
///
/// It fails only when memory runs out.
pub(crate) fn shown_text(alloc: Global, text: &str) -> Result<String, AllocError>
    ensures { IfOk result (λ s. string_bytes s ≡ shown text.now) }
{
    let shown = Shown {
        bytes: text.as_bytes(),
    };
    format!(in alloc; "{shown}")
}
