//! The label at the front of a list.

ghost use Rattle.std.specs.Prelude.{◌≡◌, IfOk};
ghost use Rattle.rj_condition.specs.Internal.Scanning.{view};
ghost use Rattle.rj_settings.specs.Internal.Scanning as scanning;

use crate::types::entry::Label;
use crate::types::name::{behind, name_at};
use std::alloc::{AllocError, Global};

// A label in front of a text that begins with `=`.
fn labelled<'t>(label: Label, text: &'t str) -> Option<(Label, &'t str)>
    ensures { view result ≡ scanning.labelled label (scanning.behind 61 text.now) }
{
    match behind(b'=', text) {
        Some(rest) => Some((label, rest)),
        None => None,
    }
}

fn label_in<'t>(alloc: Global, text: &'t str) -> Result<Option<(Label, &'t str)>, AllocError>
    ensures { IfOk result (λ o. view o ≡ scanning.label_in text.now) }
{
    if let Some((name, after)) = name_at(alloc, text)? {
        return Ok(labelled(Label::Name(name), after));
    }
    match behind(b'*', text) {
        Some(rest) => Ok(labelled(Label::Rest, rest)),
        None => Ok(None),
    }
}

/// The label with which the text begins, or that of a position if it begins with none; and what
/// comes after it.
pub(crate) fn label_at<'t>(alloc: Global, text: &'t str) -> Result<(Label, &'t str), AllocError>
    ensures { IfOk result (λ p. (p.0, p.1.now) ≡ scanning.or_place (scanning.label_in text.now) text.now) }
{
    match label_in(alloc, text)? {
        Some(found) => Ok(found),
        None => Ok((Label::Place, text)),
    }
}
