//! The header of a CSV file, where fields that have no name, or repeat one, are given one.
//!
//! `completed_names` says which names, and `completed` which bytes stand for the file then.
//! [`complete_header`] makes them. [`first_end`] finds where a header ends.

mod column;
mod completing;
mod laws;
mod line_end;
mod naming;

pub use self::column::GivenName;
pub use self::completing::{Completed, complete_header};
pub use self::laws::{completed_names_are_lawful, completed_records};
pub use self::line_end::first_end;
