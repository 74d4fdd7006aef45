//! The settings of a join, and their limits; what is written of a joined table, and what is expected of it.
//!
//! [`types`] has type lists, and lists of columns, as they are read from their texts.
#![tactic(auto)]

mod choice;
mod expectation;
mod settings;
pub mod types;

pub use choice::{Choice, ColumnChoice, Repeated, RowKinds, RowOrder, SelectedColumn, Source};
pub use expectation::{Expectation, Matching};
pub use settings::Settings;
