//! The lines that `--explain` adds after the line of an error: where it is, what is there, and what
//! may have been meant.
//!
//! A line is a function of the error and of what was read. The definitions in `specs/` fix its
//! content: the lines of a file, the columns, names and fields, the bytes of a clause, and the
//! words around them. Only tested are the words for a text that isn't a clause and for an invalid
//! entry of a type list.
#![tactic(auto)]

mod cells;
mod clause;
mod entries;
mod explanation;
mod further;
mod headers;
mod hints;
mod inputs;
mod joined;
mod lists;
mod mismatch;
mod names;
mod places;
mod quoting;
mod row;
mod selected;
mod shared;
mod shown;
mod strict;
mod syntax;
mod unknown;
mod words;

pub use explanation::{explain, explain_alone};
pub use further::explain_further;
pub use hints::explain_separator;
pub use inputs::Inputs;
pub use joined::explain_row;
pub use lists::explain_list;
pub use row::{Row, field_at, find_row};
pub use strict::line_of_fault;
pub use words::explain_words;
