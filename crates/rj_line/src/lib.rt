//! The command line of a join: its options, and the request that its words make.
//!
//! [`fault`] says why a program ended without its output. [`suggest`] has the types that a file
//! suggests. [`shown`] has how texts are shown. [`script`] replays scripts of arrivals at a partition.
#![tactic(auto)]

mod choice;
mod delimiters;
mod expecting;
pub mod fault;
mod flags;
mod form;
mod help;
mod line;
mod nulls;
mod options;
mod request;
pub mod script;
pub mod shown;
pub mod suggest;
mod types;

pub use delimiters::delimiter_of;
pub use form::{Form, form_of, is_explained};
pub use line::{Line, read_line};
pub use nulls::read_nulls;
pub use request::{Hash, Request, Strictness};
pub use types::read_types;
