//! Joins, from the bytes of two tables to the bytes of their joined table. The command line, errors
//! and exit statuses are re-exported.
#![tactic(auto)]

mod join;

pub use join::{
    Known, Operands, PartitionRows, Sizes, Stats, Step, TextKey, UnkeptRows, Unwritten, Watch,
    bind_clause, complete_types, count, early_sizes, fault_of_text, first_violation, open_tables,
    plain_text, read_strictly, results_are_apart, results_read_back, run, takes_any,
    types_of_header, write_joined,
};
pub use rj_engine::{Gate, OpenGate, Place, Violation};
pub use rj_line::fault::{
    ExitReason, Fault, Side, VERSION, fault_of_read, read_words, tell, texts_of,
};
pub use rj_line::script::arrivals;
pub use rj_line::{Hash, Line, Request, Strictness, read_line, read_nulls, read_types};
pub use rj_settings::types::TypeEntry;
