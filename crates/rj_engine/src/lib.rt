//! The joined table of SQL-92 (7.5) over two tables: its rows by their numbers, its header and its cells.
#![tactic(auto)]

mod cells;
mod chosen_columns;
mod chosen_rows;
mod collecting;
mod counts;
mod ends;
mod expected;
mod gathering;
mod groups;
mod joined;
mod laws;
mod marks;
mod match_ranges;
mod naming;
mod origin;
mod parallel_join;
mod partitioned_join;
mod partitions;
mod pieces;
mod ranges;
mod reporting;
mod run_view;
mod runs;
mod scattering;
mod shown;
mod sizes;
mod view;
mod violations;

pub use counts::{Counts, early_counts, rows_beyond};
pub use ends::right_rows;
pub use expected::is_as_expected;
pub use gathering::gather;
pub use groups::{Group, KeyReport};
pub use joined::{Joined, JoinedRow, Rows};
pub use laws::{
    chosen_names_are_lawful, header_names_are_lawful, keyed_rows_stand_once, left_order,
    nothing_after_close, plain_choice, written_names_are_lawful,
};
pub use marks::unmatched;
pub use naming::{NamingRefused, chosen_names, written_names};
pub use partitions::run_join;
pub use reporting::{JoinReport, report};
pub use rj_settings::{
    Choice, ColumnChoice, Expectation, Matching, Repeated, RowKinds, RowOrder, SelectedColumn,
    Settings, Source,
};
pub use rj_workers::{Gate, OpenGate, Place};
pub use run_view::RunView;
pub use runs::{Run, cut_runs};
pub use shown::Shown;
pub use view::{View, chosen_header, header};
pub use violations::{Violation, first_violation};
