//! Whether a text of CSV is derived by RFC 4180's grammar, and where it stops being so.
//!
//! `Derives`, the grammar, and `HasFault` fix what [`check`] answers. The laws say that a text has
//! one derivation, what the library `csv` reads from it, and that texts can be checked in parts.
//! They hold for each [`Delimiter`]: the comma, or another byte in its place.

mod above;
mod checking;
mod clean;
mod delimiter;
mod fault;
mod header;
mod laws;
mod mark;
mod parts;
mod quoting;
mod standing;

pub use self::above::above_fault;
pub use self::checking::check;
pub use self::delimiter::Delimiter;
pub use self::fault::StrictFault;
pub use self::header::HeaderPlace;
pub use self::laws::{
    derived_with_header, joined_texts, one_derivation, reads_all_records, reads_quoted_records,
    reads_records,
};
pub use self::parts::is_derived_in_parts;
pub use self::quoting::quote_empty_lines;
