//! The rows of a text, divided among parts: each row goes to the output of its part, in order, with
//! its place. The text has any delimiter, and the outputs have commas.

mod cuts;
mod grouped;
mod header;
mod next;
mod nulls;
mod part_file;
mod piece;
mod placed;
mod reading;
mod refused;
mod route;
mod stored;
mod strict;
mod table;
mod whole;

pub use self::cuts::find_cuts;
pub use self::header::write_headers;
pub use self::next::{Piece, next_piece};
pub use self::nulls::have_lawful_nulls;
pub use self::part_file::PartFile;
pub use self::piece::Division;
pub use self::reading::Reading;
pub use self::refused::DivideRefused;
pub use self::route::Route;
pub use self::stored::{PartStore, StoredPart};
pub use self::strict::divide_piece;
pub use self::whole::divide;
