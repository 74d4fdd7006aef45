//! Type lists: types by position or by name, read from their text, and the types that they give the
//! columns of a header. Lists of columns, read from their text.

mod columns;
mod entry;
mod label;
mod laws;
mod list;
mod name;
mod number;
mod selected;
mod word;

pub use self::columns::{is_named_in, is_open, name_fault, types_under, with_shared, with_texts};
pub use self::entry::{Label, TypeEntry};
pub use self::laws::one_list;
pub use self::list::{read_list, read_shared_list};
pub use self::selected::read_selected;
