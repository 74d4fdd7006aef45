//! Joins of two streams: what two readers give is read, joined and written, or one error is
//! reported. It also has the drafts of output files, the lines that explain an error, and the
//! progress of a run. [`write_streams`] has the contract for streams, and [`write_output`] uses it
//! for files.
#![tactic(auto)]

mod alone;
mod asking;
mod draft;
mod explained;
mod explaining;
mod fault_file;
mod given;
mod identities;
mod joining;
mod laws;
mod listener;
mod lists;
mod memory;
mod message;
mod named;
mod outputs;
mod progress;
mod reading;
mod recording;
mod streams;
mod suggesting;
mod taking;
mod telling;
mod watched;

pub use alone::Suggesting;
pub use asking::{Asking, asking_of};
pub use explained::{ExplainedFault, tell_explained, tell_explained_alone};
pub use explaining::{processors, read_words_of_line};
pub use identities::{Identities, Identity};
pub use joining::Written;
pub use laws::letters_are_of_options;
pub use listener::{Listener, Told};
pub use lists::read_lists;
pub use named::{NamedStream, StreamReader};
pub use outputs::{refuse_inputs, refuse_printed, write_output};
pub use progress::{Progress, Terminals};
pub use reading::{OpenStream, Stream};
pub use streams::write_streams;
pub use suggesting::write_suggested;
pub use telling::tell_texts;
