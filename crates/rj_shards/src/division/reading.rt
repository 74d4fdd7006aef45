//! How strictly a text is read.

ghost use Rattle.std.specs.Prelude.{◌≡◌, Bool, IfOk};
ghost use Rattle.csv.specs.Reading.{records};
ghost use Rattle.rj_csv_io.specs.StrictReading.{config_of};
ghost use Rattle.rj_shards.specs.Texts.{reading_of_piece};
ghost use Rattle.rj_shards.specs.Internal.Underway.{ReadsOn, SplitsAs};

use rj_csv_io::Header;
use rj_csv_io::strict::Delimiter;
use std::alloc::{AllocError, Global};

/// How a text is read, or a range of one that begins and ends where a record does.
#[derive(Clone, Copy)]
pub enum Reading {
    /// Any text, as the library csv reads it. If the flag is set, the text begins with its header,
    /// without a byte order mark.
    Lenient(bool),
    /// A text without its header, which has to be of RFC 4180's grammar. If the flag is set, the
    /// last record needs its line end.
    Strict(bool),
}

/// Whether the header is still to come after a piece.
pub(crate) fn is_header_ahead(
    alloc: Global,
    text: &[u8],
    delimiter: Delimiter,
    is_first: bool,
) -> Result<bool, AllocError>
    ensures { IfOk result (SplitsAs is_first (records (config_of delimiter) text.now)) }
{
    if !is_first {
        return Ok(false);
    }
    match Header::of(alloc, text, delimiter)? {
        Some(_) => Ok(false),
        None => Ok(true),
    }
}

impl Reading {
    /// How the first piece of a text is read that is read so. A piece that isn't the last one ends
    /// after a line end.
    pub(crate) fn of_piece(self, is_last: bool) -> Reading
        ensures { result ≡ reading_of_piece self is_last }
    {
        match self {
            Reading::Lenient(is_first) => Reading::Lenient(is_first),
            Reading::Strict(full) => Reading::Strict(full | !is_last),
        }
    }

    /// How the text is read after such a piece.
    pub(crate) fn after(
        self,
        alloc: Global,
        piece: &[u8],
        delimiter: Delimiter,
    ) -> Result<Reading, AllocError>
        ensures { IfOk result (ReadsOn delimiter self piece.now) }
    {
        match self {
            Reading::Lenient(is_first) => Ok(Reading::Lenient(is_header_ahead(
                alloc, piece, delimiter, is_first,
            )?)),
            Reading::Strict(full) => Ok(Reading::Strict(full)),
        }
    }
}
