//! The statistics of a join.

ghost use Rattle.std.specs.Prelude.{◌≡◌, Some};
ghost use Rattle.rj_command.specs.Statistics.{keeping_type, partition_text, stats_text, text_key_text, unkept_text};

use rj_engine::Counts;
use rj_line::fault::Side;
use std::fmt;

/// How many rows of each table were delivered to a partition. The text is its line, without the line end.
#[derive(Clone, Copy)]
pub struct PartitionRows {
    /// The partition, counted from 0.
    pub number: u64,
    /// The left rows.
    pub left: u64,
    /// The right rows.
    pub right: u64,
}

/// A key whose two columns have no declared types and hold numbers, not all written in one way. They
/// were compared as texts, so equal numbers may not match. The text says so.
#[derive(Drop)]
pub struct TextKey {
    /// The left column's name, as it is shown.
    pub left: String,
    /// The right column's name.
    pub right: String,
}

/// A table of which a join's type keeps no unmatched rows. The text says so, and which types do.
#[derive(Clone, Copy, Debug, PartialEq, Eq)]
pub struct UnkeptRows {
    /// Which of the two tables.
    pub side: Side,
}

/// The statistics of a join. The text is what `--stats` prints, without its last line end: a line
/// for each partition, then one that counts the members of the joined table, and then, if `--piece`
/// was given, one that counts the pieces.
#[derive(Drop)]
pub struct Stats {
    /// The rows of each partition, in the order of the partitions.
    pub partitions: Vec<PartitionRows>,
    /// The matches of a left and a right row.
    pub pairs: u64,
    /// The unmatched left rows.
    pub lone_left: u64,
    /// The unmatched right rows.
    pub lone_right: u64,
    /// The pieces in which the partitions were joined.
    pub pieces: u64,
    /// Whether the text has the number of pieces.
    pub tells_pieces: bool,
    /// The lines of the report, without the last line end, if one is asked for. They aren't in the
    /// text of the statistics, and are printed after it.
    pub report: Option<String>,
    /// The keys of columns without declared types that hold numbers not all written in one way, in
    /// the order of the keys. They aren't in the text of the statistics.
    pub text_keys: Vec<TextKey>,
    /// The table whose unmatched rows are asked for by themselves, though the join's type keeps none.
    /// It isn't in the text of the statistics.
    pub unkept: Option<Side>,
}

impl Stats {
    // The members of the joined table.
    pub(crate) fn counts(&self) -> Counts
        ensures { result ≡ record { pairs = self.now.pairs; lone_left = self.now.lone_left; lone_right = self.now.lone_right } }
    {
        Counts {
            pairs: self.pairs,
            lone_left: self.lone_left,
            lone_right: self.lone_right,
        }
    }
}

impl fmt::Display for PartitionRows {
    ghost output = { λ p. Some (partition_text p) };

    fn fmt<W: fmt::Write>(&self, f: &mut fmt::Formatter<W>) -> fmt::Result {
        let (number, left, right) = (self.number, self.left, self.right);
        write!(f, "partition {number} left {left} right {right}")
    }
}

impl fmt::Display for TextKey {
    ghost output = { λ k. Some (text_key_text k) };

    fn fmt<W: fmt::Write>(&self, f: &mut fmt::Formatter<W>) -> fmt::Result {
        let (left, right) = (self.left.as_str(), self.right.as_str());
        write!(
            f,
            "L.{left} and R.{right} hold numbers and were compared as texts, so 1.50 isn't 1.5; --types makes them numbers"
        )
    }
}

// The type of a join, beside FULL, that keeps the unmatched rows of a table.
fn keeping_type(side: Side) -> &'static str
    ensures { result.now ≡ keeping_type side }
{
    match side {
        Side::Left => "LEFT",
        Side::Right => "RIGHT",
    }
}

impl fmt::Display for UnkeptRows {
    ghost output = { λ u. Some (unkept_text u.side) };

    fn fmt<W: fmt::Write>(&self, f: &mut fmt::Formatter<W>) -> fmt::Result {
        let (side, keeping) = (self.side, keeping_type(self.side));
        write!(
            f,
            "the join keeps no unmatched {side} rows; a {keeping} or FULL JOIN keeps them"
        )
    }
}

impl fmt::Display for Stats {
    ghost output = { λ s. Some (stats_text s) };

    fn fmt<W: fmt::Write>(&self, f: &mut fmt::Formatter<W>) -> fmt::Result {
        for rows in &self.partitions {
            writeln!(f, "{rows}")?;
        }
        let (pairs, lone_left, lone_right) = (self.pairs, self.lone_left, self.lone_right);
        write!(
            f,
            "pairs {pairs} lone-left {lone_left} lone-right {lone_right}"
        )?;
        if self.tells_pieces {
            let pieces = self.pieces;
            write!(f, "\npieces {pieces}")?;
        }
        Ok(())
    }
}
