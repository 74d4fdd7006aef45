//! What is told beside a joined table of columns whose types nobody declared.

ghost use Rattle.std.specs.Prelude.{◌≡◌};
ghost use Rattle.rj_files.specs.Telling.{has_left_keys, has_right_keys, is_unmatched, tells_unmatched};

use rj_command::{Line, PartitionRows, Stats};

// Whether there are left rows with a key: these are the rows of partitions.
fn has_left_keys(partitions: &[PartitionRows]) -> bool
    ensures { result ≡ has_left_keys partitions.now }
{
    partitions.iter().any(|partition| partition.left > 0)
}

// Whether there are right rows with a key.
fn has_right_keys(partitions: &[PartitionRows]) -> bool
    ensures { result ≡ has_right_keys partitions.now }
{
    partitions.iter().any(|partition| partition.right > 0)
}

// Whether there are rows with a key in both tables, and none of them match.
fn is_unmatched(stats: &Stats) -> bool
    ensures { result ≡ is_unmatched stats.now }
{
    let partitions = stats.partitions.as_slice();
    has_left_keys(partitions) && has_right_keys(partitions) && stats.pairs == 0
}

// Whether it is told that no rows match.
fn tells_unmatched(line: &Line<'_>, stats: &Stats) -> bool
    ensures { result ≡ tells_unmatched line.now stats.now }
{
    line.explain
        && (line.request.left_undeclared || line.request.right_undeclared)
        && stats.text_keys.is_empty()
        && is_unmatched(stats)
}

/// Tells, if errors are explained, what may be so because nobody declared the types of columns:
/// which keys hold numbers that were compared as texts, or else that no rows match.
pub fn tell_texts<R: Eprint>(rt: &R, line: &Line<'_>, stats: &Stats) {
    if line.explain {
        for key in &stats.text_keys {
            let _ = eprintln!(rt; "radixjoin: {key}");
        }
    }
    if tells_unmatched(line, stats) {
        let _ = eprintln!(rt;
            "radixjoin: no rows match; columns without a type are texts, so 7 isn't 07"
        );
    }
}
