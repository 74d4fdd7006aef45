//! The NULL texts of two sides.

ghost use Rattle.std.specs.Prelude.{◌≡◌, ◌&&◌, true};
ghost use Rattle.rj_csv_io.specs.Tables.{are_null_texts, is_null_text};
ghost use Rattle.rj_csv_io.specs.Typed.{null_texts};
ghost use Rattle.rj_shards.specs.Divisions.{written_null};

use rj_csv_io::are_lawful_nulls;

/// Whether all NULL texts of the side that is divided are valid, the written one among them, and
/// also those of the other side.
#[tactic(auto, using(crate::proofs::NullFacts::written_lawful))]
pub fn have_lawful_nulls(nulls: &[&str], others: &[&str]) -> bool
    ensures both { result ≡ (are_null_texts (null_texts nulls.now) && are_null_texts (null_texts others.now)) }
    ensures written { result ≡ true → is_null_text (written_null (null_texts nulls.now)) ≡ true }
{
    if !are_lawful_nulls(nulls) {
        return false;
    }
    are_lawful_nulls(others)
}
