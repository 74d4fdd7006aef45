//! How types are shown.

ghost use Rattle.std.specs.Prelude.{Some};
ghost use Rattle.rj_explain.specs.Shown.{type_word, wanted_rule, wanted_word};

use rj_columns::ColumnType;
use std::fmt;

/// The word of a type, as a type list has it.
#[derive(Clone, Copy)]
pub(crate) struct TypeWord {
    pub(crate) kind: ColumnType,
}

impl fmt::Display for TypeWord {
    ghost output = { λ w. Some (type_word w.kind) };

    fn fmt<W: fmt::Write>(&self, f: &mut fmt::Formatter<W>) -> fmt::Result {
        match self.kind {
            ColumnType::Int => f.write_str("int"),
            ColumnType::Num(numeric) => {
                let (precision, scale) = (numeric.precision, numeric.scale);
                write!(f, "num({precision},{scale})")
            }
            ColumnType::Text => f.write_str("text"),
        }
    }
}

/// What a cell has to be by the type of its column: the type's word, or UTF-8 for a text.
#[derive(Clone, Copy)]
pub(crate) struct Wanted {
    pub(crate) kind: ColumnType,
}

impl fmt::Display for Wanted {
    ghost output = { λ w. Some (wanted_word w.kind) };

    fn fmt<W: fmt::Write>(&self, f: &mut fmt::Formatter<W>) -> fmt::Result {
        let word = TypeWord { kind: self.kind };
        match self.kind {
            ColumnType::Int | ColumnType::Num(_) => write!(f, "{word}"),
            ColumnType::Text => f.write_str("UTF-8"),
        }
    }
}

/// How many digits a cell of a numeric type may have, behind the type. For other types it is empty.
#[derive(Clone, Copy)]
pub(crate) struct WantedRule {
    pub(crate) kind: ColumnType,
}

impl fmt::Display for WantedRule {
    ghost output = { λ r. Some (wanted_rule r.kind) };

    fn fmt<W: fmt::Write>(&self, f: &mut fmt::Formatter<W>) -> fmt::Result {
        match self.kind {
            ColumnType::Num(numeric) => {
                let (before, after) = (
                    numeric.precision.saturating_sub(numeric.scale),
                    numeric.scale,
                );
                write!(
                    f,
                    ": at most {before} digits before the point and {after} after it"
                )
            }
            ColumnType::Int | ColumnType::Text => f.write_str(""),
        }
    }
}
