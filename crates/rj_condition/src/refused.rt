//! Why a text is no clause, and why a clause can't be bound.

use std::alloc::AllocError;

/// Why a text has no syntax tree.
#[derive(Clone, Copy, Debug, PartialEq, Eq)]
pub enum ParseRefused {
    /// The text is over 65,536 bytes.
    TooLong,
    /// Parentheses and NOTs are nested over 64 deep.
    TooDeep,
    /// The text is no clause. The byte, counted from 0, is the first one of the first token with
    /// which the tokens so far begin no clause. If the clause is unfinished at the end of the text,
    /// it is the text's length.
    Syntax(u64),
    /// Memory ran out.
    Memory,
}

impl From<AllocError> for ParseRefused {
    ghost use Rattle.std.specs.Prelude.{◌≡◌};
    ghost use Rattle.rj_condition.specs.declared.refused.ParseRefused.TheVariants.{Memory};

    ghost from_gives = { λ _ e. e ≡ Memory };

    fn from(_error: AllocError) -> ParseRefused {
        ParseRefused::Memory
    }
}

/// Why a clause can't be bound to two tables.
#[derive(Clone, Copy, Debug, PartialEq, Eq)]
pub enum BindRefused {
    /// A name that no column has, or a qualifier other than `L` and `R`.
    UnknownColumn,
    /// A name without qualifier that a column of each table has.
    AmbiguousColumn,
    /// A comparison of a number with a text.
    TypeMismatch,
    /// A left column that USING names twice.
    RepeatedUsing,
    /// Out of memory.
    Memory,
}
