//! The syntax tree of a join clause, before its names are resolved.

use crate::decimal::DecimalLiteral;
use crate::truth::Truth;
use crate::word::Word;
use sqlite_items::{Boxed, Items};

/// Which unmatched rows a join adds, extended with NULLs: none, those of the left table, of the
/// right, or of both (SQL-92, 7.5).
#[derive(Clone, Copy, Debug, PartialEq, Eq)]
pub enum JoinKind {
    /// None.
    Inner,
    /// Those of the left table.
    Left,
    /// Those of the right table.
    Right,
    /// Those of both.
    Full,
}

/// A name: a regular identifier, which ignores ASCII case, or a delimited one, which is exact (SQL-92, 5.4).
#[derive(Drop)]
pub struct Name {
    /// The name as it is written, without the quotes of a delimited one.
    pub text: Word,
    /// Whether it was in quotes.
    pub delimited: bool,
}

/// A column reference, perhaps qualified by the name of its table, `L` or `R` (SQL-92, 6.4).
#[derive(Drop)]
pub struct ColumnName {
    /// The name of its table, if it is given.
    pub qualifier: Option<Name>,
    /// The name of the column.
    pub name: Name,
}

/// A constant of the clause (SQL-92, 5.3).
#[derive(Drop)]
pub enum Literal {
    Integer(i64),
    Decimal(DecimalLiteral),
    Text(Word),
}

/// What a predicate compares: a column or a literal.
pub enum Operand {
    Column(ColumnName),
    Literal(Literal),
}

// Written out, as for a word.
impl Drop for Operand {
    fn drop(self) {
        match self {
            Operand::Column(_column) => {}
            Operand::Literal(_literal) => {}
        }
    }
}

/// An operator of a comparison (SQL-92, 8.2).
#[derive(Clone, Copy, Debug, PartialEq, Eq)]
pub enum Comparison {
    Equal,
    NotEqual,
    Less,
    Greater,
    LessOrEqual,
    GreaterOrEqual,
}

/// A search condition (SQL-92, 8.12). A run of ANDs is one list, and so is a run of ORs. So a tree
/// is no deeper than its parentheses and NOTs.
#[derive(Drop)]
pub enum Condition {
    /// A comparison of two operands (SQL-92, 8.2).
    Compare {
        left: Operand,
        operator: Comparison,
        right: Operand,
    },
    /// `operand [NOT] BETWEEN low AND high` (SQL-92, 8.3).
    Between {
        operand: Operand,
        low: Operand,
        high: Operand,
        negated: bool,
    },
    /// `operand [NOT] IN (members)` (SQL-92, 8.4).
    In {
        operand: Operand,
        members: Items<Operand>,
        negated: bool,
    },
    /// `operand IS [NOT] NULL` (SQL-92, 8.6).
    IsNull {
        operand: Operand,
        negated: bool,
    },
    /// `condition IS [NOT] truth` (SQL-92, 8.12).
    Is {
        condition: Boxed<Condition>,
        truth: Truth,
        negated: bool,
    },
    /// NOT.
    Not(Boxed<Condition>),
    /// Conditions joined by AND.
    All(Items<Condition>),
    /// Conditions joined by OR.
    Any(Items<Condition>),
}

/// A join clause (SQL-92, 7.5).
///
/// Its conditions and names have no name outside this crate, so only `parse` makes them. So no
/// condition that `bind` gets is nested deeper than 64 levels.
pub enum Clause {
    /// CROSS JOIN: every pair of rows.
    Cross,
    /// NATURAL: pairs whose common columns are equal.
    Natural(JoinKind),
    /// ON: pairs at which the condition is true.
    On(JoinKind, Condition),
    /// USING: pairs whose named columns are equal.
    Using(JoinKind, Items<Name>),
}

// Written out, as for a word.
impl Drop for Clause {
    fn drop(self) {
        match self {
            Clause::Cross => {}
            Clause::Natural(_) => {}
            Clause::On(_, _condition) => {}
            Clause::Using(_, _names) => {}
        }
    }
}
