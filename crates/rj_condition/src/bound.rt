//! A join whose names are resolved to columns of two tables.

ghost use Rattle.std.specs.Prelude.{◌≡◌};
ghost use Rattle.rj_condition.specs.Joins.{kind_of_join, partners_of};

use crate::tree::{Comparison, JoinKind, Literal};
use crate::truth::Truth;
use sqlite_items::{Boxed, Items};

/// An operand with its name resolved: a column of the left or of the right table, counted from 0, or a literal.
pub enum BoundOperand {
    Left(usize),
    Right(usize),
    Literal(Literal),
}

// Written out, so that a drop is one call in the proofs of those who hold an operand.
impl Drop for BoundOperand {
    fn drop(self) {
        match self {
            BoundOperand::Left(_) => {}
            BoundOperand::Right(_) => {}
            BoundOperand::Literal(_literal) => {}
        }
    }
}

/// A search condition with its names resolved. Its cases are those of `Condition`.
#[derive(Drop)]
pub enum BoundCondition {
    Compare {
        left: BoundOperand,
        operator: Comparison,
        right: BoundOperand,
    },
    Between {
        operand: BoundOperand,
        low: BoundOperand,
        high: BoundOperand,
        negated: bool,
    },
    In {
        operand: BoundOperand,
        members: Items<BoundOperand>,
        negated: bool,
    },
    IsNull {
        operand: BoundOperand,
        negated: bool,
    },
    Is {
        condition: Boxed<BoundCondition>,
        truth: Truth,
        negated: bool,
    },
    Not(Boxed<BoundCondition>),
    All(Items<BoundCondition>),
    Any(Items<BoundCondition>),
}

/// Which pairs of rows a join keeps (SQL-92, 7.5).
pub enum Rule {
    /// CROSS: every pair.
    AllPairs,
    /// USING and NATURAL: those whose corresponding columns are all equal.
    EqualPartners,
    /// ON: those at which the condition is true.
    Condition(BoundCondition),
}

// Written out, as for an operand.
impl Drop for Rule {
    fn drop(self) {
        match self {
            Rule::AllPairs => {}
            Rule::EqualPartners => {}
            Rule::Condition(_condition) => {}
        }
    }
}

/// A join clause bound to two tables: which unmatched rows it adds, which pairs of rows it keeps,
/// and which columns of the two tables are one join column.
pub struct BoundJoin {
    pub(crate) kind: JoinKind,
    pub(crate) partners: Items<Option<usize>>,
    pub(crate) rule: Rule,
}

// Written out, as for an operand.
impl Drop for BoundJoin {
    fn drop(self) {
        let BoundJoin {
            kind: _,
            partners: _partners,
            rule: _rule,
        } = self;
    }
}

impl BoundJoin {
    /// Which unmatched rows the join adds.
    pub fn kind(&self) -> JoinKind
        ensures { result ≡ kind_of_join self.now }
    {
        self.kind
    }

    /// For each left column the right column with which USING or NATURAL joins it, if any. ON and
    /// CROSS have none.
    pub fn partners(&self) -> &[Option<usize>]
        ensures { result.now ≡ partners_of self.now }
    {
        self.partners.as_slice()
    }
}
