//! The tokens of a join clause (SQL-92, 5.2).

ghost use Rattle.std.specs.Prelude.{◌≡◌};
ghost use Rattle.rj_condition.specs.Tokens.{spelling_of};

use crate::decimal::DecimalLiteral;
use crate::tree::Name;
use crate::word::Word;

/// A keyword of the clause, which ignores ASCII case.
#[derive(Clone, Copy, PartialEq, Eq)]
pub enum Keyword {
    And,
    Between,
    Cross,
    False,
    Full,
    In,
    Inner,
    Is,
    Join,
    Left,
    Natural,
    Not,
    Null,
    On,
    Or,
    Outer,
    Right,
    True,
    Unknown,
    Using,
}

impl Keyword {
    /// The keyword in capital letters.
    pub fn spelling(self) -> &'static str
        ensures { result.now ≡ spelling_of self }
    {
        match self {
            Keyword::And => "AND",
            Keyword::Between => "BETWEEN",
            Keyword::Cross => "CROSS",
            Keyword::False => "FALSE",
            Keyword::Full => "FULL",
            Keyword::In => "IN",
            Keyword::Inner => "INNER",
            Keyword::Is => "IS",
            Keyword::Join => "JOIN",
            Keyword::Left => "LEFT",
            Keyword::Natural => "NATURAL",
            Keyword::Not => "NOT",
            Keyword::Null => "NULL",
            Keyword::On => "ON",
            Keyword::Or => "OR",
            Keyword::Outer => "OUTER",
            Keyword::Right => "RIGHT",
            Keyword::True => "TRUE",
            Keyword::Unknown => "UNKNOWN",
            Keyword::Using => "USING",
        }
    }
}

/// A sign: an operator of a comparison, or a mark.
#[derive(Clone, Copy, PartialEq, Eq)]
pub enum Sign {
    Equal,
    /// `<>` or `!=`.
    NotEqual,
    Less,
    Greater,
    LessOrEqual,
    GreaterOrEqual,
    Open,
    Close,
    Comma,
    Point,
}

/// A token of a clause.
#[derive(Drop)]
pub enum Token {
    Keyword(Keyword),
    Name(Name),
    Integer(i64),
    Decimal(DecimalLiteral),
    Text(Word),
    Sign(Sign),
    /// No token begins here. No token comes after it.
    Unreadable,
}
