//! A law of clause texts. The function does nothing; its contract is a theorem about every text.

ghost use Rattle.std.specs.Prelude.{◌≡◌, List, ℕ};
ghost use Rattle.rj_condition.specs.declared.tree.Clause.{Clause};
ghost use Rattle.rj_condition.specs.Clauses.{HasClause};

/// No text has two clauses.
pub fn one_clause()
    ensures { (text : List ℕ) (c d : Clause) → HasClause text c → HasClause text d → c ≡ d }
{}
