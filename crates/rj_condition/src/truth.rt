//! Truth values and their connectives (SQL-92, 8.12).

ghost use Rattle.std.specs.Prelude.{◌≡◌, ◌-◌, ◌==◌, min, max};
ghost use Rattle.rj_condition.specs.Truths.{truth_value, certain, negated_if};

/// A truth value, the least first. AND is the least, OR the greatest (SQL-92, 8.12).
#[derive(Clone, Copy, Debug, PartialEq, Eq)]
pub enum Truth {
    False,
    Unknown,
    True,
}

impl Truth {
    /// The truth of what is never unknown.
    pub fn certain(holds: bool) -> Truth
        ensures { truth_value result ≡ certain holds }
    {
        if holds { Truth::True } else { Truth::False }
    }

    /// AND: the least.
    pub fn and(self, other: Truth) -> Truth
        ensures { truth_value result ≡ min (truth_value self) (truth_value other) }
    {
        match (self, other) {
            (Truth::False, _) | (_, Truth::False) => Truth::False,
            (Truth::True, Truth::True) => Truth::True,
            _ => Truth::Unknown,
        }
    }

    /// OR: the greatest.
    pub fn or(self, other: Truth) -> Truth
        ensures { truth_value result ≡ max (truth_value self) (truth_value other) }
    {
        match (self, other) {
            (Truth::True, _) | (_, Truth::True) => Truth::True,
            (Truth::False, Truth::False) => Truth::False,
            _ => Truth::Unknown,
        }
    }

    /// NOT: true and false swapped, unknown kept.
    pub fn negated(self) -> Truth
        ensures { truth_value result ≡ 2 - truth_value self }
    {
        match self {
            Truth::False => Truth::True,
            Truth::Unknown => Truth::Unknown,
            Truth::True => Truth::False,
        }
    }

    /// NOT if it is asked for.
    pub fn negated_if(self, negated: bool) -> Truth
        ensures { truth_value result ≡ negated_if negated (truth_value self) }
    {
        if negated { self.negated() } else { self }
    }

    /// IS: whether it is this truth value.
    pub fn is(self, truth: Truth) -> Truth
        ensures { truth_value result ≡ certain (truth_value self == truth_value truth) }
    {
        match (self, truth) {
            (Truth::False, Truth::False) => Truth::True,
            (Truth::Unknown, Truth::Unknown) => Truth::True,
            (Truth::True, Truth::True) => Truth::True,
            _ => Truth::False,
        }
    }

    /// Whether it is true; unknown is not.
    pub fn is_true(self) -> bool
        ensures { result ≡ (truth_value self == 2) }
    {
        match self {
            Truth::True => true,
            _ => false,
        }
    }

    /// Whether it is false; unknown is not.
    pub fn is_false(self) -> bool
        ensures { result ≡ (truth_value self == 0) }
    {
        match self {
            Truth::False => true,
            _ => false,
        }
    }
}
