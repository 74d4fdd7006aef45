//! The decimals of a clause.

ghost use Rattle.std.specs.Prelude.{◌≡◌, true};
ghost use Rattle.rj_condition.specs.Sizes.{is_short};

/// The number units / 10^scale, as a clause writes it, with at most 18 digits, `scale` of them
/// after the point (SQL-92, 5.3).
#[derive(Clone, Copy)]
pub struct DecimalLiteral {
    /// The value times 10^scale, below 10^18 in size.
    pub units: i64,
    /// How many digits come after the point, at most 18.
    pub scale: u8,
    pub ghost short: { is_short units scale ≡ true },
}
