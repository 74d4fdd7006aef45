//! Exact decimals (SQL-92 4.4.1, exact numeric).
//!
//! A `Decimal` is units and a scale, with the value units / 10^scale. A whole number of 64 bits has
//! the scale 0. A `NumericType` is the precision and the scale of a column. `compare` compares
//! decimals of any two scales by value. Equal decimals have one least form (`least`) and one hash
//! (`hash`). `read_numeric` reads their texts, and `DecimalBuffer` writes them.

ghost use Rattle.std.specs.Prelude.{◌≡◌, ◌↔◌, ◌≤◌, pos, IsSome, IfSome};

mod comparison;
mod forms;
mod numeric;
mod powers;
mod read;
mod text;

pub use self::comparison::{compare, rescale};
pub use self::forms::{hash, least};
pub use self::numeric::NumericType;
pub use self::read::read_numeric;
pub use self::text::DecimalBuffer;

/// The number units / 10^scale. The scale is at most 18. A whole number of 64 bits has the scale 0.
///
/// `==` compares units and scale. Two decimals that differ may be one value (1.5 and 1.50):
/// `compare` compares values.
#[derive(Clone, Copy, Debug, PartialEq, Eq)]
pub struct Decimal {
    /// The value times 10^scale.
    pub units: i64,
    /// How many digits are after the point, 0 to 18.
    pub scale: u8,
    pub ghost in_range: { scale ≤ 18 },
}

impl Decimal {
    /// The decimal with these units and this scale, or none if the scale is above 18.
    pub fn new(units: i64, scale: u8) -> Option<Decimal>
        ensures range { IsSome result ↔ (scale ≤ 18) }
        ensures units { IfSome result (λ d. d.units ≡ units) }
        ensures scale { IfSome result (λ d. d.scale ≡ scale) }
    {
        if scale <= 18 {
            Some(Decimal { units, scale })
        } else {
            None
        }
    }

    /// A whole number: its units are itself, its scale is 0.
    pub fn whole(value: i64) -> Decimal
        ensures units { result.units ≡ value }
        ensures scale { result.scale ≡ 0 }
    {
        Decimal {
            units: value,
            scale: 0,
        }
    }
}
