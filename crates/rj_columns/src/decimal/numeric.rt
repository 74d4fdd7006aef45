//! Numeric types.

ghost use Rattle.std.specs.Prelude.{◌≡◌, ◌↔◌, ◌≤◌, IsSome, IfSome};

/// The type NUMERIC(precision, scale) (SQL-92 4.4.1): numbers with `scale` digits after the point
/// and at most `precision` digits in all. So their units are below 10^precision in size. The
/// precision is 1 to 18, the scale 0 to the precision. Every value is within these limits.
#[derive(Clone, Copy, Debug, PartialEq, Eq)]
pub struct NumericType {
    /// How many digits a value has at most, 1 to 18.
    pub precision: u8,
    /// How many digits are after the point, 0 to the precision.
    pub scale: u8,
    pub ghost limits: { (1 ≤ precision) × (precision ≤ 18) × (scale ≤ precision) },
}

impl NumericType {
    /// The type with this precision and this scale, or none if one is out of its limits.
    pub fn new(precision: u8, scale: u8) -> Option<NumericType>
        ensures limits { IsSome result ↔ ((1 ≤ precision) × (precision ≤ 18) × (scale ≤ precision)) }
        ensures precision { IfSome result (λ t. t.precision ≡ precision) }
        ensures scale { IfSome result (λ t. t.scale ≡ scale) }
    {
        if 1 <= precision && precision <= 18 && scale <= precision {
            Some(NumericType { precision, scale })
        } else {
            None
        }
    }
}
