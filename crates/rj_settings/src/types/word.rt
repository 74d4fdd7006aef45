//! The word of a type at the front of a list.

ghost use Rattle.std.specs.Prelude.{◌≡◌, ◌≢◌, ◌++◌, ◌∷◌, true, ℕ, codes, List, Option, IfSome, IfNone, MatchOption};
ghost use Rattle.std.specs.Char.{is_ascii_digit};
ghost use Rattle.std.specs.List.{prefix_len};
ghost use Rattle.std.specs.Fmt.{decimal};
ghost use Rattle.rj_columns.specs.declared.decimal.numeric.NumericType.{NumericType};
ghost use Rattle.rj_settings.specs.Words.{BeginsType, IsTypeWord, before, begin_word, colon_word, end_word, has_no_comma, text_of};

use crate::types::number::small_number;
use rj_columns::{ColumnType, NumericType};

// The text up to its first comma, and what comes after that.
fn cut(text: &str) -> (&str, Option<&str>)
    ensures whole { text.now ≡ before result.0.now (text_of result.1) }
    ensures first { has_no_comma result.0.now ≡ true }
{
    match text.split_once(',') {
        Some((first, rest)) => (first, Some(rest)),
        None => (text, None),
    }
}

// The numeric type with this precision and this scale.
fn numeric(precision: &[u8], scale: &[u8]) -> Option<NumericType>
    ensures found { IfSome result (λ t. (precision.now ≡ decimal t.precision) × (scale.now ≡ decimal t.scale)) }
    ensures missing { IfNone result ((t : NumericType) → precision.now ≡ decimal t.precision → scale.now ≢ decimal t.scale) }
{
    let precision = small_number(precision)?;
    let scale = small_number(scale)?;
    NumericType::new(precision, scale)
}

// The digits in what comes before the comma of a numeric type's word.
fn opened(first: &[u8]) -> Option<&[u8]>
    ensures { MatchOption result ((digits : List ℕ) → first.now ≢ codes "num(" ++ digits) (λ digits. first.now ≡ codes "num(" ++ digits.now) }
{
    match first {
        [b'n', b'u', b'm', b'(', digits @ ..] => Some(digits),
        _ => None,
    }
}

// The digits in what comes after it.
fn closed(second: &[u8]) -> Option<&[u8]>
    ensures { MatchOption result ((digits : List ℕ) → second.now ≢ digits ++ codes ")") (λ digits. second.now ≡ digits.now ++ codes ")") }
{
    match second {
        [digits @ .., b')'] => Some(digits),
        _ => None,
    }
}

// The numeric type whose word is these two texts with a comma between them.
fn comma_type(first: &[u8], second: &[u8]) -> Option<NumericType>
    ensures found { IfSome result (λ t. (first.now ≡ begin_word t.precision) × (second.now ≡ end_word t.scale)) }
    ensures missing { IfNone result ((t : NumericType) → first.now ≡ begin_word t.precision → second.now ≢ end_word t.scale) }
{
    numeric(opened(first)?, closed(second)?)
}

// How many digits the text begins with.
fn digits_len(text: &[u8]) -> usize
    ensures { result ≡ prefix_len is_ascii_digit text.now }
{
    text.iter().take_while(|b| b.is_ascii_digit()).count()
}

// The text after a colon.
fn after_colon(text: &[u8]) -> Option<&[u8]>
    ensures { MatchOption result ((rest : List ℕ) → text.now ≢ 58 ∷ rest) (λ rest. text.now ≡ 58 ∷ rest.now) }
{
    match text {
        [b':', rest @ ..] => Some(rest),
        _ => None,
    }
}

// The numeric type whose precision and scale these are, with a colon between them.
fn colon_numbers(numbers: &[u8]) -> Option<NumericType>
    ensures found { IfSome result (λ t. numbers.now ≡ decimal t.precision ++ 58 ∷ decimal t.scale) }
    ensures missing { IfNone result ((t : NumericType) → numbers.now ≢ decimal t.precision ++ 58 ∷ decimal t.scale) }
{
    let (precision, rest) = numbers.split_at(digits_len(numbers));
    match after_colon(rest) {
        Some(scale) => numeric(precision, scale),
        None => None,
    }
}

// The numeric type whose word with colons this is.
fn colon_type(word: &[u8]) -> Option<NumericType>
    ensures found { IfSome result (λ t. word.now ≡ colon_word t.precision t.scale) }
    ensures missing { IfNone result ((t : NumericType) → word.now ≢ colon_word t.precision t.scale) }
{
    match word {
        [b'n', b'u', b'm', b':', numbers @ ..] => colon_numbers(numbers),
        _ => None,
    }
}

// The type with this word, if no comma is in it.
fn whole_type(word: &str) -> Option<ColumnType>
    ensures found { IfSome result (λ t. IsTypeWord t word.now) }
    ensures missing { IfNone result (has_no_comma word.now ≡ true → (t : ColumnType) → IsTypeWord t word.now → ⊥) }
{
    match word {
        "int" => Some(ColumnType::Int),
        "text" => Some(ColumnType::Text),
        _ => {
            let numeric = colon_type(word.as_bytes())?;
            Some(ColumnType::Num(numeric))
        }
    }
}

/// The type with whose word the text begins, and what is left after its comma.
pub(crate) fn type_at(text: &str) -> Option<(ColumnType, Option<&str>)>
    ensures { MatchOption result ((t : ColumnType) (rest : Option (List ℕ)) → BeginsType t text.now rest → ⊥)
        (λ p. BeginsType p.0 text.now (text_of p.1)) }
{
    let (first, rest) = cut(text);
    match whole_type(first) {
        Some(kind) => Some((kind, rest)),
        None => {
            let Some(more) = rest else {
                return None;
            };
            let (second, left) = cut(more);
            match comma_type(first.as_bytes(), second.as_bytes()) {
                Some(numeric) => Some((ColumnType::Num(numeric), left)),
                None => None,
            }
        }
    }
}
