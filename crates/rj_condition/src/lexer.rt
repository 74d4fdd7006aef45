//! The tokens of a text, each as long as its form allows (SQL-92, 5.2).

ghost use Rattle.std.specs.Prelude.{◌≡◌, ◌<◌, ◌≤◌, ◌+◌, ◌∷◌, ◌==◌, [], IfOk, IsSome, length, slice_index, take, drop};
ghost use Rattle.std.specs.Char.{is_ascii_digit};
ghost use Rattle.std.specs.List.{prefix_len, find};
ghost use Rattle.std.specs.Str.Parse.{without_leading_sign};
ghost use Rattle.rj_condition.specs.Tokens.{is_blank, is_name_byte, begins, begins_fraction, spells};
ghost use Rattle.rj_condition.specs.Lexing.{Lexes};
ghost use Rattle.rj_condition.specs.Internal.Decimals as decimals;
ghost use Rattle.rj_condition.specs.Refusals.{BeginAt};
ghost use Rattle.rj_condition.specs.Internal.Scanning as scanning;

use crate::decimal::DecimalLiteral;
use crate::token::{Keyword, Sign, Token};
use crate::tree::Name;
use crate::word::Word;
use sqlite_items::Items;
use std::alloc::{AllocError, Global};

const KEYWORDS: [Keyword; 20] = [
    Keyword::And,
    Keyword::Between,
    Keyword::Cross,
    Keyword::False,
    Keyword::Full,
    Keyword::In,
    Keyword::Inner,
    Keyword::Is,
    Keyword::Join,
    Keyword::Left,
    Keyword::Natural,
    Keyword::Not,
    Keyword::Null,
    Keyword::On,
    Keyword::Or,
    Keyword::Outer,
    Keyword::Right,
    Keyword::True,
    Keyword::Unknown,
    Keyword::Using,
];

/// The tokens of a text, and the byte at which each starts.
pub struct Lexed {
    pub tokens: Items<Token>,
    pub starts: Vec<u32>,
}

// Written out, so that a drop is one call in the proofs of those who hold tokens.
impl Drop for Lexed {
    fn drop(self) {
        let Lexed {
            tokens: _tokens,
            starts: _starts,
        } = self;
    }
}

fn blank(byte: u8) -> bool
    ensures { result ≡ is_blank byte }
{
    byte == b' ' || byte == b'\t' || byte == b'\n' || byte == b'\r'
}

fn name_byte(byte: u8) -> bool
    ensures { result ≡ is_name_byte byte }
{
    byte.is_ascii_alphanumeric() || byte == b'_'
}

fn begins_with_name_byte(text: &[u8]) -> bool
    ensures { result ≡ begins is_name_byte text.now }
{
    match text {
        [] => false,
        [first, ..] => name_byte(*first),
    }
}

fn spells_keyword(word: &str, keyword: Keyword) -> bool
    ensures { result ≡ spells word.now keyword }
{
    word.eq_ignore_ascii_case(keyword.spelling())
}

// The first of the keywords that a word is, in any case of its letters.
fn first_spelled(word: &str, keywords: &[Keyword]) -> Option<Keyword>
    ensures { result ≡ find (spells word.now) keywords.now }
{
    for keyword in keywords {
        if spells_keyword(word, *keyword) {
            return Some(*keyword);
        }
    }
    None
}

#[tactic(auto, unfolding(crate::specs::Internal::Scanning::keyword_of))]
fn keyword_of(word: &str) -> Option<Keyword>
    ensures { result ≡ scanning.keyword_of word.now }
{
    first_spelled(word, &KEYWORDS)
}

// How many bytes of a word the text begins with.
fn word_len(text: &[u8]) -> usize
    ensures { result ≡ prefix_len is_name_byte text.now }
{
    text.iter().take_while(|b| name_byte(**b)).count()
}

// The keyword or the identifier that the text begins with.
fn word(alloc: Global, text: &str) -> Result<(Token, &str), AllocError>
    ensures { IfOk result (λ x. scanning.word_at text.now ≡ (x.0, x.1.now)) }
{
    let (front, rest) = text.split_at(word_len(text.as_bytes()));
    match keyword_of(front) {
        Some(keyword) => Ok((Token::Keyword(keyword), rest)),
        None => Ok((
            Token::Name(Name {
                text: Word::new(alloc, front)?,
                delimited: false,
            }),
            rest,
        )),
    }
}

// The text after its first byte.
fn tail(text: &str) -> &str
    requires some { 0 < length text.now }
    requires ascii { slice_index text.now 0 < 128 }
    ensures { text.now ≡ slice_index text.now 0 ∷ result.now }
{
    &text[1..]
}

// How many bytes other than quotes the text begins with.
fn plain_len(quote: u8, text: &[u8]) -> usize
    ensures { result ≡ prefix_len (scanning.is_other quote) text.now }
{
    text.iter().take_while(|b| **b != quote).count()
}

/// Reads a text after its opening quote: what it quotes, where each quote inside is written twice,
/// and the text after its closing quote. `None` if it isn't closed.
///
/// # Errors
///
/// It fails only when memory runs out.
#[tactic(auto)]
pub fn quoted(alloc: Global, quote: u8, text: &str) -> Result<Option<(Word, &str)>, AllocError>
    requires { quote < 128 }
    ensures { IfOk result (λ x. scanning.view x ≡ scanning.quoted quote text.now) }
{
    let mut found = String::new(alloc);
    let mut rest = text;
    loop {
        let (front, more) = rest.split_at(plain_len(quote, rest.as_bytes()));
        found.push_str(front)?;
        if more.is_empty() {
            return Ok(None);
        }
        let after = tail(more);
        if !begins_with(quote, after.as_bytes()) {
            return Ok(Some((Word::from_string(found), after)));
        }
        found.push(quote as char)?;
        rest = tail(after);
    }
}

// Whether the text begins with the byte.
fn begins_with(byte: u8, text: &[u8]) -> bool
    ensures { result ≡ begins (λ b. b == byte) text.now }
{
    match text {
        [] => false,
        [first, ..] => *first == byte,
    }
}

// How many digits the text begins with.
fn digits_len(text: &[u8]) -> usize
    ensures { result ≡ prefix_len is_ascii_digit text.now }
{
    text.iter().take_while(|b| b.is_ascii_digit()).count()
}

// How many bytes of a sign and of the digits after it the text begins with.
#[tactic(auto, unfolding(crate::specs::Internal::Scanning::number_len))]
fn number_len(text: &[u8]) -> usize
    ensures { result ≡ scanning.number_len text.now }
{
    match text {
        [b'+' | b'-', rest @ ..] => 1 + digits_len(rest),
        _ => digits_len(text),
    }
}

// Whether the text begins with a point and a digit.
fn begins_with_fraction(text: &[u8]) -> bool
    ensures { result ≡ begins_fraction text.now }
{
    match text {
        [b'.', digit, ..] => digit.is_ascii_digit(),
        _ => false,
    }
}

// The integer that a text is, if it is in range and does not run into a word.
fn integer<'a>(front: &str, rest: &'a str) -> Option<(i64, &'a str)>
    ensures { scanning.view result ≡ scanning.judged front.now rest.now }
{
    if begins_with_name_byte(rest.as_bytes()) {
        return None;
    }
    match front.parse::<i64>() {
        Ok(value) => Some((value, rest)),
        Err(_) => None,
    }
}

// How many bytes of a sign a text begins with.
fn sign_len(text: &[u8]) -> usize
    ensures { result + length (without_leading_sign text.now) ≡ length text.now }
{
    match text {
        [b'+' | b'-', ..] => 1,
        _ => 0,
    }
}

// The decimal with these units and this scale, if it has no more than 18 digits.
fn decimal_of(units: i64, scale: u8) -> Option<DecimalLiteral>
    ensures { result ≡ decimals.decimal_of units scale }
{
    if scale < 19 && units.unsigned_abs() < 1_000_000_000_000_000_000 {
        Some(DecimalLiteral { units, scale })
    } else {
        None
    }
}

// The decimal of a sign and digits before its point and digits after it, if there are some and no more than 18.
fn decimal_of_parts(
    alloc: Global,
    before: &str,
    after: &str,
) -> Result<Option<DecimalLiteral>, AllocError>
    ensures { IfOk result (λ x. x ≡ scanning.decimal_parts before.now after.now) }
{
    let whole = before.len() - sign_len(before.as_bytes());
    if whole == 0 || after.len() > 18 || whole > 18 - after.len() {
        return Ok(None);
    }
    let mut digits = String::from_str(alloc, before)?;
    digits.push_str(after)?;
    match digits.as_str().parse::<i64>() {
        Ok(units) => Ok(decimal_of(units, after.len() as u8)),
        Err(_) => Ok(None),
    }
}

// The decimal with these digits before its point. The text begins with the digits after it, and
// they don't run into a word.
#[tactic(auto, unfolding(crate::specs::Internal::Scanning::fraction_at))]
fn fraction<'a>(
    alloc: Global,
    before: &str,
    text: &'a str,
) -> Result<Option<(DecimalLiteral, &'a str)>, AllocError>
    ensures { IfOk result (λ x. scanning.view x ≡ scanning.fraction_at before.now text.now) }
{
    let (after, rest) = text.split_at(digits_len(text.as_bytes()));
    if begins_with_name_byte(rest.as_bytes()) {
        return Ok(None);
    }
    match decimal_of_parts(alloc, before, after)? {
        Some(decimal) => Ok(Some((decimal, rest))),
        None => Ok(None),
    }
}

// The sign that comes after `<`.
#[tactic(auto, unfolding(crate::specs::Internal::Scanning::less_at))]
fn less(text: &str) -> (Sign, &str)
    ensures { scanning.less_at text.now ≡ (result.0, result.1.now) }
{
    match text.as_bytes() {
        [b'>', ..] => (Sign::NotEqual, tail(text)),
        [b'=', ..] => (Sign::LessOrEqual, tail(text)),
        _ => (Sign::Less, text),
    }
}

// The sign that comes after `>`.
#[tactic(auto, unfolding(crate::specs::Internal::Scanning::greater_at))]
fn greater(text: &str) -> (Sign, &str)
    ensures { scanning.greater_at text.now ≡ (result.0, result.1.now) }
{
    match text.as_bytes() {
        [b'=', ..] => (Sign::GreaterOrEqual, tail(text)),
        _ => (Sign::Greater, text),
    }
}

// The sign that comes after `!`, which is none alone.
#[tactic(auto, unfolding(crate::specs::Internal::Scanning::not_equal_at))]
fn not_equal(text: &str) -> Option<(Sign, &str)>
    ensures { scanning.view result ≡ scanning.not_equal_at text.now }
{
    match text.as_bytes() {
        [b'=', ..] => Some((Sign::NotEqual, tail(text))),
        _ => None,
    }
}

// The sign of one byte that begins no longer sign.
#[tactic(auto, unfolding(crate::specs::Internal::Scanning::mark_of))]
fn mark_of(byte: u8) -> Option<Sign>
    ensures ascii { IsSome result → byte < 128 }
    ensures sign { result ≡ scanning.mark_of byte }
{
    match byte {
        b'=' => Some(Sign::Equal),
        b'(' => Some(Sign::Open),
        b')' => Some(Sign::Close),
        b',' => Some(Sign::Comma),
        b'.' => Some(Sign::Point),
        _ => None,
    }
}

fn text_literal(alloc: Global, text: &str) -> Result<Option<(Token, &str)>, AllocError>
    ensures { IfOk result (λ x. scanning.view x ≡ scanning.text_at (scanning.quoted 39 text.now)) }
{
    match quoted(alloc, b'\'', text)? {
        Some((found, rest)) => Ok(Some((Token::Text(found), rest))),
        None => Ok(None),
    }
}

fn delimited_name(alloc: Global, text: &str) -> Result<Option<(Token, &str)>, AllocError>
    ensures { IfOk result (λ x. scanning.view x ≡ scanning.delimited_at (scanning.quoted 34 text.now)) }
{
    match quoted(alloc, b'"', text)? {
        Some((text, rest)) => {
            if text.as_str().is_empty() {
                return Ok(None);
            }
            Ok(Some((
                Token::Name(Name {
                    text,
                    delimited: true,
                }),
                rest,
            )))
        }
        None => Ok(None),
    }
}

// The sign that the text begins with.
#[tactic(auto, unfolding(crate::specs::Internal::Scanning::sign_at))]
fn sign(text: &str) -> Option<(Sign, &str)>
    ensures { scanning.view result ≡ scanning.sign_at text.now }
{
    match text.as_bytes() {
        [] => None,
        [b'<', ..] => Some(less(tail(text))),
        [b'>', ..] => Some(greater(tail(text))),
        [b'!', ..] => not_equal(tail(text)),
        [first, ..] => match mark_of(*first) {
            Some(mark) => Some((mark, tail(text))),
            None => None,
        },
    }
}

fn begins_number(byte: u8) -> bool
    ensures { result ≡ scanning.begins_number byte }
{
    byte == b'+' || byte == b'-' || byte.is_ascii_digit()
}

fn integer_token<'a>(front: &str, rest: &'a str) -> Option<(Token, &'a str)>
    ensures { scanning.view result ≡ scanning.as_integer (scanning.judged front.now rest.now) }
{
    let (value, rest) = integer(front, rest)?;
    Some((Token::Integer(value), rest))
}

fn decimal_token<'a>(
    alloc: Global,
    before: &str,
    text: &'a str,
) -> Result<Option<(Token, &'a str)>, AllocError>
    ensures { IfOk result (λ x. scanning.view x ≡ scanning.as_decimal (scanning.fraction_at before.now text.now)) }
{
    match fraction(alloc, before, text)? {
        Some((decimal, rest)) => Ok(Some((Token::Decimal(decimal), rest))),
        None => Ok(None),
    }
}

// The integer or the decimal that the text begins with.
#[tactic(auto, unfolding(crate::specs::Internal::Scanning::number_at))]
fn number(alloc: Global, text: &str) -> Result<Option<(Token, &str)>, AllocError>
    ensures { IfOk result (λ x. scanning.view x ≡ scanning.number_at text.now) }
{
    let (front, rest) = text.split_at(number_len(text.as_bytes()));
    if begins_with_fraction(rest.as_bytes()) {
        decimal_token(alloc, front, tail(rest))
    } else {
        Ok(integer_token(front, rest))
    }
}

fn sign_token(text: &str) -> Option<(Token, &str)>
    ensures { scanning.view result ≡ scanning.as_sign (scanning.sign_at text.now) }
{
    let (sign, rest) = sign(text)?;
    Some((Token::Sign(sign), rest))
}

// The token that the text begins with.
#[tactic(auto, unfolding(crate::specs::Internal::Scanning::token_at))]
fn next_token(alloc: Global, text: &str) -> Result<Option<(Token, &str)>, AllocError>
    ensures { IfOk result (λ x. scanning.view x ≡ scanning.token_at text.now) }
{
    match text.as_bytes() {
        [] => Ok(None),
        [first, ..] => {
            if first.is_ascii_alphabetic() {
                Ok(Some(word(alloc, text)?))
            } else if *first == b'\'' {
                text_literal(alloc, tail(text))
            } else if *first == b'"' {
                delimited_name(alloc, tail(text))
            } else if begins_number(*first) {
                number(alloc, text)
            } else {
                Ok(sign_token(text))
            }
        }
    }
}

/// The tokens of a text. No token follows one that can't be read.
///
/// # Errors
///
/// It fails only when memory runs out.
pub fn lex(alloc: Global, text: &str) -> Result<Lexed, AllocError>
    requires { length text.now ≤ 65536 }
    ensures tokens { IfOk result (λ l. Lexes text.now l.tokens) }
    ensures starts { IfOk result (λ l. BeginAt text.now text.now l.tokens l.starts.items) }
{
    let mut tokens = Items::new(alloc);
    let mut starts = Vec::new(alloc);
    let mut rest = text;
    while let Some(first) = rest.as_bytes().first() {
        if blank(*first) {
            rest = tail(rest);
            continue;
        }
        starts.push((text.len() - rest.len()) as u32)?;
        match next_token(alloc, rest)? {
            Some((token, more)) => {
                tokens.push(token)?;
                rest = more;
            }
            None => {
                tokens.push(Token::Unreadable)?;
                return Ok(Lexed { tokens, starts });
            }
        }
    }
    Ok(Lexed { tokens, starts })
}
