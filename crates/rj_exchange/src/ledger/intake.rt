//! One sender's part of a ledger.

ghost use Rattle.std.specs.Prelude.{◌≡◌, true, false, ◌+◌, ◌-◌, ◌≤◌, ◌<◌, ◌++◌, ◌==◌, ◌||◌, ◌^◌, ℕ, List, [], length, drop};
ghost use Rattle.std.specs.Prelude.{Some, None, Ok, Err, IfOk, IfErr, OnErr, OnOk, IfSome, MatchOption, MatchResult, vec_len};
ghost use Rattle.rj_exchange.specs.Standing.{nothing_yet, following, rows_of, rows_of_all, any_close, is_close, delivered_from, with_held, IsHoldable, Orderly};
ghost use Rattle.rj_exchange.specs.Reading.{waiting_at, gap_at};
ghost use Rattle.rj_exchange.specs.Rules.{is_bad_length, holds, holds_close_below, holds_above, refusal, answer, after};

use crate::ledger::parcel::{Answer, Body, Reason};
use std::alloc::{AllocError, Global};
use std::collections::BTreeMap;
use std::marker::Model;

/// What a ledger keeps of one sender.
#[derive(Drop)]
pub struct Intake {
    next: u64,
    closed: bool,
    rows: Vec<u32>,
    held: BTreeMap<u64, Body>,
}

impl Model for Intake {
    ghost use Rattle.rj_exchange.specs.Standing.{Standing, IsSound};

    ghost Value = { Standing };

    ghost view = { λ a. record { next = a.next; closed = a.closed; rows = a.rows.items; held = a.held.entries } };

    ghost invariant = { λ a. IsSound (record { next = a.next; closed = a.closed; rows = a.rows.items; held = a.held.entries }) };
}

fn is_bad_length(block: u32, body: &Body) -> bool
    ensures { result ≡ is_bad_length block body.now }
{
    match body {
        Body::Rows(rows) => {
            let count = rows.rows().len();
            count == 0 || count > block as usize
        }
        Body::Close => false,
    }
}

fn is_close(body: &Body) -> bool
    ensures { result ≡ is_close body.now }
{
    match body {
        Body::Rows(_) => false,
        Body::Close => true,
    }
}

fn holds(held: &BTreeMap<u64, Body>, number: u64) -> bool
    ensures { result ≡ holds number held.now.entries }
{
    held.contains_key(&number)
}

// A close that is held is the last of the held parcels.
fn holds_close_below(held: &BTreeMap<u64, Body>, number: u64) -> bool
    requires { (least : ℕ) × Orderly least held.now.entries }
    ensures { result ≡ holds_close_below number held.now.entries }
{
    match held.last_key_value() {
        Some((last, body)) => is_close(body) && *last < number,
        None => false,
    }
}

fn holds_above(held: &BTreeMap<u64, Body>, number: u64) -> bool
    requires { (least : ℕ) × Orderly least held.now.entries }
    ensures { result ≡ holds_above number held.now.entries }
{
    match held.last_key_value() {
        Some((last, _)) => number < *last,
        None => false,
    }
}

fn is_number_after(from: u64, count: u64, number: u64) -> bool
    ensures { result ≡ (number == from + count) }
{
    from <= number && number - from == count
}

// Appends the rows of the held parcels that follow without a gap from a number on. Returns how many
// parcels those are, and whether a close is among them.
fn append_following(
    rows: &mut Vec<u32>,
    from: u64,
    held: &BTreeMap<u64, Body>,
) -> Result<(u64, bool), AllocError>
    ensures count { IfOk result (λ r. r.0 ≡ length (following from held.now.entries)) }
    ensures close { IfOk result (λ r. r.1 ≡ any_close (following from held.now.entries)) }
    ensures rows { OnOk result (rows.new.items ≡ rows.old.items ++ rows_of_all (following from held.now.entries)) }
    ensures err { OnErr result ((more : List ℕ) × (rows.new.items ≡ rows.old.items ++ more)) }
{
    let mut count: u64 = 0;
    let mut closed = false;
    for (number, body) in held.iter() {
        if !is_number_after(from, count, *number) {
            break;
        }
        match body {
            Body::Rows(block) => rows.extend_from_slice(block.rows())?,
            Body::Close => closed = true,
        }
        count += 1;
    }
    Ok((count, closed))
}

// The same, with the rows of a body before them, whose number is before theirs.
fn append_all(
    rows: &mut Vec<u32>,
    body: &Body,
    number: u64,
    held: &BTreeMap<u64, Body>,
) -> Result<(u64, bool), AllocError>
    requires room { number < 2 ^ 64 - 1 }
    requires alone { is_close body.now ≡ true → held.now.entries ≡ [] }
    ensures count { IfOk result (λ r. r.0 ≡ length (following (number + 1) held.now.entries)) }
    ensures close { IfOk result (λ r. r.1 ≡ (is_close body.now || any_close (following (number + 1) held.now.entries))) }
    ensures rows { OnOk result (rows.new.items ≡ rows.old.items ++ (rows_of body.now ++ rows_of_all (following (number + 1) held.now.entries))) }
    ensures err { OnErr result ((more : List ℕ) × (rows.new.items ≡ rows.old.items ++ more)) }
{
    match body {
        Body::Rows(block) => {
            rows.extend_from_slice(block.rows())?;
            let (count, closed) = append_following(rows, number + 1, held)?;
            Ok((count, closed))
        }
        Body::Close => Ok((0, true)),
    }
}

fn drop_first(held: &mut BTreeMap<u64, Body>, count: u64)
    ensures { held.new.entries ≡ drop count held.old.entries }
{
    for taken in 0..count {
        let _entry = held.pop_first();
    }
}

impl Intake {
    /// A sender's part, when the sender has sent nothing.
    pub fn new(alloc: Global) -> Self
        ensures { result ≡ nothing_yet }
    {
        Intake {
            next: 0,
            closed: false,
            rows: Vec::new(alloc),
            held: BTreeMap::new(alloc),
        }
    }

    fn refusal(&self, block: u32, number: u64, body: &Body) -> Option<Reason>
        ensures { result ≡ refusal block self.now number body.now }
    {
        if is_bad_length(block, body) {
            return Some(Reason::BadLength);
        }
        if self.closed {
            return Some(Reason::AfterClose);
        }
        if number < self.next || holds(&self.held, number) {
            return Some(Reason::Repeat);
        }
        if holds_close_below(&self.held, number) {
            return Some(Reason::BeyondClose);
        }
        if is_close(body) && holds_above(&self.held, number) {
            return Some(Reason::EarlyClose);
        }
        None
    }

    // Delivers the next parcel with the held ones that follow it.
    fn accept(&mut self, number: u64, body: Body) -> Result<u64, (Body, AllocError)>
        requires next { number ≡ self.old.next }
        requires unclosed { self.old.closed ≡ false }
        requires holdable { IsHoldable body [] }
        requires alone { is_close body ≡ true → self.old.held ≡ [] }
        ensures ok { IfOk result (λ count. (count ≡ length (following (number + 1) self.old.held) + 1) × (self.new ≡ delivered_from self.old number body)) }
        ensures err { IfErr result (λ e. (e.0 ≡ body) × (self.new ≡ self.old)) }
    {
        let len = self.rows.len();
        match append_all(&mut self.rows, &body, number, &self.held) {
            Ok((count, closed)) => {
                drop_first(&mut self.held, count);
                self.next = number + 1 + count;
                self.closed = closed;
                Ok(count + 1)
            }
            Err(e) => {
                self.rows.truncate(len);
                Err((body, e))
            }
        }
    }

    // Keeps a parcel whose number is not the next one.
    fn hold(&mut self, number: u64, body: Body) -> Result<(), (Body, AllocError)>
        requires later { self.old.next < number }
        requires unclosed { self.old.closed ≡ false }
        requires new { holds number self.old.held ≡ false }
        requires before_close { holds_close_below number self.old.held ≡ false }
        requires close_last { is_close body ≡ true → holds_above number self.old.held ≡ false }
        requires holdable { IsHoldable body [] }
        ensures ok { OnOk result (self.new ≡ with_held self.old number body) }
        ensures err { IfErr result (λ e. (e.0 ≡ body) × (self.new ≡ self.old)) }
    {
        match self.held.insert(number, body) {
            Ok(_) => Ok(()),
            Err(e) => {
                let (_, body) = e.value;
                Err((body, AllocError))
            }
        }
    }

    /// Answers a parcel of this sender by the rules from `bad length` on.
    ///
    /// # Errors
    ///
    /// It fails only when memory runs out, and never for a parcel that these rules refuse. Nothing
    /// has changed then, and the body is returned.
    pub fn offer(
        &mut self,
        block: u32,
        number: u64,
        body: Body,
    ) -> Result<Answer, (Body, AllocError)>
        ensures answer { IfOk result (λ a. a ≡ answer block self.old number body) }
        ensures after { OnOk result (self.new ≡ after (answer block self.old number body) self.old number body) }
        ensures memory { IfErr result (λ e. (e.0 ≡ body) × (self.new ≡ self.old) × (refusal block self.old number body ≡ None)) }
    {
        if let Some(reason) = self.refusal(block, number, &body) {
            return Ok(Answer::Refused(reason));
        }
        if number == self.next {
            let count = self.accept(number, body)?;
            Ok(Answer::Accepted(count))
        } else {
            self.hold(number, body)?;
            Ok(Answer::Held)
        }
    }

    /// Whether its close was delivered.
    pub fn is_closed(&self) -> bool
        ensures { result ≡ self.now.closed }
    {
        self.closed
    }

    /// Its delivered rows.
    pub fn rows(&self) -> &[u32]
        ensures { result.now ≡ self.now.rows }
    {
        self.rows.as_slice()
    }

    /// The next number, or `None` after the close.
    pub fn waiting(&self) -> Option<u64>
        ensures { result ≡ waiting_at self.now }
    {
        if self.closed { None } else { Some(self.next) }
    }

    /// If parcels are held, the next number and the smallest held one.
    pub fn gap(&self) -> Option<(u64, u64)>
        ensures { result ≡ gap_at self.now }
    {
        match self.held.first_key_value() {
            Some((first, _)) => Some((self.next, *first)),
            None => None,
        }
    }
}
