//! Parcels, how the rows of one sender for one partition are cut into them, and the ledger that
//! delivers each sender's parcels once and in number order, whatever the order in which they
//! arrive.
//!
//! A *sender* is the number of one stripe of one table. [`cut`] cuts its rows for a partition into
//! numbered blocks and a close: its *plan*. A [`Ledger`] belongs to one partition. It answers each
//! offered parcel by nine rules, keeps what it accepted or held, and shows for each sender the rows
//! that were delivered so far. [`replay`] offers a whole list. The functions of `laws` do nothing;
//! their contracts are theorems.

ghost use Rattle.std.specs.Prelude.{List, slice_get, [], ◌≡◌, ◌<◌, ◌≤◌, ◌+◌, ℕ, length, Some, None, Ok, Err, IfOk, IfErr, OnOk, OnErr, IfSome, slice_index_or};
ghost use Rattle.std.specs.List.{list_all};
ghost use Rattle.rj_exchange.specs.Standing.{nothing_yet};
ghost use Rattle.rj_exchange.specs.Ledgers.{LedgerValue, opened, standing, answer_to, after_offer, answers, after_all};
ghost use Rattle.rj_exchange.specs.Kept.{keep, kept, Keeps};
ghost use Rattle.rj_exchange.specs.Lawful.{AreLawful, planned_answers};
ghost use Rattle.rj_exchange.specs.Delivery.{Delivers, AreExactly};
ghost use Rattle.rj_exchange.specs.declared.ledger.parcel.Parcel.{Parcel};
ghost use Rattle.rj_exchange.specs.declared.ledger.parcel.Answer.TheVariants.{Accepted};
ghost use Rattle.rj_exchange.specs.Reading.{waiting_at, gap_at, IsRefused};

mod cutting;
mod intake;
mod laws;
mod parcel;

pub use self::cutting::cut;
pub use self::laws::{
    close_is_last, closed_refuses, kept_once, offer_keeps, offer_keeps_close_last,
    offer_keeps_once, offer_rules, offers_answer, offers_deliver, offers_keep_exactly,
    replay_rules, shows_kept,
};
pub use self::parcel::{Answer, Block, Body, Parcel, Reason};
use crate::ledger::intake::Intake;
use std::alloc::{AllocError, Global};
use std::marker::Model;

/// What arrived at one partition, delivered once and in number order for each sender.
///
/// Contracts see its partition and its block size. For each sender they see the *next* number (the
/// least that no kept parcel of the sender has), whether the sender's close was delivered, the
/// delivered rows, and the held parcels, by rising number. A parcel is kept if it was answered
/// `Accepted` or `Held`.
#[derive(Drop)]
pub struct Ledger {
    partition: u32,
    block: u32,
    intakes: Vec<Intake>,
}

impl Model for Ledger {
    ghost use Rattle.rj_exchange.specs.Ledgers.{LedgerValue};

    ghost Value = { LedgerValue };

    ghost view = { λ a. record { partition = a.partition; block = a.block; senders = a.intakes.items } };
}

impl Ledger {
    /// The ledger of a partition for the senders below `senders`, to which nothing was offered,
    /// with blocks of at most `block` rows. Later growth takes memory from `alloc` too.
    ///
    /// # Errors
    ///
    /// It fails only when memory runs out.
    pub fn open(alloc: Global, partition: u32, senders: u32, block: u32) -> Result<Self, AllocError>
        ensures opened { IfOk result (λ ledger. ledger ≡ opened partition senders block) }
        ensures kept { IfOk result (Keeps []) }
    {
        let mut intakes = Vec::with_capacity(alloc, senders as usize)?;
        for _sender in 0..senders {
            intakes.push(Intake::new(alloc))?;
        }
        Ok(Ledger {
            partition,
            block,
            intakes,
        })
    }

    /// Answers a parcel, whatever it carries, by the first of these rules that fits.
    ///
    /// | Rule | Answer | Where |
    /// |---|---|---|
    /// | wrong partition | refused | its partition isn't the ledger's |
    /// | unknown sender | refused | its sender isn't below the number of senders |
    /// | bad length | refused | a block of no rows, or of more than the block size |
    /// | after close | refused | its sender's close was delivered |
    /// | repeat | refused | its number was delivered or is held |
    /// | beyond close | refused | a close with a smaller number is held |
    /// | early close | refused | it is a close, and a larger number is held |
    /// | accept | accepted, with a count | its number is the next one: it is delivered with the held ones that follow without a gap |
    /// | hold | held | otherwise |
    ///
    /// A refused parcel changes nothing and allocates no memory.
    ///
    /// # Errors
    ///
    /// It fails only when memory runs out. The ledger is then unchanged, and the parcel is
    /// returned.
    pub fn offer(&mut self, parcel: Parcel) -> Result<Answer, (Parcel, AllocError)>
        ensures answer { IfOk result (λ a. a ≡ answer_to self.old parcel) }
        ensures after { OnOk result (self.new ≡ after_offer self.old parcel) }
        ensures senders { length self.new.senders ≡ length self.old.senders }
        ensures memory { IfErr result (λ e. (e.0 ≡ parcel) × (self.new ≡ self.old) × (IsRefused (answer_to self.old parcel) → ⊥)) }
    {
        let Parcel {
            sender,
            partition,
            number,
            body,
        } = parcel;
        if partition != self.partition {
            return Ok(Answer::Refused(Reason::WrongPartition));
        }
        if sender as usize >= self.intakes.len() {
            return Ok(Answer::Refused(Reason::UnknownSender));
        }
        let block = self.block;
        let intake = &mut self.intakes[sender as usize];
        match intake.offer(block, number, body) {
            Ok(answer) => Ok(answer),
            Err((body, e)) => Err((
                Parcel {
                    sender,
                    partition,
                    number,
                    body,
                },
                e,
            )),
        }
    }

    /// Whether every sender's close was delivered.
    pub fn complete(&self) -> bool
        ensures { result ≡ list_all (λ s. s.closed) self.now.senders }
    {
        self.intakes.iter().all(|intake| intake.is_closed())
    }

    /// The delivered rows of a known sender, in the order of their parcels' numbers.
    pub fn delivered(&self, sender: u32) -> &[u32]
        requires { sender < length self.now.senders }
        ensures { result.now ≡ (standing self.now sender).rows }
    {
        let intake = &self.intakes[sender as usize];
        intake.rows()
    }

    /// The number that the next delivered parcel of a known sender will have, or `None` after its close.
    pub fn waiting(&self, sender: u32) -> Option<u64>
        requires { sender < length self.now.senders }
        ensures { result ≡ waiting_at (standing self.now sender) }
    {
        let intake = &self.intakes[sender as usize];
        intake.waiting()
    }

    /// The gap before the held parcels of a known sender: the next number and the smallest held
    /// one, or `None` if no parcel is held.
    pub fn gap(&self, sender: u32) -> Option<(u64, u64)>
        requires { sender < length self.now.senders }
        ensures { result ≡ gap_at (standing self.now sender) }
    {
        let intake = &self.intakes[sender as usize];
        intake.gap()
    }
}

// The answers to a whole list of parcels, and the ledger after them.
fn answer_all(
    alloc: Global,
    partition: u32,
    senders: u32,
    block: u32,
    parcels: Vec<Parcel>,
) -> Result<(Vec<Answer>, Ledger), AllocError>
    ensures answers { IfOk result (λ r. r.0.items ≡ answers (opened partition senders block) parcels.items) }
    ensures ledger { IfOk result (λ r. r.1 ≡ after_all (opened partition senders block) parcels.items) }
    ensures senders { IfOk result (λ r. length r.1.senders ≡ senders) }
{
    let mut ledger = Ledger::open(alloc, partition, senders, block)?;
    let mut answers = Vec::new(alloc);
    for parcel in parcels {
        match ledger.offer(parcel) {
            Ok(answer) => answers.push(answer)?,
            Err((_, e)) => return Err(e),
        }
    }
    Ok((answers, ledger))
}

/// The answers to a whole list of parcels, offered in order to a new ledger, and the ledger after
/// them. `block` is at least 1.
///
/// For any list the ledger keeps exactly the parcels that were accepted or held. Suppose all of
/// them are planned, in whatever order and however often they come. Then each answer is the planned
/// one, the kept parcels are exactly the distinct ones of the partition and a known sender, and of
/// each sender the rows before its front are delivered. These are all rows that are due once each
/// planned parcel has come.
///
/// # Errors
///
/// It fails only when memory runs out.
pub fn replay(
    alloc: Global,
    partition: u32,
    senders: u32,
    block: u32,
    parcels: Vec<Parcel>,
) -> Result<(Vec<Answer>, Ledger), AllocError>
    requires { 0 < block }
    ensures answers { IfOk result (λ r. r.0.items ≡ answers (opened partition senders block) parcels.items) }
    ensures ledger { IfOk result (λ r. r.1 ≡ after_all (opened partition senders block) parcels.items) }
    ensures senders { IfOk result (λ r. length r.1.senders ≡ senders) }
    ensures kept { IfOk result (λ r. Keeps (kept parcels.items r.0.items) r.1) }
    ensures planned { IfOk result (λ r. (due : ℕ → ℕ → List ℕ) → AreLawful due block parcels.items
        → r.0.items ≡ planned_answers due block partition senders [] parcels.items) }
    ensures exact { IfOk result (λ r. (due : ℕ → ℕ → List ℕ) → AreLawful due block parcels.items
        → AreExactly due block partition senders parcels.items (kept parcels.items r.0.items)) }
    ensures delivers { IfOk result (λ r. (due : ℕ → ℕ → List ℕ) → AreLawful due block parcels.items
        → Delivers due block partition senders parcels.items r.1) }
{
    let (answers, ledger) = answer_all(alloc, partition, senders, block, parcels)?;
    Ok((answers, ledger))
}
