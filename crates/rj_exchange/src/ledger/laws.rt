//! Laws: each of these functions does nothing; its contract is a theorem about every ledger or
//! list of parcels.

ghost use Rattle.std.specs.Prelude.{List, [], ◌≡◌, ◌<◌, ℕ, true, length};
ghost use Rattle.rj_exchange.specs.declared.ledger.parcel.Parcel.{Parcel};
ghost use Rattle.rj_exchange.specs.Ledgers.{LedgerValue, opened, standing, answer_to, after_offer, answers, after_all};
ghost use Rattle.rj_exchange.specs.Reading.{IsRefused};
ghost use Rattle.rj_exchange.specs.Kept.{AreKeptOnce, AreClosedLast, keep, kept, Keeps};
ghost use Rattle.rj_exchange.specs.KeptRules.{ShowsKept, kept_answer, kept_answers};
ghost use Rattle.rj_exchange.specs.Lawful.{AreLawful, planned_answers};
ghost use Rattle.rj_exchange.specs.Delivery.{Delivers, AreExactly};

/// If a ledger agrees with the kept parcels, it still does after an offer.
pub fn offer_keeps()
    ensures { (ks : List Parcel) (v : LedgerValue) (x : Parcel) → Keeps ks v → Keeps (keep (answer_to v x) x ks) (after_offer v x) }
{}

/// No parcel is kept twice: an offer doesn't keep one whose sender and number a kept one has.
pub fn offer_keeps_once()
    ensures { (ks : List Parcel) (v : LedgerValue) (x : Parcel) → Keeps ks v
        → AreKeptOnce v.partition (length v.senders) ks → AreKeptOnce v.partition (length v.senders) (keep (answer_to v x) x ks) }
{}

/// From any list each parcel is kept at most once.
pub fn kept_once()
    ensures { (q n block : ℕ) (xs : List Parcel) → AreKeptOnce q n (kept xs (answers (opened q n block) xs)) }
{}

/// While a close is kept, whether it is held or delivered, an offer keeps no larger number of its
/// sender.
pub fn offer_keeps_close_last()
    ensures { (ks : List Parcel) (v : LedgerValue) (x : Parcel) → Keeps ks v → AreClosedLast ks → AreClosedLast (keep (answer_to v x) x ks) }
{}

/// From any list the kept close of a sender is the last of its kept parcels, whether it is held or
/// delivered.
pub fn close_is_last()
    ensures { (q n block : ℕ) (xs : List Parcel) → AreClosedLast (kept xs (answers (opened q n block) xs)) }
{}

/// The answer to one offer is that of the nine rules read over the kept parcels alone.
pub fn offer_rules()
    ensures { (ks : List Parcel) (v : LedgerValue) (x : Parcel) → Keeps ks v → AreKeptOnce v.partition (length v.senders) ks
        → answer_to v x ≡ kept_answer v.partition (length v.senders) v.block ks x }
{}

/// The answers to any list are those of the nine rules read over the kept parcels alone.
pub fn replay_rules()
    ensures { (q n block : ℕ) (xs : List Parcel) → answers (opened q n block) xs ≡ kept_answers q n block [] xs }
{}

/// What a ledger shows of a sender follows from the parcels that it has kept. The next number is
/// the least that none of them has. The rows are those of the parcels below it, by number. The gap
/// reaches to the smallest held number.
pub fn shows_kept()
    ensures { (ks : List Parcel) (v : LedgerValue) → Keeps ks v → AreKeptOnce v.partition (length v.senders) ks
        → (s : ℕ) → s < length v.senders → ShowsKept ks s (standing v s) }
{}

/// Once a sender's close was delivered, each parcel of that sender is refused.
pub fn closed_refuses()
    ensures { (v : LedgerValue) (x : Parcel) → (standing v x.sender).closed ≡ true → IsRefused (answer_to v x) }
{}

/// The answers to any lawful arrivals, offered one by one to a ledger to which nothing was offered.
pub fn offers_answer()
    ensures { (due : ℕ → ℕ → List ℕ) (block q n : ℕ) → 0 < block → (xs : List Parcel) → AreLawful due block xs
        → answers (opened q n block) xs ≡ planned_answers due block q n [] xs }
{}

/// The kept parcels of any lawful arrivals are exactly the distinct ones of the ledger's partition and a known sender.
pub fn offers_keep_exactly()
    ensures { (due : ℕ → ℕ → List ℕ) (block q n : ℕ) → 0 < block → (xs : List Parcel) → AreLawful due block xs
        → AreExactly due block q n xs (kept xs (answers (opened q n block) xs)) }
{}

/// What a ledger has delivered after any lawful arrivals, offered one by one.
pub fn offers_deliver()
    ensures { (due : ℕ → ℕ → List ℕ) (block q n : ℕ) → 0 < block → (xs : List Parcel) → AreLawful due block xs
        → Delivers due block q n xs (after_all (opened q n block) xs) }
{}
