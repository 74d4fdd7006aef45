//! The next row of an input, with the input.

ghost use Rattle.std.specs.Prelude.{◌≡◌};
ghost use Rattle.std.proofs.Common.{rules};
ghost use Rattle.std.specs.Cmp.{back_total, eq_by_cmp_equiv, on_total, partial_equiv_from_equiv, partial_order_from_own_ties};
ghost use Rattle.std.specs.Cmp.Rules.{comparing};
ghost use Rattle.std.specs.Ordering.{as_partial_cmp, eq_by_cmp, flip_args, on};
ghost use Rattle.rj_shards.specs.Places.{place_order, place_total};

use crate::merge::place::Placed;
use std::cmp::Ordering;

// The next row of an input, with the input after it. Heads compare by the places of their rows, in
// reverse: the greatest head has the least place.
#[derive(Drop)]
pub struct Head<T, S> {
    pub(crate) next: Placed<T>,
    pub(crate) source: S,
}

impl<T, S> Ord for Head<T, S> {
    ghost cmp = { flip_args (on (λ h. h.next.place) place_order) };

    ghost total = { back_total (on_total (λ h. h.next.place) place_total) };

    ghost matches_partial_cmp = { Prim.search (comparing, rules) };

    ghost matches_eq = { Prim.search (comparing, rules) };

    fn cmp(&self, other: &Head<T, S>) -> Ordering {
        other.next.place.cmp(&self.next.place)
    }
}

impl<T, S> PartialOrd for Head<T, S> {
    ghost partial_cmp = { as_partial_cmp (flip_args (on (λ h. h.next.place) place_order)) };

    ghost laws = { partial_order_from_own_ties (Prim.search (comparing, place_total, rules)) (Prim.search (comparing, rules)) };

    fn partial_cmp(&self, other: &Head<T, S>) -> Option<Ordering> {
        Some(self.cmp(other))
    }
}

impl<T, S> Eq for Head<T, S> {
    ghost laws = { eq_by_cmp_equiv (back_total (on_total (λ h. h.next.place) place_total)) };
}

impl<T, S> PartialEq for Head<T, S> {
    ghost eq = { eq_by_cmp (flip_args (on (λ h. h.next.place) place_order)) };

    ghost laws = { partial_equiv_from_equiv (eq_by_cmp_equiv (back_total (on_total (λ h. h.next.place) place_total))) };

    fn eq(&self, other: &Head<T, S>) -> bool {
        self.cmp(other) == Ordering::Equal
    }
}
