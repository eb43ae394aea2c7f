ghost use Rattle.std.specs.Prelude.{◌≡◌, ℕ, ◌+◌, ◌<◌};
ghost use Rattle.std.specs.Ordering.{then_cmp, flip_args, eq_of_both};
ghost use Rattle.order_laws.specs.Combine.{pareto_better, prior_better};
ghost use Rattle.order_laws.specs.CombineLaws.{flip_lawful_where, pareto_lawful_where, prior_lawful_where, sum_positive};

use crate::preference::Preference;
use prefsql_values::Steps;
use std::cmp::Ordering;
use std::sync::ledger::Ledger;

/// Both parts count alike (Pareto preference, Kießling, VLDB 2002): an item is better where it is
/// better by one part, and better or the same by the other. Two items are the same where they are
/// so by both parts. It is as wide as both parts.
#[derive(Drop)]
pub struct Pareto<P, Q> {
    /// The part whose keys are compared first.
    pub first: P,
    /// The part whose keys decide where the first ones are equal.
    pub second: Q,
}

/// The first part counts more (prioritised preference, Kießling, VLDB 2002): an item is better
/// where it is better by the first part, or the same by it and better by the second. Two items are
/// the same where they are so by both parts. It is as wide as both parts.
#[derive(Drop)]
pub struct Prior<P, Q> {
    /// The part that counts more.
    pub first: P,
    /// The part that decides among items that are the same by the first.
    pub second: Q,
}

/// The preference turned round (dual preference, Kießling, VLDB 2002): what was better is worse,
/// and keys are compared the other way round.
#[derive(Drop)]
pub struct Flip<P> {
    /// What is turned round.
    pub inner: P,
}

impl<P: Preference> Preference for Flip<P> {
    type Item = P::Item;

    ghost valid = { λ pref. P.valid pref.inner };

    ghost better = { λ pref. flip_args (P.better pref.inner) };

    ghost same = { λ pref. P.same pref.inner };

    ghost key_cmp = { λ pref. flip_args (P.key_cmp pref.inner) };

    ghost width = { λ pref. P.width pref.inner };

    ghost laws = { λ pref. flip_lawful_where (P.laws pref.inner) };

    ghost width_positive = { λ pref. P.width_positive pref.inner };

    fn better<L: Ledger>(&self, a: &P::Item, b: &P::Item, steps: &mut Steps<L>) -> bool {
        self.inner.better(b, a, steps)
    }

    fn same(&self, a: &P::Item, b: &P::Item) -> bool {
        self.inner.same(a, b)
    }

    fn key_cmp(&self, a: &P::Item, b: &P::Item) -> Ordering {
        self.inner.key_cmp(b, a)
    }
}

impl<P: Preference, Q: Preference<Item = P::Item>> Preference for Pareto<P, Q> {
    type Item = P::Item;

    ghost valid = { λ pref x. P.valid pref.first x × Q.valid pref.second x };

    ghost better = { λ pref. pareto_better (P.better pref.first) (P.same pref.first)
        (Q.better pref.second) (Q.same pref.second) };

    ghost same = { λ pref. eq_of_both (P.same pref.first) (Q.same pref.second) };

    ghost key_cmp = { λ pref. then_cmp (P.key_cmp pref.first) (Q.key_cmp pref.second) };

    ghost width = { λ pref. P.width pref.first + Q.width pref.second };

    ghost laws = { λ pref. pareto_lawful_where (P.laws pref.first) (Q.laws pref.second) };

    ghost width_positive = { λ pref. sum_positive (P.width pref.first) (Q.width pref.second)
        (P.width_positive pref.first) };

    fn better<L: Ledger>(&self, a: &P::Item, b: &P::Item, steps: &mut Steps<L>) -> bool {
        if self.first.better(a, b, steps) {
            self.second.better(a, b, steps) || self.second.same(a, b)
        } else {
            self.first.same(a, b) && self.second.better(a, b, steps)
        }
    }

    fn same(&self, a: &P::Item, b: &P::Item) -> bool {
        self.first.same(a, b) && self.second.same(a, b)
    }

    fn key_cmp(&self, a: &P::Item, b: &P::Item) -> Ordering {
        match self.first.key_cmp(a, b) {
            Ordering::Equal => self.second.key_cmp(a, b),
            order => order,
        }
    }
}

impl<P: Preference, Q: Preference<Item = P::Item>> Preference for Prior<P, Q> {
    type Item = P::Item;

    ghost valid = { λ pref x. P.valid pref.first x × Q.valid pref.second x };

    ghost better = { λ pref. prior_better (P.better pref.first) (P.same pref.first)
        (Q.better pref.second) };

    ghost same = { λ pref. eq_of_both (P.same pref.first) (Q.same pref.second) };

    ghost key_cmp = { λ pref. then_cmp (P.key_cmp pref.first) (Q.key_cmp pref.second) };

    ghost width = { λ pref. P.width pref.first + Q.width pref.second };

    ghost laws = { λ pref. prior_lawful_where (P.laws pref.first) (Q.laws pref.second) };

    ghost width_positive = { λ pref. sum_positive (P.width pref.first) (Q.width pref.second)
        (P.width_positive pref.first) };

    fn better<L: Ledger>(&self, a: &P::Item, b: &P::Item, steps: &mut Steps<L>) -> bool {
        self.first.better(a, b, steps) || (self.first.same(a, b) && self.second.better(a, b, steps))
    }

    fn same(&self, a: &P::Item, b: &P::Item) -> bool {
        self.first.same(a, b) && self.second.same(a, b)
    }

    fn key_cmp(&self, a: &P::Item, b: &P::Item) -> Ordering {
        match self.first.key_cmp(a, b) {
            Ordering::Equal => self.second.key_cmp(a, b),
            order => order,
        }
    }
}
