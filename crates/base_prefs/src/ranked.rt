//! Base preferences as preferences of values.
ghost use Rattle.std.specs.Prelude.{ℕ, ◌≡◌, ◌↔◌, IsTrue, ◌+◌, ◌≤◌, ◌<◌, Bool};
ghost use Rattle.prefsql_values.specs.Value.{value_of};

use crate::kind::BasePref;
use order_laws::Preference;
use prefsql_values::{Steps, Value, not_distinct};
use std::cmp::Ordering;
use std::sync::ledger::Ledger;

/// A base preference as a preference of values: a test is one step. With `trivial` the same values
/// are the equal ones, else those of equal keys (substitutable values, this project's own).
///
/// It judges the values that `level` does; an EXPLICIT one needs `trivial`.
#[derive(Clone, Copy)]
pub struct Ranked<'p> {
    pub base: &'p BasePref,
    pub trivial: bool,
}

impl Preference for Ranked<'_> {
    ghost use Rattle.base_prefs.specs.Kind.{better_of, same_of, key_order, IsBetter, IsSame};
    ghost use Rattle.base_prefs.specs.RankedLaws.{IsRanked, ranked_lawful, one_positive};

    type Item = Value;

    ghost valid = { λ pref. IsRanked pref.base.now pref.trivial };

    ghost better = { λ pref. better_of pref.base.now };

    ghost same = { λ pref. same_of pref.base.now pref.trivial };

    ghost key_cmp = { λ pref. key_order pref.base.now };

    ghost width = { λ _. 1 };

    ghost laws = { λ pref. ranked_lawful pref.base.now pref.trivial };

    ghost width_positive = { λ _. one_positive };

    fn better<L: Ledger>(&self, a: &Value, b: &Value, steps: &mut Steps<L>) -> bool
        requires a_valid { IsRanked self.now.base.now self.now.trivial a.now }
        requires b_valid { IsRanked self.now.base.now self.now.trivial b.now }
        ensures truth { result ≡ better_of self.now.base.now a.now b.now }
        ensures meaning { IsTrue result ↔ IsBetter self.now.base.now a.now b.now }
        ensures least_steps { steps.old + 1 ≤ steps.new }
        ensures most_steps { steps.new ≤ steps.old + 1 }
    {
        steps.tick();
        self.base.better(a.cell(), b.cell())
    }

    fn same(&self, a: &Value, b: &Value) -> bool
        requires a_valid { IsRanked self.now.base.now self.now.trivial a.now }
        requires b_valid { IsRanked self.now.base.now self.now.trivial b.now }
        ensures truth { result ≡ same_of self.now.base.now self.now.trivial a.now b.now }
        ensures meaning { IsTrue result ↔ IsSame self.now.base.now self.now.trivial a.now b.now }
    {
        if self.trivial {
            not_distinct(a.cell(), b.cell())
        } else {
            self.base.key(a.cell()) == self.base.key(b.cell())
        }
    }

    fn key_cmp(&self, a: &Value, b: &Value) -> Ordering {
        self.base.key(a.cell()).cmp(&self.base.key(b.cell()))
    }
}
