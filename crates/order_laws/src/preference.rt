ghost use Rattle.std.specs.Prelude.{◌≡◌, ℕ, ◌+◌, ◌<◌, ◌≤◌, Bool};
ghost use Rattle.std.specs.declared.cmp.Ordering.{Ordering};
ghost use Rattle.order_laws.specs.Lawful.{IsLawfulWhere};

use prefsql_values::Steps;
use std::cmp::Ordering;
use std::sync::ledger::Ledger;

/// A strict partial order of items with an equivalence that it respects (Kießling, VLDB 2002).
/// Beside them each item has a key, which is smaller for a better item and equal for the same
/// items; that keys go with the order is this project's own.
pub trait Preference {
    /// What is judged.
    type Item: Drop;

    /// Which items the preference judges. Each call needs such items.
    ghost valid: { Self → Self.Item → Type 0 };

    /// Whether the first item is better than the second.
    ghost better: { Self → Self.Item → Self.Item → Bool };

    /// Whether the two items are the same.
    ghost same: { Self → Self.Item → Self.Item → Bool };

    /// How the two items' keys compare.
    ghost key_cmp: { Self → Self.Item → Self.Item → Ordering };

    /// The greatest number of steps that a test takes.
    ghost width: { Self → ℕ };

    /// Whether `a` is better than `b`. A step is one comparison of a leaf: a test takes one at
    /// least, and at most as many as the preference is wide.
    fn better<L: Ledger>(&self, a: &Self::Item, b: &Self::Item, steps: &mut Steps<L>) -> bool
        requires a_valid { valid self.now a.now }
        requires b_valid { valid self.now b.now }
        ensures truth { result ≡ better self.now a.now b.now }
        ensures least_steps { steps.old + 1 ≤ steps.new }
        ensures most_steps { steps.new ≤ steps.old + width self.now };

    /// Whether `a` and `b` are the same, so that neither is better and each stands for the other.
    fn same(&self, a: &Self::Item, b: &Self::Item) -> bool
        requires a_valid { valid self.now a.now }
        requires b_valid { valid self.now b.now }
        ensures { result ≡ same self.now a.now b.now };

    /// How the keys of `a` and `b` compare.
    fn key_cmp(&self, a: &Self::Item, b: &Self::Item) -> Ordering
        requires a_valid { valid self.now a.now }
        requires b_valid { valid self.now b.now }
        ensures { result ≡ key_cmp self.now a.now b.now };

    /// What each `impl` must prove of the valid items.
    ghost laws: { (pref : Self)
        → IsLawfulWhere (valid pref) (better pref) (same pref) (key_cmp pref) };

    /// A preference is at least one step wide.
    ghost width_positive: { (pref : Self) → 0 < width pref };
}
