//! A preference of the rows of a list, by their places, that compares keys which were computed
//! once.
ghost use Rattle.std.specs.Prelude.{◌≡◌, ◌<◌, [], false, length};
ghost use Rattle.std.specs.Ordering.{on};
ghost use Rattle.pref_terms.specs.Terms.{key_order, keys_of, leaves_of, order_of};
ghost use Rattle.plan_groups.specs.Groups.{IsRow, row_at, seen_at};
ghost use Rattle.plan_groups.specs.Jumps.{Tells, jumps_of, shape_of};
ghost use Rattle.plan_groups.specs.Ranks.{keys_of_rows};

use crate::jumps::{RankedLeaf, compare_keys, is_better};
use order_laws::Preference;
use pref_terms::BoundTerm;
use prefsql_tables::Combo;
use prefsql_values::Steps;
use std::cmp::Ordering;
use std::sync::ledger::Ledger;

/// The rows of a list, by their places, as a term ranks them, whatever their groups.
///
/// What is compared of the rows are numbers, which were computed once.
#[derive(Drop)]
pub(crate) struct RankedRows<'t> {
    pub bound: &'t BoundTerm<'t>,
    pub combos: &'t [Combo],
    /// The keys of all rows by all leaves, row by row.
    pub keys: Vec<i128>,
    pub leaves: Vec<RankedLeaf<'t>>,
    ghost keys_there: { keys.items ≡ keys_of_rows bound.now combos.now },
    ghost jumps_there: { jumps_of leaves.items ≡ (shape_of bound.now.term.now).jumps 0 0 0 },
    ghost tells: { Tells bound.now combos.now false bound.now.term.now leaves.items },
}

impl<'t> RankedRows<'t> {
    /// The row at the place.
    fn row(&self, place: usize) -> &Combo
        requires { place < length self.now.combos.now }
        ensures { result.now ≡ row_at self.now.combos.now place }
    {
        &self.combos[place]
    }

    /// The keys of the row at the place.
    fn keys_at(&self, place: usize) -> &[i128]
        requires { place < length self.now.combos.now }
        ensures { result.now
            ≡ keys_of self.now.bound.now.term.now
            (seen_at self.now.bound.now self.now.combos.now place) }
    {
        let width = self.leaves.len();
        let start = place * width;
        &self.keys.as_slice()[start..start + width]
    }

    /// The term by itself, without groups.
    fn ungrouped(&self) -> BoundTerm<'t>
        ensures tables { result.tables.now ≡ self.now.bound.now.tables.now }
        ensures from { result.from.now ≡ self.now.bound.now.from.now }
        ensures first { result.first ≡ self.now.bound.now.first }
        ensures term { result.term.now ≡ self.now.bound.now.term.now }
        ensures groups { result.groups.now ≡ [] }
    {
        BoundTerm {
            tables: self.bound.tables,
            from: self.bound.from,
            first: self.bound.first,
            term: self.bound.term,
            groups: &[],
        }
    }
}

impl Preference for RankedRows<'_> {
    ghost use Rattle.plan_groups.specs.RankLaws.{ranked_lawful};
    ghost use Rattle.pref_terms.specs.TermLaws.{some_leaf};

    type Item = usize;

    ghost valid = { λ pref place. IsRow pref.bound.now pref.combos.now place };

    ghost better = { λ pref. on (seen_at pref.bound.now pref.combos.now)
        ((order_of pref.bound.now.term.now).better) };

    ghost same = { λ pref. on (seen_at pref.bound.now pref.combos.now)
        ((order_of pref.bound.now.term.now).same) };

    ghost key_cmp = { λ pref.
        on (seen_at pref.bound.now pref.combos.now) (key_order pref.bound.now.term.now) };

    ghost width = { λ pref. length (leaves_of pref.bound.now.term.now) };

    ghost laws = { λ pref. ranked_lawful pref.bound.now pref.combos.now };

    ghost width_positive = { λ pref. some_leaf pref.bound.now.term.now };

    fn better<L: Ledger>(&self, a: &usize, b: &usize, steps: &mut Steps<L>) -> bool {
        let xs = self.keys_at(*a);
        let ys = self.keys_at(*b);
        is_better(self.leaves.as_slice(), xs, ys, *a, *b, steps)
    }

    fn same(&self, a: &usize, b: &usize) -> bool {
        let bound = self.ungrouped();
        bound.same(self.row(*a), self.row(*b))
    }

    fn key_cmp(&self, a: &usize, b: &usize) -> Ordering {
        compare_keys(self.keys_at(*a), self.keys_at(*b))
    }
}
