ghost use Rattle.std.specs.Prelude.{◌≡◌, ℕ, ◌+◌, ◌≤◌, ◌<◌, All, length};
ghost use Rattle.std.specs.Ordering.{on};
ghost use Rattle.prefsql_values.specs.Value.{value_of};
ghost use Rattle.prefsql_tables.specs.Sight.{sight, IsInSight};
ghost use Rattle.base_prefs.specs.Kind.{IsJudged};
ghost use Rattle.base_prefs.specs.Kind as base;
ghost use Rattle.pref_terms.specs.Terms.{leaf_order, leaves_of, order_of, key_order, is_same_group, grouped_order, shown};
ghost use Rattle.pref_terms.specs.Fits.{LeafFits, LeavesFit, TermFits};
ghost use Rattle.pref_terms.specs.Standing.{standing_of};

use crate::ranking::{self, Standing};
use crate::term::{Leaf, Term};
use order_laws::Preference;
use prefsql_tables::{ColumnPlace, Combo, TableSet, cell_in_sight};
use prefsql_values::{Cell, Steps, not_distinct};
use std::cmp::Ordering;
use std::sync::ledger::Ledger;

/// A term over the combinations of rows of some FROM tables that stand in a row, within groups:
/// combinations of different groups are neither better nor the same.
///
/// It judges combinations that have a row for each place of the term and of the groups, where every
/// column of a leaf admits no NULL, AROUND, BETWEEN, LOWEST and HIGHEST stand on columns of
/// numbers, and an EXPLICIT leaf is trivial.
#[derive(Drop)]
pub struct BoundTerm<'t> {
    /// The tables.
    pub tables: &'t TableSet,
    /// The position in the set of each FROM table.
    pub from: &'t [u32],
    /// The position in FROM of the table of a combination's first row.
    pub first: u32,
    /// The term.
    pub term: &'t Term,
    /// The group columns.
    pub groups: &'t [ColumnPlace],
}

impl BoundTerm<'_> {
    /// The cell that a combination has in the leaf's column.
    #[tactic(auto, using(crate::proofs::Judged::fits_judged))]
    fn leaf_cell(&self, leaf: &Leaf, combo: &Combo) -> Cell<'_>
        requires { LeafFits self.now.tables.now self.now.from.now self.now.first combo.now.rows
            leaf.now }
        ensures value { value_of result
            ≡ shown self.now.tables.now self.now.from.now self.now.first combo.now leaf.now.place }
        ensures judged { IsJudged leaf.now.base (value_of result) }
    {
        self.tables.keeps_limits();
        cell_in_sight(leaf.place, self.tables, self.from, self.first, combo)
    }

    /// How `a` stands to `b` by the leaf, in one step.
    fn leaf_standing<L: Ledger>(
        &self,
        leaf: &Leaf,
        a: &Combo,
        b: &Combo,
        steps: &mut Steps<L>,
    ) -> Standing
        requires a_fits { LeafFits self.now.tables.now self.now.from.now self.now.first a.now.rows
            leaf.now }
        requires b_fits { LeafFits self.now.tables.now self.now.from.now self.now.first b.now.rows
            leaf.now }
        ensures standing { result
            ≡ standing_of (leaf_order leaf.now)
            (shown self.now.tables.now self.now.from.now self.now.first a.now)
            (shown self.now.tables.now self.now.from.now self.now.first b.now) }
        ensures one_step { steps.new ≡ steps.old + 1 }
    {
        steps.tick();
        let a = self.leaf_cell(leaf, a);
        let b = self.leaf_cell(leaf, b);
        ranking::value_standing(&leaf.base, leaf.trivial, a, b)
    }

    /// How `a` stands to `b` by the term. The second part is asked only where the first leaves it
    /// open.
    #[tactic(auto, using(crate::proofs::Standings::standings))]
    fn standing<L: Ledger>(
        &self,
        term: &Term,
        a: &Combo,
        b: &Combo,
        steps: &mut Steps<L>,
    ) -> Standing
        requires a_fits { LeavesFit self.now.tables.now self.now.from.now self.now.first a.now.rows
            term.now }
        requires b_fits { LeavesFit self.now.tables.now self.now.from.now self.now.first b.now.rows
            term.now }
        ensures standing { result
            ≡ standing_of (order_of term.now)
            (shown self.now.tables.now self.now.from.now self.now.first a.now)
            (shown self.now.tables.now self.now.from.now self.now.first b.now) }
        ensures least_steps { steps.old + 1 ≤ steps.new }
        ensures most_steps { steps.new ≤ steps.old + length (leaves_of term.now) }
    {
        match term {
            Term::Leaf(leaf) => self.leaf_standing(leaf, a, b, steps),
            Term::Pareto(first, second) => match self.standing(first.get(), a, b, steps) {
                Standing::Better => match self.standing(second.get(), a, b, steps) {
                    Standing::Better => Standing::Better,
                    Standing::Same => Standing::Better,
                    Standing::Other => Standing::Other,
                },
                Standing::Same => self.standing(second.get(), a, b, steps),
                Standing::Other => Standing::Other,
            },
            Term::Prior(first, second) => match self.standing(first.get(), a, b, steps) {
                Standing::Better => Standing::Better,
                Standing::Same => self.standing(second.get(), a, b, steps),
                Standing::Other => Standing::Other,
            },
            Term::Dual(inner) => self.standing(inner.get(), b, a, steps),
        }
    }

    /// Whether the two are not distinct on every group column.
    fn is_same_group(&self, a: &Combo, b: &Combo) -> bool
        requires a_there { All
            (IsInSight self.now.tables.now self.now.from.now self.now.first a.now.rows)
            self.now.groups.now }
        requires b_there { All
            (IsInSight self.now.tables.now self.now.from.now self.now.first b.now.rows)
            self.now.groups.now }
        ensures { result ≡ is_same_group self.now.groups.now
            (shown self.now.tables.now self.now.from.now self.now.first a.now)
            (shown self.now.tables.now self.now.from.now self.now.first b.now) }
    {
        for place in self.groups {
            let a = cell_in_sight(*place, self.tables, self.from, self.first, a);
            let b = cell_in_sight(*place, self.tables, self.from, self.first, b);
            if !not_distinct(a, b) {
                return false;
            }
        }
        true
    }

    /// Whether the two are the same by the leaf.
    fn is_same_by_leaf(&self, leaf: &Leaf, a: &Combo, b: &Combo) -> bool
        requires a_fits { LeafFits self.now.tables.now self.now.from.now self.now.first a.now.rows
            leaf.now }
        requires b_fits { LeafFits self.now.tables.now self.now.from.now self.now.first b.now.rows
            leaf.now }
        ensures { result ≡ (leaf_order leaf.now).same
            (shown self.now.tables.now self.now.from.now self.now.first a.now)
            (shown self.now.tables.now self.now.from.now self.now.first b.now) }
    {
        ranking::same(
            &leaf.base,
            leaf.trivial,
            self.leaf_cell(leaf, a),
            self.leaf_cell(leaf, b),
        )
    }

    /// Whether the two are the same by the term.
    #[tactic(auto, using(crate::proofs::Standings::standings))]
    fn is_same_by(&self, term: &Term, a: &Combo, b: &Combo) -> bool
        requires a_fits { LeavesFit self.now.tables.now self.now.from.now self.now.first a.now.rows
            term.now }
        requires b_fits { LeavesFit self.now.tables.now self.now.from.now self.now.first b.now.rows
            term.now }
        ensures { result ≡ (order_of term.now).same
            (shown self.now.tables.now self.now.from.now self.now.first a.now)
            (shown self.now.tables.now self.now.from.now self.now.first b.now) }
    {
        match term {
            Term::Leaf(leaf) => self.is_same_by_leaf(leaf, a, b),
            Term::Pareto(first, second) => self.is_same_by(first.get(), a, b)
                && self.is_same_by(second.get(), a, b),
            Term::Prior(first, second) => self.is_same_by(first.get(), a, b)
                && self.is_same_by(second.get(), a, b),
            Term::Dual(inner) => self.is_same_by(inner.get(), a, b),
        }
    }

    /// How the keys of the two compare by the leaf.
    fn leaf_keys(&self, leaf: &Leaf, a: &Combo, b: &Combo) -> Ordering
        requires a_fits { LeafFits self.now.tables.now self.now.from.now self.now.first a.now.rows
            leaf.now }
        requires b_fits { LeafFits self.now.tables.now self.now.from.now self.now.first b.now.rows
            leaf.now }
        ensures { result ≡ base.key_order leaf.now.base
            (shown self.now.tables.now self.now.from.now self.now.first a.now leaf.now.place)
            (shown self.now.tables.now self.now.from.now self.now.first b.now leaf.now.place) }
    {
        let a = ranking::key(&leaf.base, self.leaf_cell(leaf, a));
        let b = ranking::key(&leaf.base, self.leaf_cell(leaf, b));
        a.cmp(&b)
    }

    /// How the keys of the two compare by the term: the first two that differ decide, and no later
    /// key is computed.
    #[tactic(auto, using(crate::proofs::Standings::standings))]
    fn term_keys(&self, term: &Term, a: &Combo, b: &Combo) -> Ordering
        requires a_fits { LeavesFit self.now.tables.now self.now.from.now self.now.first a.now.rows
            term.now }
        requires b_fits { LeavesFit self.now.tables.now self.now.from.now self.now.first b.now.rows
            term.now }
        ensures { result ≡ key_order term.now
            (shown self.now.tables.now self.now.from.now self.now.first a.now)
            (shown self.now.tables.now self.now.from.now self.now.first b.now) }
    {
        match term {
            Term::Leaf(leaf) => self.leaf_keys(leaf, a, b),
            Term::Pareto(first, second) => {
                let by_first = self.term_keys(first.get(), a, b);
                match by_first {
                    Ordering::Equal => self.term_keys(second.get(), a, b),
                    order => order,
                }
            }
            Term::Prior(first, second) => {
                let leading = self.term_keys(first.get(), a, b);
                match leading {
                    Ordering::Equal => self.term_keys(second.get(), a, b),
                    order => order,
                }
            }
            Term::Dual(inner) => self.term_keys(inner.get(), b, a),
        }
    }
}

impl Preference for BoundTerm<'_> {
    ghost use Rattle.pref_terms.specs.BoundLaws.{bound_lawful};
    ghost use Rattle.pref_terms.specs.TermLaws.{some_leaf};

    type Item = Combo;

    ghost valid = { λ pref combo.
        TermFits pref.tables.now pref.from.now pref.first combo.rows pref.term.now pref.groups.now };

    ghost better = { λ pref. on (shown pref.tables.now pref.from.now pref.first)
        ((grouped_order pref.groups.now pref.term.now).better) };

    ghost same = { λ pref. on (shown pref.tables.now pref.from.now pref.first)
        ((grouped_order pref.groups.now pref.term.now).same) };

    ghost key_cmp = { λ pref. on (shown pref.tables.now pref.from.now pref.first)
        (key_order pref.term.now) };

    ghost width = { λ pref. length (leaves_of pref.term.now) };

    ghost laws = { λ pref.
        bound_lawful pref.tables.now pref.from.now pref.first pref.term.now pref.groups.now };

    ghost width_positive = { λ pref. some_leaf pref.term.now };

    fn better<L: Ledger>(&self, a: &Combo, b: &Combo, steps: &mut Steps<L>) -> bool {
        if self.is_same_group(a, b) {
            self.standing(self.term, a, b, steps) == Standing::Better
        } else {
            steps.tick();
            false
        }
    }

    fn same(&self, a: &Combo, b: &Combo) -> bool {
        self.is_same_group(a, b) && self.is_same_by(self.term, a, b)
    }

    fn key_cmp(&self, a: &Combo, b: &Combo) -> Ordering {
        self.term_keys(self.term, a, b)
    }
}
