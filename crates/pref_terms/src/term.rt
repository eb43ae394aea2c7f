ghost use Rattle.std.specs.Prelude.{◌≡◌, All, IfOk};
ghost use Rattle.pref_terms.specs.Betters.{IsDecidedBy, IsSoundLeaf, relation_of};
ghost use Rattle.pref_terms.specs.Terms.{leaves_of, order_of};

use base_prefs::BasePref;
use prefsql_tables::ColumnPlace;
use prefsql_values::{Boxed, Memory};
use std::alloc::Global;

/// A base preference on a column.
#[derive(Debug, Drop)]
pub struct Leaf {
    /// The position, from 1, in which the leaf is written.
    pub number: u32,
    /// The column whose values are ranked.
    pub place: ColumnPlace,
    /// How they are ranked.
    pub base: BasePref,
    /// With `true` only equal values are the same, else those of equal keys.
    pub trivial: bool,
}

/// A preference of combinations of rows: base preferences joined by Pareto and prioritised
/// preference, or turned round (Kießling, VLDB 2002).
#[derive(Debug, Drop)]
pub enum Term {
    /// By one column alone.
    Leaf(Leaf),
    /// Both parts count alike.
    Pareto(Boxed<Term>, Boxed<Term>),
    /// The first part counts more.
    Prior(Boxed<Term>, Boxed<Term>),
    /// The part turned round: what is better by it is worse.
    Dual(Boxed<Term>),
}

impl Leaf {
    fn keeps_limits(&self)
        ensures { IsSoundLeaf self.now }
    {
        self.base.keeps_limits()
    }

    /// An equal leaf, or want of memory.
    pub(crate) fn copy(&self, alloc: Global) -> Result<Leaf, Memory>
        ensures { IfOk result (λ leaf. leaf ≡ self.now) }
    {
        Ok(Leaf {
            number: self.number,
            place: self.place,
            base: self.base.copy(alloc)?,
            trivial: self.trivial,
        })
    }
}

impl Term {
    /// The base preference of each leaf keeps its limits. A law, with no effect.
    #[tactic(auto, using(crate::proofs::BetterLaws::sounds))]
    pub fn keeps_limits(&self)
        ensures { All IsSoundLeaf (leaves_of self.now) }
    {
        match self {
            Term::Leaf(leaf) => leaf.keeps_limits(),
            Term::Pareto(first, second) => {
                first.get().keeps_limits();
                second.get().keeps_limits()
            }
            Term::Prior(first, second) => {
                first.get().keeps_limits();
                second.get().keeps_limits()
            }
            Term::Dual(inner) => inner.get().keeps_limits(),
        }
    }

    /// What is computed for this term decides which of two combinations is better and which are the
    /// same. A law, with no effect.
    #[tactic(auto, using(crate::proofs::BetterLaws::term_decided))]
    pub fn is_decided(&self)
        ensures { IsDecidedBy (relation_of self.now) (order_of self.now) }
    {
        self.keeps_limits()
    }

    /// An equal term, or want of memory.
    pub fn copy(&self, alloc: Global) -> Result<Term, Memory>
        ensures { IfOk result (λ term. term ≡ self.now) }
    {
        Ok(match self {
            Term::Leaf(leaf) => Term::Leaf(leaf.copy(alloc)?),
            Term::Pareto(first, second) => Term::Pareto(
                Boxed::new(alloc, first.get().copy(alloc)?)?,
                Boxed::new(alloc, second.get().copy(alloc)?)?,
            ),
            Term::Prior(first, second) => Term::Prior(
                Boxed::new(alloc, first.get().copy(alloc)?)?,
                Boxed::new(alloc, second.get().copy(alloc)?)?,
            ),
            Term::Dual(inner) => Term::Dual(Boxed::new(alloc, inner.get().copy(alloc)?)?),
        })
    }
}
