//! Laws of the best items of a list. Their calls do nothing: what each says is its contract.
//! The best items of a list are those that no item of it is better than, in their order.
ghost use Rattle.std.specs.Prelude.{◌≡◌, ◌++◌, Bool, All, filter};
ghost use Rattle.order_laws.specs.Best.{best, IsNarrowerAmong, IsKeptUpwardsAmong, KeepsBestAmong, RanksWhatIsBetterAmong};
ghost use Rattle.order_laws.specs.Combine.{prior_better};
ghost use Rattle.order_laws.specs.Parts.{HoldsBest, bests_of_parts, end_to_end};

use crate::preference::Preference;
use prefsql_values::List;

/// A condition on items, by which some are kept.
pub trait Keep {
    /// What is judged.
    type Item;

    /// Which items the condition judges. The call needs such an item.
    ghost valid: { Self → Self.Item → Type 0 };

    /// Whether the item is kept.
    ghost keeps: { Self → Self.Item → Bool };

    /// Whether the item is kept.
    fn keeps(&self, item: &Self::Item) -> bool
        requires { valid self.now item.now }
        ensures { result ≡ keeps self.now item.now };
}

/// Where each better pair of `p` is one of `q`, the best by `q` are the best by `q` of the best by
/// `p`. So what is not the best by `p` may be dropped first.
pub fn narrow_law<P: Preference, Q: Preference<Item = P::Item>>(p: &P, q: &Q, items: &[P::Item])
    requires valid_by_p { All (P.valid p.now) items.now }
    requires valid_by_q { All (Q.valid q.now) items.now }
    requires narrower { IsNarrowerAmong items.now (P.better p.now) (Q.better q.now) }
    ensures { best (Q.better q.now) (best (P.better p.now) items.now)
        ≡ best (Q.better q.now) items.now }
{}

/// Where what is better than a kept item is kept, filtering the best of a list is taking the best
/// of the filtered list.
pub fn filter_law<P: Preference, K: Keep<Item = P::Item>>(p: &P, keep: &K, items: &[P::Item])
    requires valid { All (P.valid p.now) items.now }
    requires upwards { IsKeptUpwardsAmong items.now (P.better p.now) (K.keeps keep.now) }
    ensures { filter (K.keeps keep.now) (best (P.better p.now) items.now)
        ≡ best (P.better p.now) (filter (K.keeps keep.now) items.now) }
{}

/// Where each best item is kept, the best of the kept items are the best of all. So what is not
/// kept may be dropped first.
pub fn prefilter_law<P: Preference, K: Keep<Item = P::Item>>(p: &P, keep: &K, items: &[P::Item])
    requires valid { All (P.valid p.now) items.now }
    requires best_kept { KeepsBestAmong items.now (P.better p.now) (K.keeps keep.now) }
    ensures { best (P.better p.now) (filter (K.keeps keep.now) items.now)
        ≡ best (P.better p.now) items.now }
{}

/// Where `p` ranks what `q` tells apart (one of the two is better by `p`, or they are the same),
/// the best by `p` before `q` are the best by `q` of the best by `p`.
pub fn cascade_law<P: Preference, Q: Preference<Item = P::Item>>(p: &P, q: &Q, items: &[P::Item])
    requires valid_by_p { All (P.valid p.now) items.now }
    requires valid_by_q { All (Q.valid q.now) items.now }
    requires ranked { RanksWhatIsBetterAmong items.now (P.better p.now) (P.same p.now)
        (Q.better q.now) }
    ensures { best (prior_better (P.better p.now) (P.same p.now) (Q.better q.now)) items.now
        ≡ best (Q.better q.now) (best (P.better p.now) items.now) }
{}

/// Where some of the items are held and among them each best one, the best of these are the best of
/// all. So it does not count what else is held.
pub fn held_law<P: Preference>(p: &P, items: &[P::Item], held: &[P::Item])
    requires valid { All (P.valid p.now) items.now }
    requires holds_best { HoldsBest (P.better p.now) items.now held.now }
    ensures { best (P.better p.now) held.now ≡ best (P.better p.now) items.now }
{}

/// The best of two lists' best items are the best of both lists.
pub fn joined_law<P: Preference>(p: &P, front: &[P::Item], back: &[P::Item])
    requires front_valid { All (P.valid p.now) front.now }
    requires back_valid { All (P.valid p.now) back.now }
    ensures { best (P.better p.now)
        (best (P.better p.now) front.now ++ best (P.better p.now) back.now)
        ≡ best (P.better p.now) (front.now ++ back.now) }
{}

/// The best of the parts' best items are the best of the whole, however many parts there are. So
/// each part may be asked by itself.
pub fn parts_law<P: Preference>(p: &P, parts: &[List<P::Item>])
    requires valid { All (P.valid p.now) (end_to_end parts.now) }
    ensures { best (P.better p.now) (bests_of_parts (P.better p.now) parts.now)
        ≡ best (P.better p.now) (end_to_end parts.now) }
{}
