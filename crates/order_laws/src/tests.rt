ghost use Rattle.std.specs.Prelude.{◌≡◌, ◌≤◌, ◌+◌, ◌<◌, filter, nat_le, Any};
ghost use Rattle.std.specs.Ordering.{on, is_lt, is_eq, nat_cmp};
ghost use Rattle.std.proofs.lemmas.Cmp.{nat_cmp_total};
ghost use Rattle.order_laws.specs.Best.{best};
ghost use Rattle.order_laws.specs.Combine.{prior_better};
ghost use Rattle.order_laws.specs.ByKey.{lawful_by_key_alone};
ghost use Rattle.order_laws.specs.CombineLaws.{one_positive};

use super::laws::{Keep, cascade_law, filter_law, narrow_law, prefilter_law};
use super::*;
use prefsql_values::Steps;
use std::cmp::Ordering;
use std::marker::Brand;
use std::sync::ledger::{Blank, Ledger};

#[derive(Clone, Copy, Drop)]
struct Point {
    across: u32,
    up: u32,
}

/// Smaller across is better.
#[derive(Drop)]
struct ByAcross;

/// Smaller up is better.
#[derive(Drop)]
struct ByUp;

impl Preference for ByAcross {
    type Item = Point;

    ghost valid = { λ _ _. Unit {0} };

    ghost better = { λ _ x y. is_lt (nat_cmp x.across y.across) };

    ghost same = { λ _ x y. is_eq (nat_cmp x.across y.across) };

    ghost key_cmp = { λ _. on (λ p. p.across) nat_cmp };

    ghost width = { λ _. 1 };

    ghost laws = { λ _. lawful_by_key_alone (λ _. Unit {0}) (λ p. p.across) nat_cmp_total };

    ghost width_positive = { λ _. one_positive };

    fn better<L: Ledger>(&self, a: &Point, b: &Point, steps: &mut Steps<L>) -> bool {
        steps.tick();
        a.across < b.across
    }

    fn same(&self, a: &Point, b: &Point) -> bool {
        a.across == b.across
    }

    fn key_cmp(&self, a: &Point, b: &Point) -> Ordering {
        a.across.cmp(&b.across)
    }
}

impl Preference for ByUp {
    type Item = Point;

    ghost valid = { λ _ _. Unit {0} };

    ghost better = { λ _ x y. is_lt (nat_cmp x.up y.up) };

    ghost same = { λ _ x y. is_eq (nat_cmp x.up y.up) };

    ghost key_cmp = { λ _. on (λ p. p.up) nat_cmp };

    ghost width = { λ _. 1 };

    ghost laws = { λ _. lawful_by_key_alone (λ _. Unit {0}) (λ p. p.up) nat_cmp_total };

    ghost width_positive = { λ _. one_positive };

    fn better<L: Ledger>(&self, a: &Point, b: &Point, steps: &mut Steps<L>) -> bool {
        steps.tick();
        a.up < b.up
    }

    fn same(&self, a: &Point, b: &Point) -> bool {
        a.up == b.up
    }

    fn key_cmp(&self, a: &Point, b: &Point) -> Ordering {
        a.up.cmp(&b.up)
    }
}

/// Whether `a` is better than `b` and whether `b` is better than `a`.
fn both_ways<P: Preference<Item = Point>, L: Ledger>(
    pref: &P,
    a: &Point,
    b: &Point,
    blank: Blank,
) -> (bool, bool)
    requires name { blank.name ≡ L.name }
    requires parts { blank.parts ≡ L.parts }
    requires backed { 0 < L.parts }
    requires a_valid { P.valid pref.now a.now }
    requires b_valid { P.valid pref.now b.now }
{
    let mut steps = Steps::<L>::new(blank);
    (pref.better(a, b, &mut steps), pref.better(b, a, &mut steps))
}

#[test]
fn parts_and_keys(rt: HostRuntime) {
    let pareto = Pareto {
        first: ByAcross,
        second: ByUp,
    };
    let prior = Prior {
        first: ByAcross,
        second: ByUp,
    };
    let flip = Flip { inner: ByUp };
    let here = Point { across: 1, up: 3 };
    for (across, up, by_pareto, by_prior, by_flip, keys) in [
        (
            1,
            3,
            (false, false),
            (false, false),
            (false, false),
            Ordering::Equal,
        ),
        (
            1,
            5,
            (true, false),
            (true, false),
            (false, true),
            Ordering::Less,
        ),
        (
            2,
            2,
            (false, false),
            (true, false),
            (true, false),
            Ordering::Less,
        ),
        (
            0,
            9,
            (false, false),
            (false, true),
            (false, true),
            Ordering::Greater,
        ),
        (
            2,
            3,
            (true, false),
            (true, false),
            (false, false),
            Ordering::Less,
        ),
    ] {
        let there = Point { across, up };
        assert_eq!(rt;
            both_ways::<_, Brand>(&pareto, &here, &there, Blank::new(1)),
            by_pareto,
            "{across} {up}"
        );
        assert_eq!(rt;
            both_ways::<_, Brand>(&prior, &here, &there, Blank::new(1)),
            by_prior,
            "{across} {up}"
        );
        assert_eq!(rt;
            both_ways::<_, Brand>(&flip, &here, &there, Blank::new(1)),
            by_flip,
            "{across} {up}"
        );
        assert_eq!(rt; pareto.key_cmp(&here, &there), keys, "{across} {up}");
        assert_eq!(rt; prior.key_cmp(&here, &there), keys, "{across} {up}");
        assert_eq!(rt;
            pareto.same(&here, &there),
            keys == Ordering::Equal,
            "{across} {up}"
        );
    }
}

/// Points at most so far up.
#[derive(Drop)]
struct AtMost {
    limit: u32,
}

impl Keep for AtMost {
    type Item = Point;

    ghost valid = { λ _ _. Unit {0} };

    ghost keeps = { λ keep x. nat_le x.up keep.limit };

    fn keeps(&self, item: &Point) -> bool {
        item.up <= self.limit
    }
}

/// What is better across is better by across before up.
fn narrowed(items: &[Point])
    ensures { best (prior_better (λ x y. is_lt (nat_cmp x.across y.across))
        (λ x y. is_eq (nat_cmp x.across y.across)) (λ x y. is_lt (nat_cmp x.up y.up)))
        (best (λ x y. is_lt (nat_cmp x.across y.across)) items.now)
        ≡ best (prior_better (λ x y. is_lt (nat_cmp x.across y.across))
        (λ x y. is_eq (nat_cmp x.across y.across)) (λ x y. is_lt (nat_cmp x.up y.up))) items.now }
{
    let prior = Prior {
        first: ByAcross,
        second: ByUp,
    };
    narrow_law(&ByAcross, &prior, items)
}

/// What is less far up than a kept point is kept.
fn filtered(items: &[Point], limit: u32)
    ensures { filter (λ x. nat_le x.up limit) (best (λ x y. is_lt (nat_cmp x.up y.up)) items.now)
        ≡ best (λ x y. is_lt (nat_cmp x.up y.up)) (filter (λ x. nat_le x.up limit) items.now) }
{
    filter_law(&ByUp, &AtMost { limit }, items)
}

/// Where a point is kept, each best one is.
fn prefiltered(items: &[Point], limit: u32)
    requires some { Any (λ x. x.up ≤ limit) items.now }
    ensures { best (λ x y. is_lt (nat_cmp x.up y.up)) (filter (λ x. nat_le x.up limit) items.now)
        ≡ best (λ x y. is_lt (nat_cmp x.up y.up)) items.now }
{
    prefilter_law(&ByUp, &AtMost { limit }, items)
}

/// By across any two points are ranked.
fn cascaded(items: &[Point])
    ensures { best (prior_better (λ x y. is_lt (nat_cmp x.across y.across))
        (λ x y. is_eq (nat_cmp x.across y.across)) (λ x y. is_lt (nat_cmp x.up y.up))) items.now
        ≡ best (λ x y. is_lt (nat_cmp x.up y.up)) (best
        (λ x y. is_lt (nat_cmp x.across y.across)) items.now) }
{
    cascade_law(&ByAcross, &ByUp, items)
}

#[test]
fn laws_of_points(_rt: HostRuntime) {
    let points = [Point { across: 1, up: 3 }, Point { across: 2, up: 2 }];
    narrowed(&points);
    filtered(&points, 2);
    prefiltered(&points, 2);
    cascaded(&points);
}
