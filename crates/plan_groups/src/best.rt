//! The best rows of each group of a list.
ghost use Rattle.std.specs.Prelude.{◌≡◌, ◌+◌, ◌*◌, ◌-◌, ◌^◌, ◌<◌, ◌≤◌, All, IfOk, length};
ghost use Rattle.std.specs.Ordering.{on};
ghost use Rattle.order_laws.specs.Best.{best};
ghost use Rattle.pref_terms.specs.Terms.{grouped_order, leaves_of};
ghost use Rattle.plan_algebra.specs.Tests.{tests_between};
ghost use Rattle.plan_groups.specs.Groups.{IsJudged, seen_by};

use crate::kept::best_places;
use crate::marks::{keep_marked, marks_at};
use crate::members::{members, sorted};
use pref_terms::BoundTerm;
use prefsql_tables::Combo;
use prefsql_values::{Memory, Steps};
use std::alloc::Global;
use std::sync::ledger::Ledger;
use window_eval::Chosen;

/// The rows that no row of their group is better than (best matches only within groups: Kießling,
/// VLDB 2002), in the order of the list. Two rows are of one group where they are not distinct on
/// every group column.
///
/// The rows are sorted by their groups, and the window goes through each group by itself. So no two
/// rows of different groups are tested. The only error is want of memory.
pub fn best_of_groups<L: Ledger>(
    alloc: Global,
    bound: &BoundTerm<'_>,
    combos: Vec<Combo>,
    steps: &mut Steps<L>,
) -> Result<Chosen<Combo>, Memory>
    requires { All (IsJudged bound.now) combos.items }
    ensures exact { IfOk result
        (λ chosen. chosen.items
        ≡ best (on (seen_by bound.now)
        ((grouped_order bound.now.groups.now bound.now.term.now).better)) combos.items) }

    // Each row that is not best needs a test of its own, and each row is tested against best ones
    // of its group alone.
    ensures least_tests { IfOk result
        (λ chosen. length combos.items ≤ chosen.tests + length chosen.items) }
    ensures most_tests { IfOk result
        (λ chosen. chosen.tests
        ≤ tests_between bound.now.groups.now (seen_by bound.now) combos.items chosen.items) }

    // The count of tests is tied to the steps.
    ensures least_steps { IfOk result (λ chosen. steps.old + chosen.tests ≤ steps.new) }
    ensures most_steps { IfOk result (λ chosen. chosen.tests < 2 ^ 64 - 1
        → steps.new ≤ steps.old + chosen.tests * length (leaves_of bound.now.term.now)) }
{
    let members = sorted(members(alloc, bound, combos.as_slice())?)?;
    let kept = best_places(alloc, bound, combos.as_slice(), members.as_slice(), steps)?;
    let marks = marks_at(alloc, combos.len(), kept.places.as_slice())?;
    let items = keep_marked(alloc, combos, marks.as_slice())?;
    Ok(Chosen {
        items,
        tests: kept.tests,
    })
}
