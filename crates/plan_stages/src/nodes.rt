//! Nodes above plans.
ghost use Rattle.std.specs.Prelude.{◌≡◌, ◌-◌, ◌≤◌, [], Some, IfOk};
ghost use Rattle.plan_stages.specs.Stages.{best_above, bests_above, filtered, joined};
ghost use Rattle.plan_algebra.specs.declared.plan.Plan as plan;

use plan_algebra::{Conjunct, Plan};
use pref_terms::Term;
use prefsql_tables::ColumnPlace;
use prefsql_values::{Boxed, List, Memory};
use std::alloc::Global;

/// A Filter of the conditions above the plan, and none without a condition.
pub fn filtered(alloc: Global, conjuncts: List<Conjunct>, below: Plan) -> Result<Plan, Memory>
    ensures { IfOk result (λ p. p ≡ filtered conjuncts below) }
{
    if conjuncts.as_slice().is_empty() {
        Ok(below)
    } else {
        Ok(Plan::Filter(conjuncts, Boxed::new(alloc, below)?))
    }
}

/// A Filter of equal conditions above the plan.
pub fn filter_above(alloc: Global, conjuncts: &[Conjunct], below: Plan) -> Result<Plan, Memory>
    ensures { IfOk result (λ p. p ≡ plan.Filter conjuncts.now below) }
{
    let copy = List::of(conjuncts.iter().copied().collect(alloc)?);
    Ok(Plan::Filter(copy, Boxed::new(alloc, below)?))
}

/// The join of two plans.
pub fn join(alloc: Global, left: Plan, right: Plan) -> Result<Plan, Memory>
    ensures { IfOk result (λ p. p ≡ plan.Join left right) }
{
    Ok(Plan::Join(Boxed::new(alloc, left)?, Boxed::new(alloc, right)?))
}

/// An equal list of columns.
fn copied(alloc: Global, places: &[ColumnPlace]) -> Result<List<ColumnPlace>, Memory>
    ensures { IfOk result (λ copy. copy ≡ places.now) }
{
    let copy = places.iter().copied().collect(alloc)?;
    Ok(List::of(copy))
}

/// A Best of the term above the plan.
pub fn best(alloc: Global, term: &Term, groups: &[ColumnPlace], below: Plan) -> Result<Plan, Memory>
    ensures { IfOk result (λ p. p ≡ best_above (Some term.now) groups.now below) }
{
    let term = term.copy(alloc)?;
    let groups = copied(alloc, groups)?;
    Ok(Plan::Best(term, groups, Boxed::new(alloc, below)?))
}

/// A Best of the preference above the plan, and none without one.
pub fn preferred(
    alloc: Global,
    term: &Option<Term>,
    groups: &[ColumnPlace],
    below: Plan,
) -> Result<Plan, Memory>
    ensures { IfOk result (λ p. p ≡ best_above term.now groups.now below) }
{
    match term {
        None => Ok(below),
        Some(term) => best(alloc, term, groups, below),
    }
}

/// A Best for each of the terms above the plan, the first one lowest.
pub fn bests(
    alloc: Global,
    terms: &[Term],
    groups: &[ColumnPlace],
    below: Plan,
) -> Result<Plan, Memory>
    ensures { IfOk result (λ p. p ≡ bests_above terms.now groups.now below) }
{
    let mut plan = below;
    for term in terms {
        plan = best(alloc, term, groups, plan)?;
    }
    Ok(plan)
}

/// The scans of so many tables, joined one after the other.
pub fn joined_scans(alloc: Global, tables: u32) -> Result<Plan, Memory>
    requires { 1 ≤ tables }
    ensures { IfOk result (λ p. p ≡ joined plan.Scan (λ table. []) (tables - 1)) }
{
    let mut plan = Plan::Scan(0);
    for table in 1..tables {
        plan = Plan::Join(
            Boxed::new(alloc, plan)?,
            Boxed::new(alloc, Plan::Scan(table))?,
        );
    }
    Ok(plan)
}
