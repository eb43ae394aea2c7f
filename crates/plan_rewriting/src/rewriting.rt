//! What the rules do to a plan, node by node.
ghost use Rattle.std.specs.Prelude.{◌≡◌, if◌then◌else◌, IfOk};
ghost use Rattle.query_meaning.specs.Valid.{IsValidBlock};
ghost use Rattle.plan_algebra.specs.declared.plan.Plan as plan;
ghost use Rattle.plan_stages.specs.Placing.{at_join, at_scan};
ghost use Rattle.plan_stages.specs.Separation.{cascade_of};
ghost use Rattle.plan_stages.specs.Stages.{bests_above, filtered};
ghost use Rattle.plan_rewriting.specs.Rewrites.{is_whole, last_of, placed, prefiltered, reduced, split, table_of};

use plan_algebra::{Conjunct, Plan};
use plan_stages::{
    at_join, at_scan, best, bests, cascade, filter_above, filtered, join, preferred, table_groups,
    table_term,
};
use pref_terms::Term;
use prefsql_tables::ColumnPlace;
use prefsql_values::Memory;
use query_meaning::Block;
use std::alloc::Global;

/// The last of the tables that a plan stands for.
#[tactic(auto, using(crate::proofs::PlanReads::last_reads))]
fn last_of(plan: &Plan) -> u32
    ensures { result ≡ last_of plan.now }
{
    match plan {
        Plan::Scan(table) => *table,
        Plan::Filter(_, below) => last_of(below.get()),
        Plan::Join(_, right) => last_of(right.get()),
        Plan::Best(_, _, below) => last_of(below.get()),
    }
}

/// The table of a plan without a join.
#[tactic(auto, using(crate::proofs::PlanReads::table_reads))]
fn table_of(plan: &Plan) -> Option<u32>
    ensures { result ≡ table_of plan.now }
{
    match plan {
        Plan::Scan(table) => Some(*table),
        Plan::Filter(_, below) => table_of(below.get()),
        Plan::Join(_, _) => None,
        Plan::Best(_, _, below) => table_of(below.get()),
    }
}

/// The scan of a table with those of the conditions that stand there.
fn placed_scan(
    alloc: Global,
    table: u32,
    block: &Block,
    conjuncts: &[Conjunct],
) -> Result<Plan, Memory>
    ensures { IfOk result
        (λ p. p ≡ filtered (at_scan block.now conjuncts.now table) (plan.Scan table)) }
{
    let here = at_scan(alloc, block, conjuncts, table)?;
    filtered(alloc, here, Plan::Scan(table))
}

/// The join of two plans with those of the conditions that stand there.
fn placed_join(
    alloc: Global,
    left: Plan,
    right: Plan,
    block: &Block,
    conjuncts: &[Conjunct],
) -> Result<Plan, Memory>
    ensures { IfOk result
        (λ p. p ≡ filtered (at_join block.now conjuncts.now (last_of right))
        (plan.Join left right)) }
{
    let here = at_join(alloc, block, conjuncts, last_of(&right))?;
    let join = join(alloc, left, right)?;
    filtered(alloc, here, join)
}

/// The plan with these conditions, each at its lowest node, in place of those that stand in it.
#[tactic(auto, using(crate::proofs::PlanReads::placed_reads))]
pub fn placed(
    alloc: Global,
    plan: &Plan,
    block: &Block,
    conjuncts: &[Conjunct],
) -> Result<Plan, Memory>
    ensures { IfOk result (λ p. p ≡ placed block.now conjuncts.now plan.now) }
{
    match plan {
        Plan::Scan(table) => placed_scan(alloc, *table, block, conjuncts),
        Plan::Filter(_, below) => placed(alloc, below.get(), block, conjuncts),
        Plan::Join(left, right) => {
            let left = placed(alloc, left.get(), block, conjuncts)?;
            let right = placed(alloc, right.get(), block, conjuncts)?;
            placed_join(alloc, left, right, block, conjuncts)
        }
        Plan::Best(term, groups, below) => {
            let below = placed(alloc, below.get(), block, conjuncts)?;
            best(alloc, term, groups.as_slice(), below)
        }
    }
}

/// The best rows of a table's plan by the table's part of the preference; a plan with a join as it
/// is.
fn reduced(alloc: Global, plan: Plan, block: &Block) -> Result<Plan, Memory>
    requires { IsValidBlock block.now }
    ensures { IfOk result (λ p. p ≡ reduced block.now plan) }
{
    match table_of(&plan) {
        None => Ok(plan),
        Some(table) => {
            let term = table_term(alloc, &block.term, table)?;
            let groups = table_groups(alloc, block, table)?;
            preferred(alloc, &term, groups.as_slice(), plan)
        }
    }
}

/// The join of two plans, each reduced where it has one table.
fn reduced_join(alloc: Global, left: Plan, right: Plan, block: &Block) -> Result<Plan, Memory>
    requires { IsValidBlock block.now }
    ensures { IfOk result (λ p. p ≡ plan.Join (reduced block.now left) (reduced block.now right)) }
{
    let left = reduced(alloc, left, block)?;
    let right = reduced(alloc, right, block)?;
    join(alloc, left, right)
}

/// The plan in which each table that is joined is reduced.
#[tactic(auto, using(crate::proofs::PlanReads::prefiltered_reads))]
pub fn prefiltered(alloc: Global, plan: &Plan, block: &Block) -> Result<Plan, Memory>
    requires { IsValidBlock block.now }
    ensures { IfOk result (λ p. p ≡ prefiltered block.now plan.now) }
{
    match plan {
        Plan::Scan(table) => Ok(Plan::Scan(*table)),
        Plan::Filter(conjuncts, below) => {
            let below = prefiltered(alloc, below.get(), block)?;
            filter_above(alloc, conjuncts.as_slice(), below)
        }
        Plan::Join(left, right) => {
            let left = prefiltered(alloc, left.get(), block)?;
            let right = prefiltered(alloc, right.get(), block)?;
            reduced_join(alloc, left, right, block)
        }
        Plan::Best(term, groups, below) => {
            let below = prefiltered(alloc, below.get(), block)?;
            best(alloc, term, groups.as_slice(), below)
        }
    }
}

/// Whether the plan, which stands below a preference, stands for all tables.
fn is_whole(plan: &Plan, block: &Block) -> bool
    ensures { result ≡ is_whole block.now plan.now }
{
    block.from.as_slice().len() <= 1 || table_of(plan).is_none()
}

/// A Best of the term above the plan, taken apart where the plan stands for all tables.
fn split_best(
    alloc: Global,
    term: &Term,
    groups: &[ColumnPlace],
    below: Plan,
    block: &Block,
) -> Result<Plan, Memory>
    ensures { IfOk result (λ p. p ≡ if is_whole block.now below
        then bests_above (cascade_of term.now) groups.now below
        else plan.Best term.now groups.now below) }
{
    if is_whole(&below, block) {
        let terms = cascade(alloc, term)?;
        bests(alloc, terms.as_slice(), groups, below)
    } else {
        best(alloc, term, groups, below)
    }
}

/// The plan in which the preference over all tables is taken apart.
#[tactic(auto, using(crate::proofs::PlanReads::split_reads))]
pub fn split(alloc: Global, plan: &Plan, block: &Block) -> Result<Plan, Memory>
    ensures { IfOk result (λ p. p ≡ split block.now plan.now) }
{
    match plan {
        Plan::Scan(table) => Ok(Plan::Scan(*table)),
        Plan::Filter(conjuncts, below) => {
            let below = split(alloc, below.get(), block)?;
            filter_above(alloc, conjuncts.as_slice(), below)
        }
        Plan::Join(left, right) => {
            let left = split(alloc, left.get(), block)?;
            let right = split(alloc, right.get(), block)?;
            join(alloc, left, right)
        }
        Plan::Best(term, groups, below) => {
            let below = split(alloc, below.get(), block)?;
            split_best(alloc, term, groups.as_slice(), below, block)
        }
    }
}
