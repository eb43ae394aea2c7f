//! Answers by a plan.
ghost use Rattle.std.specs.Prelude.{◌≡◌, ◌+◌, ◌*◌, ◌-◌, ◌^◌, ◌<◌, ◌≤◌, IfOk, min};
ghost use Rattle.query_meaning.specs.Answers.{answer_of_rows};
ghost use Rattle.query_meaning.specs.BlockFits.{FitsTables};
ghost use Rattle.query_meaning.specs.Valid.{IsValidBlock};
ghost use Rattle.plan_algebra.specs.Meaning.{plan_rows};
ghost use Rattle.plan_algebra.specs.Tests.{tested_by};
ghost use Rattle.plan_algebra.specs.Valid.{IsPlanOf};

use crate::finding::find;
use plan_algebra::Plan;
use prefsql_tables::{Answer, TableSet};
use prefsql_values::{Memory, Steps};
use query_meaning::{Asked, Block, indexes_of};
use std::alloc::Global;
use std::sync::ledger::Ledger;

/// The answer of a plan, and how many tests of the preference finding it took.
#[derive(Drop)]
pub struct PlanRun {
    /// What the plan gives, projected to the output and arranged.
    pub answer: Answer,
    /// How often two rows were compared. At `u64::MAX` it stays there.
    pub tests: u64,
}

/// Runs the plan: the answer shows the rows that it gives. Each Best goes through its rows group by
/// group, and each join tests its pairs as it makes them, so that memory grows with the rows that
/// pass. The only error is want of memory.
pub fn run_plan<L: Ledger>(
    alloc: Global,
    plan: &Plan,
    block: &Block,
    tables: &TableSet,
    steps: &mut Steps<L>,
) -> Result<PlanRun, Memory>
    requires valid { IsValidBlock block.now }
    requires fits { FitsTables tables.now block.now }
    requires planned { IsPlanOf block.now plan.now }
    ensures answer { IfOk result
        (λ run. run.answer
        ≡ answer_of_rows tables.now block.now (plan_rows tables.now block.now plan.now)) }

    // At least the rows in less the rows out, and at most the rows in times the rows out, over all
    // Bests and their groups.
    ensures least_tests { IfOk result
        (λ run. min (tested_by tables.now block.now plan.now).floor (2 ^ 64 - 1) ≤ run.tests) }
    ensures most_tests { IfOk result
        (λ run. run.tests ≤ (tested_by tables.now block.now plan.now).bound) }

    // The count of tests is tied to the steps.
    ensures least_steps { IfOk result (λ run. steps.old + run.tests ≤ steps.new) }
    ensures most_steps { IfOk result
        (λ run. run.tests < 2 ^ 64 - 1 → steps.new ≤ steps.old + 8 * run.tests) }
{
    let from = indexes_of(alloc, block.from.as_slice())?;
    let asked = Asked {
        block,
        tables,
        from: from.as_slice(),
    };
    let found = find(alloc, &asked, plan, &[], steps)?;
    let answer = asked.answer(alloc, found.combos.as_slice())?;
    Ok(PlanRun {
        answer,
        tests: found.tests,
    })
}
