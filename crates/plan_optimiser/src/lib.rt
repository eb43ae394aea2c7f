//! The plan of a query.
#![tactic(auto)]

ghost use Rattle.std.specs.Prelude.{◌≡◌, IfOk};
ghost use Rattle.prefsql_tables.specs.Table.{Tables};
ghost use Rattle.query_meaning.specs.Answers.{kept_rows};
ghost use Rattle.query_meaning.specs.Valid.{IsValidBlock};
ghost use Rattle.plan_algebra.specs.Meaning.{plan_rows};
ghost use Rattle.plan_algebra.specs.Valid.{IsPlanOf};
ghost use Rattle.plan_stages.specs.Stages.{block_plan};

use plan_algebra::Plan;
use plan_rules::{add_prefilters, lower_filters, lower_only, split_cascades, start_plan};
use prefsql_values::Memory;
use query_meaning::Block;
use std::alloc::Global;

/// The plan of a query: conditions at their lowest nodes, tables reduced before they are joined,
/// and the preference taken apart. It gives the kept rows. The only error is want of memory.
pub fn optimise(alloc: Global, block: &Block) -> Result<Plan, Memory>
    requires { IsValidBlock block.now }
    ensures exact { IfOk result (λ plan. plan ≡ block_plan block.now) }
    ensures valid { IfOk result (IsPlanOf block.now) }
    ensures meaning { IfOk result
        (λ plan. (tables : Tables) → plan_rows tables block.now plan ≡ kept_rows tables block.now) }
{
    let plan = start_plan(alloc, block)?;
    let plan = lower_filters(alloc, plan, block)?;
    let plan = lower_only(alloc, plan, block)?;
    let plan = add_prefilters(alloc, plan, block)?;
    split_cascades(alloc, plan, block)
}
