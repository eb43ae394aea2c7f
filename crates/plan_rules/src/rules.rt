//! The first plan of a query, and the rules that lead from it to its last one.
ghost use Rattle.std.specs.Prelude.{◌≡◌, IfOk};
ghost use Rattle.prefsql_tables.specs.Table.{Tables};
ghost use Rattle.query_meaning.specs.Answers.{kept_rows};
ghost use Rattle.plan_algebra.specs.Meaning.{MeanTheSame, plan_rows};
ghost use Rattle.plan_stages.specs.Stages.{block_plan, first_plan, only_plan, prefilter_plan, where_plan};
ghost use Rattle.query_meaning.specs.Valid.{IsValidBlock};
ghost use Rattle.plan_algebra.specs.Valid.{IsPlanOf};

use plan_algebra::Plan;
use plan_rewriting::{placed, prefiltered, split};
use plan_stages::{filtered, joined_scans, lowered, onlys, preferred, staying, wheres};
use prefsql_values::{List, Memory};
use query_meaning::Block;
use std::alloc::Global;

/// The first plan of a block: the scans of its tables joined in their order, all conditions of
/// WHERE above the joins, the preference above them, and all conditions of BUT ONLY on top. It
/// gives the kept rows. The only error is want of memory.
pub fn start_plan(alloc: Global, block: &Block) -> Result<Plan, Memory>
    requires { IsValidBlock block.now }
    ensures exact { IfOk result (λ plan. plan ≡ first_plan block.now) }
    ensures valid { IfOk result (IsPlanOf block.now) }
    ensures meaning { IfOk result
        (λ plan. (tables : Tables) → plan_rows tables block.now plan ≡ kept_rows tables block.now) }
{
    let joins = joined_scans(alloc, block.from.as_slice().len() as u32)?;
    let wheres = List::of(wheres(alloc, block)?);
    let candidates = filtered(alloc, wheres, joins)?;
    let best = preferred(alloc, &block.term, block.groups.as_slice(), candidates)?;
    let onlys = List::of(onlys(alloc, block)?);
    filtered(alloc, onlys, best)
}

/// The rule that moves each condition of WHERE to the lowest node that has all its tables. The plan
/// means what it meant. After want of memory the plan given in is dropped.
pub fn lower_filters(alloc: Global, plan: Plan, block: &Block) -> Result<Plan, Memory>
    requires block { IsValidBlock block.now }
    requires stage { plan ≡ first_plan block.now }
    ensures exact { IfOk result (λ next. next ≡ where_plan block.now) }
    ensures valid { IfOk result (IsPlanOf block.now) }
    ensures meaning { IfOk result (MeanTheSame block.now plan) }
{
    let wheres = wheres(alloc, block)?;
    let onlys = List::of(onlys(alloc, block)?);
    let lowered = placed(alloc, &plan, block, wheres.as_slice())?;
    filtered(alloc, onlys, lowered)
}

/// The rule that moves those conditions of BUT ONLY down that hold of what is better than a row of
/// which they hold.
pub fn lower_only(alloc: Global, plan: Plan, block: &Block) -> Result<Plan, Memory>
    requires block { IsValidBlock block.now }
    requires stage { plan ≡ where_plan block.now }
    ensures exact { IfOk result (λ next. next ≡ only_plan block.now) }
    ensures valid { IfOk result (IsPlanOf block.now) }
    ensures meaning { IfOk result (MeanTheSame block.now plan) }
{
    let conjuncts = lowered(alloc, block)?;
    let staying = staying(alloc, block)?;
    let lowered = placed(alloc, &plan, block, conjuncts.as_slice())?;
    filtered(alloc, staying, lowered)
}

/// The rule that drops rows of a table before the joins: those that another row of the table is
/// better than, by the part of the preference that stands on the table, among rows that the rest of
/// the query can't tell apart.
pub fn add_prefilters(alloc: Global, plan: Plan, block: &Block) -> Result<Plan, Memory>
    requires block { IsValidBlock block.now }
    requires stage { plan ≡ only_plan block.now }
    ensures exact { IfOk result (λ next. next ≡ prefilter_plan block.now) }
    ensures valid { IfOk result (IsPlanOf block.now) }
    ensures meaning { IfOk result (MeanTheSame block.now plan) }
{
    prefiltered(alloc, &plan, block)
}

/// The rule that takes the preference apart: where its first part ranks all rows, the best are
/// taken by it and then by the rest.
pub fn split_cascades(alloc: Global, plan: Plan, block: &Block) -> Result<Plan, Memory>
    requires block { IsValidBlock block.now }
    requires stage { plan ≡ prefilter_plan block.now }
    ensures exact { IfOk result (λ next. next ≡ block_plan block.now) }
    ensures valid { IfOk result (IsPlanOf block.now) }
    ensures meaning { IfOk result (MeanTheSame block.now plan) }
{
    split(alloc, &plan, block)
}
