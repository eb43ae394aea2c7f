//! What queries answer by their meaning, and by their plans after each rule.

ghost use Rattle.std.specs.Prelude.{◌≡◌, ◌<◌, IfOk};
ghost use Rattle.query_meaning.specs.BlockFits.{FitsTables};
ghost use Rattle.query_meaning.specs.Valid.{IsValidBlock};
ghost use Rattle.plan_algebra.specs.Valid.{IsPlanOf};
ghost use Rattle.plan_stages.specs.Stages.{only_plan, prefilter_plan, where_plan};

use super::cars::{car_tables, queries};
use native_plan::run_plan;
use plan_algebra::Plan;
use plan_rules::{add_prefilters, lower_filters, lower_only, split_cascades, start_plan};
use prefsql_tables::TableSet;
use prefsql_values::{Memory, Steps};
use query_meaning::{Block, plain_answer};
use std::alloc::Global;
use std::marker::Brand;
use std::sync::ledger::{Blank, Ledger};
use std::test::Fail;
use table_csv::answer_text;

/// The last rule that a plan has gone through.
#[derive(Clone, Copy, Debug)]
enum Rule {
    Start,
    Filters,
    Only,
    Prefilters,
    Cascades,
}

/// The plan with its conditions of WHERE as low as they can stand.
fn filters(alloc: Global, block: &Block) -> Result<Plan, Memory>
    requires { IsValidBlock block.now }
    ensures exact { IfOk result (λ plan. plan ≡ where_plan block.now) }
    ensures valid { IfOk result (IsPlanOf block.now) }
{
    lower_filters(alloc, start_plan(alloc, block)?, block)
}

/// The same after the rule of BUT ONLY.
fn only(alloc: Global, block: &Block) -> Result<Plan, Memory>
    requires { IsValidBlock block.now }
    ensures exact { IfOk result (λ plan. plan ≡ only_plan block.now) }
    ensures valid { IfOk result (IsPlanOf block.now) }
{
    lower_only(alloc, filters(alloc, block)?, block)
}

/// The same after the rule that drops rows before the joins.
fn prefilters(alloc: Global, block: &Block) -> Result<Plan, Memory>
    requires { IsValidBlock block.now }
    ensures exact { IfOk result (λ plan. plan ≡ prefilter_plan block.now) }
    ensures valid { IfOk result (IsPlanOf block.now) }
{
    add_prefilters(alloc, only(alloc, block)?, block)
}

/// The plan of the query after the rule and all before it.
fn plan_after(alloc: Global, block: &Block, rule: Rule) -> Result<Plan, Memory>
    requires { IsValidBlock block.now }
    ensures { IfOk result (IsPlanOf block.now) }
{
    match rule {
        Rule::Start => start_plan(alloc, block),
        Rule::Filters => filters(alloc, block),
        Rule::Only => only(alloc, block),
        Rule::Prefilters => prefilters(alloc, block),
        Rule::Cascades => split_cascades(alloc, prefilters(alloc, block)?, block),
    }
}

/// Whether running the plan gives an answer with this text.
fn gives(
    alloc: Global,
    plan: &Plan,
    block: &Block,
    tables: &TableSet,
    want: &str,
) -> Result<bool, Memory>
    requires valid { IsValidBlock block.now }
    requires fits { FitsTables tables.now block.now }
    requires planned { IsPlanOf block.now plan.now }
{
    counted::<Brand>(alloc, plan, block, tables, want.as_bytes(), Blank::new(1))
}

/// The same, where the steps of the preference are counted.
fn counted<L: Ledger>(
    alloc: Global,
    plan: &Plan,
    block: &Block,
    tables: &TableSet,
    want: &[u8],
    blank: Blank,
) -> Result<bool, Memory>
    requires valid { IsValidBlock block.now }
    requires fits { FitsTables tables.now block.now }
    requires planned { IsPlanOf block.now plan.now }
    requires name { blank.name ≡ L.name }
    requires parts { blank.parts ≡ L.parts }
    requires backed { 0 < L.parts }
{
    let mut steps = Steps::<L>::new(blank);
    let run = run_plan(alloc, plan, block, tables, &mut steps)?;
    let text = answer_text(alloc, &run.answer)?;
    Ok(text.as_slice() == want)
}

/// Whether the query has such an answer by its meaning.
fn is_meant(alloc: Global, block: &Block, tables: &TableSet, want: &str) -> Result<bool, Memory>
    requires valid { IsValidBlock block.now }
    requires fits { FitsTables tables.now block.now }
{
    let answer = plain_answer(alloc, block, tables)?;
    let text = answer_text(alloc, &answer)?;
    Ok(text.as_slice() == want.as_bytes())
}

/// Whether the script is one query, which is answered so by its meaning and after each rule.
fn is_answered(alloc: Global, script: &str, tables: &TableSet, want: &str) -> Result<bool, Fail> {
    let blocks = queries(alloc, script, tables)?;
    for block in blocks.as_slice() {
        if !is_meant(alloc, block, tables, want)? {
            return Ok(false);
        }
        for rule in [
            Rule::Start,
            Rule::Filters,
            Rule::Only,
            Rule::Prefilters,
            Rule::Cascades,
        ] {
            let plan = plan_after(alloc, block, rule)?;
            if !gives(alloc, &plan, block, tables, want)? {
                return Ok(false);
            }
        }
    }
    Ok(blocks.as_slice().len() == 1)
}

#[test]
fn each_rule_keeps_the_answer(rt: HostRuntime) -> Result<(), Fail> {
    let tables = car_tables(rt.alloc())?;
    for (script, want) in [
        (
            "SELECT id FROM cars PREFERRING color = 'red' CASCADE LOWEST(price)",
            "ID\n1\n\n",
        ),
        (
            "SELECT id FROM cars WHERE id >= 4 PREFERRING color = 'red' TRIVIAL AND LOWEST(price)",
            "ID\n4\n5\n\n",
        ),
        (
            "SELECT id FROM cars PREFERRING LOWEST(price) GROUPING dealer",
            "ID\n2\n3\n4\n\n",
        ),
        (
            "SELECT id FROM cars PREFERRING price AROUND 45000 BUT ONLY DISTANCE(price) <= 1000",
            "ID\n\n",
        ),
        (
            "SELECT id FROM cars PREFERRING LOWEST(price) AND price AROUND 40000 BUT ONLY TOP(price)",
            "ID\n1\n\n",
        ),
        (
            "SELECT c.id, d.city FROM cars c, dealers d WHERE c.id <> 2 AND c.dealer = d.name PREFERRING LOWEST(c.price)",
            "ID,CITY\n1,Ulm\n\n",
        ),
    ] {
        assert!(rt; is_answered(rt.alloc(), script, &tables, want)?, "{script}");
    }
    Ok(())
}
