//! A law of what the rules do. Its call does nothing: what it says is its contract.
ghost use Rattle.std.specs.Prelude.{◌≡◌};
ghost use Rattle.plan_algebra.specs.Conjuncts.{onlys, wheres};
ghost use Rattle.plan_stages.specs.Sinking.{lowered, staying};
ghost use Rattle.plan_stages.specs.Stages.{block_plan, filtered, first_plan, only_plan, prefilter_plan, where_plan};
ghost use Rattle.plan_rewriting.specs.Rewrites.{placed, prefiltered, split};

use query_meaning::Block;

/// What each rule does to the plan of its stage gives the plan of the next.
pub fn rules_lead_on(block: &Block)
    ensures filters { filtered (onlys block.now)
        (placed block.now (wheres block.now) (first_plan block.now)) ≡ where_plan block.now }
    ensures only { filtered (staying block.now)
        (placed block.now (lowered block.now) (where_plan block.now)) ≡ only_plan block.now }
    ensures prefilters { prefiltered block.now (only_plan block.now) ≡ prefilter_plan block.now }
    ensures cascades { split block.now (prefilter_plan block.now) ≡ block_plan block.now }
{}
