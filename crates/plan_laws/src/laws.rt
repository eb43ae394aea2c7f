//! Laws of the plans of a query. Their calls do nothing: what each says is its contract.
ghost use Rattle.std.specs.Prelude.{◌≡◌};
ghost use Rattle.prefsql_tables.specs.Table.{Tables};
ghost use Rattle.query_meaning.specs.Answers.{kept_rows};
ghost use Rattle.query_meaning.specs.Valid.{IsValidBlock};
ghost use Rattle.plan_algebra.specs.Meaning.{plan_rows};
ghost use Rattle.plan_algebra.specs.Valid.{IsPlanOf};
ghost use Rattle.plan_stages.specs.Stages.{block_plan, first_plan, only_plan, prefilter_plan, where_plan};

use query_meaning::Block;

/// The plan of each stage gives the kept rows of the block, over every set of tables.
pub fn stages_give_kept_rows(block: &Block)
    requires { IsValidBlock block.now }
    ensures first { (tables : Tables) → plan_rows tables block.now (first_plan block.now)
        ≡ kept_rows tables block.now }
    ensures filters_lowered { (tables : Tables) → plan_rows tables block.now (where_plan block.now)
        ≡ kept_rows tables block.now }
    ensures only_lowered { (tables : Tables) → plan_rows tables block.now (only_plan block.now)
        ≡ kept_rows tables block.now }
    ensures prefiltered { (tables : Tables) → plan_rows tables block.now (prefilter_plan block.now)
        ≡ kept_rows tables block.now }
    ensures split { (tables : Tables) → plan_rows tables block.now (block_plan block.now)
        ≡ kept_rows tables block.now }
{}

/// The plan of each stage is valid for the block.
pub fn stages_are_valid(block: &Block)
    requires { IsValidBlock block.now }
    ensures first { IsPlanOf block.now (first_plan block.now) }
    ensures filters_lowered { IsPlanOf block.now (where_plan block.now) }
    ensures only_lowered { IsPlanOf block.now (only_plan block.now) }
    ensures prefiltered { IsPlanOf block.now (prefilter_plan block.now) }
    ensures split { IsPlanOf block.now (block_plan block.now) }
{}
