//! Laws of the definition.

ghost use Rattle.std.specs.Prelude.{◌≤◌};
ghost use Rattle.prefsql_tables.specs.Table.{Tables};
ghost use Rattle.query_meaning.specs.BlockFits.{FitsTables, HasPlaces};
ghost use Rattle.query_meaning.specs.declared.block.Block.{Block};
ghost use Rattle.plan_algebra.specs.Tests.{tested_by};
ghost use Rattle.plan_algebra.specs.Valid.{IsPlanOf};
ghost use Rattle.plan_algebra.specs.declared.plan.Plan.{Plan};

/// The law of counted tests: over tables that its block fits, a valid plan needs no more tests of
/// the preference than it may take, so that some count of tests is within both bounds.
pub fn bounds_agree()
    ensures { (tables : Tables) (block : Block) (plan : Plan) → HasPlaces block
        → FitsTables tables block → IsPlanOf block plan
        → (tested_by tables block plan).floor ≤ (tested_by tables block plan).bound }
{}
