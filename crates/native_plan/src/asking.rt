//! The conditions of a block, by their positions, asked of combinations of rows.
ghost use Rattle.std.specs.Prelude.{◌≡◌, All, filter, option_copied};
ghost use Rattle.prefsql_values.specs.Truth.{is_true};
ghost use Rattle.plan_algebra.specs.Conjuncts.{cond_of};
ghost use Rattle.plan_algebra.specs.Meaning.{holds_at};
ghost use Rattle.native_plan.specs.Asking.{CanAsk, holds_all, sees};

use conditions::{Cond, holds};
use plan_algebra::Conjunct;
use prefsql_tables::Combo;
use prefsql_values::Truth;
use query_meaning::{Asked, Block};

/// Whether each of the conditions is True for a combination of the FROM tables from position
/// `first` on.
pub(crate) fn all_hold(asked: &Asked<'_>, conjuncts: &[Conjunct], first: u32, combo: &Combo) -> bool
    requires { All (CanAsk asked.now first combo.now) conjuncts.now }
    ensures { result ≡ holds_all asked.now conjuncts.now first combo.now }
{
    for conjunct in conjuncts {
        if !holds_at(asked, *conjunct, first, combo) {
            return false;
        }
    }
    true
}

/// Whether the condition at the position is True for the combination.
fn holds_at(asked: &Asked<'_>, conjunct: Conjunct, first: u32, combo: &Combo) -> bool
    requires { CanAsk asked.now first combo.now conjunct }
    ensures { result ≡ holds_at asked.now.block.now (sees asked.now first combo.now) conjunct }
{
    match cond_at(asked.block, conjunct) {
        Some(cond) => is_true(holds(cond, asked.tables, asked.from, first, combo)),
        None => false,
    }
}

/// The condition at the position.
pub(crate) fn cond_at(block: &Block, conjunct: Conjunct) -> Option<&Cond>
    ensures { option_copied result ≡ cond_of block.now conjunct }
{
    match conjunct {
        Conjunct::Filter(position) => block.filter.as_slice().get(position as usize),
        Conjunct::Only(position) => block.only.as_slice().get(position as usize),
    }
}

fn is_true(truth: Truth) -> bool
    ensures { result ≡ is_true truth }
{
    match truth {
        Truth::True => true,
        Truth::Unknown | Truth::False => false,
    }
}
