//! Conditions that ask for equal values in two columns.
ghost use Rattle.std.specs.Prelude.{◌≡◌, ◌⊎◌, IfSome};
ghost use Rattle.plan_algebra.specs.Conjuncts.{cond_of};
ghost use Rattle.native_plan.specs.Joining.{IsEquality, IsEquated, IsOnBothSides};

use crate::asking::cond_at;
use conditions::{Cond, Scalar};
use plan_algebra::Conjunct;
use prefsql_tables::ColumnPlace;
use prefsql_values::CompareOp;
use query_meaning::Block;

/// Two columns that a condition asks to be equal: one of the left part of a join, and one of its
/// right part.
#[derive(Clone, Copy)]
pub(crate) struct Equated {
    pub left: ColumnPlace,
    pub right: ColumnPlace,
}

/// The columns of the first condition that asks that one of the tables before `middle` equals one
/// of those from it on.
pub(crate) fn equated_columns(block: &Block, conjuncts: &[Conjunct], middle: u32) -> Option<Equated>
    ensures { IfSome result (IsEquated block.now conjuncts.now middle) }
{
    for conjunct in conjuncts {
        match equated_by(block, *conjunct) {
            Some(columns) => match sided(columns, middle) {
                Some(columns) => return Some(columns),
                None => {}
            },
            None => {}
        }
    }
    None
}

/// The columns that the condition at the position asks to be equal.
fn equated_by(block: &Block, conjunct: Conjunct) -> Option<Equated>
    ensures { IfSome result (IsEquality (cond_of block.now conjunct)) }
{
    match cond_at(block, conjunct) {
        Some(cond) => equality_of(cond),
        None => None,
    }
}

/// The columns that the condition asks to be equal.
fn equality_of(cond: &Cond) -> Option<Equated>
    ensures { IfSome result (IsEquality (Some cond.now)) }
{
    match cond {
        Cond::Compare(op, a, b) => match (op, a, b) {
            (CompareOp::Eq, Scalar::Column(a), Scalar::Column(b)) => Some(Equated {
                left: *a,
                right: *b,
            }),
            _ => None,
        },
        _ => None,
    }
}

/// The columns with that of the tables before `middle` first, where they are of both sides.
fn sided(columns: Equated, middle: u32) -> Option<Equated>
    ensures sides { IfSome result (IsOnBothSides middle) }
    ensures same { IfSome result (λ sided.
        (sided ≡ columns) ⊎ (sided ≡ record { left = columns.right; right = columns.left })) }
{
    if columns.left.table < middle && middle <= columns.right.table {
        return Some(columns);
    }
    if columns.right.table < middle && middle <= columns.left.table {
        return Some(Equated {
            left: columns.right,
            right: columns.left,
        });
    }
    None
}
