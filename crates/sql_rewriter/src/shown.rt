//! Scalars and conditions of a block as SQL.
ghost use Rattle.std.specs.Prelude.{◌≡◌, IfOk, All, map};
ghost use Rattle.std.specs.List.{flat_map};
ghost use Rattle.conditions.specs.Meaning.{scalars_of};
ghost use Rattle.rewritten_query.specs.Conditions.{best_rank, cond_put, scalar_put};
ghost use Rattle.sql_rewriter.specs.Shown.{HasLiteral, IsSmall, column_shown, quality_shown};

use crate::columns::{number_among, rank_column};
use crate::leaf_ranks::rank_scalar;
use crate::literals::{literal, number};
use crate::names::{column_up, of_tables};
use base_prefs::{BasePref, BaseView};
use conditions::{Cond, Quality, Scalar};
use pref_terms::Term;
use prefsql_tables::ColumnPlace;
use prefsql_values::{Boxed, CompareOp, List, Memory};
use sql_tree::{SqlCond, SqlScalar};
use std::alloc::Global;

/// Over what columns and qualities are shown.
#[derive(Clone, Copy)]
pub(crate) enum Shown<'b> {
    /// Over the FROM tables.
    Tables,
    /// Over a candidate of the auxiliary query, by its used columns and the leaves of its term.
    Candidate(&'b [ColumnPlace], &'b Term),
}

/// The best level or distance that there is.
fn best_rank(base: &BasePref) -> u32
    ensures { result ≡ best_rank base.now }
{
    match base.view() {
        BaseView::Pos(_) => 1,
        BaseView::Neg(_) => 1,
        BaseView::PosPos(_, _) => 1,
        BaseView::PosNeg(_, _) => 1,
        BaseView::Layered(_, _) => 1,
        BaseView::Explicit(_) => 1,
        BaseView::Around(_) => 0,
        BaseView::Between(_, _) => 0,
        BaseView::Lowest => 0,
        BaseView::Highest => 0,
    }
}

fn column(shown: &Shown<'_>, place: ColumnPlace) -> SqlScalar
    requires { IsSmall shown.now }
    ensures { result ≡ column_shown shown.now place }
{
    match *shown {
        Shown::Tables => of_tables(place),
        Shown::Candidate(used, _) => column_up(0, number_among(used, place)),
    }
}

fn quality(alloc: Global, shown: &Shown<'_>, quality: &Quality) -> Result<SqlScalar, Memory>
    requires { IsSmall shown.now }
    ensures { IfOk result (λ scalar. scalar ≡ quality_shown shown.now quality.now) }
{
    match *shown {
        Shown::Tables => rank_scalar(alloc, &quality.base, quality.place),
        Shown::Candidate(used, term) => Ok(column_up(0, rank_column(used, term, quality.leaf))),
    }
}

/// A scalar.
pub(crate) fn put_scalar(
    alloc: Global,
    shown: &Shown<'_>,
    scalar: &Scalar,
) -> Result<SqlScalar, Memory>
    requires small { IsSmall shown.now }
    requires literal { HasLiteral scalar.now }
    ensures { IfOk result
        (λ put. put ≡ scalar_put (column_shown shown.now) (quality_shown shown.now) scalar.now) }
{
    match scalar {
        Scalar::Column(place) => Ok(column(shown, *place)),
        Scalar::Literal(value) => literal(alloc, value),
        Scalar::Quality(q) => quality(alloc, shown, q),
    }
}

fn put_scalars(
    alloc: Global,
    shown: &Shown<'_>,
    scalars: &[Scalar],
) -> Result<List<SqlScalar>, Memory>
    requires small { IsSmall shown.now }
    requires literal { All HasLiteral scalars.now }
    ensures { IfOk result
        (λ put. put ≡ map (scalar_put (column_shown shown.now) (quality_shown shown.now))
        scalars.now) }
{
    let mut put = List::new(alloc);
    for scalar in scalars {
        put.push(put_scalar(alloc, shown, scalar)?)?;
    }
    Ok(put)
}

/// A condition, with its shape kept.
#[cycle(put)]
#[tactic(auto, using(crate::proofs::CondShown::cond_shown))]
pub(crate) fn put_cond(alloc: Global, shown: &Shown<'_>, cond: &Cond) -> Result<SqlCond, Memory>
    requires small { IsSmall shown.now }
    requires literal { All HasLiteral (scalars_of cond.now) }
    ensures { IfOk result
        (λ put. put ≡ cond_put (column_shown shown.now) (quality_shown shown.now) cond.now) }
{
    match cond {
        Cond::And(parts) => Ok(SqlCond::And(put_conds(alloc, shown, parts.as_slice())?)),
        Cond::Or(parts) => Ok(SqlCond::Or(put_conds(alloc, shown, parts.as_slice())?)),
        Cond::Not(part) => Ok(SqlCond::Not(Boxed::new(
            alloc,
            put_cond(alloc, shown, part.get())?,
        )?)),
        Cond::Compare(op, a, b) => {
            let a = put_scalar(alloc, shown, a)?;
            let b = put_scalar(alloc, shown, b)?;
            Ok(SqlCond::Compare(*op, a, b))
        }
        Cond::Between(negate, a, low, high) => {
            let a = put_scalar(alloc, shown, a)?;
            let low = put_scalar(alloc, shown, low)?;
            let high = put_scalar(alloc, shown, high)?;
            Ok(SqlCond::Between(*negate, a, low, high))
        }
        Cond::OneOf(negate, a, list) => {
            let a = put_scalar(alloc, shown, a)?;
            let list = put_scalars(alloc, shown, list.as_slice())?;
            Ok(SqlCond::OneOf(*negate, a, list))
        }
        Cond::IsNull(negate, a) => Ok(SqlCond::IsNull(*negate, put_scalar(alloc, shown, a)?)),
        Cond::Top(q) => {
            let best = number(best_rank(&q.base));
            Ok(SqlCond::Compare(CompareOp::Eq, quality(alloc, shown, q)?, best))
        }
    }
}

/// The conditions of a list.
#[cycle(put)]
pub(crate) fn put_conds(
    alloc: Global,
    shown: &Shown<'_>,
    conds: &[Cond],
) -> Result<List<SqlCond>, Memory>
    requires small { IsSmall shown.now }
    requires literal { All HasLiteral (flat_map scalars_of conds.now) }
    ensures { IfOk result
        (λ put. put ≡ map (cond_put (column_shown shown.now) (quality_shown shown.now)) conds.now) }
{
    let mut put = List::new(alloc);
    for cond in conds {
        put.push(put_cond(alloc, shown, cond)?)?;
    }
    Ok(put)
}
