//! A block as an SQL query.
ghost use Rattle.std.specs.Prelude.{◌≡◌, ◌≤◌, [], ◌∷◌, length, map, All, IfOk};
ghost use Rattle.std.specs.List.{flat_map};
ghost use Rattle.pref_terms.specs.Terms.{leaves_of};
ghost use Rattle.conditions.specs.Meaning.{scalars_of};
ghost use Rattle.query_meaning.specs.BlockFits.{IsPlace};
ghost use Rattle.query_meaning.specs.declared.block.Output.{Output};
ghost use Rattle.sql_rewriter.specs.Meant.{HasAnswerOf};
ghost use Rattle.sql_tree.specs.WellFormed.{IsValid};
ghost use Rattle.rewritten_query.specs.Columns.{used};
ghost use Rattle.rewritten_query.specs.Conditions.{cond_put, conjunction};
ghost use Rattle.rewritten_query.specs.Rankings.{admits_null, group_cond};
ghost use Rattle.sql_tree.specs.declared.tree.SqlSource.{Derived};
ghost use Rattle.rewritten_query.specs.Rewriting.{best_cond, best_query, output_items, own_place, own_quality, rewritten, rival_conds, rivals_query};
ghost use Rattle.query_meaning.specs.Valid.{IsValidBlock};
ghost use Rattle.sql_rewriter.specs.Shown.{HasLiteral};

use crate::auxiliary::auxiliary_query;
use crate::columns::number_among;
use crate::literals::number;
use crate::names::{candidates_name, rival_name, rivals_name};
use crate::parts::{conjunction, output_items};
use crate::plain::{keys, plain_query};
use crate::rankings::{of_candidate, of_rival};
use crate::shown::{Shown, put_conds};
use crate::terms::{better, both, either};
use crate::used::used;
use pref_terms::Term;
use prefsql_tables::ColumnPlace;
use prefsql_values::{Boxed, CompareOp, List, Memory, Text};
use query_meaning::{Block, FromTable};
use sql_tree::{SqlCond, SqlFrom, SqlItem, SqlQuery, SqlSource};
use std::alloc::Global;
use written_query_meaning::means_answer;
use written_query_validity::writes_valid;

/// Whether the column at the place admits NULL.
fn admits_null(from: &[FromTable], place: ColumnPlace) -> bool
    requires { IsPlace from.now place }
    ensures { result ≡ admits_null from.now place }
{
    from[place.table as usize].schema.columns.as_slice()[place.column as usize].nullable
}

/// The rival and the candidate are not distinct on a group column.
fn group_cond(
    alloc: Global,
    places: &[ColumnPlace],
    from: &[FromTable],
    place: ColumnPlace,
) -> Result<SqlCond, Memory>
    requires there { IsPlace from.now place }
    requires few { length places.now ≤ 512 }
    ensures { IfOk result (λ cond. cond ≡ group_cond places.now from.now place) }
{
    let column = number_among(places, place);
    let equal = SqlCond::Compare(CompareOp::Eq, of_rival(column), of_candidate(column));
    if admits_null(from, place) {
        let rival_null = SqlCond::IsNull(false, of_rival(column));
        let candidate_null = SqlCond::IsNull(false, of_candidate(column));
        let both_null = both(alloc, rival_null, candidate_null)?;
        either(alloc, equal, both_null)
    } else {
        Ok(equal)
    }
}

/// The conditions that a rival is of the candidate's group and better.
fn rival_conds(
    alloc: Global,
    block: &Block,
    term: &Term,
    places: &[ColumnPlace],
) -> Result<List<SqlCond>, Memory>
    requires groups { All (IsPlace block.now.from) block.now.groups }
    requires places { places.now ≡ used block.now term.now }
    requires few { length places.now ≤ 512 }
    requires leaves { length (leaves_of term.now) ≤ 8 }
    ensures { IfOk result (λ conds. conds ≡ rival_conds block.now term.now) }
{
    let mut conds = List::new(alloc);
    for group in block.groups.as_slice() {
        conds.push(group_cond(alloc, places, block.from.as_slice(), *group)?)?;
    }
    conds.push(better(alloc, places, term, false, term)?)?;
    Ok(conds)
}

/// The one FROM item that has the rows of the query.
fn derived(alloc: Global, name: Text, query: SqlQuery) -> Result<List<SqlFrom>, Memory>
    ensures { IfOk result (λ from. from ≡ record { name = name; source = Derived query } ∷ []) }
{
    let mut from = List::new(alloc);
    from.push(SqlFrom {
        name,
        source: SqlSource::Derived(Boxed::new(alloc, query)?),
    })?;
    Ok(from)
}

/// The candidates that are of the group of the one round it and better.
fn rivals_query(
    alloc: Global,
    block: &Block,
    term: &Term,
    places: &[ColumnPlace],
) -> Result<SqlQuery, Memory>
    requires from { length block.now.from ≤ 8 }
    requires filter { All HasLiteral (flat_map scalars_of block.now.filter) }
    requires groups { All (IsPlace block.now.from) block.now.groups }
    requires places { places.now ≡ used block.now term.now }
    requires few { length places.now ≤ 512 }
    requires leaves { length (leaves_of term.now) ≤ 8 }
    ensures { IfOk result (λ query. query ≡ rivals_query block.now term.now) }
{
    let mut items = List::new(alloc);
    items.push(SqlItem {
        value: number(1),
        name: rival_name(alloc)?,
    })?;
    let rivals = auxiliary_query(alloc, block, term, places)?;
    let from = derived(alloc, rivals_name(alloc)?, rivals)?;
    let conds = rival_conds(alloc, block, term, places)?;
    Ok(SqlQuery {
        distinct: false,
        items,
        from,
        filter: conjunction(conds),
        order: List::new(alloc),
    })
}

/// What BUT ONLY asks of a candidate.
#[tactic(auto, using(crate::proofs::OwnReads::own_conds))]
fn only_cond(
    alloc: Global,
    block: &Block,
    term: &Term,
    places: &[ColumnPlace],
) -> Result<Option<SqlCond>, Memory>
    requires only { All HasLiteral (flat_map scalars_of block.now.only) }
    requires places { places.now ≡ used block.now term.now }
    requires few { length places.now ≤ 512 }
    requires leaves { length (leaves_of term.now) ≤ 8 }
    ensures { IfOk result
        (λ cond. cond ≡ conjunction
        (map (cond_put (own_place block.now term.now) (own_quality block.now term.now))
        block.now.only)) }
{
    let conds = put_conds(
        alloc,
        &Shown::Candidate(places, term),
        block.only.as_slice(),
    )?;
    Ok(conjunction(conds))
}

/// The outputs of a candidate.
#[tactic(auto, using(crate::proofs::OwnReads::own_outputs))]
fn own_items(
    alloc: Global,
    block: &Block,
    term: &Term,
    places: &[ColumnPlace],
) -> Result<List<SqlItem>, Memory>
    requires output { All (λ (output : Output). HasLiteral output.scalar) block.now.output }
    requires places { places.now ≡ used block.now term.now }
    requires few { length places.now ≤ 512 }
    requires leaves { length (leaves_of term.now) ≤ 8 }
    ensures { IfOk result
        (λ items. items ≡ output_items (own_place block.now term.now)
        (own_quality block.now term.now) block.now.output) }
{
    output_items(
        alloc,
        &Shown::Candidate(places, term),
        block.output.as_slice(),
    )
}

/// Whether a candidate is one of the best and passes BUT ONLY.
fn best_cond(
    alloc: Global,
    block: &Block,
    term: &Term,
    places: &[ColumnPlace],
) -> Result<SqlCond, Memory>
    requires from { length block.now.from ≤ 8 }
    requires filter { All HasLiteral (flat_map scalars_of block.now.filter) }
    requires only { All HasLiteral (flat_map scalars_of block.now.only) }
    requires groups { All (IsPlace block.now.from) block.now.groups }
    requires places { places.now ≡ used block.now term.now }
    requires few { length places.now ≤ 512 }
    requires leaves { length (leaves_of term.now) ≤ 8 }
    ensures { IfOk result (λ cond. cond ≡ best_cond block.now term.now) }
{
    let rivals = rivals_query(alloc, block, term, places)?;
    let exists = SqlCond::Exists(Boxed::new(alloc, rivals)?);
    let none = SqlCond::Not(Boxed::new(alloc, exists)?);
    match only_cond(alloc, block, term, places)? {
        None => Ok(none),
        Some(only) => both(alloc, none, only),
    }
}

/// The query of a block with a preference, by its used columns.
fn best_query(
    alloc: Global,
    block: &Block,
    term: &Term,
    places: &[ColumnPlace],
) -> Result<SqlQuery, Memory>
    requires from { length block.now.from ≤ 8 }
    requires filter { All HasLiteral (flat_map scalars_of block.now.filter) }
    requires only { All HasLiteral (flat_map scalars_of block.now.only) }
    requires output { All (λ (output : Output). HasLiteral output.scalar) block.now.output }
    requires groups { All (IsPlace block.now.from) block.now.groups }
    requires places { places.now ≡ used block.now term.now }
    requires few { length places.now ≤ 512 }
    requires leaves { length (leaves_of term.now) ≤ 8 }
    ensures { IfOk result (λ query. query ≡ best_query block.now term.now) }
{
    let items = own_items(alloc, block, term, places)?;
    let candidates = auxiliary_query(alloc, block, term, places)?;
    let from = derived(alloc, candidates_name(alloc)?, candidates)?;
    let cond = best_cond(alloc, block, term, places)?;
    let order = keys(alloc, block.order.as_slice())?;
    Ok(SqlQuery {
        distinct: block.distinct,
        items,
        from,
        filter: Some(cond),
        order,
    })
}

/// The described query of the block.
#[tactic(auto, using(crate::proofs::Rewritable::rewritable))]
fn described(alloc: Global, block: &Block) -> Result<SqlQuery, Memory>
    requires { IsValidBlock block.now }
    ensures { IfOk result (λ query. query ≡ rewritten block.now) }
{
    match &block.term {
        None => plain_query(alloc, block),
        Some(term) => {
            let places = used(alloc, block, term)?;
            best_query(alloc, block, term, places.as_slice())
        }
    }
}

/// The SQL query that the block is written as. It is valid, and over every set of tables that the
/// block fits its answer is the block's.
///
/// Needs a valid block. The only refusal is want of memory. The form is that of Kießling and
/// Köstler (Preference SQL, VLDB 2002): level columns and NOT EXISTS.
#[tactic(auto, using(crate::proofs::Rewritable::of_written))]
pub fn rewrite(alloc: Global, block: &Block) -> Result<SqlQuery, Memory>
    requires valid { IsValidBlock block.now }
    ensures written { IfOk result (λ query. query ≡ rewritten block.now) }
    ensures valid { IfOk result IsValid }
    ensures meaning { IfOk result (HasAnswerOf block.now) }
{
    writes_valid(block);
    means_answer(block);
    described(alloc, block)
}
