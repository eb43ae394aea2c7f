//! The columns of the tables that the outer query speaks of.
ghost use Rattle.std.specs.Prelude.{◌≡◌, ◌≤◌, ◌++◌, length, map, filter, All, IfOk, OnOk};
ghost use Rattle.query_meaning.specs.declared.block.FromTable.{FromTable};
ghost use Rattle.std.specs.List.{flat_map, list_any, range_with_len};
ghost use Rattle.prefsql_tables.specs.declared.place.ColumnPlace.{ColumnPlace};
ghost use Rattle.pref_terms.specs.Terms.{leaves_of};
ghost use Rattle.conditions.specs.Meaning.{scalars_of};
ghost use Rattle.rewritten_query.specs.Columns.{all_places, mentioned, own_column, place_eq, trivial_column, used};

use crate::columns::is_place;
use conditions::{Cond, Scalar};
use pref_terms::Term;
use prefsql_tables::ColumnPlace;
use prefsql_values::{List, Memory};
use query_meaning::{Block, FromTable};
use std::alloc::Global;

/// Adds the column, if the scalar is one.
fn push_own(scalar: &Scalar, places: &mut List<ColumnPlace>) -> Result<(), Memory>
    ensures { OnOk result (places.new ≡ places.old ++ own_column scalar.now) }
{
    match scalar {
        Scalar::Column(place) => places.push(*place),
        Scalar::Literal(_) => Ok(()),
        Scalar::Quality(_) => Ok(()),
    }
}

/// Adds the columns among the scalars.
fn push_scalars(scalars: &[Scalar], places: &mut List<ColumnPlace>) -> Result<(), Memory>
    ensures { OnOk result (places.new ≡ places.old ++ flat_map own_column scalars.now) }
{
    for scalar in scalars {
        push_own(scalar, places)?;
    }
    Ok(())
}

/// Adds the columns that stand by themselves in the condition.
#[cycle(push)]
#[tactic(auto, using(crate::proofs::UsedReads::cond_columns))]
fn push_cond(cond: &Cond, places: &mut List<ColumnPlace>) -> Result<(), Memory>
    ensures { OnOk result (places.new ≡ places.old ++ flat_map own_column (scalars_of cond.now)) }
{
    match cond {
        Cond::And(parts) => push_conds(parts.as_slice(), places),
        Cond::Or(parts) => push_conds(parts.as_slice(), places),
        Cond::Not(part) => push_cond(part.get(), places),
        Cond::Compare(_, a, b) => {
            push_own(a, places)?;
            push_own(b, places)
        }
        Cond::Between(_, a, low, high) => {
            push_own(a, places)?;
            push_own(low, places)?;
            push_own(high, places)
        }
        Cond::OneOf(_, a, list) => {
            push_own(a, places)?;
            push_scalars(list.as_slice(), places)
        }
        Cond::IsNull(_, a) => push_own(a, places),
        Cond::Top(_) => Ok(()),
    }
}

/// Adds those of each condition.
#[cycle(push)]
#[tactic(auto, using(crate::proofs::UsedReads::conds_columns))]
fn push_conds(conds: &[Cond], places: &mut List<ColumnPlace>) -> Result<(), Memory>
    ensures { OnOk result (places.new ≡ places.old
        ++ flat_map own_column (flat_map scalars_of conds.now)) }
{
    for cond in conds {
        push_cond(cond, places)?;
    }
    Ok(())
}

/// Adds the columns of the trivial leaves.
#[tactic(auto, using(crate::proofs::UsedReads::term_columns))]
fn push_trivial(term: &Term, places: &mut List<ColumnPlace>) -> Result<(), Memory>
    ensures { OnOk result (places.new ≡ places.old
        ++ flat_map trivial_column (leaves_of term.now)) }
{
    match term {
        Term::Leaf(leaf) => {
            if leaf.trivial {
                places.push(leaf.place)
            } else {
                Ok(())
            }
        }
        Term::Pareto(first, second) => {
            push_trivial(first.get(), places)?;
            push_trivial(second.get(), places)
        }
        Term::Prior(first, second) => {
            push_trivial(first.get(), places)?;
            push_trivial(second.get(), places)
        }
        Term::Dual(inner) => push_trivial(inner.get(), places),
    }
}

/// The columns in the output, in BUT ONLY, in the groups, and of the trivial leaves.
fn mentioned(alloc: Global, block: &Block, term: &Term) -> Result<List<ColumnPlace>, Memory>
    ensures { IfOk result (λ places. places ≡ mentioned block.now term.now) }
{
    let mut places = List::new(alloc);
    for output in block.output.as_slice() {
        push_own(&output.scalar, &mut places)?;
    }
    push_conds(block.only.as_slice(), &mut places)?;
    for group in block.groups.as_slice() {
        places.push(*group)?;
    }
    push_trivial(term, &mut places)?;
    Ok(places)
}

/// Whether the place is one of them.
fn is_mentioned(place: ColumnPlace, places: &[ColumnPlace]) -> bool
    ensures { result ≡ list_any (place_eq place) places.now }
{
    for other in places {
        if is_place(place, *other) {
            return true;
        }
    }
    false
}

/// Adds those columns of a table that are mentioned.
#[tactic(auto, using(crate::proofs::UsedReads::column_pushed))]
fn push_table(
    table: u32,
    width: u32,
    mentioned: &[ColumnPlace],
    used: &mut List<ColumnPlace>,
) -> Result<(), Memory>
    ensures { OnOk result (used.new ≡ used.old ++ filter
        (λ place. list_any (place_eq place) mentioned.now) (map
        (λ c. let place : ColumnPlace = record { table = table; column = c } in
        place) (range_with_len 0 width))) }
{
    for column in 0..width {
        let place = ColumnPlace { table, column };
        if is_mentioned(place, mentioned) {
            used.push(place)?;
        }
    }
    Ok(())
}

/// Those columns of the tables that are mentioned, by table and then by column.
#[tactic(auto, using(crate::proofs::UsedPlaces::table_pushed))]
fn used_among(
    alloc: Global,
    from: &[FromTable],
    mentioned: &[ColumnPlace],
) -> Result<List<ColumnPlace>, Memory>
    requires tables { length from.now ≤ 8 }
    requires columns { All (λ (table : FromTable). length table.schema.columns ≤ 64) from.now }
    ensures { IfOk result
        (λ places. places ≡ filter
        (λ place. list_any (place_eq place) mentioned.now) (all_places 0 from.now)) }
{
    let mut used = List::new(alloc);
    let mut number = 0;
    for table in from {
        let width = table.schema.columns.as_slice().len() as u32;
        push_table(number, width, mentioned, &mut used)?;
        number += 1;
    }
    Ok(used)
}

/// The columns that the outer query speaks of, each once, by table and then by column.
pub(crate) fn used(alloc: Global, block: &Block, term: &Term) -> Result<List<ColumnPlace>, Memory>
    requires tables { length block.now.from ≤ 8 }
    requires columns { All
        (λ (table : FromTable). length table.schema.columns ≤ 64) block.now.from }
    ensures { IfOk result (λ places. places ≡ used block.now term.now) }
{
    let mentioned = mentioned(alloc, block, term)?;
    used_among(alloc, block.from.as_slice(), mentioned.as_slice())
}
