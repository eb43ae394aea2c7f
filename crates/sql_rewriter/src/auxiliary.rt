//! The auxiliary query: the candidates, with the used columns and what each leaf ranks by.
ghost use Rattle.std.specs.Prelude.{◌≡◌, ◌+◌, ◌<◌, ◌≤◌, ◌^◌, ◌++◌, length, All, IfOk, OnOk};
ghost use Rattle.std.specs.List.{flat_map};
ghost use Rattle.pref_terms.specs.Terms.{leaves_of};
ghost use Rattle.conditions.specs.Meaning.{scalars_of};
ghost use Rattle.rewritten_query.specs.Columns.{auxiliary_items, code_items, leaf_items, used, used_items};
ghost use Rattle.rewritten_query.specs.Rewriting.{auxiliary_query};
ghost use Rattle.sql_rewriter.specs.Shown.{HasLiteral};

use crate::leaf_ranks::{code_scalar, rank_scalar};
use crate::names::{code_name, column_name, of_tables, rank_name};
use crate::parts::{table_items, where_over_tables};
use base_prefs::BaseView;
use pref_terms::{Leaf, Term};
use prefsql_tables::ColumnPlace;
use prefsql_values::{List, Memory};
use query_meaning::Block;
use sql_tree::{SqlItem, SqlQuery};
use std::alloc::Global;

/// The used columns, as items.
#[tactic(auto, using(crate::proofs::Pushes::used_pushed))]
fn used_items(alloc: Global, places: &[ColumnPlace]) -> Result<List<SqlItem>, Memory>
    requires { length places.now ≤ 512 }
    ensures { IfOk result (λ items. items ≡ used_items 1 places.now) }
{
    let mut items = List::new(alloc);
    let mut n = 1;
    for place in places {
        items.push(SqlItem {
            value: of_tables(*place),
            name: column_name(alloc, n)?,
        })?;
        n += 1;
    }
    Ok(items)
}

/// Adds the code of an EXPLICIT leaf.
fn push_code(alloc: Global, leaf: &Leaf, items: &mut List<SqlItem>) -> Result<(), Memory>
    ensures { OnOk result (items.new ≡ items.old
        ++ code_items leaf.now.base leaf.now.place leaf.now.number) }
{
    leaf.base.keeps_limits();
    match leaf.base.view() {
        BaseView::Explicit(values) => items.push(SqlItem {
            value: code_scalar(alloc, leaf.place, values)?,
            name: code_name(alloc, leaf.number)?,
        }),
        BaseView::Pos(_) => Ok(()),
        BaseView::Neg(_) => Ok(()),
        BaseView::PosPos(_, _) => Ok(()),
        BaseView::PosNeg(_, _) => Ok(()),
        BaseView::Layered(_, _) => Ok(()),
        BaseView::Around(_) => Ok(()),
        BaseView::Between(_, _) => Ok(()),
        BaseView::Lowest => Ok(()),
        BaseView::Highest => Ok(()),
    }
}

/// Adds what the leaf ranks by, and behind it the code of an EXPLICIT one.
fn push_leaf(alloc: Global, leaf: &Leaf, items: &mut List<SqlItem>) -> Result<(), Memory>
    ensures { OnOk result (items.new ≡ items.old ++ leaf_items leaf.now) }
{
    items.push(SqlItem {
        value: rank_scalar(alloc, &leaf.base, leaf.place)?,
        name: rank_name(alloc, leaf.number)?,
    })?;
    push_code(alloc, leaf, items)
}

/// Adds the items of each leaf.
#[tactic(auto, using(crate::proofs::Pushes::leaf_pushes))]
fn push_leaves(alloc: Global, term: &Term, items: &mut List<SqlItem>) -> Result<(), Memory>
    ensures { OnOk result (items.new ≡ items.old ++ flat_map leaf_items (leaves_of term.now)) }
{
    match term {
        Term::Leaf(leaf) => push_leaf(alloc, leaf, items),
        Term::Pareto(first, second) => {
            push_leaves(alloc, first.get(), items)?;
            push_leaves(alloc, second.get(), items)
        }
        Term::Prior(first, second) => {
            push_leaves(alloc, first.get(), items)?;
            push_leaves(alloc, second.get(), items)
        }
        Term::Dual(inner) => push_leaves(alloc, inner.get(), items),
    }
}

/// The auxiliary query, by its used columns.
pub(crate) fn auxiliary_query(
    alloc: Global,
    block: &Block,
    term: &Term,
    places: &[ColumnPlace],
) -> Result<SqlQuery, Memory>
    requires few { length block.now.from ≤ 8 }
    requires filter { All HasLiteral (flat_map scalars_of block.now.filter) }
    requires places { places.now ≡ used block.now term.now }
    requires few_places { length places.now ≤ 512 }
    ensures { IfOk result (λ query. query ≡ auxiliary_query block.now term.now) }
{
    let mut items = used_items(alloc, places)?;
    push_leaves(alloc, term, &mut items)?;
    let from = table_items(alloc, block.from.as_slice())?;
    let filter = where_over_tables(alloc, block)?;
    Ok(SqlQuery {
        distinct: false,
        items,
        from,
        filter,
        order: List::new(alloc),
    })
}
