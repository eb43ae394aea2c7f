//! Makes queries ready to be run: each table that a query names is laid out, and each derived table
//! is computed, once.
ghost use Rattle.std.specs.Prelude.{◌≡◌, true, false, [], ◌∷◌, map, All, IfOk, OnOk};
ghost use Rattle.std.specs.List.{flat_map, list_all};
ghost use Rattle.std.specs.Option.{option_map};
ghost use Rattle.prefsql_tables.specs.Table.{Tables, rows_of};
ghost use Rattle.prefsql_values.specs.Value.{value_eq};
ghost use Rattle.sql_tree.specs.Fits.{FitsTables, IsTableOf, cond_tables, from_tables, if_written, item_tables, scalar_tables, term_tables, when_tables};
ghost use Rattle.sql_tree.specs.Meaning.{else_value, is_kept, place_value};
ghost use Rattle.prefsql_values.specs.Truth.{is_true};
ghost use Rattle.sql_exec.specs.Planned.{JudgesToo, item_count};
ghost use Rattle.sql_exec.specs.Preparing.{rows_selected, scopes_kept};
ghost use Rattle.sql_exec.specs.Ready.{kept, row_of, truth, value, when_value};
ghost use Rattle.sql_exec.specs.RowKeys.{is_found};
ghost use Rattle.sql_exec.specs.Wrapping.{from_rows, item_value, rows_in, source_rows, term_value, truth_in, value_in, when_value as sql_when_value};

use crate::alike::{alike_places, is_equality};
use crate::distinct::once;
use crate::gathering::gather;
use crate::laid_out::table_rows;
use crate::reach::{cond_reach, place_reach, scalar_reach};
use crate::ready::{ReadyCond, ReadyScalar, ReadySearch, ReadyWhen};
use crate::steps::StepPlan;
use prefsql_tables::{AnswerRow, TableSet};
use prefsql_values::{Boxed, List, Memory, Value};
use sql_tree::{
    SqlCond, SqlFrom, SqlItem, SqlPlace, SqlQuery, SqlScalar, SqlSource, SqlTable, SqlWhen, SumTerm,
};
use std::alloc::Global;

/// A condition made ready.
#[cycle(preparing)]
fn ready_cond(alloc: Global, cond: &SqlCond, tables: &TableSet) -> Result<ReadyCond, Memory>
    requires { All (IsTableOf tables.now) (cond_tables cond.now) }
    ensures { IfOk result (λ ready. truth ready ≡ truth_in tables.now cond.now) }
{
    match cond {
        SqlCond::And(parts) => {
            let parts = ready_conds(alloc, parts.as_slice(), tables)?;
            Ok(ReadyCond::And(parts))
        }
        SqlCond::Or(parts) => {
            let parts = ready_conds(alloc, parts.as_slice(), tables)?;
            Ok(ReadyCond::Or(parts))
        }
        SqlCond::Not(part) => {
            let part = ready_cond(alloc, part.get(), tables)?;
            Ok(ReadyCond::Not(Boxed::new(alloc, part)?))
        }
        SqlCond::Compare(op, a, b) => {
            let a = ready_scalar(alloc, a, tables)?;
            let b = ready_scalar(alloc, b, tables)?;
            Ok(ReadyCond::Compare(*op, a, b))
        }
        SqlCond::Between(negate, a, low, high) => {
            let a = ready_scalar(alloc, a, tables)?;
            let low = ready_scalar(alloc, low, tables)?;
            let high = ready_scalar(alloc, high, tables)?;
            Ok(ReadyCond::Between(*negate, a, low, high))
        }
        SqlCond::OneOf(negate, a, list) => {
            let a = ready_scalar(alloc, a, tables)?;
            let list = ready_scalars(alloc, list.as_slice(), tables)?;
            Ok(ReadyCond::OneOf(*negate, a, list))
        }
        SqlCond::IsNull(negate, a) => {
            let a = ready_scalar(alloc, a, tables)?;
            Ok(ReadyCond::IsNull(*negate, a))
        }
        SqlCond::Exists(query) => {
            let search = ready_search(alloc, query.get(), tables, false)?;
            Ok(ReadyCond::Exists(Boxed::new(alloc, search)?))
        }
    }
}

/// Conditions made ready.
#[cycle(preparing)]
fn ready_conds(
    alloc: Global,
    conds: &[SqlCond],
    tables: &TableSet,
) -> Result<List<ReadyCond>, Memory>
    requires { All (IsTableOf tables.now) (flat_map cond_tables conds.now) }
    ensures { IfOk result (λ ready. map truth ready ≡ map (truth_in tables.now) conds.now) }
{
    let mut ready = List::new(alloc);
    for cond in conds {
        ready.push(ready_cond(alloc, cond, tables)?)?;
    }
    Ok(ready)
}

/// A scalar made ready.
#[cycle(preparing)]
fn ready_scalar(alloc: Global, scalar: &SqlScalar, tables: &TableSet) -> Result<ReadyScalar, Memory>
    requires { All (IsTableOf tables.now) (scalar_tables scalar.now) }
    ensures { IfOk result (λ ready. value ready ≡ value_in tables.now scalar.now) }
{
    match scalar {
        SqlScalar::Column(place) => Ok(ReadyScalar::Column(*place)),
        SqlScalar::Number(n) => Ok(ReadyScalar::Constant(Value::Num(i128::from(*n)))),
        SqlScalar::Chars(text) => Ok(ReadyScalar::Constant(Value::Str(text.copy(alloc)?))),
        SqlScalar::Sum(terms) => {
            let terms = ready_terms(alloc, terms.as_slice(), tables)?;
            Ok(ReadyScalar::Sum(terms))
        }
        SqlScalar::Case(whens, last) => {
            let whens = ready_whens(alloc, whens.as_slice(), tables)?;
            let last = ready_else(alloc, last, tables)?;
            Ok(ReadyScalar::Case(whens, Boxed::new(alloc, last)?))
        }
    }
}

/// Scalars made ready.
#[cycle(preparing)]
fn ready_scalars(
    alloc: Global,
    scalars: &[SqlScalar],
    tables: &TableSet,
) -> Result<List<ReadyScalar>, Memory>
    requires { All (IsTableOf tables.now) (flat_map scalar_tables scalars.now) }
    ensures { IfOk result (λ ready. map value ready ≡ map (value_in tables.now) scalars.now) }
{
    let mut ready = List::new(alloc);
    for scalar in scalars {
        ready.push(ready_scalar(alloc, scalar, tables)?)?;
    }
    Ok(ready)
}

/// What stands after ELSE made ready, and NULL where it is not written.
#[cycle(preparing)]
fn ready_else(
    alloc: Global,
    last: &Option<Boxed<SqlScalar>>,
    tables: &TableSet,
) -> Result<ReadyScalar, Memory>
    requires { All (IsTableOf tables.now) (if_written (option_map scalar_tables last.now)) }
    ensures { IfOk result
        (λ ready. value ready ≡ else_value (option_map (value_in tables.now) last.now)) }
{
    match last {
        Some(last) => ready_scalar(alloc, last.get(), tables),
        None => Ok(ReadyScalar::Constant(Value::Null)),
    }
}

/// WHENs made ready.
#[cycle(preparing)]
fn ready_whens(
    alloc: Global,
    whens: &[SqlWhen],
    tables: &TableSet,
) -> Result<List<ReadyWhen>, Memory>
    requires { All (IsTableOf tables.now) (flat_map when_tables whens.now) }
    ensures { IfOk result
        (λ ready. map when_value ready ≡ map (sql_when_value tables.now) whens.now) }
{
    let mut ready = List::new(alloc);
    for when in whens {
        ready.push(ready_when(alloc, when, tables)?)?;
    }
    Ok(ready)
}

/// A WHEN made ready.
#[cycle(preparing)]
fn ready_when(alloc: Global, when: &SqlWhen, tables: &TableSet) -> Result<ReadyWhen, Memory>
    requires { All (IsTableOf tables.now) (when_tables when.now) }
    ensures { IfOk result (λ ready. when_value ready ≡ sql_when_value tables.now when.now) }
{
    let cond = ready_cond(alloc, &when.cond, tables)?;
    let value = ready_scalar(alloc, &when.value, tables)?;
    Ok(ReadyWhen { cond, value })
}

/// The terms of a sum made ready.
#[cycle(preparing)]
fn ready_terms(
    alloc: Global,
    terms: &[SumTerm],
    tables: &TableSet,
) -> Result<List<ReadyScalar>, Memory>
    requires { All (IsTableOf tables.now) (flat_map term_tables terms.now) }
    ensures { IfOk result (λ ready. map value ready ≡ map (term_value tables.now) terms.now) }
{
    let mut ready = List::new(alloc);
    for term in terms {
        ready.push(ready_term(alloc, term, tables)?)?;
    }
    Ok(ready)
}

/// A term of a sum made ready.
#[cycle(preparing)]
fn ready_term(alloc: Global, term: &SumTerm, tables: &TableSet) -> Result<ReadyScalar, Memory>
    requires { All (IsTableOf tables.now) (term_tables term.now) }
    ensures { IfOk result (λ ready. value ready ≡ term_value tables.now term.now) }
{
    let scalar = ready_scalar(alloc, &term.scalar, tables)?;
    if term.minus {
        Ok(ReadyScalar::Negative(Boxed::new(alloc, scalar)?))
    } else {
        Ok(scalar)
    }
}

/// The items of a query made ready.
#[cycle(preparing)]
fn ready_items(
    alloc: Global,
    items: &[SqlItem],
    tables: &TableSet,
) -> Result<List<ReadyScalar>, Memory>
    requires { All (IsTableOf tables.now) (flat_map item_tables items.now) }
    ensures { IfOk result (λ ready. map value ready ≡ map (item_value tables.now) items.now) }
{
    let mut ready = List::new(alloc);
    for item in items {
        ready.push(ready_item(alloc, item, tables)?)?;
    }
    Ok(ready)
}

/// An item of a query made ready.
#[cycle(preparing)]
fn ready_item(alloc: Global, item: &SqlItem, tables: &TableSet) -> Result<ReadyScalar, Memory>
    requires { All (IsTableOf tables.now) (item_tables item.now) }
    ensures { IfOk result (λ ready. value ready ≡ item_value tables.now item.now) }
{
    ready_scalar(alloc, &item.value, tables)
}

/// Judges each part of a condition, which AND joins, as soon as that can be done.
#[cycle(preparing)]
fn judge(
    alloc: Global,
    cond: &SqlCond,
    tables: &TableSet,
    plan: &mut StepPlan,
) -> Result<(), Memory>
    requires { All (IsTableOf tables.now) (cond_tables cond.now) }
    ensures count { OnOk result (item_count plan.new ≡ item_count plan.old) }
    ensures judged { OnOk result (JudgesToo
        (λ scope scopes. is_true (truth_in tables.now cond.now (scope ∷ scopes))) plan.old plan.new) }
{
    match cond {
        SqlCond::And(parts) => judge_all(alloc, parts.as_slice(), tables, plan),
        _ => judge_one(alloc, cond, tables, plan),
    }
}

/// Judges each of the conditions as soon as that can be done.
#[cycle(preparing)]
fn judge_all(
    alloc: Global,
    conds: &[SqlCond],
    tables: &TableSet,
    plan: &mut StepPlan,
) -> Result<(), Memory>
    requires { All (IsTableOf tables.now) (flat_map cond_tables conds.now) }
    ensures count { OnOk result (item_count plan.new ≡ item_count plan.old) }
    ensures judged { OnOk result (JudgesToo (λ scope scopes. list_all
        (λ cond. is_true (truth_in tables.now cond (scope ∷ scopes))) conds.now) plan.old plan.new) }
{
    for cond in conds {
        judge(alloc, cond, tables, plan)?;
    }
    Ok(())
}

/// Judges a condition as soon as the items are chosen that it speaks of, or finds rows by it.
#[cycle(preparing)]
fn judge_one(
    alloc: Global,
    cond: &SqlCond,
    tables: &TableSet,
    plan: &mut StepPlan,
) -> Result<(), Memory>
    requires { All (IsTableOf tables.now) (cond_tables cond.now) }
    ensures count { OnOk result (item_count plan.new ≡ item_count plan.old) }
    ensures judged { OnOk result (JudgesToo
        (λ scope scopes. is_true (truth_in tables.now cond.now (scope ∷ scopes))) plan.old plan.new) }
{
    if find_by(alloc, cond, tables, plan)? {
        return Ok(());
    }
    let ready = ready_cond(alloc, cond, tables)?;
    plan.judge(cond_reach(cond, 0), ready)
}

/// Finds the rows of an item by a condition that says what one of its columns is equal to, where
/// that can be told before. It is false, and the plan as it was, where no item is found so.
#[cycle(preparing)]
fn find_by(
    alloc: Global,
    cond: &SqlCond,
    tables: &TableSet,
    plan: &mut StepPlan,
) -> Result<bool, Memory>
    requires { All (IsTableOf tables.now) (cond_tables cond.now) }
    ensures count { OnOk result (item_count plan.new ≡ item_count plan.old) }
    ensures found { IfOk result (λ found. found ≡ true → JudgesToo
        (λ scope scopes. is_true (truth_in tables.now cond.now (scope ∷ scopes))) plan.old plan.new) }
    ensures none { IfOk result (λ found. found ≡ false → plan.new ≡ plan.old) }
{
    match cond {
        SqlCond::Compare(op, a, b) => {
            if !is_equality(*op) {
                return Ok(false);
            }
            if find_by_column(alloc, b, a, tables, plan)? {
                return Ok(true);
            }
            find_by_column(alloc, a, b, tables, plan)
        }
        SqlCond::Or(_) => Ok(find_alike(cond, plan)),
        _ => Ok(false),
    }
}

/// Finds the rows of an item by one of its columns, which is equal to a scalar.
#[cycle(preparing)]
fn find_by_column(
    alloc: Global,
    scalar: &SqlScalar,
    column: &SqlScalar,
    tables: &TableSet,
    plan: &mut StepPlan,
) -> Result<bool, Memory>
    requires { All (IsTableOf tables.now) (scalar_tables scalar.now) }
    ensures count { OnOk result (item_count plan.new ≡ item_count plan.old) }
    ensures found { IfOk result (λ found. found ≡ true → JudgesToo
        (λ scope scopes. is_found false (value_in tables.now column.now (scope ∷ scopes))
        (value_in tables.now scalar.now (scope ∷ scopes))) plan.old plan.new) }
    ensures none { IfOk result (λ found. found ≡ false → plan.new ≡ plan.old) }
{
    match column {
        SqlScalar::Column(place) => find_by_place(alloc, *place, scalar, tables, plan),
        _ => Ok(false),
    }
}

/// Finds the rows of an item by the column at a place, which is equal to a scalar.
#[cycle(preparing)]
fn find_by_place(
    alloc: Global,
    place: SqlPlace,
    scalar: &SqlScalar,
    tables: &TableSet,
    plan: &mut StepPlan,
) -> Result<bool, Memory>
    requires { All (IsTableOf tables.now) (scalar_tables scalar.now) }
    ensures count { OnOk result (item_count plan.new ≡ item_count plan.old) }
    ensures found { IfOk result (λ found. found ≡ true → JudgesToo
        (λ scope scopes. is_found false (place_value (scope ∷ scopes) place)
        (value_in tables.now scalar.now (scope ∷ scopes))) plan.old plan.new) }
    ensures none { IfOk result (λ found. found ≡ false → plan.new ≡ plan.old) }
{
    let item = place.item as usize;
    if place.up != 0 || !plan.is_free(item) || scalar_reach(scalar, 0) > item {
        return Ok(false);
    }
    let ready = ready_scalar(alloc, scalar, tables)?;
    plan.find_by(item, place.column, ready, false);
    Ok(true)
}

/// Finds the rows of an item by a condition that holds where two columns have the same value, or both
/// have none.
fn find_alike(cond: &SqlCond, plan: &mut StepPlan) -> bool
    ensures count { item_count plan.new ≡ item_count plan.old }
    ensures found { result ≡ true → (tables : Tables) → JudgesToo
        (λ scope scopes. is_true (truth_in tables cond.now (scope ∷ scopes))) plan.old plan.new }
    ensures none { result ≡ false → plan.new ≡ plan.old }
{
    match alike_places(cond) {
        Some((a, b)) => {
            if find_by_other(a, b, plan) {
                return true;
            }
            find_by_other(b, a, plan)
        }
        None => false,
    }
}

/// Finds the rows of an item by the column at a place, which has the same value as another.
fn find_by_other(place: SqlPlace, other: SqlPlace, plan: &mut StepPlan) -> bool
    ensures count { item_count plan.new ≡ item_count plan.old }
    ensures found { result ≡ true → JudgesToo
        (λ scope scopes. value_eq (place_value (scope ∷ scopes) place)
        (place_value (scope ∷ scopes) other)) plan.old plan.new }
    ensures none { result ≡ false → plan.new ≡ plan.old }
{
    let item = place.item as usize;
    if place.up != 0 || !plan.is_free(item) || place_reach(other, 0) > item {
        return false;
    }
    plan.find_by(item, place.column, ReadyScalar::Column(other), true);
    true
}

/// Judges WHERE, where it is written.
#[cycle(preparing)]
fn judge_filter(
    alloc: Global,
    filter: &Option<SqlCond>,
    tables: &TableSet,
    plan: &mut StepPlan,
) -> Result<(), Memory>
    requires { All (IsTableOf tables.now) (if_written (option_map cond_tables filter.now)) }
    ensures count { OnOk result (item_count plan.new ≡ item_count plan.old) }
    ensures judged { OnOk result (JudgesToo
        (λ scope scopes. is_kept (option_map (truth_in tables.now) filter.now) (scope ∷ scopes))
        plan.old plan.new) }
{
    match filter {
        Some(cond) => judge(alloc, cond, tables, plan),
        None => Ok(()),
    }
}

/// The rows of FROM items.
#[cycle(preparing)]
fn all_rows(
    alloc: Global,
    from: &[SqlFrom],
    tables: &TableSet,
) -> Result<List<List<AnswerRow>>, Memory>
    requires { All (IsTableOf tables.now) (flat_map from_tables from.now) }
    ensures { IfOk result (λ all. all ≡ map (from_rows tables.now) from.now) }
{
    let mut all = List::new(alloc);
    for item in from {
        all.push(item_rows(alloc, item, tables)?)?;
    }
    Ok(all)
}

/// The rows of a FROM item.
#[cycle(preparing)]
fn item_rows(alloc: Global, item: &SqlFrom, tables: &TableSet) -> Result<List<AnswerRow>, Memory>
    requires { All (IsTableOf tables.now) (from_tables item.now) }
    ensures { IfOk result (λ rows. rows ≡ from_rows tables.now item.now) }
{
    match &item.source {
        SqlSource::Table(table) => stored_rows(alloc, table, tables),
        SqlSource::Derived(query) => query_rows(alloc, query.get(), tables),
    }
}

/// The rows of a table.
fn stored_rows(
    alloc: Global,
    table: &SqlTable,
    tables: &TableSet,
) -> Result<List<AnswerRow>, Memory>
    requires { IsTableOf tables.now table.now }
    ensures { IfOk result (λ rows. rows ≡ rows_of tables.now table.now.index) }
{
    table_rows(alloc, tables, table.index)
}

/// The FROM and the WHERE of a query made ready, which is run once or more than once.
#[cycle(preparing)]
fn ready_search(
    alloc: Global,
    query: &SqlQuery,
    tables: &TableSet,
    once: bool,
) -> Result<ReadySearch, Memory>
    requires { FitsTables tables.now query.now }
    ensures { IfOk result (λ ready. kept ready ≡ scopes_kept tables.now query.now) }
{
    let rows = all_rows(alloc, query.from.as_slice(), tables)?;
    let mut plan = StepPlan::new(alloc, rows.as_slice().len(), once)?;
    judge_filter(alloc, &query.filter, tables, &mut plan)?;
    plan.search(alloc, rows)
}

/// The rows of a query that no rows stand round, before DISTINCT.
#[cycle(preparing)]
pub(crate) fn rows_selected(
    alloc: Global,
    query: &SqlQuery,
    tables: &TableSet,
) -> Result<List<AnswerRow>, Memory>
    requires { FitsTables tables.now query.now }
    ensures { IfOk result (λ rows. rows ≡ rows_selected tables.now query.now []) }
{
    let search = ready_search(alloc, query, tables, true)?;
    let items = ready_items(alloc, query.items.as_slice(), tables)?;
    shown(alloc, &search, items.as_slice())
}

/// The rows of the scopes that a search keeps where no rows stand round it.
fn shown(
    alloc: Global,
    search: &ReadySearch,
    items: &[ReadyScalar],
) -> Result<List<AnswerRow>, Memory>
    ensures { IfOk result
        (λ rows. rows ≡ map (λ scope. row_of items.now (scope ∷ [])) (kept search.now [])) }
{
    let outer = Vec::new(alloc);
    gather(alloc, search, items, outer.as_slice())
}

/// The rows of a query that no rows stand round.
#[cycle(preparing)]
fn query_rows(alloc: Global, query: &SqlQuery, tables: &TableSet) -> Result<List<AnswerRow>, Memory>
    requires { FitsTables tables.now query.now }
    ensures { IfOk result (λ rows. rows ≡ rows_in tables.now query.now []) }
{
    let rows = rows_selected(alloc, query, tables)?;
    if query.distinct {
        once(alloc, rows)
    } else {
        Ok(rows)
    }
}
