//! The parts of a query over a set of tables: one cycle of functions, each of which finds one part
//! in the scopes that it stands in.

ghost use Rattle.std.specs.Prelude.{◌≡◌, ◌∷◌, [], IfOk, map};
ghost use Rattle.std.specs.Option.{option_map};
ghost use Rattle.sql_resolver.specs.Found as spec;

use crate::conds::{
    between, compared, conjunction, disjunction, exists, is_null, negation, one_of, some_cond,
};
use crate::fault::{Fault, all_of};
use crate::found::{
    FoundFrom, FoundOutput, FoundQuery, FoundScalar, FoundTerm, FoundWhen, Selected,
};
use crate::from::{derived, from_items, table};
use crate::leaves::{column, literal};
use crate::outputs::{all_columns, output};
use crate::query::{selected, split};
use crate::scalars::{choice, sum_of};
use crate::scope::{Level, ScopeItem, own_items, within};
use prefsql_lexer::Spot;
use prefsql_tables::TableSet;
use prefsql_values::{Boxed, List, Memory};
use sql_text::{
    NamedCond, NamedFrom, NamedItem, NamedQuery, NamedScalar, NamedSelect, NamedTerm, NamedWhen,
};
use sql_tree::{SqlCond, SqlFrom};
use std::alloc::Global;

/// A scalar.
#[cycle(resolve)]
#[tactic(auto, using(crate::proofs::Equations::scalar_rules))]
fn scalar(
    alloc: Global,
    tables: &TableSet,
    levels: &[Level],
    scalar: &NamedScalar,
) -> Result<FoundScalar, Memory>
    ensures { IfOk result (λ whole. whole
        ≡ spec.scalar_found tables.now scalar.now levels.now) }
{
    match scalar {
        NamedScalar::Column(name) => column(alloc, name, levels),
        NamedScalar::Literal(value) => literal(alloc, value),
        NamedScalar::Sum(parts) => {
            let terms = terms(alloc, tables, levels, parts.as_slice())?;
            sum_of(alloc, terms)
        }
        NamedScalar::Case(at, parts, value) => {
            let whens = whens(alloc, tables, levels, parts.as_slice())?;
            let last = last(alloc, tables, levels, value)?;
            choice(alloc, *at, whens, last)
        }
    }
}

/// The terms of a sum.
#[cycle(resolve)]
fn terms(
    alloc: Global,
    tables: &TableSet,
    levels: &[Level],
    parts: &[NamedTerm],
) -> Result<Vec<FoundTerm>, Memory>
    ensures { IfOk result (λ found. found.items
        ≡ map (λ part. spec.term_found tables.now part levels.now) parts.now) }
{
    let mut found = Vec::new(alloc);
    for part in parts {
        found.push(term(alloc, tables, levels, part)?)?;
    }
    Ok(found)
}

/// A term of a sum.
#[cycle(resolve)]
#[tactic(auto, using(crate::proofs::Equations::part_rules))]
fn term(
    alloc: Global,
    tables: &TableSet,
    levels: &[Level],
    term: &NamedTerm,
) -> Result<FoundTerm, Memory>
    ensures { IfOk result (λ whole. whole
        ≡ spec.term_found tables.now term.now levels.now) }
{
    let scalar = scalar(alloc, tables, levels, &term.scalar)?;
    Ok(FoundTerm {
        minus: term.minus,
        scalar,
    })
}

/// The WHENs of a CASE.
#[cycle(resolve)]
fn whens(
    alloc: Global,
    tables: &TableSet,
    levels: &[Level],
    parts: &[NamedWhen],
) -> Result<Vec<FoundWhen>, Memory>
    ensures { IfOk result (λ found. found.items
        ≡ map (λ part. spec.when_found tables.now part levels.now) parts.now) }
{
    let mut found = Vec::new(alloc);
    for part in parts {
        found.push(when(alloc, tables, levels, part)?)?;
    }
    Ok(found)
}

/// A WHEN of a CASE.
#[cycle(resolve)]
#[tactic(auto, using(crate::proofs::Equations::part_rules))]
fn when(
    alloc: Global,
    tables: &TableSet,
    levels: &[Level],
    when: &NamedWhen,
) -> Result<FoundWhen, Memory>
    ensures { IfOk result (λ whole. whole
        ≡ spec.when_found tables.now when.now levels.now) }
{
    let cond = cond_in(alloc, tables, levels, &when.cond)?;
    let value = scalar(alloc, tables, levels, &when.value)?;
    Ok(FoundWhen { cond, value })
}

/// The value of ELSE, if it is written.
#[cycle(resolve)]
fn last(
    alloc: Global,
    tables: &TableSet,
    levels: &[Level],
    value: &Option<Boxed<NamedScalar>>,
) -> Result<Option<FoundScalar>, Memory>
    ensures { IfOk result (λ whole. whole ≡ option_map
        (λ value. spec.scalar_found tables.now value levels.now) value.now) }
{
    match value {
        None => Ok(None),
        Some(value) => Ok(Some(scalar(alloc, tables, levels, value.get())?)),
    }
}

/// The scalars of a list.
#[cycle(resolve)]
fn scalars(
    alloc: Global,
    tables: &TableSet,
    levels: &[Level],
    parts: &[NamedScalar],
) -> Result<Vec<FoundScalar>, Memory>
    ensures { IfOk result (λ found. found.items
        ≡ map (λ part. spec.scalar_found tables.now part levels.now) parts.now) }
{
    let mut found = Vec::new(alloc);
    for part in parts {
        found.push(scalar(alloc, tables, levels, part)?)?;
    }
    Ok(found)
}

/// A condition.
#[cycle(resolve)]
#[tactic(auto, using(crate::proofs::Equations::cond_rules))]
fn cond_in(
    alloc: Global,
    tables: &TableSet,
    levels: &[Level],
    cond: &NamedCond,
) -> Result<Result<SqlCond, Fault>, Memory>
    ensures { IfOk result (λ whole. whole
        ≡ spec.cond_found tables.now cond.now levels.now) }
{
    match cond {
        NamedCond::And(parts) => {
            let parts = conds(alloc, tables, levels, parts.as_slice())?;
            Ok(conjunction(all_of(alloc, parts)?))
        }
        NamedCond::Or(parts) => {
            let parts = conds(alloc, tables, levels, parts.as_slice())?;
            Ok(disjunction(all_of(alloc, parts)?))
        }
        NamedCond::Not(part) => { negation(alloc, cond_in(alloc, tables, levels, part.get())?) }
        NamedCond::Compare(op, a, b) => {
            let a = scalar(alloc, tables, levels, a)?;
            let b = scalar(alloc, tables, levels, b)?;
            Ok(compared(*op, a, b))
        }
        NamedCond::Between(negated, a, low, high) => {
            let a = scalar(alloc, tables, levels, a)?;
            let low = scalar(alloc, tables, levels, low)?;
            let high = scalar(alloc, tables, levels, high)?;
            Ok(between(*negated, a, low, high))
        }
        NamedCond::OneOf(negated, a, list) => {
            let a = scalar(alloc, tables, levels, a)?;
            let list = scalars(alloc, tables, levels, list.as_slice())?;
            one_of(alloc, *negated, a, list)
        }
        NamedCond::IsNull(negated, a) => {
            let a = scalar(alloc, tables, levels, a)?;
            Ok(is_null(*negated, a))
        }
        NamedCond::Exists(inner) => {
            let query = query(alloc, tables, levels, inner.get())?;
            exists(alloc, query)
        }
    }
}

/// The conditions of a list.
#[cycle(resolve)]
fn conds(
    alloc: Global,
    tables: &TableSet,
    levels: &[Level],
    parts: &[NamedCond],
) -> Result<Vec<Result<SqlCond, Fault>>, Memory>
    ensures { IfOk result (λ found. found.items
        ≡ map (λ part. spec.cond_found tables.now part levels.now) parts.now) }
{
    let mut found = Vec::new(alloc);
    for part in parts {
        found.push(cond_in(alloc, tables, levels, part)?)?;
    }
    Ok(found)
}

/// The output columns of a query in these levels.
#[cycle(resolve)]
#[tactic(auto, using(crate::proofs::QueryLaws::select_rules))]
fn outputs(
    alloc: Global,
    tables: &TableSet,
    levels: &[Level],
    select: &NamedSelect,
) -> Result<Vec<FoundOutput>, Memory>
    ensures { IfOk result (λ outputs. outputs.items
        ≡ spec.outputs_found tables.now select.now levels.now) }
{
    match select {
        NamedSelect::All => all_columns(alloc, own_items(levels)),
        NamedSelect::Items(parts) => items(alloc, tables, levels, parts.as_slice()),
    }
}

/// The output columns of a list.
#[cycle(resolve)]
fn items(
    alloc: Global,
    tables: &TableSet,
    levels: &[Level],
    parts: &[NamedItem],
) -> Result<Vec<FoundOutput>, Memory>
    ensures { IfOk result (λ outputs. outputs.items
        ≡ spec.outputs_of tables.now 1 parts.now levels.now) }
{
    let mut outputs = Vec::new(alloc);
    for (at, part) in parts.iter().enumerate() {
        let value = scalar(alloc, tables, levels, &part.value)?;
        outputs.push(output(alloc, at + 1, &part.name, value)?)?;
    }
    Ok(outputs)
}

/// A FROM item, which sees no scopes.
#[cycle(resolve)]
#[tactic(auto, using(crate::proofs::QueryLaws::from_rules))]
fn from_item(alloc: Global, tables: &TableSet, item: &NamedFrom) -> Result<FoundFrom, Memory>
    ensures { IfOk result (λ from. from ≡ spec.from_found tables.now item.now) }
{
    match item {
        NamedFrom::Table(tree) => table(alloc, tables, tree),
        NamedFrom::Derived(inner, name, name_at) => {
            let query = query(alloc, tables, &[], inner.get())?;
            derived(alloc, query, name, *name_at)
        }
    }
}

/// The FROM items of a query.
#[cycle(resolve)]
fn froms(alloc: Global, tables: &TableSet, parts: &[NamedFrom]) -> Result<Vec<FoundFrom>, Memory>
    ensures { IfOk result (λ froms. froms.items ≡ map (spec.from_found tables.now) parts.now) }
{
    let mut froms = Vec::new(alloc);
    for part in parts {
        froms.push(from_item(alloc, tables, part)?)?;
    }
    Ok(froms)
}

/// A query in these levels.
#[cycle(resolve)]
#[tactic(auto, using(crate::proofs::QueryLaws::found_of_query))]
pub(crate) fn query(
    alloc: Global,
    tables: &TableSet,
    levels: &[Level],
    query: &NamedQuery,
) -> Result<FoundQuery, Memory>
    ensures { IfOk result (λ whole. whole
        ≡ spec.query_found tables.now query.now levels.now) }
{
    let froms = froms(alloc, tables, query.from.as_slice())?;
    let pairs = from_items(alloc, froms)?;
    let selected = selected_in(alloc, tables, levels, query, pairs)?;
    Ok(FoundQuery {
        at: query.at,
        selected,
    })
}

/// A query in these levels by the items of its FROM.
#[cycle(resolve)]
fn selected_in(
    alloc: Global,
    tables: &TableSet,
    levels: &[Level],
    query: &NamedQuery,
    pairs: Result<List<(SqlFrom, ScopeItem)>, Fault>,
) -> Result<Result<Selected, Spot>, Memory>
    ensures { IfOk result (λ whole. whole
        ≡ spec.selected_in tables.now query.now levels.now pairs) }
{
    match pairs {
        Ok(pairs) => {
            let (from, items) = split(alloc, pairs)?;
            let inner = within(alloc, items, levels)?;
            let outputs = outputs(alloc, tables, inner.as_slice(), &query.select)?;
            let filter = filter(alloc, tables, inner.as_slice(), &query.filter)?;
            selected(alloc, query.distinct, from, outputs, filter)
        }
        Err(fault) => Ok(Err(fault.spot)),
    }
}

/// The condition of WHERE, if it is written.
#[cycle(resolve)]
fn filter(
    alloc: Global,
    tables: &TableSet,
    levels: &[Level],
    part: &Option<NamedCond>,
) -> Result<Result<Option<SqlCond>, Fault>, Memory>
    ensures { IfOk result (λ whole. whole
        ≡ spec.filter_found tables.now part.now levels.now) }
{
    match part {
        None => Ok(Ok(None)),
        Some(part) => Ok(some_cond(cond_in(alloc, tables, levels, part)?)),
    }
}
