//! The rows that a plan gives, node by node.
ghost use Rattle.std.specs.Prelude.{◌≡◌, ◌+◌, ◌<◌, ◌≤◌, ℕ, min, All, IfOk, filter, length};
ghost use Rattle.pref_terms.specs.Fits.{TermFits};
ghost use Rattle.plan_algebra.specs.Meaning.{pairs_of, single_rows};
ghost use Rattle.query_meaning.specs.Asking.{IsAsked};
ghost use Rattle.query_meaning.specs.Valid.{block_leaves};
ghost use Rattle.native_plan.specs.Asking.{CanAskAll, holds_all};
ghost use Rattle.native_plan.specs.Combos.{pair, single};
ghost use Rattle.native_plan.specs.Joining.{AllEndAt};
ghost use Rattle.native_plan.specs.Finding.{IsBestOf, IsFoundBy, IsPartOf, StandsOver, last_count, rows_at};

use crate::combos::{kept, pairs, singles};
use crate::equating::equated_columns;
use crate::joining::pairs_by_value;
use plan_algebra::{Conjunct, Plan};
use plan_groups::best_of_groups;
use pref_terms::{BoundTerm, Term};
use prefsql_tables::{ColumnPlace, Combo};
use prefsql_values::{Memory, Steps};
use query_meaning::Asked;
use std::alloc::Global;
use std::sync::ledger::Ledger;

/// Combinations of the FROM tables from a position on, and how many tests finding them took. At
/// `u64::MAX` the count stays.
#[derive(Drop)]
pub(crate) struct FoundRows {
    pub first: u32,
    pub combos: Vec<Combo>,
    pub tests: u64,
}

/// The rows of the plan for which each condition is True. The conditions are handed down, so that a
/// join tests each pair as it makes it.
pub(crate) fn find<L: Ledger>(
    alloc: Global,
    asked: &Asked<'_>,
    plan: &Plan,
    conjuncts: &[Conjunct],
    steps: &mut Steps<L>,
) -> Result<FoundRows, Memory>
    requires asked { IsAsked asked.now }
    requires few_leaves { length (block_leaves asked.now.block.now) ≤ 8 }
    requires part { IsPartOf asked.now.block.now plan.now }
    requires conjuncts { All (StandsOver asked.now.block.now plan.now) conjuncts.now }
    ensures { IfOk result (IsFoundBy asked.now plan.now conjuncts.now steps.old steps.new) }
{
    match plan {
        Plan::Scan(table) => scan(alloc, asked, *table, conjuncts),
        Plan::Filter(conditions, below) => {
            let found = find(alloc, asked, below.get(), conditions.as_slice(), steps)?;
            keep(alloc, asked, found, conjuncts)
        }
        Plan::Join(left, right) => {
            let lefts = find(alloc, asked, left.get(), &[], steps)?;
            let rights = find(alloc, asked, right.get(), &[], steps)?;
            join(alloc, asked, lefts, rights, conjuncts)
        }
        Plan::Best(term, groups, below) => {
            let found = find(alloc, asked, below.get(), &[], steps)?;
            let best = best(alloc, asked, term, groups.as_slice(), found, steps)?;
            keep(alloc, asked, best, conjuncts)
        }
    }
}

/// The rows of the FROM table for which each condition is True.
fn scan(
    alloc: Global,
    asked: &Asked<'_>,
    table: u32,
    conjuncts: &[Conjunct],
) -> Result<FoundRows, Memory>
    requires asked { IsAsked asked.now }
    requires there { table < length asked.now.block.now.from }
    requires askable { (row : ℕ) → row < rows_at asked.now table
        → CanAskAll asked.now conjuncts.now table (single row) }
    ensures first { IfOk result (λ found. found.first ≡ table) }
    ensures combos { IfOk result
        (λ found. found.combos.items ≡ filter (holds_all asked.now conjuncts.now table)
        (single_rows (rows_at asked.now table))) }
    ensures tests { IfOk result (λ found. found.tests ≡ 0) }
{
    let count = asked.tables.row_count(asked.from[table as usize]);
    let combos = singles(alloc, asked, conjuncts, table, count)?;
    Ok(FoundRows {
        first: table,
        combos,
        tests: 0,
    })
}

/// Those of the rows for which each condition is True.
fn keep(
    alloc: Global,
    asked: &Asked<'_>,
    found: FoundRows,
    conjuncts: &[Conjunct],
) -> Result<FoundRows, Memory>
    requires { All (CanAskAll asked.now conjuncts.now found.first) found.combos.items }
    ensures first { IfOk result (λ left. left.first ≡ found.first) }
    ensures combos { IfOk result
        (λ left. left.combos.items
        ≡ filter (holds_all asked.now conjuncts.now found.first) found.combos.items) }
    ensures tests { IfOk result (λ left. left.tests ≡ found.tests) }
{
    let FoundRows {
        first,
        combos,
        tests,
    } = found;
    let combos = kept(alloc, asked, conjuncts, first, combos)?;
    Ok(FoundRows {
        first,
        combos,
        tests,
    })
}

/// The pairs for which each condition is True. Where one of the conditions asks for equal values in
/// a column of each part, the pairs are found by their values.
fn join(
    alloc: Global,
    asked: &Asked<'_>,
    lefts: FoundRows,
    rights: FoundRows,
    conjuncts: &[Conjunct],
) -> Result<FoundRows, Memory>
    requires ends { AllEndAt lefts.first rights.first lefts.combos.items }
    requires askable { All (λ left. All
        (λ right. CanAskAll asked.now conjuncts.now lefts.first (pair left right))
        rights.combos.items) lefts.combos.items }
    ensures first { IfOk result (λ found. found.first ≡ lefts.first) }
    ensures combos { IfOk result
        (λ found. found.combos.items ≡ filter (holds_all asked.now conjuncts.now lefts.first)
        (pairs_of lefts.combos.items rights.combos.items)) }
    ensures tests { IfOk result
        (λ found. found.tests ≡ min (lefts.tests + rights.tests) last_count) }
{
    let combos = joined_pairs(alloc, asked, &lefts, &rights, conjuncts)?;
    Ok(FoundRows {
        first: lefts.first,
        combos,
        tests: lefts.tests.saturating_add(rights.tests),
    })
}

/// The pairs for which each condition is True.
fn joined_pairs(
    alloc: Global,
    asked: &Asked<'_>,
    lefts: &FoundRows,
    rights: &FoundRows,
    conjuncts: &[Conjunct],
) -> Result<Vec<Combo>, Memory>
    requires ends { AllEndAt lefts.now.first rights.now.first lefts.now.combos.items }
    requires askable { All (λ left. All
        (λ right. CanAskAll asked.now conjuncts.now lefts.now.first (pair left right))
        rights.now.combos.items) lefts.now.combos.items }
    ensures { IfOk result
        (λ combos. combos.items ≡ filter (holds_all asked.now conjuncts.now lefts.now.first)
        (pairs_of lefts.now.combos.items rights.now.combos.items)) }
{
    let first = lefts.first;
    let middle = rights.first;
    let lefts = lefts.combos.as_slice();
    let rights = rights.combos.as_slice();
    if lefts.is_empty() || rights.is_empty() {
        return pairs(alloc, asked, conjuncts, first, lefts, rights);
    }
    match equated_columns(asked.block, conjuncts, middle) {
        Some(columns) => {
            pairs_by_value(
                alloc, asked, conjuncts, columns, first, middle, lefts, rights,
            )
        }
        None => pairs(alloc, asked, conjuncts, first, lefts, rights),
    }
}

/// The rows that no row of their group is better than.
fn best<L: Ledger>(
    alloc: Global,
    asked: &Asked<'_>,
    term: &Term,
    groups: &[ColumnPlace],
    below: FoundRows,
    steps: &mut Steps<L>,
) -> Result<FoundRows, Memory>
    requires { All (λ combo.
        TermFits asked.now.tables.now asked.now.from.now below.first combo.rows term.now groups.now)
        below.combos.items }
    ensures { IfOk result (IsBestOf asked.now term.now groups.now steps.old steps.new below) }
{
    let FoundRows {
        first,
        combos,
        tests,
    } = below;
    let bound = BoundTerm {
        tables: asked.tables,
        from: asked.from,
        first,
        term,
        groups,
    };
    let chosen = best_of_groups(alloc, &bound, combos, steps)?;
    Ok(FoundRows {
        first,
        combos: chosen.items.into_vec(),
        tests: tests.saturating_add(chosen.tests),
    })
}
