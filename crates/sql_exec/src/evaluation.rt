//! The truth of a condition and the value of a scalar, for the rows that they see. Sums and signs
//! are taken in the range of a 128-bit number. No number in a well-formed query is past 10^36, by
//! its static bounds, so that none of them wraps.
ghost use Rattle.std.specs.Prelude.{◌≡◌, [], true, length, map, IfOk, IfSome};
ghost use Rattle.std.specs.List.{list_any};
ghost use Rattle.std.specs.Option.{option_map};
ghost use Rattle.prefsql_values.specs.Truth.{all_true, any_true, is_true, negated, negated_if};
ghost use Rattle.prefsql_values.specs.Value.{is_null, one_of, truth_of, value_of};
ghost use Rattle.sql_tree.specs.Meaning.{added, first_some};
ghost use Rattle.sql_exec.specs.Forms.{IsBetween, IsCase, IsCompare, IsOneOf};
ghost use Rattle.sql_exec.specs.Ready.{all_keep, kept, step_at, steps_at, truth, value, when_value};
ghost use Rattle.sql_exec.specs.Seen.{found_value, outer_seen, rows_seen, scopes_seen};
ghost use Rattle.sql_exec.specs.Steps.{IsWalk, left_of, row_of, to_come};
ghost use Rattle.sql_exec.specs.Walks.{found, pending};
ghost use Rattle.sql_exec.specs.Wrapping.{wrapped, wrapped_sign, wrapped_sum};
ghost use Rattle.sql_exec.specs.declared.ready.ReadySearch.{out-ReadySearch};

use crate::ready::{ReadyCond, ReadyRows, ReadyScalar, ReadySearch, ReadyStep, ReadyWhen};
use crate::scopes::{Scope, cell_at, entered};
use crate::walk::Walk;
use prefsql_tables::AnswerRow;
use prefsql_values::{
    Cell, CompareOp, Memory, Truth, and, compares, is_between, is_null, negated_if, not, or,
    truth_of,
};
use std::alloc::Global;

/// The value of a scalar, whose text is borrowed.
#[cycle(evaluation)]
#[tactic(auto, using(crate::proofs::ReadyReads::ready_reads))]
pub(crate) fn scalar_cell<'t>(
    alloc: Global,
    scalar: &'t ReadyScalar,
    own: &[&'t AnswerRow],
    outer: &[Scope<'t>],
) -> Result<Cell<'t>, Memory>
    ensures { IfOk result
        (λ cell. value_of cell ≡ value scalar.now (scopes_seen own.now outer.now)) }
{
    match scalar {
        ReadyScalar::Column(place) => Ok(cell_at(*place, own, outer)),
        ReadyScalar::Constant(value) => Ok(value.cell()),
        ReadyScalar::Negative(scalar) => sign_changed(alloc, scalar.get(), own, outer),
        ReadyScalar::Sum(terms) => sum(alloc, terms.as_slice(), own, outer),
        ReadyScalar::Case(_, _) => choice(alloc, scalar, own, outer),
    }
}

/// The number with the other sign.
#[cycle(evaluation)]
fn sign_changed<'t>(
    alloc: Global,
    scalar: &'t ReadyScalar,
    own: &[&'t AnswerRow],
    outer: &[Scope<'t>],
) -> Result<Cell<'t>, Memory>
    ensures { IfOk result (λ cell. value_of cell
        ≡ wrapped_sign true (value scalar.now (scopes_seen own.now outer.now))) }
{
    let value = scalar_cell(alloc, scalar, own, outer)?;
    Ok(negative(value))
}

/// The value of the first WHEN of a CASE whose condition is True, and else the last one.
#[cycle(evaluation)]
fn choice<'t>(
    alloc: Global,
    scalar: &'t ReadyScalar,
    own: &[&'t AnswerRow],
    outer: &[Scope<'t>],
) -> Result<Cell<'t>, Memory>
    requires { IsCase scalar.now }
    ensures { IfOk result
        (λ cell. value_of cell ≡ value scalar.now (scopes_seen own.now outer.now)) }
{
    match scalar {
        ReadyScalar::Case(whens, last) => {
            match first_true(alloc, whens.as_slice(), own, outer)? {
                Some(value) => Ok(value),
                None => scalar_cell(alloc, last.get(), own, outer),
            }
        }
        _ => unreachable!(),
    }
}

/// The value of the first WHEN whose condition is True.
#[cycle(evaluation)]
#[tactic(auto, using(crate::proofs::ReadyReads::ready_reads))]
fn first_true<'t>(
    alloc: Global,
    whens: &'t [ReadyWhen],
    own: &[&'t AnswerRow],
    outer: &[Scope<'t>],
) -> Result<Option<Cell<'t>>, Memory>
    ensures { IfOk result
        (λ found. found_value found
        ≡ first_some (map (λ w. when_value w (scopes_seen own.now outer.now)) whens.now)) }
{
    for when in whens {
        match when_cell(alloc, when, own, outer)? {
            Some(value) => return Ok(Some(value)),
            None => {}
        }
    }
    Ok(None)
}

/// The value of a WHEN, where its condition is True.
#[cycle(evaluation)]
#[tactic(auto, using(crate::proofs::ReadyReads::ready_reads))]
fn when_cell<'t>(
    alloc: Global,
    when: &'t ReadyWhen,
    own: &[&'t AnswerRow],
    outer: &[Scope<'t>],
) -> Result<Option<Cell<'t>>, Memory>
    ensures { IfOk result
        (λ found. found_value found ≡ when_value when.now (scopes_seen own.now outer.now)) }
{
    match truth(alloc, &when.cond, own, outer)? {
        Truth::True => Ok(Some(scalar_cell(alloc, &when.value, own, outer)?)),
        Truth::Unknown => Ok(None),
        Truth::False => Ok(None),
    }
}

/// The sum of the terms, which is NULL where a term is NULL.
#[cycle(evaluation)]
#[tactic(auto, using(crate::proofs::Sums::sums))]
fn sum<'t>(
    alloc: Global,
    terms: &'t [ReadyScalar],
    own: &[&'t AnswerRow],
    outer: &[Scope<'t>],
) -> Result<Cell<'t>, Memory>
    ensures { IfOk result
        (λ cell. value_of cell
        ≡ wrapped_sum (map (λ term. value term (scopes_seen own.now outer.now)) terms.now)) }
{
    let mut sum = Cell::Num(0);
    for term in terms {
        let term = scalar_cell(alloc, term, own, outer)?;
        sum = added(sum, term);
    }
    Ok(sum)
}

/// The sum of two values, which is NULL where one is NULL.
#[tactic(auto, using(crate::proofs::Sums::wrapping))]
fn added<'t>(a: Cell<'t>, b: Cell<'t>) -> Cell<'t>
    ensures { value_of result ≡ wrapped (added (value_of a.entry) (value_of b.entry)) }
{
    match (a, b) {
        (Cell::Num(a), Cell::Num(b)) => Cell::Num(a.wrapping_add(b)),
        _ => Cell::Null,
    }
}

/// The number with the other sign, and NULL for NULL.
#[tactic(auto, using(crate::proofs::Sums::wrapping))]
fn negative<'t>(cell: Cell<'t>) -> Cell<'t>
    ensures { value_of result ≡ wrapped_sign true (value_of cell.entry) }
{
    match cell {
        Cell::Num(n) => Cell::Num(n.wrapping_neg()),
        _ => Cell::Null,
    }
}

/// The truth of a condition.
#[cycle(evaluation)]
#[tactic(auto, using(crate::proofs::ReadyReads::ready_reads))]
pub(crate) fn truth<'t>(
    alloc: Global,
    cond: &'t ReadyCond,
    own: &[&'t AnswerRow],
    outer: &[Scope<'t>],
) -> Result<Truth, Memory>
    ensures { IfOk result (λ t. t ≡ truth cond.now (scopes_seen own.now outer.now)) }
{
    match cond {
        ReadyCond::And(parts) => all_hold(alloc, parts.as_slice(), own, outer),
        ReadyCond::Or(parts) => any_holds(alloc, parts.as_slice(), own, outer),
        ReadyCond::Not(part) => negation(alloc, part.get(), own, outer),
        ReadyCond::Compare(_, _, _) => comparison(alloc, cond, own, outer),
        ReadyCond::Between(_, _, _, _) => betweenness(alloc, cond, own, outer),
        ReadyCond::OneOf(_, _, _) => membership(alloc, cond, own, outer),
        ReadyCond::IsNull(negate, a) => nullness(alloc, *negate, a, own, outer),
        ReadyCond::Exists(search) => exists(alloc, search.get(), own, outer),
    }
}

// Each form has a function of its own, so that none pays for the locals of all.

/// NOT.
#[cycle(evaluation)]
fn negation<'t>(
    alloc: Global,
    part: &'t ReadyCond,
    own: &[&'t AnswerRow],
    outer: &[Scope<'t>],
) -> Result<Truth, Memory>
    ensures { IfOk result (λ t. t ≡ negated (truth part.now (scopes_seen own.now outer.now))) }
{
    Ok(not(truth(alloc, part, own, outer)?))
}

/// A comparison.
#[cycle(evaluation)]
#[tactic(auto, using(crate::proofs::ReadyReads::ready_reads))]
fn comparison<'t>(
    alloc: Global,
    cond: &'t ReadyCond,
    own: &[&'t AnswerRow],
    outer: &[Scope<'t>],
) -> Result<Truth, Memory>
    requires { IsCompare cond.now }
    ensures { IfOk result (λ t. t ≡ truth cond.now (scopes_seen own.now outer.now)) }
{
    match cond {
        ReadyCond::Compare(op, a, b) => {
            let a = scalar_cell(alloc, a, own, outer)?;
            let b = scalar_cell(alloc, b, own, outer)?;
            Ok(compares(*op, a, b))
        }
        _ => unreachable!(),
    }
}

/// BETWEEN.
#[cycle(evaluation)]
#[tactic(auto, using(crate::proofs::ReadyReads::ready_reads))]
fn betweenness<'t>(
    alloc: Global,
    cond: &'t ReadyCond,
    own: &[&'t AnswerRow],
    outer: &[Scope<'t>],
) -> Result<Truth, Memory>
    requires { IsBetween cond.now }
    ensures { IfOk result (λ t. t ≡ truth cond.now (scopes_seen own.now outer.now)) }
{
    match cond {
        ReadyCond::Between(negate, a, low, high) => {
            let a = scalar_cell(alloc, a, own, outer)?;
            let low = scalar_cell(alloc, low, own, outer)?;
            let high = scalar_cell(alloc, high, own, outer)?;
            Ok(negated_if(*negate, is_between(a, low, high)))
        }
        _ => unreachable!(),
    }
}

/// IN.
#[cycle(evaluation)]
#[tactic(auto, using(crate::proofs::ReadyReads::ready_reads))]
fn membership<'t>(
    alloc: Global,
    cond: &'t ReadyCond,
    own: &[&'t AnswerRow],
    outer: &[Scope<'t>],
) -> Result<Truth, Memory>
    requires { IsOneOf cond.now }
    ensures { IfOk result (λ t. t ≡ truth cond.now (scopes_seen own.now outer.now)) }
{
    match cond {
        ReadyCond::OneOf(negate, a, list) => {
            let a = scalar_cell(alloc, a, own, outer)?;
            let found = is_one_of(alloc, a, list.as_slice(), own, outer)?;
            Ok(negated_if(*negate, found))
        }
        _ => unreachable!(),
    }
}

/// IS NULL.
#[cycle(evaluation)]
fn nullness<'t>(
    alloc: Global,
    negate: bool,
    a: &'t ReadyScalar,
    own: &[&'t AnswerRow],
    outer: &[Scope<'t>],
) -> Result<Truth, Memory>
    ensures { IfOk result (λ t. t ≡ negated_if negate
        (truth_of (is_null (value a.now (scopes_seen own.now outer.now))))) }
{
    let a = scalar_cell(alloc, a, own, outer)?;
    Ok(negated_if(negate, truth_of(is_null(a))))
}

/// AND of the parts. After a part that is False no other is asked.
#[cycle(evaluation)]
#[tactic(auto, using(crate::proofs::Truths::truths))]
fn all_hold<'t>(
    alloc: Global,
    parts: &'t [ReadyCond],
    own: &[&'t AnswerRow],
    outer: &[Scope<'t>],
) -> Result<Truth, Memory>
    ensures { IfOk result
        (λ t. t ≡ all_true (map (λ part. truth part (scopes_seen own.now outer.now)) parts.now)) }
{
    let mut so_far = Truth::True;
    for part in parts {
        so_far = and(so_far, truth(alloc, part, own, outer)?);
        if so_far == Truth::False {
            return Ok(Truth::False);
        }
    }
    Ok(so_far)
}

/// OR of the parts. After a part that is True no other is asked.
#[cycle(evaluation)]
#[tactic(auto, using(crate::proofs::Truths::truths))]
fn any_holds<'t>(
    alloc: Global,
    parts: &'t [ReadyCond],
    own: &[&'t AnswerRow],
    outer: &[Scope<'t>],
) -> Result<Truth, Memory>
    ensures { IfOk result
        (λ t. t ≡ any_true (map (λ part. truth part (scopes_seen own.now outer.now)) parts.now)) }
{
    let mut so_far = Truth::False;
    for part in parts {
        so_far = or(so_far, truth(alloc, part, own, outer)?);
        if so_far == Truth::True {
            return Ok(Truth::True);
        }
    }
    Ok(so_far)
}

/// Whether a value is equal to one of the list. After an equal one no other is asked.
#[cycle(evaluation)]
#[tactic(auto, using(crate::proofs::Truths::truths))]
fn is_one_of<'t>(
    alloc: Global,
    cell: Cell<'t>,
    list: &'t [ReadyScalar],
    own: &[&'t AnswerRow],
    outer: &[Scope<'t>],
) -> Result<Truth, Memory>
    ensures { IfOk result
        (λ t. t ≡ one_of (value_of cell.entry) (map
        (λ b. value b (scopes_seen own.now outer.now)) list.now)) }
{
    let mut so_far = Truth::False;
    for item in list {
        let item = scalar_cell(alloc, item, own, outer)?;
        so_far = or(so_far, compares(CompareOp::Eq, cell, item));
        if so_far == Truth::True {
            return Ok(Truth::True);
        }
    }
    Ok(so_far)
}

/// Whether a search finds a scope, as EXISTS asks it of a query that stands in these scopes.
#[cycle(evaluation)]
#[tactic(auto, using(crate::proofs::ReadyReads::ready_reads))]
fn exists<'t>(
    alloc: Global,
    search: &'t ReadySearch,
    own: &[&'t AnswerRow],
    outer: &[Scope<'t>],
) -> Result<Truth, Memory>
    ensures { IfOk result
        (λ t. t ≡ truth (ReadyCond.Exists search.now) (scopes_seen own.now outer.now)) }
{
    let scopes = entered(alloc, own, outer)?;
    Ok(truth_of(is_found(alloc, search, scopes.as_slice())?))
}

/// Whether a search finds a scope. It stops at the first one.
#[cycle(evaluation)]
fn is_found<'t>(alloc: Global, search: &'t ReadySearch, outer: &[Scope<'t>]) -> Result<bool, Memory>
    ensures { IfOk result
        (λ found. found ≡ list_any (λ _. true) (kept search.now (outer_seen outer.now))) }
{
    match first_scope(alloc, search, outer)? {
        Some(_) => Ok(true),
        None => Ok(false),
    }
}

/// The walk at the first scope that a search finds.
#[cycle(evaluation)]
pub(crate) fn first_scope<'t>(
    alloc: Global,
    search: &'t ReadySearch,
    outer: &[Scope<'t>],
) -> Result<Option<Walk<'t>>, Memory>
    ensures kept { IfOk result (λ next.
        to_come (steps_at (out-ReadySearch search.now).steps (outer_seen outer.now)) next
        ≡ kept search.now (outer_seen outer.now)) }
    ensures walk { IfOk result
        (λ next. IfSome next (IsWalk (length (out-ReadySearch search.now).steps))) }
{
    let mut walk = Walk::new(alloc);
    if !all_keep(alloc, search.before.as_slice(), walk.rows.as_slice(), outer)? {
        return Ok(None);
    }
    match search.steps.as_slice().first() {
        Some(step) => {
            let rows = step_rows(alloc, step, walk.rows.as_slice(), outer)?;
            walk.come_to(rows)?;
            next_scope(alloc, search, walk, outer)
        }
        None => Ok(Some(walk)),
    }
}

/// The walk at the next scope that a search finds. Each row that is chosen is judged at once.
#[cycle(evaluation)]
pub(crate) fn next_scope<'t>(
    alloc: Global,
    search: &'t ReadySearch,
    walk: Walk<'t>,
    outer: &[Scope<'t>],
) -> Result<Option<Walk<'t>>, Memory>
    requires { IsWalk (length (out-ReadySearch search.now).steps) walk }
    ensures come { IfOk result (λ next.
        to_come (steps_at (out-ReadySearch search.now).steps (outer_seen outer.now)) next
        ≡ pending found (steps_at (out-ReadySearch search.now).steps (outer_seen outer.now)) []
        (row_of walk.entry) (left_of walk.entry)) }
    ensures walk { IfOk result
        (λ next. IfSome next (IsWalk (length (out-ReadySearch search.now).steps))) }
{
    let steps = search.steps.as_slice();
    let mut walk = walk;
    while walk.choose_next()? {
        let chosen = walk.rows.len();
        if !all_keep(
            alloc,
            steps[chosen - 1].tests.as_slice(),
            walk.rows.as_slice(),
            outer,
        )? {
            continue;
        }
        if chosen == steps.len() {
            return Ok(Some(walk));
        }
        let rows = step_rows(alloc, &steps[chosen], walk.rows.as_slice(), outer)?;
        walk.come_to(rows)?;
    }
    Ok(None)
}

/// The rows of a FROM item that may go with those that are chosen.
#[cycle(evaluation)]
fn step_rows<'t>(
    alloc: Global,
    step: &'t ReadyStep,
    own: &[&'t AnswerRow],
    outer: &[Scope<'t>],
) -> Result<&'t [AnswerRow], Memory>
    ensures { IfOk result (λ rows. rows.now
        ≡ (step_at step.now (outer_seen outer.now)).0 (rows_seen own.now)) }
{
    match &step.rows {
        ReadyRows::All(rows) => Ok(rows.as_slice()),
        ReadyRows::Equal(nulls, scalar, groups) => {
            let cell = scalar_cell(alloc, scalar, own, outer)?;
            groups.equal_to(alloc, *nulls, cell)
        }
    }
}

/// Whether each of the conditions keeps a scope. After one that does not no other is asked.
#[cycle(evaluation)]
fn all_keep<'t>(
    alloc: Global,
    conds: &'t [ReadyCond],
    own: &[&'t AnswerRow],
    outer: &[Scope<'t>],
) -> Result<bool, Memory>
    ensures { IfOk result (λ kept. kept ≡ all_keep conds.now (scopes_seen own.now outer.now)) }
{
    for cond in conds {
        if !is_kept(alloc, cond, own, outer)? {
            return Ok(false);
        }
    }
    Ok(true)
}

/// Whether a condition keeps a scope: it does so where it is True.
#[cycle(evaluation)]
pub(crate) fn is_kept<'t>(
    alloc: Global,
    cond: &'t ReadyCond,
    own: &[&'t AnswerRow],
    outer: &[Scope<'t>],
) -> Result<bool, Memory>
    ensures { IfOk result
        (λ kept. kept ≡ is_true (truth cond.now (scopes_seen own.now outer.now))) }
{
    match truth(alloc, cond, own, outer)? {
        Truth::True => Ok(true),
        Truth::Unknown => Ok(false),
        Truth::False => Ok(false),
    }
}
