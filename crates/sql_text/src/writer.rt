//! The text of a query, part by part: one cycle of functions, each of which writes one part after
//! what is written already.

ghost use Rattle.std.specs.Prelude.{◌≡◌, ◌++◌, map, OnOk, IfOk, IsUtf8};
ghost use Rattle.std.specs.Option.{option_map};
ghost use Rattle.std.specs.String.{string_bytes};
ghost use Rattle.prefsql_values.specs.Nesting.{in_and, in_or, after_not};
ghost use Rattle.sql_text.specs.Levels.{names_of, standing_of};
ghost use Rattle.sql_text.specs.Pieces.{bytes_of};
ghost use Rattle.sql_text.specs.Spelling as spelling;
ghost use Rattle.sql_text.specs.Text as spec;

use crate::level::{Level, column_at, name_at, within};
use crate::order::order_by;
use crate::quoted::{chars, identifier, number};
use crate::standing::Standing;
use crate::words::{
    between_text, close_if, in_text, null_text, op_text, open_if, select_text, sign_text,
    wraps_and, wraps_not, wraps_or,
};
use prefsql_values::{Boxed, List, Memory};
use sql_tree::{
    SqlCond, SqlFrom, SqlItem, SqlPlace, SqlQuery, SqlScalar, SqlSource, SqlWhen, SumTerm,
};
use std::alloc::Global;

/// Writes a column with its correlation name.
fn column(
    alloc: Global,
    out: &mut String,
    levels: &[Level<'_>],
    place: SqlPlace,
) -> Result<(), Memory>
    ensures { OnOk result (string_bytes out.new ≡ string_bytes out.old
        ++ bytes_of (spec.column_pieces (spec.item_at (names_of levels.now) place) place.column)) }
{
    identifier(alloc, out, name_at(levels, place))?;
    out.push_str(".")?;
    identifier(alloc, out, column_at(levels, place))
}

/// Writes a scalar.
#[cycle(write)]
#[tactic(auto, using(crate::proofs::Spelled::scalar_rules))]
fn scalar<'q>(
    alloc: Global,
    out: &mut String,
    levels: &[Level<'q>],
    scalar: &'q SqlScalar,
) -> Result<(), Memory>
    ensures { OnOk result (string_bytes out.new ≡ string_bytes out.old
        ++ bytes_of (spec.scalar_pieces scalar.now (names_of levels.now))) }
{
    match scalar {
        SqlScalar::Column(place) => column(alloc, out, levels, *place),
        SqlScalar::Number(n) => number(alloc, out, *n),
        SqlScalar::Chars(text) => chars(alloc, out, text.as_str()),
        SqlScalar::Sum(terms) => sum(alloc, out, levels, terms.as_slice()),
        SqlScalar::Case(whens, last) => {
            out.push_str("CASE ")?;
            whens_joined(alloc, out, levels, whens.as_slice())?;
            otherwise(alloc, out, levels, last)?;
            out.push_str(" END")?;
            Ok(())
        }
    }
}

/// Writes the terms with their signs between them.
#[cycle(write)]
#[tactic(auto, using(crate::proofs::Spelled::sum_rules))]
fn sum<'q>(
    alloc: Global,
    out: &mut String,
    levels: &[Level<'q>],
    terms: &'q [SumTerm],
) -> Result<(), Memory>
    ensures { OnOk result (string_bytes out.new ≡ string_bytes out.old
        ++ bytes_of (spec.sum_pieces
        (map (λ term. spec.term_pieces term (names_of levels.now)) terms.now))) }
{
    let Some((first, more)) = terms.split_first() else {
        return Ok(());
    };
    scalar(alloc, out, levels, &first.scalar)?;
    for term in more {
        later_term(alloc, out, levels, term)?;
    }
    Ok(())
}

/// Writes a term after its sign.
#[cycle(write)]
#[tactic(auto, using(crate::proofs::Spelled::sum_rules))]
fn later_term<'q>(
    alloc: Global,
    out: &mut String,
    levels: &[Level<'q>],
    term: &'q SumTerm,
) -> Result<(), Memory>
    ensures { OnOk result (string_bytes out.new ≡ string_bytes out.old
        ++ bytes_of (spec.later_pieces (spec.term_pieces term.now (names_of levels.now)))) }
{
    out.push_str(sign_text(term.minus))?;
    scalar(alloc, out, levels, &term.scalar)
}

/// Writes the WHENs with a space between them.
#[cycle(write)]
fn whens_joined<'q>(
    alloc: Global,
    out: &mut String,
    levels: &[Level<'q>],
    whens: &'q [SqlWhen],
) -> Result<(), Memory>
    ensures { OnOk result (string_bytes out.new ≡ string_bytes out.old
        ++ bytes_of (spec.whens_joined
        (map (λ when. spec.when_pieces when (names_of levels.now)) whens.now))) }
{
    let Some((first, more)) = whens.split_first() else {
        return Ok(());
    };
    when(alloc, out, levels, first)?;
    for next in more {
        out.push_str(" ")?;
        when(alloc, out, levels, next)?;
    }
    Ok(())
}

/// Writes a WHEN with its value.
#[cycle(write)]
#[tactic(auto, using(crate::proofs::Spelled::part_rules))]
fn when<'q>(
    alloc: Global,
    out: &mut String,
    levels: &[Level<'q>],
    when: &'q SqlWhen,
) -> Result<(), Memory>
    ensures { OnOk result (string_bytes out.new ≡ string_bytes out.old
        ++ bytes_of (spec.when_pieces when.now (names_of levels.now))) }
{
    out.push_str("WHEN ")?;
    cond(alloc, out, levels, &when.cond, Standing::Alone)?;
    out.push_str(" THEN ")?;
    scalar(alloc, out, levels, &when.value)
}

/// Writes ELSE with its value, after a space, where it is there.
#[cycle(write)]
fn otherwise<'q>(
    alloc: Global,
    out: &mut String,
    levels: &[Level<'q>],
    last: &'q Option<Boxed<SqlScalar>>,
) -> Result<(), Memory>
    ensures { OnOk result (string_bytes out.new ≡ string_bytes out.old
        ++ bytes_of (spec.else_pieces
        (option_map (λ value. spec.scalar_pieces value (names_of levels.now)) last.now))) }
{
    match last {
        None => Ok(()),
        Some(value) => {
            out.push_str(" ELSE ")?;
            scalar(alloc, out, levels, value.get())
        }
    }
}

/// Writes the scalars with commas between them.
#[cycle(write)]
fn scalars<'q>(
    alloc: Global,
    out: &mut String,
    levels: &[Level<'q>],
    list: &'q [SqlScalar],
) -> Result<(), Memory>
    ensures { OnOk result (string_bytes out.new ≡ string_bytes out.old
        ++ bytes_of (spec.listed
        (map (λ scalar. spec.scalar_pieces scalar (names_of levels.now)) list.now))) }
{
    let Some((first, more)) = list.split_first() else {
        return Ok(());
    };
    scalar(alloc, out, levels, first)?;
    for next in more {
        out.push_str(", ")?;
        scalar(alloc, out, levels, next)?;
    }
    Ok(())
}

/// Writes a condition, in parentheses where it needs them.
#[cycle(write)]
#[tactic(auto, using(crate::proofs::Spelled::cond_rules))]
fn cond<'q>(
    alloc: Global,
    out: &mut String,
    levels: &[Level<'q>],
    cond: &'q SqlCond,
    standing: Standing,
) -> Result<(), Memory>
    ensures { OnOk result (string_bytes out.new ≡ string_bytes out.old
        ++ bytes_of (spec.cond_pieces cond.now (names_of levels.now) (standing_of standing))) }
{
    match cond {
        SqlCond::And(parts) => {
            let wraps = wraps_and(standing);
            open_if(out, wraps)?;
            all_parts(alloc, out, levels, parts.as_slice())?;
            close_if(out, wraps)
        }
        SqlCond::Or(parts) => {
            let wraps = wraps_or(standing);
            open_if(out, wraps)?;
            any_parts(alloc, out, levels, parts.as_slice())?;
            close_if(out, wraps)
        }
        SqlCond::Not(part) => {
            let wraps = wraps_not(standing);
            open_if(out, wraps)?;
            negation(alloc, out, levels, part.get())?;
            close_if(out, wraps)
        }
        SqlCond::Compare(op, a, b) => {
            scalar(alloc, out, levels, a)?;
            out.push_str(" ")?;
            out.push_str(op_text(*op))?;
            out.push_str(" ")?;
            scalar(alloc, out, levels, b)
        }
        SqlCond::Between(negated, a, low, high) => {
            scalar(alloc, out, levels, a)?;
            out.push_str(between_text(*negated))?;
            scalar(alloc, out, levels, low)?;
            out.push_str(" AND ")?;
            scalar(alloc, out, levels, high)
        }
        SqlCond::OneOf(negated, a, list) => {
            scalar(alloc, out, levels, a)?;
            one_of(alloc, out, levels, *negated, list.as_slice())
        }
        SqlCond::IsNull(negated, a) => {
            scalar(alloc, out, levels, a)?;
            out.push_str(null_text(*negated))?;
            Ok(())
        }
        SqlCond::Exists(inner) => {
            out.push_str("EXISTS (")?;
            query(alloc, out, levels, inner.get())?;
            out.push_str(")")?;
            Ok(())
        }
    }
}

/// Writes the parts with AND between them.
#[cycle(write)]
fn all_parts<'q>(
    alloc: Global,
    out: &mut String,
    levels: &[Level<'q>],
    parts: &'q [SqlCond],
) -> Result<(), Memory>
    ensures { OnOk result (string_bytes out.new ≡ string_bytes out.old
        ++ bytes_of (spec.all_joined
        (map (λ part. spec.cond_pieces part (names_of levels.now) in_and) parts.now))) }
{
    let Some((first, more)) = parts.split_first() else {
        return Ok(());
    };
    cond(alloc, out, levels, first, Standing::InAnd)?;
    for next in more {
        out.push_str(" AND ")?;
        cond(alloc, out, levels, next, Standing::InAnd)?;
    }
    Ok(())
}

/// Writes the parts with OR between them.
#[cycle(write)]
fn any_parts<'q>(
    alloc: Global,
    out: &mut String,
    levels: &[Level<'q>],
    parts: &'q [SqlCond],
) -> Result<(), Memory>
    ensures { OnOk result (string_bytes out.new ≡ string_bytes out.old
        ++ bytes_of (spec.any_joined
        (map (λ part. spec.cond_pieces part (names_of levels.now) in_or) parts.now))) }
{
    let Some((first, more)) = parts.split_first() else {
        return Ok(());
    };
    cond(alloc, out, levels, first, Standing::InOr)?;
    for next in more {
        out.push_str(" OR ")?;
        cond(alloc, out, levels, next, Standing::InOr)?;
    }
    Ok(())
}

/// Writes NOT before a condition.
#[cycle(write)]
fn negation<'q>(
    alloc: Global,
    out: &mut String,
    levels: &[Level<'q>],
    part: &'q SqlCond,
) -> Result<(), Memory>
    ensures { OnOk result (string_bytes out.new ≡ string_bytes out.old
        ++ bytes_of (spec.negated_pieces
        (spec.cond_pieces part.now (names_of levels.now) after_not))) }
{
    out.push_str("NOT ")?;
    cond(alloc, out, levels, part, Standing::AfterNot)
}

/// Writes what stands after the first scalar of an IN.
#[cycle(write)]
#[tactic(auto, using(crate::proofs::Spelled::bytes_member))]
fn one_of<'q>(
    alloc: Global,
    out: &mut String,
    levels: &[Level<'q>],
    negated: bool,
    list: &'q [SqlScalar],
) -> Result<(), Memory>
    ensures { OnOk result (string_bytes out.new ≡ string_bytes out.old
        ++ bytes_of (spec.member_pieces negated
        (map (λ b. spec.scalar_pieces b (names_of levels.now)) list.now))) }
{
    out.push_str(in_text(negated))?;
    scalars(alloc, out, levels, list)?;
    out.push_str(")")?;
    Ok(())
}

/// Writes the items, each with AS and its name, with commas between them.
#[cycle(write)]
fn items<'q>(
    alloc: Global,
    out: &mut String,
    levels: &[Level<'q>],
    list: &'q [SqlItem],
) -> Result<(), Memory>
    ensures { OnOk result (string_bytes out.new ≡ string_bytes out.old
        ++ bytes_of (spec.listed
        (map (λ item. (spec.item_pieces item).pieces (names_of levels.now)) list.now))) }
{
    let Some((first, more)) = list.split_first() else {
        return Ok(());
    };
    item(alloc, out, levels, first)?;
    for next in more {
        out.push_str(", ")?;
        item(alloc, out, levels, next)?;
    }
    Ok(())
}

/// Writes an item with AS and its name.
#[cycle(write)]
#[tactic(auto, using(crate::proofs::Spelled::part_rules))]
fn item<'q>(
    alloc: Global,
    out: &mut String,
    levels: &[Level<'q>],
    item: &'q SqlItem,
) -> Result<(), Memory>
    ensures { OnOk result (string_bytes out.new ≡ string_bytes out.old
        ++ bytes_of ((spec.item_pieces item.now).pieces (names_of levels.now))) }
{
    scalar(alloc, out, levels, &item.value)?;
    out.push_str(" AS ")?;
    identifier(alloc, out, item.name.as_str())
}

/// Writes the FROM items, each with AS and its name, with commas between them.
#[cycle(write)]
fn from_items<'q>(alloc: Global, out: &mut String, list: &'q [SqlFrom]) -> Result<(), Memory>
    ensures { OnOk result (string_bytes out.new ≡ string_bytes out.old
        ++ bytes_of (spec.listed
        (map (λ item. (spec.from_pieces item).pieces) list.now))) }
{
    let Some((first, more)) = list.split_first() else {
        return Ok(());
    };
    from_item(alloc, out, first)?;
    for next in more {
        out.push_str(", ")?;
        from_item(alloc, out, next)?;
    }
    Ok(())
}

/// Writes a FROM item with AS and its name.
#[cycle(write)]
#[tactic(auto, using(crate::proofs::Spelled::part_rules))]
fn from_item<'q>(alloc: Global, out: &mut String, item: &'q SqlFrom) -> Result<(), Memory>
    ensures { OnOk result (string_bytes out.new ≡ string_bytes out.old
        ++ bytes_of (spec.from_pieces item.now).pieces) }
{
    match &item.source {
        SqlSource::Table(table) => identifier(alloc, out, table.name.as_str())?,
        SqlSource::Derived(inner) => {
            out.push_str("(")?;
            query(alloc, out, &[], inner.get())?;
            out.push_str(")")?;
        }
    }
    out.push_str(" AS ")?;
    identifier(alloc, out, item.name.as_str())
}

/// Writes a query without its order.
#[cycle(write)]
fn query<'q>(
    alloc: Global,
    out: &mut String,
    levels: &[Level<'q>],
    query: &'q SqlQuery,
) -> Result<(), Memory>
    ensures { OnOk result (string_bytes out.new ≡ string_bytes out.old
        ++ bytes_of ((spec.query_pieces query.now).pieces (names_of levels.now))) }
{
    let inner = within(alloc, query.from.as_slice(), levels)?;
    select(alloc, out, inner.as_slice(), query)?;
    Ok(())
}

/// Writes a query with its own names as the first of the names.
#[cycle(write)]
#[tactic(auto, using(crate::proofs::Spelled::query_rules))]
fn select<'q>(
    alloc: Global,
    out: &mut String,
    inner: &[Level<'q>],
    query: &'q SqlQuery,
) -> Result<(), Memory>
    ensures { OnOk result (string_bytes out.new ≡ string_bytes out.old
        ++ spelling.select_bytes query.now (names_of inner.now)) }
{
    out.push_str(select_text(query.distinct))?;
    items(alloc, out, inner, query.items.as_slice())?;
    out.push_str(" FROM ")?;
    from_items(alloc, out, query.from.as_slice())?;
    filter(alloc, out, inner, &query.filter)
}

/// Writes WHERE with its condition, after a space, where there is one.
#[cycle(write)]
fn filter<'q>(
    alloc: Global,
    out: &mut String,
    levels: &[Level<'q>],
    filter: &'q Option<SqlCond>,
) -> Result<(), Memory>
    ensures { OnOk result (string_bytes out.new ≡ string_bytes out.old
        ++ bytes_of (spec.filter_pieces (option_map spec.cond_pieces filter.now)
        (names_of levels.now))) }
{
    match filter {
        None => Ok(()),
        Some(condition) => {
            out.push_str(" WHERE ")?;
            cond(alloc, out, levels, condition, Standing::Alone)
        }
    }
}

/// The SQL text of a query, which ends with a semicolon and a line feed.
#[tactic(auto, using(crate::proofs::DoubledText::string_utf8))]
pub fn write_sql(alloc: Global, query: &SqlQuery) -> Result<Vec<u8>, Memory>
    ensures text { IfOk result (λ text. text.items ≡ spec.text_of query.now) }
    ensures utf8 { IfOk result (λ text. IsUtf8 text.items) }
{
    let mut out = String::new(alloc);
    self::query(alloc, &mut out, &[], query)?;
    order_by(alloc, &mut out, query.order.as_slice())?;
    out.push_str(";\n")?;
    Ok(out.into_bytes())
}
