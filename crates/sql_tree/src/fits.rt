//! Whether a set of tables has those that a query names.
ghost use Rattle.std.specs.Prelude.{◌↔◌, IsTrue};
ghost use Rattle.std.specs.List.{flat_map};
ghost use Rattle.sql_tree.specs.Fits.{AreThere, FitsTables, IsTableOf, cond_tables, filter_tables, from_tables, item_tables, otherwise_tables, scalar_tables, source_tables, tables_of, term_tables, when_tables};

use crate::tree::{
    SqlCond, SqlFrom, SqlItem, SqlQuery, SqlScalar, SqlSource, SqlTable, SqlWhen, SumTerm,
};
use prefsql_tables::TableSet;
use prefsql_values::Boxed;

impl SqlQuery {
    /// Whether each table that the query names, at every depth, stands in the set at its index with
    /// its name and its columns: in FROM, in derived tables, in EXISTS, and in the conditions
    /// inside CASE. The rule is this project's own.
    pub fn fits(&self, tables: &TableSet) -> bool
        ensures { IsTrue result ↔ FitsTables tables.now self.now }
    {
        query_fits(self, tables)
    }
}

/// Whether the table stands in the set at its index.
fn table_fits(table: &SqlTable, tables: &TableSet) -> bool
    ensures { IsTrue result ↔ IsTableOf tables.now table.now }
{
    tables.has_table_at(table.index, table.name.as_str(), &table.schema)
}

/// Whether each table in the condition is there.
#[cycle(fits)]
fn cond_fits(cond: &SqlCond, tables: &TableSet) -> bool
    ensures { IsTrue result ↔ AreThere tables.now (cond_tables cond.now) }
{
    match cond {
        SqlCond::And(parts) => conds_fit(parts.as_slice(), tables),
        SqlCond::Or(parts) => conds_fit(parts.as_slice(), tables),
        SqlCond::Not(part) => cond_fits(part.get(), tables),
        SqlCond::Compare(_, left, right) => scalar_fits(left, tables) && scalar_fits(right, tables),
        SqlCond::Between(_, scalar, low, high) => {
            scalar_fits(scalar, tables) && scalar_fits(low, tables) && scalar_fits(high, tables)
        }
        SqlCond::OneOf(_, scalar, list) => {
            scalar_fits(scalar, tables) && scalars_fit(list.as_slice(), tables)
        }
        SqlCond::IsNull(_, scalar) => scalar_fits(scalar, tables),
        SqlCond::Exists(query) => query_fits(query.get(), tables),
    }
}

#[cycle(fits)]
fn conds_fit(conds: &[SqlCond], tables: &TableSet) -> bool
    ensures { IsTrue result ↔ AreThere tables.now (flat_map cond_tables conds.now) }
{
    for cond in conds {
        if !cond_fits(cond, tables) {
            return false;
        }
    }
    true
}

/// Whether each table in the scalar is there.
#[cycle(fits)]
#[tactic(auto, using(crate::proofs::TableTests::literal_told))]
fn scalar_fits(scalar: &SqlScalar, tables: &TableSet) -> bool
    ensures { IsTrue result ↔ AreThere tables.now (scalar_tables scalar.now) }
{
    match scalar {
        SqlScalar::Column(_) => true,
        SqlScalar::Number(_) => true,
        SqlScalar::Chars(_) => true,
        SqlScalar::Sum(terms) => terms_fit(terms.as_slice(), tables),
        SqlScalar::Case(whens, last) => {
            whens_fit(whens.as_slice(), tables) && otherwise_fits(last, tables)
        }
    }
}

#[cycle(fits)]
#[tactic(auto, using(crate::proofs::TableTests::none_told))]
fn otherwise_fits(otherwise: &Option<Boxed<SqlScalar>>, tables: &TableSet) -> bool
    ensures { IsTrue result ↔ AreThere tables.now (otherwise_tables otherwise.now) }
{
    match otherwise {
        None => true,
        Some(scalar) => scalar_fits(scalar.get(), tables),
    }
}

#[cycle(fits)]
fn scalars_fit(scalars: &[SqlScalar], tables: &TableSet) -> bool
    ensures { IsTrue result ↔ AreThere tables.now (flat_map scalar_tables scalars.now) }
{
    for scalar in scalars {
        if !scalar_fits(scalar, tables) {
            return false;
        }
    }
    true
}

#[cycle(fits)]
fn terms_fit(terms: &[SumTerm], tables: &TableSet) -> bool
    ensures { IsTrue result ↔ AreThere tables.now (flat_map term_tables terms.now) }
{
    for term in terms {
        if !scalar_fits(&term.scalar, tables) {
            return false;
        }
    }
    true
}

#[cycle(fits)]
fn whens_fit(whens: &[SqlWhen], tables: &TableSet) -> bool
    ensures { IsTrue result ↔ AreThere tables.now (flat_map when_tables whens.now) }
{
    for when in whens {
        if !when_fits(when, tables) {
            return false;
        }
    }
    true
}

#[cycle(fits)]
fn when_fits(when: &SqlWhen, tables: &TableSet) -> bool
    ensures { IsTrue result ↔ AreThere tables.now (when_tables when.now) }
{
    cond_fits(&when.cond, tables) && scalar_fits(&when.value, tables)
}

#[cycle(fits)]
fn items_fit(items: &[SqlItem], tables: &TableSet) -> bool
    ensures { IsTrue result ↔ AreThere tables.now (flat_map item_tables items.now) }
{
    for item in items {
        if !scalar_fits(&item.value, tables) {
            return false;
        }
    }
    true
}

/// Whether each table in the source is there.
#[cycle(fits)]
fn source_fits(source: &SqlSource, tables: &TableSet) -> bool
    ensures { IsTrue result ↔ AreThere tables.now (source_tables source.now) }
{
    match source {
        SqlSource::Table(table) => table_fits(table, tables),
        SqlSource::Derived(query) => query_fits(query.get(), tables),
    }
}

#[cycle(fits)]
fn from_fits(from: &[SqlFrom], tables: &TableSet) -> bool
    ensures { IsTrue result ↔ AreThere tables.now (flat_map from_tables from.now) }
{
    for item in from {
        if !source_fits(&item.source, tables) {
            return false;
        }
    }
    true
}

#[cycle(fits)]
#[tactic(auto, using(crate::proofs::TableTests::none_told))]
fn filter_fits(filter: &Option<SqlCond>, tables: &TableSet) -> bool
    ensures { IsTrue result ↔ AreThere tables.now (filter_tables filter.now) }
{
    match filter {
        None => true,
        Some(cond) => cond_fits(cond, tables),
    }
}

/// Whether each table in the query is there.
#[cycle(fits)]
fn query_fits(query: &SqlQuery, tables: &TableSet) -> bool
    ensures { IsTrue result ↔ AreThere tables.now (tables_of query.now) }
{
    items_fit(query.items.as_slice(), tables)
        && from_fits(query.from.as_slice(), tables)
        && filter_fits(&query.filter, tables)
}
