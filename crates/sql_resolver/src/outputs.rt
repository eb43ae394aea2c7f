//! Output columns.

ghost use Rattle.std.specs.Prelude.{◌≡◌, ◌++◌, ◌∷◌, IfOk, OnOk, codes, map};
ghost use Rattle.std.specs.Fmt.{decimal};
ghost use Rattle.sql_resolver.specs.Found as found;
ghost use Rattle.sql_resolver.specs.Outcomes.{formed};
ghost use Rattle.sql_resolver.specs.Reading.{all_columns, column_output, columns_from, output_name};

use crate::fault::Fault;
use crate::found::{FoundOutput, FoundScalar};
use crate::scalars::capped;
use crate::scope::{ScopeColumn, ScopeItem, narrow};
use prefsql_values::{Memory, Text, number_text};
use sql_tree::{SqlItem, SqlPlace, SqlScalar};
use std::alloc::Global;

/// The name of an output column of this position from 1: the one that is written, else that of the
/// column that it is, else COL and the position.
fn output_name(
    alloc: Global,
    written: &Option<Text>,
    own: Option<Text>,
    at: usize,
) -> Result<Text, Memory>
    ensures { IfOk result (λ name. name ≡ output_name written.now own at) }
{
    match written {
        Some(name) => name.copy(alloc),
        None => match own {
            Some(name) => Ok(name),
            None => numbered_name(alloc, at),
        },
    }
}

/// COL and the position.
fn numbered_name(alloc: Global, at: usize) -> Result<Text, Memory>
    ensures { IfOk result (λ name. name ≡ codes "COL" ++ decimal at) }
{
    let mut name = String::from_str(alloc, "COL")?;
    let digits = number_text(alloc, at as i128)?;
    name.push_str(digits.as_str())?;
    Ok(Text::from_string(name))
}

/// What is shown, with its name.
fn named_item(tree: Result<SqlScalar, Fault>, name: Text) -> Result<SqlItem, Fault>
    ensures { result ≡ formed (λ tree. record { value = tree; name = name }) tree }
{
    match tree {
        Ok(value) => Ok(SqlItem { value, name }),
        Err(fault) => Err(fault),
    }
}

/// An output column of this position from 1, with the name after AS if one is written.
pub(crate) fn output(
    alloc: Global,
    at: usize,
    written: &Option<Text>,
    scalar: FoundScalar,
) -> Result<FoundOutput, Memory>
    ensures { IfOk result (λ output. output ≡ found.output at written.now scalar) }
{
    let FoundScalar {
        at: _,
        domain,
        bound,
        own_name,
        tree,
    } = scalar;
    let name = output_name(alloc, written, own_name, at)?;
    let called = name.copy(alloc)?;
    Ok(FoundOutput {
        item: named_item(tree, called),
        column: ScopeColumn {
            name,
            domain,
            bound,
        },
    })
}

/// A column of the scope as an output column.
fn column_output(
    alloc: Global,
    item: u32,
    at: u32,
    column: &ScopeColumn,
) -> Result<FoundOutput, Memory>
    ensures { IfOk result
        (λ output. output ≡ found.found_output (column_output item at column.now)) }
{
    let place = SqlPlace {
        up: 0,
        item,
        column: at,
    };
    let name = column.name.copy(alloc)?;
    let called = column.name.copy(alloc)?;
    Ok(FoundOutput {
        item: named_item(Ok(SqlScalar::Column(place)), called),
        column: ScopeColumn {
            name,
            domain: column.domain,
            bound: capped(column.bound),
        },
    })
}

/// Adds the columns of an item of the scope.
fn push_columns(
    alloc: Global,
    outputs: &mut Vec<FoundOutput>,
    item: u32,
    columns: &[ScopeColumn],
) -> Result<(), Memory>
    ensures { OnOk result (outputs.new.items
        ≡ outputs.old.items ++ map found.found_output (columns_from item 0 columns.now)) }
{
    for (at, column) in columns.iter().enumerate() {
        outputs.push(column_output(alloc, item, narrow(at)?, column)?)?;
    }
    Ok(())
}

/// All columns of a scope, item by item.
pub(crate) fn all_columns(alloc: Global, scope: &[ScopeItem]) -> Result<Vec<FoundOutput>, Memory>
    ensures { IfOk result (λ outputs. outputs.items
        ≡ map found.found_output (all_columns 0 scope.now)) }
{
    let mut outputs = Vec::new(alloc);
    for (at, item) in scope.iter().enumerate() {
        push_columns(alloc, &mut outputs, narrow(at)?, item.columns.as_slice())?;
    }
    Ok(outputs)
}
