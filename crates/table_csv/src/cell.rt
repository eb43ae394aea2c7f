//! A field of a row as a value.

ghost use Rattle.std.specs.Prelude.{◌≡◌, [], ◌++◌, not, IfSome};
ghost use Rattle.prefsql_values.specs.declared.value.Value.TheVariants as value;
ghost use Rattle.table_csv.specs.Cell.{cell_codes, cell_value, empty_codes, empty_value};
ghost use Rattle.table_csv.specs.Fault.{Gives, spots, unless_faulty, when};
ghost use Rattle.table_csv.specs.Field.{is_text, number_codes, number_in};

use crate::codes::{EMPTY_NUMBER, NO_TEXT};
use crate::fault::{TableFault, bad};
use crate::field::{number_of, text_of};
use prefsql_tables::Column;
use prefsql_values::{Domain, Text, Value};
use std::alloc::Global;

/// The value of a field in a column, or its first fault at this place.
pub(crate) fn read_cell(
    alloc: Global,
    column: &Column,
    field: &[u8],
    at_record: u32,
    at_field: u32,
) -> Result<Value, TableFault>
    ensures { Gives (unless_faulty (spots at_record at_field (cell_codes column.now field.now))
        (cell_value column.now field.now)) result }
{
    if field.is_empty() {
        return read_empty(alloc, column, at_record, at_field);
    }
    match column.domain {
        Domain::Integer => read_number(field, at_record, at_field),
        Domain::Chars => read_text(alloc, field, at_record, at_field),
    }
}

/// The value of a field that is a number in a column of numbers. It is None for every other field,
/// which `read_cell` reads.
pub(crate) fn number_cell(column: &Column, field: &[u8]) -> Option<Value>
    ensures { IfSome result (λ cell. (cell_codes column.now field.now ≡ [])
        × (cell_value column.now field.now ≡ cell)) }
{
    match column.domain {
        Domain::Integer => match number_of(field) {
            Ok(n) => Some(Value::Num(i128::from(n))),
            Err(_) => None,
        },
        Domain::Chars => None,
    }
}

/// The value of an empty field.
fn read_empty(
    alloc: Global,
    column: &Column,
    at_record: u32,
    at_field: u32,
) -> Result<Value, TableFault>
    ensures { Gives (unless_faulty
        (spots at_record at_field (empty_codes column.now.domain column.now.nullable))
        (empty_value column.now)) result }
{
    if column.nullable {
        return Ok(Value::Null);
    }
    match column.domain {
        Domain::Integer => Err(bad(EMPTY_NUMBER, at_record, at_field)),
        Domain::Chars => Ok(Value::Str(Text::of(alloc, "")?)),
    }
}

/// The number of a field. A field that is a number is a text too, so only another one is tested for
/// it.
fn read_number(field: &[u8], at_record: u32, at_field: u32) -> Result<Value, TableFault>
    ensures { Gives (unless_faulty (spots at_record at_field (when (not (is_text field.now)) 507
        ++ number_codes field.now)) (value.Num (number_in field.now))) result }
{
    match number_of(field) {
        Ok(n) => Ok(Value::Num(i128::from(n))),
        Err(code) => match text_of(field) {
            Some(_) => Err(bad(code, at_record, at_field)),
            None => Err(bad(NO_TEXT, at_record, at_field)),
        },
    }
}

/// The text of a field.
fn read_text(
    alloc: Global,
    field: &[u8],
    at_record: u32,
    at_field: u32,
) -> Result<Value, TableFault>
    ensures { Gives (unless_faulty (spots at_record at_field (when (not (is_text field.now)) 507))
        (value.Str field.now)) result }
{
    let Some(text) = text_of(field) else {
        return Err(bad(NO_TEXT, at_record, at_field));
    };
    Ok(Value::Str(Text::of(alloc, text)?))
}
