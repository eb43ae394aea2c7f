//! The header of a table file as columns.

ghost use Rattle.std.specs.Prelude.{◌≡◌, ◌+◌, ◌≤◌, Some, None, length, map, ◌&&◌, IfOk, if◌then◌else◌};
ghost use Rattle.std.specs.List.{list_all, list_any};
ghost use Rattle.std.specs.Str.{str_to_ascii_uppercase};
ghost use Rattle.csv.specs.Records.{fields_of};
ghost use Rattle.table_csv.specs.Fault.{Gives, spots, unless_faulty};
ghost use Rattle.table_csv.specs.Header as spec;

use crate::codes::{HEADER_FIELD, NO_TEXT, SAME_NAME, TOO_MANY_COLUMNS};
use crate::fault::{TableFault, bad};
use crate::field::text_of;
use csv::ByteRecord;
use prefsql_tables::{Column, Schema};
use prefsql_values::{Domain, List, Memory, Text};
use std::alloc::{AllocError, Global};

/// The most columns of a table.
const MOST_COLUMNS: usize = 64;
/// The most characters of a name behind its first.
const MOST_FURTHER: usize = 63;

/// The columns of a header, or its first fault.
pub(crate) fn read_header(alloc: Global, fields: &ByteRecord) -> Result<Schema, TableFault>
    ensures { Gives (unless_faulty (spec.header_faults (fields_of fields.now))
        (spec.schema_of (fields_of fields.now))) result }
{
    if fields.len() > MOST_COLUMNS {
        return Err(bad(TOO_MANY_COLUMNS, 1, 0));
    }
    let mut columns = List::new(alloc);
    for field in fields {
        let column = read_column(alloc, columns.as_slice(), field)?;
        columns.push(column)?;
    }
    Ok(Schema { columns })
}

/// The column of a header field behind these columns, or the first fault of the field.
fn read_column(alloc: Global, earlier: &[Column], field: &[u8]) -> Result<Column, TableFault>
    requires { length earlier.now ≤ 64 }
    ensures { Gives (unless_faulty (spots 1 (length earlier.now + 1)
        (spec.header_codes earlier.now field.now)) (spec.column_of field.now)) result }
{
    let at_field = earlier.len() as u32 + 1;
    let Some(text) = text_of(field) else {
        return Err(bad(NO_TEXT, 1, at_field));
    };
    let Some(column) = column_in(alloc, text)? else {
        return Err(bad(HEADER_FIELD, 1, at_field));
    };
    if is_taken(column.name.as_str(), earlier) {
        return Err(bad(SAME_NAME, 1, at_field));
    }
    Ok(column)
}

/// Whether one of the columns has this name.
fn is_taken(name: &str, columns: &[Column]) -> bool
    ensures { result ≡ list_any (spec.is_named name.now) columns.now }
{
    columns.iter().any(|column| column.name.as_str() == name)
}

/// The column that a header field states. It is None where the field has not the shape of one.
fn column_in(alloc: Global, field: &str) -> Result<Option<Column>, Memory>
    ensures { IfOk result (λ column. column ≡ (if spec.has_column_shape (spec.words_in field.now)
        then Some (spec.column_of field.now) else None)) }
{
    let words = words_in(alloc, field)?;
    let [name, kind, ending @ ..] = words.as_slice() else {
        return Ok(None);
    };
    if !is_ending(ending) {
        return Ok(None);
    }
    column_of(alloc, name, kind, ending.is_empty())
}

/// Whether the words are none, or NOT and NULL.
fn is_ending(words: &[&str]) -> bool
    ensures { result ≡ spec.is_ending (map (λ word. word.now) words.now) }
{
    match words {
        [] => true,
        [first, second] => is_word(first, "NOT") && is_word(second, "NULL"),
        _ => false,
    }
}

/// What stands between the spaces of a field.
fn words_in<'a>(alloc: Global, field: &'a str) -> Result<Vec<&'a str>, AllocError>
    ensures { IfOk result (λ words. map (λ word. word.now) words.items ≡ spec.words_in field.now) }
{
    field
        .split(' ')
        .filter(|word| !word.is_empty())
        .collect(alloc)
}

/// Whether the text is this word, in any case of letters.
fn is_word(text: &str, word: &str) -> bool
    ensures { result ≡ spec.is_word word.now text.now }
{
    text.eq_ignore_ascii_case(word)
}

/// The column of this name and type. It is None where one of them is none.
fn column_of(
    alloc: Global,
    name: &str,
    kind: &str,
    nullable: bool,
) -> Result<Option<Column>, Memory>
    ensures { IfOk result (λ column. column ≡ (if spec.is_name name.now && spec.is_type kind.now
        then Some (record {
          name = str_to_ascii_uppercase name.now;
          domain = spec.domain_of kind.now;
          nullable = nullable;
        }) else None)) }
{
    if !is_name(name.as_bytes()) {
        return Ok(None);
    }
    let Some(domain) = domain_of(kind) else {
        return Ok(None);
    };
    let upper = name.to_ascii_uppercase(alloc)?;
    Ok(Some(Column {
        name: Text::of(alloc, upper.as_str())?,
        domain,
        nullable,
    }))
}

fn domain_of(kind: &str) -> Option<Domain>
    ensures { result ≡ (if spec.is_type kind.now then Some (spec.domain_of kind.now) else None) }
{
    if is_word(kind, "INTEGER") {
        Some(Domain::Integer)
    } else if is_word(kind, "TEXT") {
        Some(Domain::Chars)
    } else {
        None
    }
}

fn is_name(name: &[u8]) -> bool
    ensures { result ≡ spec.is_name name.now }
{
    match name {
        [first, rest @ ..] => {
            first.is_ascii_alphabetic() && rest.len() <= MOST_FURTHER && are_name_bytes(rest)
        }
        [] => false,
    }
}

fn are_name_bytes(bytes: &[u8]) -> bool
    ensures { result ≡ list_all spec.is_name_byte bytes.now }
{
    bytes
        .iter()
        .all(|byte| byte.is_ascii_alphanumeric() || *byte == b'_')
}
