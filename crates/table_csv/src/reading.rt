//! A file as a table.

ghost use Rattle.std.specs.Prelude.{◌≡◌, IfOk};
ghost use Rattle.csv.specs.Records.{fields_of};
ghost use Rattle.table_csv.specs.Fault.{Gives};
ghost use Rattle.table_csv.specs.FileTable.{file_records, file_table};
ghost use Rattle.table_csv.specs.Source.{IsBetween, ReadsNext, records_left};

use crate::codes::NO_RECORD;
use crate::fault::{TableFault, bad};
use crate::header::read_header;
use crate::row::read_row;
use csv::{ByteRecord, ErrorKind, Reader, ReaderBuilder};
use prefsql_tables::Table;
use prefsql_values::Memory;
use std::alloc::Global;

/// Reads a table file: the columns of its header and a row of each further record. The answer is
/// the table, or the first fault of the file in the order of its records and of their fields, or
/// want of memory.
pub fn read_table(alloc: Global, bytes: &[u8]) -> Result<Table, TableFault>
    ensures { Gives (file_table bytes.now) result }
{
    let mut reader = records_of(alloc, bytes);
    let mut fields = ByteRecord::new(alloc);
    if !read_record(&mut reader, &mut fields)? {
        return Err(bad(NO_RECORD, 0, 0));
    }
    let schema = read_header(alloc, &fields)?;
    let mut table = Table::new(alloc, schema.copy(alloc)?);
    let mut at_record = 2;
    while read_record(&mut reader, &mut fields)? {
        let row = read_row(alloc, schema.columns.as_slice(), at_record, &fields)?;
        table.push_row(row)?;
        at_record += 1;
    }
    Ok(table)
}

/// A reader of the records of a file: fields between commas, as many as there are in each.
fn records_of(alloc: Global, bytes: &[u8]) -> Reader<&[u8]>
    ensures between { IsBetween result }
    ensures records { records_left result ≡ file_records bytes.now }
{
    ReaderBuilder::new()
        .has_headers(false)
        .flexible(true)
        .from_reader(alloc, bytes)
}

/// The next record, and whether there was one. A record may have any number of fields and holds any
/// bytes, so that the reader refuses none. No read of bytes in memory fails, and one that did would
/// be answered as want of memory.
fn read_record(reader: &mut Reader<&[u8]>, fields: &mut ByteRecord) -> Result<bool, Memory>
    requires { IsBetween reader.old }
    ensures { IfOk result (λ found. ReadsNext reader.old reader.new found (fields_of fields.new)) }
{
    match reader.read_byte_record(fields) {
        Ok(found) => Ok(found),
        Err(error) => match error.kind() {
            ErrorKind::OutOfMemory | ErrorKind::Io(_) => Err(Memory),
            _ => unreachable!(),
        },
    }
}
