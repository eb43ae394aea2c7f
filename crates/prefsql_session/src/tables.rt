//! The tables of a run: the files of its table words.
ghost use Rattle.std.specs.Prelude.{◌≡◌, ◌<◌, ◌≤◌, IsTrue, All, IfOk, IsErrOf, length};
ghost use Rattle.prefsql_io.specs.Counts.{HasCause};
ghost use Rattle.prefsql_tables.specs.Names.{table_names};
ghost use Rattle.prefsql_values.specs.Limits.{IsName};
ghost use Rattle.prefsql_session.specs.Opening.{file_fault, file_stage, is_among, table_of_bytes, table_stage, tables_stage};
ghost use Rattle.prefsql_session.specs.Parts.{Opens};
ghost use Rattle.prefsql_session.specs.Stage.{and_then, missing};
ghost use Rattle.prefsql_session.specs.declared.command.TableWord.{TableWord};

use crate::TableWord;
use crate::fault::{Fault, Stop};
use prefsql_io::{LoadError, Shelf};
use prefsql_tables::{AddError, Table, TableSet};
use prefsql_values::{Memory, Text};
use std::alloc::Global;
use table_csv::{TableFault, TableSpot, read_table};

/// The greatest number of bytes of a table file.
const TABLE_LIMIT: usize = 8_388_608;

/// E511, for a file of more bytes.
const TOO_LONG: u16 = 511;

/// E512, for a table word whose name stands before.
const REPEATED_NAME: u16 = 512;

// A fault of a whole file.
fn file_fault(alloc: Global, name: &Text, code: u16) -> Result<Fault, Memory>
    ensures { IfOk result (λ fault. fault ≡ file_fault name.now code) }
{
    let spot = TableSpot {
        code,
        at_record: 0,
        at_field: 0,
    };
    Ok(Fault::Table(name.copy(alloc)?, spot))
}

// The bytes of a file as a table.
fn table_of_bytes(alloc: Global, name: &Text, bytes: &[u8]) -> Result<Table, Stop>
    requires { length bytes.now ≤ 8388608 }
    ensures judged { Opens (table_of_bytes name.now bytes.now) result }
    ensures no_load { IsErrOf result Stop.ShelfFault → ⊥ }
{
    match read_table(alloc, bytes) {
        Ok(table) => Ok(table),
        Err(TableFault::Bad(spot)) => Err(Stop::Refused(Fault::Table(name.copy(alloc)?, spot))),
        Err(TableFault::Memory) => Err(Stop::Memory),
    }
}

// The file of a table word as a table.
fn load_table<H: Shelf>(alloc: Global, word: &TableWord, shelf: &mut H) -> Result<Table, Stop>
    ensures follows { Opens (and_then (file_stage (H.files shelf.old) word.now.path)
        (table_of_bytes word.now.name)) result }
    ensures load { HasCause (H.faults shelf.old) (H.faults shelf.new)
        (IsErrOf result Stop.ShelfFault) }
    ensures kept { (IsErrOf result Stop.ShelfFault → ⊥) → H.faults shelf.new ≡ H.faults shelf.old }
    ensures sure { IsTrue (H.sure shelf.old) → IsErrOf result Stop.ShelfFault
        → file_stage (H.files shelf.old) word.now.path ≡ missing }
    ensures same { (H.files shelf.new ≡ H.files shelf.old) × (H.sure shelf.new ≡ H.sure shelf.old) }
{
    match shelf.load(alloc, word.path.as_str(), TABLE_LIMIT) {
        Ok(bytes) => table_of_bytes(alloc, &word.name, &bytes),
        Err(LoadError::TooLong) => Err(Stop::Refused(file_fault(alloc, &word.name, TOO_LONG)?)),
        Err(LoadError::Failed) => Err(Stop::ShelfFault),
        Err(LoadError::Memory) => Err(Stop::Memory),
    }
}

// The table of a table word after the tables that are there.
fn open_table<H: Shelf>(
    alloc: Global,
    before: &TableSet,
    word: &TableWord,
    shelf: &mut H,
) -> Result<Table, Stop>
    ensures follows { Opens (table_stage (H.files shelf.old) (table_names before.now) word.now)
        result }
    ensures load { HasCause (H.faults shelf.old) (H.faults shelf.new)
        (IsErrOf result Stop.ShelfFault) }
    ensures kept { (IsErrOf result Stop.ShelfFault → ⊥) → H.faults shelf.new ≡ H.faults shelf.old }
    ensures sure { IsTrue (H.sure shelf.old) → IsErrOf result Stop.ShelfFault
        → table_stage (H.files shelf.old) (table_names before.now) word.now ≡ missing }
    ensures same { (H.files shelf.new ≡ H.files shelf.old) × (H.sure shelf.new ≡ H.sure shelf.old) }
{
    if before.find(word.name.as_str()).is_some() {
        return Err(Stop::Refused(file_fault(alloc, &word.name, REPEATED_NAME)?));
    }
    load_table(alloc, word, shelf)
}

/// Loads the tables of the words in their order. A name that stands before is refused before its
/// file is loaded.
pub(crate) fn open_tables<H: Shelf>(
    alloc: Global,
    words: &[TableWord],
    shelf: &mut H,
) -> Result<TableSet, Stop>
    requires few { length words.now ≤ 8 }
    requires named { All (λ (word : TableWord). IsName word.name) words.now }
    ensures follows { Opens (tables_stage (H.files shelf.old) words.now) result }
    ensures asked { IsErrOf result Stop.ShelfFault → 0 < length words.now }
    ensures load { HasCause (H.faults shelf.old) (H.faults shelf.new)
        (IsErrOf result Stop.ShelfFault) }
    ensures kept { (IsErrOf result Stop.ShelfFault → ⊥) → H.faults shelf.new ≡ H.faults shelf.old }
    ensures sure { IsTrue (H.sure shelf.old) → IsErrOf result Stop.ShelfFault
        → tables_stage (H.files shelf.old) words.now ≡ missing }
{
    let mut tables = TableSet::new(alloc);
    for word in words {
        let table = open_table(alloc, &tables, word, shelf)?;
        match tables.add_table(word.name.copy(alloc)?, table) {
            Ok(()) => {}
            // A name that stands before was refused above.
            Err(AddError::Duplicate) => unreachable!(),
            Err(AddError::Memory) => return Err(Stop::Memory),
        }
    }
    Ok(tables)
}
