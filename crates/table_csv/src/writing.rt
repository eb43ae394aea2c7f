//! An answer as text.

ghost use Rattle.std.specs.Prelude.{◌≡◌, [], ◌∷◌, ◌++◌, List, ℕ, map, IfOk, OnOk};
ghost use Rattle.csv.specs.Records.{fields_of, partial_of};
ghost use Rattle.csv.specs.Writing.{default_writer, row_text};
ghost use Rattle.table_csv.specs.AnswerText.{text_of_answer, value_text};
ghost use Rattle.table_csv.specs.Writer.{HasWritten};

use csv::{ByteRecord, Writer, WriterBuilder};
use itoa::Buffer;
use prefsql_tables::Answer;
use prefsql_values::{Memory, Text, Value};
use std::alloc::{AllocError, Global};

/// The text of an answer: a line of its names and a line of each row, as `csv` writes records by
/// default, and then one empty line. NULL is an empty field. Its only refusal is want of memory.
pub fn answer_text(alloc: Global, answer: &Answer) -> Result<Vec<u8>, Memory>
    ensures { IfOk result (λ text. text.items ≡ text_of_answer answer.now) }
{
    let mut writer = WriterBuilder::new()
        .flexible(true)
        .from_writer(Vec::new(alloc));
    let mut fields = ByteRecord::new(alloc);
    set_names(&mut fields, answer.names.as_slice())?;
    write_record(&mut writer, &fields)?;
    for row in answer.rows.as_slice() {
        set_values(&mut fields, row.cells.as_slice())?;
        write_record(&mut writer, &fields)?;
    }
    let Ok(mut text) = writer.into_inner() else {
        return Err(Memory);
    };
    text.push(b'\n')?;
    Ok(text)
}

/// Makes the record one of these names.
fn set_names(fields: &mut ByteRecord, names: &[Text]) -> Result<(), AllocError>
    ensures { OnOk result (fields_of fields.new ≡ names.now) }
{
    fields.clear();
    for name in names {
        fields.push_field(name.as_str().as_bytes())?;
    }
    Ok(())
}

/// Makes the record one of these values.
fn set_values(fields: &mut ByteRecord, values: &[Value]) -> Result<(), AllocError>
    ensures { OnOk result (fields_of fields.new ≡ map value_text values.now) }
{
    fields.clear();
    for value in values {
        push_value(fields, value)?;
    }
    Ok(())
}

/// Adds a value to the record.
fn push_value(fields: &mut ByteRecord, value: &Value) -> Result<(), AllocError>
    requires { partial_of fields.old ≡ [] }
    ensures fields { OnOk result (fields_of fields.new ≡ fields_of fields.old
        ++ value_text value.now ∷ []) }
    ensures partial { OnOk result (partial_of fields.new ≡ []) }
{
    match value {
        Value::Num(n) => {
            let mut buffer = Buffer::new();
            fields.push_field(buffer.format(*n).as_bytes())
        }
        Value::Str(text) => fields.push_field(text.as_str().as_bytes()),
        Value::Null => fields.push_field(b""),
    }
}

/// Writes the record.
fn write_record(writer: &mut Writer<Vec<u8>>, fields: &ByteRecord) -> Result<(), Memory>
    ensures { OnOk result ((text : List ℕ) → HasWritten writer.old text
        → HasWritten writer.new (text ++ row_text default_writer (fields_of fields.now))) }
{
    let Ok(()) = writer.write_byte_record(fields) else {
        // Memory takes records of any length without any other fault.
        return Err(Memory);
    };
    Ok(())
}
