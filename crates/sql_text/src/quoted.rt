//! Names, texts and numbers as they are written.

ghost use Rattle.std.specs.Prelude.{◌≡◌, ◌++◌, ◌<◌, OnOk, IfOk, IsUtf8};
ghost use Rattle.std.specs.String.{string_bytes};
ghost use Rattle.prefsql_lexer.specs.Tokens.{doubled, in_quotes};
ghost use Rattle.std.specs.Fmt.{signed_decimal};

use prefsql_values::{Memory, number_text};
use std::alloc::Global;
use std::str::from_utf8;

/// The bytes with each quote written twice.
fn doubled(alloc: Global, quote: u8, text: &[u8]) -> Result<Vec<u8>, Memory>
    ensures { IfOk result (λ bytes. bytes.items ≡ doubled quote text.now) }
{
    let mut bytes = Vec::new(alloc);
    for b in text {
        if *b == quote {
            bytes.push(quote)?;
        }
        bytes.push(*b)?;
    }
    Ok(bytes)
}

/// Writes the text, each quote in it twice.
fn body(alloc: Global, out: &mut String, quote: u8, text: &str) -> Result<(), Memory>
    requires { quote < 128 }
    ensures { OnOk result (string_bytes out.new ≡ string_bytes out.old ++ doubled quote text.now) }
{
    let bytes = doubled(alloc, quote, text.as_bytes())?;
    match from_utf8(bytes.as_slice()) {
        Ok(doubled) => {
            out.push_str(doubled)?;
            Ok(())
        }
        Err(_) => unreachable!(),
    }
}

/// Writes a delimited identifier.
pub(crate) fn identifier(alloc: Global, out: &mut String, name: &str) -> Result<(), Memory>
    ensures { OnOk result (string_bytes out.new ≡ string_bytes out.old ++ in_quotes 34 name.now) }
{
    out.push_str("\"")?;
    body(alloc, out, b'"', name)?;
    out.push_str("\"")?;
    Ok(())
}

/// Writes a text in quotes.
pub(crate) fn chars(alloc: Global, out: &mut String, text: &str) -> Result<(), Memory>
    ensures { OnOk result (string_bytes out.new ≡ string_bytes out.old ++ in_quotes 39 text.now) }
{
    out.push_str("'")?;
    body(alloc, out, b'\'', text)?;
    out.push_str("'")?;
    Ok(())
}

/// Writes a number, with a minus directly before its digits where it is negative.
pub(crate) fn number(alloc: Global, out: &mut String, n: i64) -> Result<(), Memory>
    ensures { OnOk result (string_bytes out.new ≡ string_bytes out.old ++ signed_decimal n) }
{
    let digits = number_text(alloc, i128::from(n))?;
    out.push_str(digits.as_str())?;
    Ok(())
}
