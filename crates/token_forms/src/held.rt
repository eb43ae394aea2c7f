//! Values that are kept while more is read. Where what is read after them is a fault, they are let
//! go here, once for every type.

ghost use Rattle.token_forms.specs.Reads.{IsPair, IsPushed};

use crate::cursor::Stop;
use prefsql_values::List;

/// Both values, if the second one was read.
pub fn both<A: Drop, B>(first: A, second: Result<B, Stop>) -> Result<(A, B), Stop>
    ensures { IsPair first second result }
{
    match second {
        Ok(second) => Ok((first, second)),
        Err(stop) => Err(stop),
    }
}

/// The list with one more item, if that was read.
pub fn pushed<T: Drop>(mut found: List<T>, item: Result<T, Stop>) -> Result<List<T>, Stop>
    ensures { IsPushed found item result }
{
    match item {
        Ok(item) => {
            found.push(item)?;
            Ok(found)
        }
        Err(stop) => Err(stop),
    }
}
