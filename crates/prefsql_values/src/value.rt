ghost use Rattle.std.specs.Prelude.{◌≡◌, IfOk};
ghost use Rattle.prefsql_values.specs.Value.{value_of};

use crate::memory::Memory;
use crate::text::Text;
use std::alloc::Global;

/// What a column holds: whole numbers or texts.
#[derive(Clone, Copy, Debug, PartialEq, Eq)]
pub enum Domain {
    Integer,
    Chars,
}

/// The operator of a comparison: `=`, `<>`, `<`, `<=`, `>`, `>=`.
#[derive(Clone, Copy, Debug, PartialEq, Eq)]
pub enum CompareOp {
    Eq,
    Ne,
    Lt,
    Le,
    Gt,
    Ge,
}

/// A whole number, a text or NULL.
#[derive(Debug, Drop)]
pub enum Value {
    Num(i128),
    Str(Text),
    Null,
}

/// A value whose text is borrowed.
#[derive(Clone, Copy, Debug)]
pub enum Cell<'a> {
    Num(i128),
    Str(&'a str),
    Null,
}

impl Value {
    /// The cell of equal content.
    pub fn cell(&self) -> Cell<'_>
        ensures { value_of result ≡ self.now }
    {
        match self {
            Value::Num(n) => Cell::Num(*n),
            Value::Str(text) => Cell::Str(text.as_str()),
            Value::Null => Cell::Null,
        }
    }

    /// An equal value, or want of memory.
    pub fn copy(&self, alloc: Global) -> Result<Value, Memory>
        ensures { IfOk result (λ value. value ≡ self.now) }
    {
        match self {
            Value::Num(n) => Ok(Value::Num(*n)),
            Value::Str(text) => Ok(Value::Str(text.copy(alloc)?)),
            Value::Null => Ok(Value::Null),
        }
    }
}

impl Cell<'_> {
    /// The value of equal content, or want of memory.
    pub fn to_value(&self, alloc: Global) -> Result<Value, Memory>
        ensures { IfOk result (λ value. value ≡ value_of self.now) }
    {
        match self {
            Cell::Num(n) => Ok(Value::Num(*n)),
            Cell::Str(s) => Ok(Value::Str(Text::of(alloc, s)?)),
            Cell::Null => Ok(Value::Null),
        }
    }
}
