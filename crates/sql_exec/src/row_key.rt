//! Rows as the keys of a set.
ghost use Rattle.std.specs.Prelude.{◌≡◌, fold};
ghost use Rattle.std.specs.Cmp.{decided, partial_equiv_from_equiv};
ghost use Rattle.std.specs.Cmp.Lexicographic.{pointwise};
ghost use Rattle.std.proofs.Common.{ap};
ghost use Rattle.prefsql_values.specs.Value.{value_eq};
ghost use Rattle.prefsql_tables.specs.Distinct.{is_same_row};
ghost use Rattle.prefsql_tables.proofs.DistinctLemmas.{is_same_row-Decides};
ghost use Rattle.prefsql_values.proofs.ValueEq.{value_eq-Decides};
ghost use Rattle.sql_exec.specs.RowKeys.{value_writes, row_writes};

use prefsql_tables::AnswerRow;
use prefsql_values::{Value, not_distinct};
use std::hash::{Hash, Hasher};
use std::marker::Model;

/// A row that is found by its values, where NULL is the same as NULL. A contract sees the row.
#[derive(Drop)]
pub(crate) struct RowKey {
    pub row: AnswerRow,
}

impl Model for RowKey {
    ghost use Rattle.prefsql_tables.specs.declared.table.AnswerRow.{AnswerRow};

    ghost Value = { AnswerRow };

    ghost view = { λ key. key.row };
}

impl PartialEq for RowKey {
    ghost eq = { is_same_row };

    ghost laws = { partial_equiv_from_equiv (decided is_same_row is_same_row-Decides) };

    fn eq(&self, other: &RowKey) -> bool {
        are_same(self.row.cells.as_slice(), other.row.cells.as_slice())
    }
}

impl Eq for RowKey {
    ghost laws = { decided is_same_row is_same_row-Decides };
}

impl Hash for RowKey {
    ghost hash_input = { row_writes };

    ghost respects_eq = { λ x y same. ap row_writes ((is_same_row-Decides x y).0 same) };

    fn hash<H: Hasher>(&self, state: &mut H) {
        for value in self.row.cells.as_slice() {
            hash_value(value, state);
        }
    }
}

fn hash_value<H: Hasher>(value: &Value, state: &mut H)
    ensures { state.new ≡ fold H.write state.old (value_writes value.now) }
{
    match value {
        Value::Num(n) => n.hash(state),
        Value::Str(text) => text.as_str().hash(state),
        Value::Null => state.write_u8(0),
    }
}

/// Whether both have the same values, where NULL is the same as NULL.
fn are_same(values: &[Value], others: &[Value]) -> bool
    ensures { result ≡ pointwise value_eq values.now others.now }
{
    if values.len() != others.len() {
        return false;
    }
    for (place, value) in values.iter().enumerate() {
        if !not_distinct(value.cell(), others[place].cell()) {
            return false;
        }
    }
    true
}

/// A value that is found by itself, where NULL is the same as NULL. A contract sees the value.
#[derive(Drop)]
pub(crate) struct ValueKey {
    pub value: Value,
}

impl Model for ValueKey {
    ghost use Rattle.sql_exec.specs.Keys.{Keyed};

    ghost Value = { Keyed };

    ghost view = { λ key. key.value };
}

impl PartialEq for ValueKey {
    ghost eq = { value_eq };

    ghost laws = { partial_equiv_from_equiv (decided value_eq value_eq-Decides) };

    fn eq(&self, other: &ValueKey) -> bool {
        not_distinct(self.value.cell(), other.value.cell())
    }
}

impl Eq for ValueKey {
    ghost laws = { decided value_eq value_eq-Decides };
}

impl Hash for ValueKey {
    ghost hash_input = { value_writes };

    ghost respects_eq = { λ x y same. ap value_writes ((value_eq-Decides x y).0 same) };

    fn hash<H: Hasher>(&self, state: &mut H) {
        hash_value(&self.value, state);
    }
}
