ghost use Rattle.std.specs.Prelude.{◌≡◌, ◌↔◌, IsTrue};
ghost use Rattle.std.specs.Cmp.Lexicographic.{slice_cmp};
ghost use Rattle.prefsql_values.specs.Value.{nulls_last};
ghost use Rattle.prefsql_tables.specs.RowOrder.{key_order, keys_order, row_order};

use crate::place::SortKey;
use crate::table::AnswerRow;
use prefsql_values::{Value, order_nulls_last};
use std::cmp::Ordering;

impl SortKey {
    /// The order of two rows by this key.
    fn compare(self, a: &AnswerRow, b: &AnswerRow) -> Ordering
        ensures { result ≡ key_order self a.now b.now }
    {
        let ascending = order_nulls_last(a.cell(self.column), b.cell(self.column));
        if self.descending {
            ascending.reverse()
        } else {
            ascending
        }
    }
}

/// The order of two rows by the keys and then by all columns from left to right.
pub(crate) fn compare_rows(keys: &[SortKey], a: &AnswerRow, b: &AnswerRow) -> Ordering
    ensures { result ≡ row_order keys.now a.now b.now }
{
    match by_keys(keys, a, b) {
        Ordering::Equal => by_columns(a.cells.as_slice(), b.cells.as_slice()),
        ordering => ordering,
    }
}

fn by_keys(keys: &[SortKey], a: &AnswerRow, b: &AnswerRow) -> Ordering
    ensures { result ≡ keys_order keys.now a.now b.now }
{
    for key in keys {
        match key.compare(a, b) {
            Ordering::Equal => {}
            ordering => return ordering,
        }
    }
    Ordering::Equal
}

fn by_columns(a: &[Value], b: &[Value]) -> Ordering
    ensures { result ≡ slice_cmp nulls_last a.now b.now }
{
    for (place, x) in a.iter().enumerate() {
        match b.get(place) {
            None => return Ordering::Greater,
            Some(y) => match order_nulls_last(x.cell(), y.cell()) {
                Ordering::Equal => {}
                ordering => return ordering,
            },
        }
    }
    if a.len() < b.len() {
        Ordering::Less
    } else {
        Ordering::Equal
    }
}

/// Whether two rows have the same values, where NULL is the same as NULL.
pub(crate) fn is_same(a: &AnswerRow, b: &AnswerRow) -> bool
    ensures { IsTrue result ↔ (a.now ≡ b.now) }
{
    by_columns(a.cells.as_slice(), b.cells.as_slice()).is_eq()
}
