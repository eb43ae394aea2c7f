//! A walk through the rows of FROM items, one row of each after the other.
ghost use Rattle.std.specs.Prelude.{◌≡◌, ◌+◌, ◌<◌, ◌≤◌, [], ◌∷◌, ◌++◌, length, map, true, false, IfOk, OnOk};
ghost use Rattle.sql_exec.specs.Steps.{IsChosen, IsOver, left_of, row_of};

use prefsql_tables::AnswerRow;
use prefsql_values::Memory;
use std::alloc::Global;

/// The rows that are chosen, of the first item, the second and so on; and of each item that was
/// come to the rows that are left to be tried.
#[derive(Drop)]
pub(crate) struct Walk<'t> {
    pub(crate) rows: Vec<&'t AnswerRow>,
    left: Vec<&'t [AnswerRow]>,
}

impl<'t> Walk<'t> {
    /// Nothing is chosen, and nothing is left.
    pub(crate) fn new(alloc: Global) -> Walk<'t>
        ensures row { row_of result ≡ [] }
        ensures left { left_of result ≡ [] }
    {
        Walk {
            rows: Vec::new(alloc),
            left: Vec::new(alloc),
        }
    }

    /// Comes to the next item, which has these rows.
    pub(crate) fn come_to(&mut self, rows: &'t [AnswerRow]) -> Result<(), Memory>
        ensures row { OnOk result (row_of self.new ≡ row_of self.old) }
        ensures left { OnOk result (left_of self.new ≡ left_of self.old ++ rows.now ∷ []) }
    {
        self.left.push(rows)?;
        Ok(())
    }

    /// Chooses the next row that is left, of the last item that has one. It is false where none has.
    pub(crate) fn choose_next(&mut self) -> Result<bool, Memory>
        requires { length (left_of self.old) ≤ length (row_of self.old) + 1 }
        ensures chosen { IfOk result (λ more. more ≡ true
            → IsChosen (row_of self.old) (left_of self.old) (row_of self.new) (left_of self.new)) }
        ensures over { IfOk result (λ more. more ≡ false
            → IsOver (row_of self.old) (left_of self.old)) }
    {
        while let Some(rows) = self.left.pop() {
            self.rows.truncate(self.left.len());
            if let Some((row, rest)) = rows.split_first() {
                self.rows.push(row)?;
                self.left.push(rest)?;
                return Ok(true);
            }
        }
        Ok(false)
    }
}
