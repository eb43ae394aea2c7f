//! Cells as the keys of a map.
ghost use Rattle.std.specs.Prelude.{◌≡◌, fold};
ghost use Rattle.std.specs.Cmp.{decided, partial_equiv_from_equiv};
ghost use Rattle.std.proofs.Common.{ap};
ghost use Rattle.prefsql_values.specs.Value.{value_eq, value_of};
ghost use Rattle.prefsql_values.proofs.ValueEq.{value_eq-Decides};
ghost use Rattle.value_index.specs.Keys.{value_writes};

use prefsql_values::{Cell, not_distinct};
use std::hash::{Hash, Hasher};
use std::marker::Model;

/// A cell that is found by its value. A contract sees the value.
#[derive(Drop)]
pub(crate) struct ValueKey<'t> {
    pub cell: Cell<'t>,
}

impl<'t> Model for ValueKey<'t> {
    ghost use Rattle.value_index.specs.Keys.{Keyed};
    ghost use Rattle.prefsql_values.specs.Value.{value_of};

    ghost Value = { Keyed };

    ghost view = { λ key. value_of key.cell };
}

impl PartialEq for ValueKey<'_> {
    ghost eq = { value_eq };

    ghost laws = { partial_equiv_from_equiv (decided value_eq value_eq-Decides) };

    fn eq(&self, other: &Self) -> bool {
        not_distinct(self.cell, other.cell)
    }
}

impl Eq for ValueKey<'_> {
    ghost laws = { decided value_eq value_eq-Decides };
}

impl Hash for ValueKey<'_> {
    ghost hash_input = { value_writes };

    ghost respects_eq = { λ x y same. ap value_writes ((value_eq-Decides x y).0 same) };

    fn hash<H: Hasher>(&self, state: &mut H) {
        hash_cell(self.cell, state);
    }
}

fn hash_cell<H: Hasher>(cell: Cell<'_>, state: &mut H)
    ensures { state.new ≡ fold H.write state.old (value_writes (value_of cell.entry)) }
{
    match cell {
        Cell::Num(n) => n.hash(state),
        Cell::Str(text) => text.hash(state),
        Cell::Null => state.write_u8(0),
    }
}
