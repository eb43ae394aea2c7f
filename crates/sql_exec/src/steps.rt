//! What is judged as soon as a row of a FROM item is chosen.
ghost use Rattle.std.specs.Prelude.{◌≡◌, ◌<◌, ◌≤◌, [], ◌∷◌, ◌++◌, true, length, min, slice_index_or, IfOk, OnOk};
ghost use Rattle.std.specs.List.{filter};
ghost use Rattle.prefsql_tables.specs.Product.{product};
ghost use Rattle.prefsql_tables.specs.Table.{cell_in, no_row};
ghost use Rattle.sql_tree.specs.Meaning.{Scope, Scopes};
ghost use Rattle.sql_exec.specs.Planned.{IsFree, IsMade, JudgesToo, item_count, plan_keeps};
ghost use Rattle.sql_exec.specs.Reach.{SpeaksOf};
ghost use Rattle.sql_exec.specs.Ready.{keeps, kept, truth, value};
ghost use Rattle.sql_exec.specs.RowKeys.{is_found};

use crate::ready::{ReadyCond, ReadyRows, ReadyScalar, ReadySearch, ReadyStep};
use crate::row_groups::RowGroups;
use prefsql_tables::AnswerRow;
use prefsql_values::{List, Memory};
use std::alloc::Global;

/// The column by which the rows of an item are found, and what it is equal to. The flag is true where
/// NULL is taken as equal to NULL.
#[derive(Drop)]
pub(crate) struct ItemKey {
    nulls: bool,
    column: u32,
    scalar: ReadyScalar,
}

/// How the rows of an item are found, and what is judged as soon as one is chosen.
#[derive(Drop)]
pub(crate) struct ItemPlan {
    key: Option<ItemKey>,
    tests: List<ReadyCond>,
}

impl ItemPlan {
    /// The item made ready, which has these rows.
    fn step(self, alloc: Global, rows: List<AnswerRow>) -> Result<ReadyStep, Memory>
        ensures { IfOk result (IsMade rows self) }
    {
        let ItemPlan { key, tests } = self;
        match key {
            Some(
                ItemKey {
                    nulls,
                    column,
                    scalar,
                },
            ) => {
                let groups = RowGroups::of(alloc, rows, column)?;
                let rows = ReadyRows::Equal(nulls, scalar, groups);
                Ok(ReadyStep { rows, tests })
            }
            None => {
                let rows = ReadyRows::All(rows);
                Ok(ReadyStep { rows, tests })
            }
        }
    }
}

/// What is judged before any row is chosen, and at each item.
#[derive(Drop)]
pub(crate) struct StepPlan {
    /// Whether the first item is gone through once, so that its rows are not worth grouping.
    once: bool,
    before: List<ReadyCond>,
    items: Vec<ItemPlan>,
}

impl StepPlan {
    /// Nothing is judged at so many items, of which the first may be gone through once.
    pub(crate) fn new(alloc: Global, count: usize, once: bool) -> Result<StepPlan, Memory>
        ensures count { IfOk result (λ plan. item_count plan ≡ count) }
        ensures keeps { IfOk result
            (λ plan. (scope : Scope) → (scopes : Scopes) → plan_keeps plan scope scopes ≡ true) }
    {
        let mut items = Vec::new(alloc);
        for _item in 0..count {
            let tests = List::new(alloc);
            items.push(ItemPlan { key: None, tests })?;
        }
        let before = List::new(alloc);
        Ok(StepPlan {
            once,
            before,
            items,
        })
    }

    /// Judges a condition as soon as the items are chosen that it speaks of.
    pub(crate) fn judge(&mut self, reach: usize, cond: ReadyCond) -> Result<(), Memory>
        requires { SpeaksOf 0 reach (truth cond) }
        ensures count { OnOk result (item_count self.new ≡ item_count self.old) }
        ensures judged { OnOk result
            (JudgesToo (λ scope scopes. keeps cond (scope ∷ scopes)) self.old self.new) }
    {
        let reach = lesser(reach, self.items.len());
        if reach == 0 {
            self.before.push(cond)?;
        } else {
            add_test(&mut self.items[reach - 1], cond)?;
        }
        Ok(())
    }

    /// Whether the item is there, and its rows are worth finding by a key and are not yet.
    pub(crate) fn is_free(&self, item: usize) -> bool
        ensures there { result ≡ true → item < item_count self.now }
        ensures free { result ≡ true → IsFree self.now item }
    {
        if self.once && item == 0 {
            return false;
        }
        match self.items.get(item) {
            Some(item) => item.key.is_none(),
            None => false,
        }
    }

    /// Finds the rows of an item by the value of a column.
    pub(crate) fn find_by(&mut self, item: usize, column: u32, scalar: ReadyScalar, nulls: bool)
        requires there { item < item_count self.old }
        requires free { IsFree self.old item }
        requires speaks { SpeaksOf 0 item (value scalar) }
        ensures count { item_count self.new ≡ item_count self.old }
        ensures judged { JudgesToo (λ scope scopes. is_found nulls
            (cell_in (slice_index_or scope item no_row) column) (value scalar (scope ∷ scopes))) self.old self.new }
    {
        self.items[item].key = Some(ItemKey {
            nulls,
            column,
            scalar,
        });
    }

    /// The search through items that have these rows.
    pub(crate) fn search(
        self,
        alloc: Global,
        rows: List<List<AnswerRow>>,
    ) -> Result<ReadySearch, Memory>
        requires { length rows ≡ item_count self }
        ensures { IfOk result (λ made. (scopes : Scopes) → kept made scopes
            ≡ filter (λ scope. plan_keeps self scope scopes) (product rows)) }
    {
        let StepPlan {
            once: _,
            before,
            items,
        } = self;
        let mut steps = List::new(alloc);
        for (rows, item) in rows.into_vec().into_iter().zip(items) {
            steps.push(item.step(alloc, rows)?)?;
        }
        Ok(ReadySearch { before, steps })
    }
}

/// The lesser of two numbers.
fn lesser(a: usize, b: usize) -> usize
    ensures { result ≡ min a b }
{
    if a < b { a } else { b }
}

/// Judges a condition too where a row of this item is chosen.
fn add_test(item: &mut ItemPlan, cond: ReadyCond) -> Result<(), Memory>
    ensures key { OnOk result (item.new.key ≡ item.old.key) }
    ensures tests { OnOk result (item.new.tests ≡ item.old.tests ++ cond ∷ []) }
{
    item.tests.push(cond)
}
