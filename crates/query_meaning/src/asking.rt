//! A block over the tables that it fits, and what it asks of combinations of their rows.
ghost use Rattle.std.specs.Prelude.{◌≡◌, ◌++◌, [], ◌∷◌, All, IfOk, OnOk, filter, map};
ghost use Rattle.std.specs.List.{flat_map};
ghost use Rattle.prefsql_tables.specs.Combos.{combos_of};
ghost use Rattle.conditions.specs.Meaning.{scalars_of};
ghost use Rattle.query_meaning.specs.Answers.{answer_of_rows, best_rows, candidates, output_row, passes, row_counts};
ghost use Rattle.query_meaning.specs.Asking.{IsAsked, IsRowChoice, is_candidate, is_kept, shows};
ghost use Rattle.query_meaning.specs.BlockFits.{IsScalar};
ghost use Rattle.query_meaning.specs.Choices.{IsChoice, IsCompleted, begun};
ghost use Rattle.query_meaning.specs.declared.block.Output.{Output};

use crate::block::{Block, Output};
use conditions::{Cond, holds, scalar_cell};
use pref_terms::BoundTerm;
use prefsql_tables::{Answer, AnswerRow, Combo, TableSet, has_one_arrangement};
use prefsql_values::{List, Memory, Steps, Text, Truth};
use std::alloc::Global;
use std::mem;
use std::sync::ledger::Ledger;
use window_eval::best_of;

/// A block, the tables that it fits, and the position among them of each of its FROM tables.
#[derive(Drop)]
pub struct Asked<'t> {
    pub block: &'t Block,
    pub tables: &'t TableSet,
    pub from: &'t [u32],
}

impl Asked<'_> {
    /// Whether every condition is True for a combination of a row of each FROM table.
    pub fn passes(&self, conds: &[Cond], combo: &Combo) -> bool
        requires asked { IsAsked self.now }
        requires places { All (IsScalar self.now.block.now.from) (flat_map scalars_of conds.now) }
        requires chosen { IsRowChoice self.now combo.now }
        ensures { result ≡ passes conds.now (shows self.now combo.now) }
    {
        for cond in conds {
            match holds(cond, self.tables, self.from, 0, combo) {
                Truth::True => {}
                Truth::Unknown | Truth::False => return false,
            }
        }
        true
    }

    /// The candidates.
    pub(crate) fn candidates(&self, alloc: Global) -> Result<Vec<Combo>, Memory>
        requires { IsAsked self.now }
        ensures { IfOk result
            (λ combos. combos.items ≡ candidates self.now.tables.now self.now.block.now) }
    {
        let mut limits = Vec::new(alloc);
        for table in self.block.from.as_slice() {
            limits.push(self.tables.row_count(table.index))?;
        }
        let mut found = Vec::new(alloc);
        let mut rows = Vec::new(alloc);
        self.gather(alloc, &mut rows, &limits, &mut found)?;
        Ok(found)
    }

    /// Adds the candidates that begin with these rows and go on with one below each limit.
    fn gather(
        &self,
        alloc: Global,
        rows: &mut Vec<u32>,
        limits: &[u32],
        found: &mut Vec<Combo>,
    ) -> Result<(), Memory>
        requires asked { IsAsked self.now }
        requires completed { IsCompleted (row_counts self.now.tables.now self.now.block.now.from)
            rows.old.items limits.now }
        ensures rows { OnOk result (rows.new.items ≡ rows.old.items) }
        ensures found { OnOk result (found.new.items ≡ found.old.items
            ++ filter (is_candidate self.now) (begun rows.old.items (combos_of limits.now))) }
    {
        match limits.split_first() {
            None => self.add_candidate(alloc, rows, found),
            Some((limit, more)) => {
                for row in 0..*limit {
                    rows.push(row)?;
                    self.gather(alloc, rows, more, found)?;
                    rows.pop();
                }
                Ok(())
            }
        }
    }

    /// Adds the combination of these rows where it is a candidate. Memory is taken for a candidate
    /// alone.
    fn add_candidate(
        &self,
        alloc: Global,
        rows: &mut Vec<u32>,
        found: &mut Vec<Combo>,
    ) -> Result<(), Memory>
        requires asked { IsAsked self.now }
        requires chosen { IsChoice (row_counts self.now.tables.now self.now.block.now.from)
            rows.old.items }
        ensures rows { OnOk result (rows.new.items ≡ rows.old.items) }
        ensures found { OnOk result (found.new.items ≡ found.old.items
            ++ filter (is_candidate self.now) (record { rows = rows.old.items } ∷ [])) }
    {
        let combo = Combo {
            rows: List::of(mem::replace(rows, Vec::new(alloc))),
        };
        if self.passes(self.block.filter.as_slice(), &combo) {
            found.push(copy(alloc, &combo)?)?;
        }
        *rows = combo.rows.into_vec();
        Ok(())
    }

    /// The best rows of the candidates.
    pub(crate) fn best_rows<L: Ledger>(
        &self,
        alloc: Global,
        combos: Vec<Combo>,
        steps: &mut Steps<L>,
    ) -> Result<List<Combo>, Memory>
        requires asked { IsAsked self.now }
        requires given { combos.items ≡ candidates self.now.tables.now self.now.block.now }
        ensures { IfOk result (λ best. best ≡ best_rows self.now.tables.now self.now.block.now) }
    {
        match &self.block.term {
            None => Ok(List::of(combos)),
            Some(term) => {
                let bound = BoundTerm {
                    tables: self.tables,
                    from: self.from,
                    first: 0,
                    term,
                    groups: self.block.groups.as_slice(),
                };
                let best = best_of(alloc, &bound, combos, steps)?;
                Ok(best.items)
            }
        }
    }

    /// Those of the combinations for which BUT ONLY is True.
    pub(crate) fn kept_rows(&self, alloc: Global, best: List<Combo>) -> Result<List<Combo>, Memory>
        requires asked { IsAsked self.now }
        requires chosen { All (IsRowChoice self.now) best }
        ensures { IfOk result (λ kept. kept ≡ filter (is_kept self.now) best) }
    {
        let mut kept = List::new(alloc);
        for combo in best.into_vec() {
            if self.passes(self.block.only.as_slice(), &combo) {
                kept.push(combo)?;
            }
        }
        Ok(kept)
    }

    /// The answer that shows these combinations of a row of each FROM table: their output values,
    /// arranged.
    pub fn answer(&self, alloc: Global, combos: &[Combo]) -> Result<Answer, Memory>
        requires asked { IsAsked self.now }
        requires chosen { All (IsRowChoice self.now) combos.now }
        ensures { IfOk result
            (λ answer. answer ≡ answer_of_rows self.now.tables.now self.now.block.now combos.now) }
    {
        let rows = self.answer_rows(alloc, combos)?;
        let names = names(alloc, self.block.output.as_slice())?;
        has_one_arrangement();
        Answer { names, rows }.arrange(alloc, self.block.distinct, self.block.order.as_slice())
    }

    /// The output values of each combination.
    fn answer_rows(&self, alloc: Global, combos: &[Combo]) -> Result<List<AnswerRow>, Memory>
        requires asked { IsAsked self.now }
        requires chosen { All (IsRowChoice self.now) combos.now }
        ensures { IfOk result
            (λ rows. rows ≡ map
            (λ combo. output_row self.now.block.now (shows self.now combo)) combos.now) }
    {
        let mut rows = List::new(alloc);
        for combo in combos {
            rows.push(self.answer_row(alloc, combo)?)?;
        }
        Ok(rows)
    }

    /// The output values of a combination of a row of each FROM table.
    pub fn answer_row(&self, alloc: Global, combo: &Combo) -> Result<AnswerRow, Memory>
        requires asked { IsAsked self.now }
        requires chosen { IsRowChoice self.now combo.now }
        ensures { IfOk result
            (λ row. row ≡ output_row self.now.block.now (shows self.now combo.now)) }
    {
        let mut cells = List::new(alloc);
        for output in self.block.output.as_slice() {
            let cell = scalar_cell(&output.scalar, self.tables, self.from, 0, combo);
            cells.push(cell.to_value(alloc)?)?;
        }
        Ok(AnswerRow { cells })
    }
}

fn copy(alloc: Global, combo: &Combo) -> Result<Combo, Memory>
    ensures { IfOk result (λ copied. copied ≡ combo.now) }
{
    let rows = List::of(combo.rows.as_slice().iter().copied().collect(alloc)?);
    Ok(Combo { rows })
}

/// The name of each output column.
fn names(alloc: Global, outputs: &[Output]) -> Result<List<Text>, Memory>
    ensures { IfOk result (λ names. names ≡ map (λ (output : Output). output.name) outputs.now) }
{
    let mut names = List::new(alloc);
    for output in outputs {
        names.push(output.name.copy(alloc)?)?;
    }
    Ok(names)
}
