//! Plans as text.
ghost use Rattle.std.specs.Prelude.{◌≡◌, ◌++◌, codes, decimal, slice_get, IfOk, OnOk};
ghost use Rattle.std.specs.List.{flat_map};
ghost use Rattle.std.specs.Str.{IsUtf8};
ghost use Rattle.std.specs.String.{string_bytes};
ghost use Rattle.plan_algebra.specs.PlanText.{best_text, column_of, conjunct_text, deeper, filter_text, group_text, groups_text, line, name_of_column, name_of_table, plan_lines, plan_text, scan_text, term_text};

use crate::plan::{Conjunct, Plan};
use pref_terms::Term;
use prefsql_tables::ColumnPlace;
use prefsql_values::Memory;
use query_meaning::Block;
use std::alloc::Global;

/// A valid plan of the block as text: one line for each node, the top first, each indented by two
/// spaces for each node above it, and an empty line at the end. Names are written as they are,
/// numbers from 1. The only error is want of memory.
pub fn explain_text(alloc: Global, plan: &Plan, block: &Block) -> Result<Vec<u8>, Memory>
    ensures exact { IfOk result (λ text. text.items ≡ plan_text block.now plan.now) }
    ensures utf8 { IfOk result (λ text. IsUtf8 text.items) }
{
    let mut text = String::new(alloc);
    add_lines(alloc, plan, block, "", &mut text)?;
    text.push_str("\n")?;
    let _characters = text.as_str();
    Ok(text.into_bytes())
}

/// Adds the line of a node behind its indentation, and those of the nodes below it.
#[tactic(auto, using(crate::proofs::TextReads::line_reads))]
fn add_lines(
    alloc: Global,
    plan: &Plan,
    block: &Block,
    indent: &str,
    text: &mut String,
) -> Result<(), Memory>
    ensures { OnOk result (string_bytes text.new ≡ string_bytes text.old
        ++ plan_lines block.now plan.now indent.now) }
{
    match plan {
        Plan::Scan(table) => add_scan(*table, block, indent, text),
        Plan::Filter(conjuncts, below) => {
            add_filter(conjuncts.as_slice(), indent, text)?;
            let deeper = deeper(alloc, indent)?;
            add_lines(alloc, below.get(), block, deeper.as_str(), text)
        }
        Plan::Join(left, right) => {
            add_join(indent, text)?;
            let deeper = deeper(alloc, indent)?;
            add_lines(alloc, left.get(), block, deeper.as_str(), text)?;
            add_lines(alloc, right.get(), block, deeper.as_str(), text)
        }
        Plan::Best(term, groups, below) => {
            add_best(term, groups.as_slice(), block, indent, text)?;
            let deeper = deeper(alloc, indent)?;
            add_lines(alloc, below.get(), block, deeper.as_str(), text)
        }
    }
}

/// Two spaces more.
fn deeper(alloc: Global, indent: &str) -> Result<String, Memory>
    ensures { IfOk result (λ more. string_bytes more ≡ deeper indent.now) }
{
    Ok(format!(in alloc; "{indent}  ")?)
}

fn add_scan(table: u32, block: &Block, indent: &str, text: &mut String) -> Result<(), Memory>
    ensures { OnOk result (string_bytes text.new ≡ string_bytes text.old
        ++ line indent.now (scan_text block.now table)) }
{
    let number = u64::from(table) + 1;
    let name = table_name(block, table);
    write!(text, "{indent}scan T{number} {name}\n")?;
    Ok(())
}

fn add_join(indent: &str, text: &mut String) -> Result<(), Memory>
    ensures { OnOk result (string_bytes text.new ≡ string_bytes text.old
        ++ line indent.now (codes "join")) }
{
    write!(text, "{indent}join\n")?;
    Ok(())
}

fn add_filter(conjuncts: &[Conjunct], indent: &str, text: &mut String) -> Result<(), Memory>
    ensures { OnOk result (string_bytes text.new ≡ string_bytes text.old
        ++ line indent.now (filter_text conjuncts.now)) }
{
    write!(text, "{indent}filter")?;
    add_conjuncts(conjuncts, text)?;
    text.push_str("\n")?;
    Ok(())
}

fn add_conjuncts(conjuncts: &[Conjunct], text: &mut String) -> Result<(), Memory>
    ensures { OnOk result (string_bytes text.new ≡ string_bytes text.old
        ++ flat_map conjunct_text conjuncts.now) }
{
    for conjunct in conjuncts {
        add_conjunct(*conjunct, text)?;
    }
    Ok(())
}

fn add_conjunct(conjunct: Conjunct, text: &mut String) -> Result<(), Memory>
    ensures { OnOk result (string_bytes text.new ≡ string_bytes text.old
        ++ conjunct_text conjunct) }
{
    match conjunct {
        Conjunct::Filter(position) => {
            let number = u64::from(position) + 1;
            write!(text, " W{number}")?;
        }
        Conjunct::Only(position) => {
            let number = u64::from(position) + 1;
            write!(text, " B{number}")?;
        }
    }
    Ok(())
}

fn add_best(
    term: &Term,
    groups: &[ColumnPlace],
    block: &Block,
    indent: &str,
    text: &mut String,
) -> Result<(), Memory>
    ensures { OnOk result (string_bytes text.new ≡ string_bytes text.old
        ++ line indent.now (best_text block.now term.now groups.now)) }
{
    write!(text, "{indent}best ")?;
    add_term(term, text)?;
    add_groups(groups, block, text)?;
    text.push_str("\n")?;
    Ok(())
}

/// Adds a term: its leaves by their numbers.
#[tactic(auto, using(crate::proofs::TextReads::term_reads))]
fn add_term(term: &Term, text: &mut String) -> Result<(), Memory>
    ensures { OnOk result (string_bytes text.new ≡ string_bytes text.old ++ term_text term.now) }
{
    match term {
        Term::Leaf(leaf) => add_leaf(leaf.number, text),
        Term::Pareto(first, second) => {
            text.push_str("(")?;
            add_term(first.get(), text)?;
            text.push_str(" and ")?;
            add_term(second.get(), text)?;
            text.push_str(")")?;
            Ok(())
        }
        Term::Prior(first, second) => {
            text.push_str("(")?;
            add_term(first.get(), text)?;
            text.push_str(" cascade ")?;
            add_term(second.get(), text)?;
            text.push_str(")")?;
            Ok(())
        }
        Term::Dual(inner) => {
            text.push_str("(dual ")?;
            add_term(inner.get(), text)?;
            text.push_str(")")?;
            Ok(())
        }
    }
}

fn add_leaf(number: u32, text: &mut String) -> Result<(), Memory>
    ensures { OnOk result (string_bytes text.new ≡ string_bytes text.old
        ++ (codes "P" ++ decimal number)) }
{
    write!(text, "P{number}")?;
    Ok(())
}

fn add_groups(groups: &[ColumnPlace], block: &Block, text: &mut String) -> Result<(), Memory>
    ensures { OnOk result (string_bytes text.new ≡ string_bytes text.old
        ++ groups_text block.now groups.now) }
{
    if !groups.is_empty() {
        text.push_str(" by")?;
        add_places(groups, block, text)?;
    }
    Ok(())
}

fn add_places(groups: &[ColumnPlace], block: &Block, text: &mut String) -> Result<(), Memory>
    ensures { OnOk result (string_bytes text.new ≡ string_bytes text.old
        ++ flat_map (group_text block.now) groups.now) }
{
    for place in groups {
        add_place(*place, block, text)?;
    }
    Ok(())
}

fn add_place(place: ColumnPlace, block: &Block, text: &mut String) -> Result<(), Memory>
    ensures { OnOk result (string_bytes text.new ≡ string_bytes text.old
        ++ group_text block.now place) }
{
    let number = u64::from(place.table) + 1;
    let name = column_name(block, place);
    write!(text, " T{number}.{name}")?;
    Ok(())
}

/// The name of the FROM table at this position; an empty one where there is none.
fn table_name(block: &Block, table: u32) -> &str
    ensures { result.now ≡ name_of_table (slice_get block.now.from table) }
{
    match block.from.as_slice().get(table as usize) {
        None => "",
        Some(table) => table.name.as_str(),
    }
}

/// The name of a column; an empty one where there is none.
fn column_name(block: &Block, place: ColumnPlace) -> &str
    ensures { result.now
        ≡ name_of_column (column_of (slice_get block.now.from place.table) place.column) }
{
    let Some(table) = block.from.as_slice().get(place.table as usize) else {
        return "";
    };
    match table.schema.columns.as_slice().get(place.column as usize) {
        None => "",
        Some(column) => column.name.as_str(),
    }
}
