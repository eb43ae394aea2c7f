//! The three statements of the bench.
ghost use Rattle.std.specs.Prelude.{◌≡◌, ℕ, [], ◌∷◌, All, IfOk};
ghost use Rattle.base_prefs.specs.declared.kind.Kind.TheVariants.{PosNeg};
ghost use Rattle.query_meaning.specs.BlockFits.{FitsTables};
ghost use Rattle.query_meaning.specs.Valid.{IsValidBlock};
ghost use Rattle.prefsql_bench.specs.BenchTable.{bench_set};
ghost use Rattle.prefsql_bench.specs.Statements.{bench_block, bench_blocks, bench_leaf, bench_place, first_block, from_bench, number_set, output_id, second_block, third_block};

use crate::table::{number_values, schema};
use base_prefs::{BaseFault, BasePref, ValueSet, around, highest, lowest, pos_neg};
use conditions::Scalar;
use pref_terms::{Leaf, Term};
use prefsql_tables::ColumnPlace;
use prefsql_values::{Boxed, List, Memory, Text};
use query_meaning::{Block, FromTable, Output};
use std::alloc::Global;

const ID: u32 = 0;

const A: u32 = 1;

const B: u32 = 2;

const C: u32 = 3;

const G: u32 = 4;

/// The three queries of the bench, in their order, which ask the table BENCH. The only error is
/// want of memory.
pub fn bench_blocks(alloc: Global) -> Result<List<Block>, Memory>
    ensures exact { IfOk result (λ blocks. blocks ≡ bench_blocks) }
    ensures valid { IfOk result (λ blocks. All IsValidBlock blocks) }
    ensures fits { IfOk result
        (λ blocks. (row_count : ℕ) → All (FitsTables (bench_set row_count)) blocks) }
{
    let mut blocks = List::new(alloc);
    blocks.push(first_block(alloc)?)?;
    blocks.push(second_block(alloc)?)?;
    blocks.push(third_block(alloc)?)?;
    Ok(blocks)
}

/// `SELECT ID FROM BENCH PREFERRING LOWEST(A) AND LOWEST(B) AND HIGHEST(C)`.
fn first_block(alloc: Global) -> Result<Block, Memory>
    ensures { IfOk result (λ block. block ≡ first_block) }
{
    let lowest_both = pareto(alloc, leaf(1, A, lowest()), leaf(2, B, lowest()))?;
    let term = pareto(alloc, lowest_both, leaf(3, C, highest()))?;
    block(alloc, term, List::new(alloc))
}

/// `SELECT ID FROM BENCH PREFERRING A AROUND 500 CASCADE LOWEST(B) GROUPING G`.
fn second_block(alloc: Global) -> Result<Block, Memory>
    ensures { IfOk result (λ block. block ≡ second_block) }
{
    let mut groups = List::new(alloc);
    groups.push(place(G))?;
    let nearest = Boxed::new(alloc, leaf(1, A, around(500)))?;
    let smallest = Boxed::new(alloc, leaf(2, B, lowest()))?;
    block(alloc, Term::Prior(nearest, smallest), groups)
}

/// `SELECT ID FROM BENCH PREFERRING (G IN (3, 7) ELSE G <> 0) AND LOWEST(A)`.
fn third_block(alloc: Global) -> Result<Block, Memory>
    ensures { IfOk result (λ block. block ≡ third_block) }
{
    let term = pareto(alloc, leaf(1, G, best_groups(alloc)?), leaf(2, A, lowest()))?;
    block(alloc, term, List::new(alloc))
}

/// `SELECT ID FROM BENCH` with this preference within these groups.
fn block(alloc: Global, term: Term, groups: List<ColumnPlace>) -> Result<Block, Memory>
    ensures { IfOk result (λ block. block ≡ bench_block term groups) }
{
    let mut output = List::new(alloc);
    output.push(output_id(alloc)?)?;
    let mut from = List::new(alloc);
    from.push(from_bench(alloc)?)?;
    Ok(Block {
        distinct: false,
        output,
        from,
        filter: List::new(alloc),
        term: Some(term),
        groups,
        only: List::new(alloc),
        order: List::new(alloc),
    })
}

/// The output column ID.
fn output_id(alloc: Global) -> Result<Output, Memory>
    ensures { IfOk result (λ output. output ≡ output_id) }
{
    Ok(Output {
        name: Text::of(alloc, "ID")?,
        scalar: Scalar::Column(place(ID)),
    })
}

/// The FROM table BENCH.
fn from_bench(alloc: Global) -> Result<FromTable, Memory>
    ensures { IfOk result (λ table. table ≡ from_bench) }
{
    Ok(FromTable {
        index: 0,
        name: Text::of(alloc, "BENCH")?,
        schema: schema(alloc)?,
    })
}

/// The place of a column.
fn place(column: u32) -> ColumnPlace
    ensures { result ≡ bench_place column }
{
    ColumnPlace { table: 0, column }
}

/// The leaf with this number on a column, REGULAR.
fn leaf(number: u32, column: u32, base: BasePref) -> Term
    ensures { result ≡ bench_leaf number column base }
{
    Term::Leaf(Leaf {
        number,
        place: place(column),
        base,
        trivial: false,
    })
}

/// Both parts count alike.
fn pareto(alloc: Global, first: Term, second: Term) -> Result<Term, Memory>
    ensures { IfOk result (λ term. term ≡ Term.Pareto first second) }
{
    Ok(Term::Pareto(Boxed::new(alloc, first)?, Boxed::new(alloc, second)?))
}

/// The groups 3 and 7 are best, and 0 is worst.
fn best_groups(alloc: Global) -> Result<BasePref, Memory>
    ensures { IfOk result (λ base. base ≡ PosNeg (number_set (3 ∷ 7 ∷ [])) (number_set (0 ∷ []))) }
{
    let good = number_set(alloc, &[3, 7])?;
    let bad = number_set(alloc, &[0])?;
    match pos_neg(alloc, good, bad) {
        Ok(base) => Ok(base),
        Err(BaseFault::Memory) => Err(Memory),
        Err(_) => unreachable!(),
    }
}

/// The set of these numbers.
fn number_set(alloc: Global, numbers: &[u64]) -> Result<ValueSet, Memory>
    ensures { IfOk result (λ set. set ≡ number_set numbers.now) }
{
    Ok(ValueSet {
        values: number_values(alloc, numbers)?,
    })
}
