//! What is left of a term over one table, closed leaves, and copies.
use base_prefs::lowest;
use pref_terms::{Leaf, Term, is_closed_leaf, restrict};
use prefsql_tables::ColumnPlace;
use prefsql_values::{Boxed, Memory};
use std::alloc::Global;
use std::test::Fail;

/// The leaf of a column of the FROM table at this position.
fn on(number: u32, table: u32) -> Term {
    Term::Leaf(Leaf {
        number,
        place: ColumnPlace { table, column: 0 },
        base: lowest(),
        trivial: false,
    })
}

/// `(1 CASCADE 2) AND 3`, where 2 is on the second table.
fn three_leaves(alloc: Global) -> Result<Term, Memory> {
    let prior = Term::Prior(Boxed::new(alloc, on(1, 0))?, Boxed::new(alloc, on(2, 1))?);
    Ok(Term::Pareto(Boxed::new(alloc, prior)?, Boxed::new(alloc, on(3, 0))?))
}

/// Adds the number of each leaf.
fn add_numbers(term: &Term, numbers: &mut Vec<u32>) -> Result<(), Memory> {
    match term {
        Term::Leaf(leaf) => numbers.push(leaf.number)?,
        Term::Pareto(first, second) => {
            add_numbers(first.get(), numbers)?;
            add_numbers(second.get(), numbers)?;
        }
        Term::Prior(first, second) => {
            add_numbers(first.get(), numbers)?;
            add_numbers(second.get(), numbers)?;
        }
        Term::Dual(inner) => add_numbers(inner.get(), numbers)?,
    }
    Ok(())
}

/// The numbers of the leaves that a copy of the term keeps on the table.
fn numbers_on(alloc: Global, term: &Term, table: u32) -> Result<Vec<u32>, Memory> {
    let mut numbers = Vec::new(alloc);
    if let Some(left) = restrict(alloc, &term.copy(alloc)?, table)? {
        add_numbers(&left, &mut numbers)?;
    }
    Ok(numbers)
}

#[test]
fn a_lost_part_leaves_the_other(rt: HostRuntime) -> Result<(), Fail> {
    let term = three_leaves(rt.alloc())?;
    let numbers = numbers_on(rt.alloc(), &term, 0)?;
    assert_eq!(rt; numbers.as_slice(), [1, 3].as_slice());
    for (number, closed) in [(1, true), (2, false), (3, true)] {
        assert_eq!(rt; is_closed_leaf(&term, number), closed, "{number}");
    }
    Ok(())
}
