//! The best of a list by a base preference alone.
ghost use Rattle.std.specs.Prelude.{◌≡◌, ◌<◌, false, All, IfOk};
ghost use Rattle.base_prefs.specs.RankedLaws.{IsRanked};
ghost use Rattle.base_prefs.specs.declared.kind.Kind.TheVariants.{Lowest};

use base_prefs::{Ranked, lowest};
use prefsql_values::{Memory, Steps, Value};
use std::alloc::Global;
use std::marker::Brand;
use std::sync::ledger::{Blank, Ledger};
use std::test::Fail;
use window_eval::best_of;

fn numbers(alloc: Global, written: &[i64]) -> Result<Vec<Value>, Memory>
    ensures { IfOk result (λ values. All (IsRanked Lowest false) values.items) }
{
    let mut values = Vec::new(alloc);
    for n in written {
        values.push(Value::Num(i128::from(*n)))?;
    }
    Ok(values)
}

/// The number, or 0.
fn number(value: &Value) -> i128 {
    match value {
        Value::Num(n) => *n,
        Value::Str(_) | Value::Null => 0,
    }
}

/// The best of the numbers by LOWEST, and how many tests finding them took.
fn lowest_of<L: Ledger>(
    alloc: Global,
    written: &[i64],
    blank: Blank,
) -> Result<(Vec<i128>, u64), Memory>
    requires name { blank.name ≡ L.name }
    requires parts { blank.parts ≡ L.parts }
    requires backed { 0 < L.parts }
{
    let mut steps = Steps::<L>::new(blank);
    let base = lowest();
    let pref = Ranked {
        base: &base,
        trivial: false,
    };
    let chosen = best_of(alloc, &pref, numbers(alloc, written)?, &mut steps)?;
    let mut found = Vec::new(alloc);
    for value in chosen.items.as_slice() {
        found.push(number(value))?;
    }
    Ok((found, chosen.tests))
}

#[test]
fn equal_items_are_all_kept(rt: HostRuntime) -> Result<(), Fail> {
    let (found, tests) = lowest_of::<Brand>(rt.alloc(), &[1, 1, 1, 2], Blank::new(1))?;
    assert_eq!(rt; found.as_slice(), [1, 1, 1].as_slice());
    assert!(rt; 1 <= tests && tests <= 4);
    Ok(())
}
