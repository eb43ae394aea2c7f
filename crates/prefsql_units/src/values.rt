//! Values, cells and truths compared.
use prefsql_values::{
    Boxed, Cell, CompareOp, List, Memory, Text, Truth, Value, and, compare, compares, not,
    not_distinct, number_text, or, order_nulls_last,
};
use std::alloc::Global;
use std::cmp::Ordering;
use std::test::Fail;

// Each text is before the next one by code points; by UTF-16 units U+FFFF is behind U+10000.
const RISING: [&str; 15] = [
    "",
    "A",
    "Z",
    "a",
    "ab",
    "\u{7f}",
    "\u{80}",
    "\u{7ff}",
    "\u{800}",
    "\u{d7ff}",
    "\u{e000}",
    "\u{ffff}",
    "\u{10000}",
    "\u{10000}a",
    "\u{10ffff}",
];

// Whether any two compare as their places do.
fn rise(texts: &[&str]) -> bool {
    for (i, s) in texts.iter().enumerate() {
        for (j, t) in texts.iter().enumerate() {
            if compare(Cell::Str(*s), Cell::Str(*t)) != Some(i.cmp(&j)) {
                return false;
            }
        }
    }
    true
}

#[test]
fn texts_rise_by_code_points(rt: HostRuntime) {
    assert!(rt; rise(&RISING));
}

#[test]
fn numbers_read_as_decimals(rt: HostRuntime) -> Result<(), Fail> {
    for (n, want) in [
        (0, "0"),
        (7, "7"),
        (-1, "-1"),
        (999999999999999999, "999999999999999999"),
        (i128::MIN, "-170141183460469231731687303715884105728"),
    ] {
        assert!(rt; number_text(rt.alloc(), n)?.as_str() == want);
    }
    Ok(())
}

// The tables for AND, OR and NOT of ISO/IEC 9075:1992.
#[test]
fn three_valued_tables(rt: HostRuntime) {
    let (f, u, t) = (Truth::False, Truth::Unknown, Truth::True);
    for (a, b, wanted) in [
        (t, t, (t, t, f)),
        (t, f, (f, t, f)),
        (t, u, (u, t, f)),
        (f, t, (f, t, t)),
        (f, f, (f, f, t)),
        (f, u, (f, u, t)),
        (u, t, (u, t, u)),
        (u, f, (f, u, u)),
        (u, u, (u, u, u)),
    ] {
        assert!(rt; (and(a, b), or(a, b), not(a)) == wanted);
    }
}

#[test]
fn null_compares_to_nothing(rt: HostRuntime) {
    for (op, left, right, wanted) in [
        (CompareOp::Eq, Cell::Null, Cell::Null, Truth::Unknown),
        (CompareOp::Ne, Cell::Num(1), Cell::Null, Truth::Unknown),
        (CompareOp::Le, Cell::Num(-1), Cell::Num(1), Truth::True),
        (CompareOp::Gt, Cell::Str("a"), Cell::Str("b"), Truth::False),
    ] {
        assert!(rt; compares(op, left, right) == wanted);
    }
    assert!(rt; compare(Cell::Null, Cell::Num(1)) == None);
    assert!(rt; order_nulls_last(Cell::Null, Cell::Num(5)) == Ordering::Greater);
}

// Whether a copy of the value is the same, and one by its cell.
fn copies(alloc: Global, value: &Value) -> Result<bool, Memory> {
    let cell = value.cell();
    let same = not_distinct(value.copy(alloc)?.cell(), cell);
    Ok(same && not_distinct(cell.to_value(alloc)?.cell(), cell))
}

// NULL and 3, by way of a box.
fn list(alloc: Global) -> Result<List<Value>, Memory> {
    let mut list = List::new(alloc);
    list.push(Value::Null)?;
    list.push(Boxed::new(alloc, Value::Num(3))?.into_inner())?;
    Ok(List::of(list.into_vec()))
}

#[test]
fn copies_succeed(rt: HostRuntime) -> Result<(), Fail> {
    let text = Value::Str(Text::of(rt.alloc(), "\u{e9}t\u{e9}")?);
    assert!(rt; copies(rt.alloc(), &text)?);
    for value in list(rt.alloc())?.as_slice() {
        assert!(rt; copies(rt.alloc(), value)?);
    }
    Ok(())
}
