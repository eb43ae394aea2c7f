//! The trees of scripts, and their first faults.
ghost use Rattle.std.specs.Prelude.{◌≤◌, length};

use prefsql_lexer::tokens;
use query_parser::{ParseFault, parse_script};
use std::alloc::Global;
use std::test::Fail;

/// The last statement of a script, as it is printed, and the number of them, or the first grammar
/// fault.
fn shown(alloc: Global, script: &str) -> Result<String, Fail>
    requires { length script.now ≤ 268435456 }
{
    let Ok(found) = tokens(alloc, script.as_bytes(), 64) else {
        return Err("refused by the lexer".into());
    };
    let text = match parse_script(alloc, found.as_slice(), script.len() as u32) {
        Ok(trees) => {
            let count = trees.as_slice().len();
            match trees.as_slice().last() {
                Some(tree) => format!(in alloc; "{count} {tree:?}"),
                None => String::from_str(alloc, "0"),
            }
        }
        Err(ParseFault::Bad(spot)) => format!(in alloc; "E{} at {}", spot.code, spot.at),
        Err(ParseFault::Memory) => String::from_str(alloc, "memory"),
    };
    Ok(text?)
}

// Codes and places are counted by hand, and so are the places in a tree, whose shape is written by
// hand. Each production stands once.
#[test]
fn trees_and_first_faults(rt: HostRuntime) -> Result<(), Fail> {
    for (script, want) in [
        (
            "SELECT id FROM cars PREFERRING LOWEST(price) AND",
            "E202 at 48",
        ),
        ("SELECT id FROM cars PREFERRING AND", "E201 at 31"),
        ("SELECT id FROM cars;;", "E201 at 20"),
        ("SELECT id FROM cars; SELECT", "E202 at 27"),
        (
            "SELECT id FROM cars; SELECT id FROM cars WHERE; SELECT id FROM cars",
            "E201 at 46",
        ),
        ("SELECT id FROM cars WHERE NOT NOT id = 1", "E201 at 30"),
        (
            "SELECT id FROM cars PREFERRING id EXPLICIT (1 > 2) REGULAR",
            "E201 at 51",
        ),
        (
            "SELECT id FROM cars PREFERRING id LAYERED (OTHERS, OTHERS)",
            "E201 at 51",
        ),
        (
            "SELECT id FROM cars PREFERRING id LAYERED (OTHERS)",
            "E201 at 49",
        ),
        ("SELECT id FROM cars WHERE LEVEL(id) = 1", "E201 at 26"),
        (" -- nothing", "0"),
        (
            "SELECT id FROM cars WHERE ((((((((((((((((((((((((((((((((((((((((((((((((((((((((((((((((id = 1))))))))))))))))))))))))))))))))))))))))))))))))))))))))))))))))",
            "1 QueryTree { distinct: false, select: Items(List { items: [ItemTree { value: Column(NameTree { first: Text { text: \"ID\" }, second: None, at: 7 }), name: None }] }), from: List { items: [FromTree { table: Text { text: \"CARS\" }, name: None, at: 15, name_at: 15 }] }, filter: Some(Compare(Eq, Column(NameTree { first: Text { text: \"ID\" }, second: None, at: 90 }), Literal(LiteralTree { value: Num(1), at: 95 }))), prefer: None, groups: List { items: [] }, only: None, order: List { items: [] } }",
        ),
        (
            "SELECT DISTINCT a, b.c AS d, LEVEL(a) l, DISTANCE(a) FROM t, u AS v WHERE a = 1 AND NOT b.c NOT IN ('x', -2) OR a IS NOT NULL AND a BETWEEN +1 AND 2 PREFERRING (a IN (1, 2) ELSE a <> 3) AND LOWEST(b.c) TRIVIAL CASCADE b.c EXPLICIT ('x' > 'y') AND HIGHEST(a) REGULAR GROUPING a, b.c BUT ONLY TOP(a) AND LEVEL(a) <= 2 ORDER BY d DESC, 2 -- end",
            "1 QueryTree { distinct: true, select: Items(List { items: [ItemTree { value: Column(NameTree { first: Text { text: \"A\" }, second: None, at: 16 }), name: None }, ItemTree { value: Column(NameTree { first: Text { text: \"B\" }, second: Some(Text { text: \"C\" }), at: 19 }), name: Some(Text { text: \"D\" }) }, ItemTree { value: Level(NameTree { first: Text { text: \"A\" }, second: None, at: 35 }, 29), name: Some(Text { text: \"L\" }) }, ItemTree { value: Distance(NameTree { first: Text { text: \"A\" }, second: None, at: 50 }, 41), name: None }] }), from: List { items: [FromTree { table: Text { text: \"T\" }, name: None, at: 58, name_at: 58 }, FromTree { table: Text { text: \"U\" }, name: Some(Text { text: \"V\" }), at: 61, name_at: 66 }] }, filter: Some(Or(List { items: [And(List { items: [Compare(Eq, Column(NameTree { first: Text { text: \"A\" }, second: None, at: 74 }), Literal(LiteralTree { value: Num(1), at: 78 })), Not(Boxed { inner: OneOf(true, Column(NameTree { first: Text { text: \"B\" }, second: Some(Text { text: \"C\" }), at: 88 }), List { items: [Literal(LiteralTree { value: Str(Text { text: \"x\" }), at: 100 }), Literal(LiteralTree { value: Num(-2), at: 105 })] }) })] }), And(List { items: [IsNull(true, Column(NameTree { first: Text { text: \"A\" }, second: None, at: 112 })), Between(false, Column(NameTree { first: Text { text: \"A\" }, second: None, at: 130 }), Literal(LiteralTree { value: Num(1), at: 140 }), Literal(LiteralTree { value: Num(2), at: 147 }))] })] })), prefer: Some(Prior(List { items: [Pareto(List { items: [Base(BaseTree { column: NameTree { first: Text { text: \"A\" }, second: None, at: 161 }, form: PosNeg(SetTree { literals: List { items: [LiteralTree { value: Num(1), at: 167 }, LiteralTree { value: Num(2), at: 170 }] } }, NameTree { first: Text { text: \"A\" }, second: None, at: 178 }, SetTree { literals: List { items: [LiteralTree { value: Num(3), at: 183 }] } }), trivial: false, at: 161 }), Base(BaseTree { column: NameTree { first: Text { text: \"B\" }, second: Some(Text { text: \"C\" }), at: 197 }, form: Lowest, trivial: true, at: 190 })] }), Pareto(List { items: [Base(BaseTree { column: NameTree { first: Text { text: \"B\" }, second: Some(Text { text: \"C\" }), at: 218 }, form: Explicit(List { items: [EdgeTree { upper: LiteralTree { value: Str(Text { text: \"x\" }), at: 232 }, lower: LiteralTree { value: Str(Text { text: \"y\" }), at: 238 } }] }), trivial: true, at: 218 }), Base(BaseTree { column: NameTree { first: Text { text: \"A\" }, second: None, at: 255 }, form: Highest, trivial: false, at: 247 })] })] })), groups: List { items: [NameTree { first: Text { text: \"A\" }, second: None, at: 275 }, NameTree { first: Text { text: \"B\" }, second: Some(Text { text: \"C\" }), at: 278 }] }, only: Some(And(List { items: [Top(NameTree { first: Text { text: \"A\" }, second: None, at: 295 }), Compare(Le, Level(NameTree { first: Text { text: \"A\" }, second: None, at: 308 }, 302), Literal(LiteralTree { value: Num(2), at: 314 }))] })), order: List { items: [OrderTree { key: Name(Text { text: \"D\" }), descending: true, at: 325 }, OrderTree { key: Position(2), descending: false, at: 333 }] } }",
        ),
        (
            "SELECT * FROM t PREFERRING a LAYERED ((1), (2)) AND a LAYERED ((1), OTHERS) AND a LAYERED ((1), OTHERS, (2)) AND a LAYERED (OTHERS, (1)) AND a AROUND 5 AND a BETWEEN 1 AND 2 AND a NOT IN (1) AND a = 1 ELSE a IN (2)",
            "1 QueryTree { distinct: false, select: All, from: List { items: [FromTree { table: Text { text: \"T\" }, name: None, at: 14, name_at: 14 }] }, filter: None, prefer: Some(Pareto(List { items: [Base(BaseTree { column: NameTree { first: Text { text: \"A\" }, second: None, at: 27 }, form: Layered(List { items: [SetTree { literals: List { items: [LiteralTree { value: Num(1), at: 39 }] } }, SetTree { literals: List { items: [LiteralTree { value: Num(2), at: 44 }] } }] }, List { items: [] }), trivial: false, at: 27 }), Base(BaseTree { column: NameTree { first: Text { text: \"A\" }, second: None, at: 52 }, form: Layered(List { items: [SetTree { literals: List { items: [LiteralTree { value: Num(1), at: 64 }] } }] }, List { items: [] }), trivial: false, at: 52 }), Base(BaseTree { column: NameTree { first: Text { text: \"A\" }, second: None, at: 80 }, form: Layered(List { items: [SetTree { literals: List { items: [LiteralTree { value: Num(1), at: 92 }] } }] }, List { items: [SetTree { literals: List { items: [LiteralTree { value: Num(2), at: 105 }] } }] }), trivial: false, at: 80 }), Base(BaseTree { column: NameTree { first: Text { text: \"A\" }, second: None, at: 113 }, form: Layered(List { items: [] }, List { items: [SetTree { literals: List { items: [LiteralTree { value: Num(1), at: 133 }] } }] }), trivial: false, at: 113 }), Base(BaseTree { column: NameTree { first: Text { text: \"A\" }, second: None, at: 141 }, form: Around(LiteralTree { value: Num(5), at: 150 }), trivial: false, at: 141 }), Base(BaseTree { column: NameTree { first: Text { text: \"A\" }, second: None, at: 156 }, form: Between(LiteralTree { value: Num(1), at: 166 }, LiteralTree { value: Num(2), at: 172 }), trivial: false, at: 156 }), Base(BaseTree { column: NameTree { first: Text { text: \"A\" }, second: None, at: 178 }, form: Neg(SetTree { literals: List { items: [LiteralTree { value: Num(1), at: 188 }] } }), trivial: false, at: 178 }), Base(BaseTree { column: NameTree { first: Text { text: \"A\" }, second: None, at: 195 }, form: PosPos(SetTree { literals: List { items: [LiteralTree { value: Num(1), at: 199 }] } }, NameTree { first: Text { text: \"A\" }, second: None, at: 206 }, SetTree { literals: List { items: [LiteralTree { value: Num(2), at: 212 }] } }), trivial: false, at: 195 })] })), groups: List { items: [] }, only: None, order: List { items: [] } }",
        ),
        (
            "SELECT a FROM t x WHERE (a <> 1 OR b < 2) AND NOT (c > 3 AND 4 >= d) AND a NOT BETWEEN b AND 'y' AND a IN (b, 5) AND a IS NULL ORDER BY a ASC, 1 ASC",
            "1 QueryTree { distinct: false, select: Items(List { items: [ItemTree { value: Column(NameTree { first: Text { text: \"A\" }, second: None, at: 7 }), name: None }] }), from: List { items: [FromTree { table: Text { text: \"T\" }, name: Some(Text { text: \"X\" }), at: 14, name_at: 16 }] }, filter: Some(And(List { items: [Or(List { items: [Compare(Ne, Column(NameTree { first: Text { text: \"A\" }, second: None, at: 25 }), Literal(LiteralTree { value: Num(1), at: 30 })), Compare(Lt, Column(NameTree { first: Text { text: \"B\" }, second: None, at: 35 }), Literal(LiteralTree { value: Num(2), at: 39 }))] }), Not(Boxed { inner: And(List { items: [Compare(Gt, Column(NameTree { first: Text { text: \"C\" }, second: None, at: 51 }), Literal(LiteralTree { value: Num(3), at: 55 })), Compare(Ge, Literal(LiteralTree { value: Num(4), at: 61 }), Column(NameTree { first: Text { text: \"D\" }, second: None, at: 66 }))] }) }), Between(true, Column(NameTree { first: Text { text: \"A\" }, second: None, at: 73 }), Column(NameTree { first: Text { text: \"B\" }, second: None, at: 87 }), Literal(LiteralTree { value: Str(Text { text: \"y\" }), at: 93 })), OneOf(false, Column(NameTree { first: Text { text: \"A\" }, second: None, at: 101 }), List { items: [Column(NameTree { first: Text { text: \"B\" }, second: None, at: 107 }), Literal(LiteralTree { value: Num(5), at: 110 })] }), IsNull(false, Column(NameTree { first: Text { text: \"A\" }, second: None, at: 117 }))] })), prefer: None, groups: List { items: [] }, only: None, order: List { items: [OrderTree { key: Name(Text { text: \"A\" }), descending: false, at: 136 }, OrderTree { key: Position(1), descending: false, at: 143 }] } }",
        ),
        (
            "SELECT a FROM t PREFERRING a = 1 AND a IN (2) AND a <> 3 AND (a EXPLICIT (1 > 2, 2 > 3) TRIVIAL CASCADE a = 'x' ELSE a = 'y' REGULAR) AND a IN (4) ELSE a NOT IN (5, 6) TRIVIAL BUT ONLY NOT (TOP(a) OR DISTANCE(a) < 7)",
            "1 QueryTree { distinct: false, select: Items(List { items: [ItemTree { value: Column(NameTree { first: Text { text: \"A\" }, second: None, at: 7 }), name: None }] }), from: List { items: [FromTree { table: Text { text: \"T\" }, name: None, at: 14, name_at: 14 }] }, filter: None, prefer: Some(Pareto(List { items: [Base(BaseTree { column: NameTree { first: Text { text: \"A\" }, second: None, at: 27 }, form: Pos(SetTree { literals: List { items: [LiteralTree { value: Num(1), at: 31 }] } }), trivial: false, at: 27 }), Base(BaseTree { column: NameTree { first: Text { text: \"A\" }, second: None, at: 37 }, form: Pos(SetTree { literals: List { items: [LiteralTree { value: Num(2), at: 43 }] } }), trivial: false, at: 37 }), Base(BaseTree { column: NameTree { first: Text { text: \"A\" }, second: None, at: 50 }, form: Neg(SetTree { literals: List { items: [LiteralTree { value: Num(3), at: 55 }] } }), trivial: false, at: 50 }), Prior(List { items: [Base(BaseTree { column: NameTree { first: Text { text: \"A\" }, second: None, at: 62 }, form: Explicit(List { items: [EdgeTree { upper: LiteralTree { value: Num(1), at: 74 }, lower: LiteralTree { value: Num(2), at: 78 } }, EdgeTree { upper: LiteralTree { value: Num(2), at: 81 }, lower: LiteralTree { value: Num(3), at: 85 } }] }), trivial: true, at: 62 }), Base(BaseTree { column: NameTree { first: Text { text: \"A\" }, second: None, at: 104 }, form: PosPos(SetTree { literals: List { items: [LiteralTree { value: Str(Text { text: \"x\" }), at: 108 }] } }, NameTree { first: Text { text: \"A\" }, second: None, at: 117 }, SetTree { literals: List { items: [LiteralTree { value: Str(Text { text: \"y\" }), at: 121 }] } }), trivial: false, at: 104 })] }), Base(BaseTree { column: NameTree { first: Text { text: \"A\" }, second: None, at: 138 }, form: PosNeg(SetTree { literals: List { items: [LiteralTree { value: Num(4), at: 144 }] } }, NameTree { first: Text { text: \"A\" }, second: None, at: 152 }, SetTree { literals: List { items: [LiteralTree { value: Num(5), at: 162 }, LiteralTree { value: Num(6), at: 165 }] } }), trivial: true, at: 138 })] })), groups: List { items: [] }, only: Some(Not(Boxed { inner: Or(List { items: [Top(NameTree { first: Text { text: \"A\" }, second: None, at: 194 }), Compare(Lt, Distance(NameTree { first: Text { text: \"A\" }, second: None, at: 209 }, 200), Literal(LiteralTree { value: Num(7), at: 214 }))] }) })), order: List { items: [] } }",
        ),
        (
            "SELECT a FROM t; SELECT LEVEL(b) FROM u PREFERRING LOWEST(b) GROUPING c",
            "2 QueryTree { distinct: false, select: Items(List { items: [ItemTree { value: Level(NameTree { first: Text { text: \"B\" }, second: None, at: 30 }, 24), name: None }] }), from: List { items: [FromTree { table: Text { text: \"U\" }, name: None, at: 38, name_at: 38 }] }, filter: None, prefer: Some(Base(BaseTree { column: NameTree { first: Text { text: \"B\" }, second: None, at: 58 }, form: Lowest, trivial: false, at: 51 })), groups: List { items: [NameTree { first: Text { text: \"C\" }, second: None, at: 70 }] }, only: None, order: List { items: [] } }",
        ),
    ] {
        assert_eq!(rt; shown(rt.alloc(), script)?.as_str(), want);
    }
    Ok(())
}

// A script of 64 statements has 64 trees. In one of 65 the last SELECT is too many, at byte 64
// times 20.
#[test]
fn at_most_64_statements(rt: HostRuntime) -> Result<(), Fail> {
    let mut script = String::new(rt.alloc());
    for _ in 0..64 {
        script.push_str("SELECT id FROM cars;")?;
    }
    assert_eq!(rt;
        shown_if_short(rt.alloc(), script.as_str())?.as_str(),
        "64 QueryTree { distinct: false, select: Items(List { items: [ItemTree { value: Column(NameTree { first: Text { text: \"ID\" }, second: None, at: 1267 }), name: None }] }), from: List { items: [FromTree { table: Text { text: \"CARS\" }, name: None, at: 1275, name_at: 1275 }] }, filter: None, prefer: None, groups: List { items: [] }, only: None, order: List { items: [] } }"
    );
    script.push_str("SELECT id FROM cars")?;
    assert_eq!(rt;
        shown_if_short(rt.alloc(), script.as_str())?.as_str(),
        "E203 at 1280"
    );
    Ok(())
}

/// The same of a script of any length.
fn shown_if_short(alloc: Global, script: &str) -> Result<String, Fail> {
    if script.len() > 268_435_456 {
        return Err("too long".into());
    }
    shown(alloc, script)
}
