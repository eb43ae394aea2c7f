//! The plans and the SQL queries of scripts over the cars and the dealers, counts of tests, and the
//! bench.
use super::case::{CHEAPEST, CHEAPEST_CARS, Case, answered, ends, ends_twice};
use std::test::Fail;

#[test]
fn plans(rt: HostRuntime) -> Result<(), Fail> {
    let alloc = rt.alloc();
    for (script, out) in [
        (
            "SELECT id FROM cars PREFERRING color = 'red' CASCADE LOWEST(price)",
            "best P2\n  best P1\n    scan T1 CARS\n\n",
        ),
        (
            "SELECT id, color AS colour, LEVEL(color), DISTANCE(price) AS off FROM cars WHERE power >= 150 PREFERRING color IN ('red', 'blue') ELSE color <> 'grey' AND price BETWEEN 38000 AND 42000 CASCADE power IN (180, 200) BUT ONLY DISTANCE(price) <= 5000 ORDER BY colour; -- shop",
            "best ((P1 and P2) cascade P3)\n  filter W1 B1\n    scan T1 CARS\n\n",
        ),
        (
            "SELECT c.id, d.city FROM cars c, dealers d WHERE c.id <> 2 AND c.dealer = d.name PREFERRING LOWEST(c.price)",
            "best P1\n  filter W2\n    join\n      best P1 by T1.DEALER\n        filter W1\n          scan T1 CARS\n      scan T2 DEALERS\n\n",
        ),
        // no cascade is split at a preference that is turned round
        (
            "SELECT id FROM cars PREFERRING DUAL(color = 'red') CASCADE LOWEST(price)",
            "best ((dual P1) cascade P2)\n  scan T1 CARS\n\n",
        ),
        (
            "SELECT c.id, d.city FROM cars c, dealers d WHERE c.dealer = d.name PREFERRING DUAL(LOWEST(c.price) AND d.city = 'Ulm')",
            "best (dual (P1 and P2))\n  filter W1\n    join\n      best (dual P1) by T1.DEALER\n        scan T1 CARS\n      best (dual P2) by T2.NAME\n        scan T2 DEALERS\n\n",
        ),
        // one after the other where each ranks all, and in one step from the first that does not
        (
            "SELECT id FROM cars PREFERRING color = 'red' CASCADE LOWEST(price) CASCADE HIGHEST(power)",
            "best P3\n  best P2\n    best P1\n      scan T1 CARS\n\n",
        ),
        (
            "SELECT id FROM cars PREFERRING color = 'red' CASCADE (LOWEST(price) CASCADE HIGHEST(power)) GROUPING dealer",
            "best P3 by T1.DEALER\n  best P2 by T1.DEALER\n    best P1 by T1.DEALER\n      scan T1 CARS\n\n",
        ),
        (
            "SELECT id FROM cars PREFERRING color = 'red' CASCADE LOWEST(price) TRIVIAL CASCADE HIGHEST(power)",
            "best (P2 cascade P3)\n  best P1\n    scan T1 CARS\n\n",
        ),
    ] {
        let case = Case {
            words: &["explain", "CARS=cars.csv", "DEALERS=dealers.csv"],
            ..answered(script.as_bytes(), out)
        };
        assert!(rt; ends(alloc, &case)?, "{script}");
    }
    // three tables, with conditions and preferences of each kind
    let case = Case {
        words: &["explain", "A=t.csv", "B=t.csv", "C=t.csv"],
        files: &[(
            "t.csv",
            "a INTEGER NOT NULL,b INTEGER NOT NULL,c TEXT,d INTEGER NOT NULL,e TEXT NOT NULL\n",
        )],
        ..answered(
            b"SELECT x.a FROM a x, b y, c z WHERE x.a = y.a AND y.b = z.b AND x.d < z.d AND 1 = 1 AND z.c IS NULL AND x.c = x.c PREFERRING (LOWEST(x.a) AND z.b AROUND 3) CASCADE (HIGHEST(y.d) CASCADE (x.e IN ('p') TRIVIAL CASCADE LOWEST(z.d))) GROUPING y.c, x.b BUT ONLY DISTANCE(z.b) <= 3 AND y.c = 'q' AND (x.b = 1 OR y.c IS NULL) AND LEVEL(x.e) <= 1 AND 2 = 2 AND x.d = 3",
            "filter B4 B6\n  best ((((P1 and P2) cascade P3) cascade P4) cascade P5) by T2.C T1.B\n    filter W2 W3\n      join\n        filter W1 B3\n          join\n            best (P1 cascade P4) by T1.A T1.B T1.D\n              filter W4 W6 B5\n                scan T1 A\n            best P3 by T2.A T2.B T2.C\n              filter B2\n                scan T2 B\n        best (P2 cascade P5) by T3.B T3.D\n          filter W5 B1\n            scan T3 C\n\n",
        )
    };
    assert!(rt; ends(alloc, &case)?);
    Ok(())
}

#[test]
fn sql_queries(rt: HostRuntime) -> Result<(), Fail> {
    for (script, out) in [
        (
            "SELECT id FROM cars PREFERRING LOWEST(price) GROUPING dealer",
            "SELECT \"A1\".\"C1\" AS \"ID\" FROM (SELECT \"T1\".\"ID\" AS \"C1\", \"T1\".\"DEALER\" AS \"C2\", \"T1\".\"PRICE\" AS \"L1\" FROM \"CARS\" AS \"T1\") AS \"A1\" WHERE NOT EXISTS (SELECT 1 AS \"X1\" FROM (SELECT \"T1\".\"ID\" AS \"C1\", \"T1\".\"DEALER\" AS \"C2\", \"T1\".\"PRICE\" AS \"L1\" FROM \"CARS\" AS \"T1\") AS \"A2\" WHERE (\"A2\".\"C2\" = \"A1\".\"C2\" OR \"A2\".\"C2\" IS NULL AND \"A1\".\"C2\" IS NULL) AND \"A2\".\"L1\" < \"A1\".\"L1\");\n",
        ),
        (
            "SELECT id FROM cars PREFERRING DUAL(LOWEST(price))",
            "SELECT \"A1\".\"C1\" AS \"ID\" FROM (SELECT \"T1\".\"ID\" AS \"C1\", \"T1\".\"PRICE\" AS \"L1\" FROM \"CARS\" AS \"T1\") AS \"A1\" WHERE NOT EXISTS (SELECT 1 AS \"X1\" FROM (SELECT \"T1\".\"ID\" AS \"C1\", \"T1\".\"PRICE\" AS \"L1\" FROM \"CARS\" AS \"T1\") AS \"A2\" WHERE \"A1\".\"L1\" < \"A2\".\"L1\");\n",
        ),
        (
            "SELECT DISTINCT id, dealer AS shop FROM cars WHERE NOT (id = -1 OR dealer IS NULL) AND price NOT BETWEEN 1 AND 2 AND color NOT IN ('it''s') ORDER BY shop DESC, 1",
            "SELECT DISTINCT \"T1\".\"ID\" AS \"ID\", \"T1\".\"DEALER\" AS \"SHOP\" FROM \"CARS\" AS \"T1\" WHERE NOT (\"T1\".\"ID\" = -1 OR \"T1\".\"DEALER\" IS NULL) AND \"T1\".\"PRICE\" NOT BETWEEN 1 AND 2 AND \"T1\".\"COLOR\" NOT IN ('it''s') ORDER BY 2 DESC, 1 ASC;\n",
        ),
        (
            "SELECT c.id FROM cars c, dealers d WHERE (c.id > 1 AND d.city IS NOT NULL OR c.id <= 5) AND c.price BETWEEN 1 AND 2",
            "SELECT \"T1\".\"ID\" AS \"ID\" FROM \"CARS\" AS \"T1\", \"DEALERS\" AS \"T2\" WHERE (\"T1\".\"ID\" > 1 AND \"T2\".\"CITY\" IS NOT NULL OR \"T1\".\"ID\" <= 5) AND \"T1\".\"PRICE\" BETWEEN 1 AND 2;\n",
        ),
    ] {
        let case = Case {
            words: &["rewrite", "CARS=cars.csv", "DEALERS=dealers.csv"],
            ..answered(script.as_bytes(), out)
        };
        assert!(rt; ends(rt.alloc(), &case)?, "{script}");
    }
    Ok(())
}

// How many tests an answer takes is bounded by the rows in and out of its plan. One line tells it.
#[test]
fn counts_of_tests(rt: HostRuntime) -> Result<(), Fail> {
    let alloc = rt.alloc();
    let from_two: &[&str] = &["tests 2\n", "tests 3\n", "tests 4\n", "tests 5\n"];
    let from_three: &[&str] = &[
        "tests 3\n",
        "tests 4\n",
        "tests 5\n",
        "tests 6\n",
        "tests 7\n",
        "tests 8\n",
        "tests 9\n",
        "tests 10\n",
    ];
    let from_four: &[&str] = &[
        "tests 4\n",
        "tests 5\n",
        "tests 6\n",
        "tests 7\n",
        "tests 8\n",
        "tests 9\n",
        "tests 10\n",
        "tests 11\n",
        "tests 12\n",
    ];
    // one row can be tested against itself alone, and without a preference there is no test
    let of_two_statements: &[&str] = &["tests 0\ntests 0\n", "tests 1\ntests 0\n"];
    for (script, out, lines) in [
        (CHEAPEST, CHEAPEST_CARS, from_three),
        (
            "SELECT id FROM cars PREFERRING LOWEST(price) GROUPING dealer",
            "ID\n2\n3\n4\n\n",
            from_two,
        ),
        (
            "SELECT id FROM cars PREFERRING color = 'red' CASCADE LOWEST(price)",
            "ID\n1\n\n",
            from_four,
        ),
        (
            "SELECT city FROM dealers WHERE city = 'Ulm' PREFERRING city = 'Ulm'; SELECT id FROM cars WHERE id = 1",
            "CITY\nUlm\n\nID\n1\n\n",
            of_two_statements,
        ),
    ] {
        let mut ways = 0;
        for line in lines {
            let case = Case {
                words: &["answer", "CARS=cars.csv", "--stats", "DEALERS=dealers.csv"],
                err: line,
                ..answered(script.as_bytes(), out)
            };
            if ends(alloc, &case)? {
                ways = 1;
            }
        }
        assert_eq!(rt; ways, 1);
    }
    Ok(())
}

// The bench is the same each time. Here and below the numbers of rows are from a program in another
// language.
#[test]
fn the_bench_twice(rt: HostRuntime) -> Result<(), Fail> {
    let case = Case {
        words: &["bench", "20000"],
        ..answered(b"", "")
    };
    assert!(rt;
        ends_twice(
            rt.alloc(),
            &case,
            "bench 20000\nstatement 1 rows 46\nstatement 2 rows 10\nstatement 3 rows 3\n"
        )?
    );
    Ok(())
}

// The bench asks for no file and no script.
#[test]
fn the_bench(rt: HostRuntime) -> Result<(), Fail> {
    for (number, out) in [
        (
            "1",
            "bench 1\nstatement 1 rows 1\nstatement 2 rows 1\nstatement 3 rows 1\n",
        ),
        (
            "000012",
            "bench 12\nstatement 1 rows 6\nstatement 2 rows 9\nstatement 3 rows 1\n",
        ),
        (
            "100000",
            "bench 100000\nstatement 1 rows 42\nstatement 2 rows 10\nstatement 3 rows 19\n",
        ),
    ] {
        let case = Case {
            words: &["bench", "--", number],
            failing_load: 1,
            failing_read: 1,
            ..answered(b"SELECT", out)
        };
        assert!(rt; ends(rt.alloc(), &case)?, "{number}");
    }
    Ok(())
}
