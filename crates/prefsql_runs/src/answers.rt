//! What scripts answer over the cars and the dealers.
use super::case::{CHEAPEST, CHEAPEST_CARS, Case, Ways, answered, ends, ends_each_way};
use std::test::Fail;

/// Over the cars and the dealers.
const OVER_CARS: Ways<'static> = [
    &["answer", "CARS=cars.csv", "DEALERS=dealers.csv"],
    &["via", "CARS=cars.csv", "DEALERS=dealers.csv"],
    &["rewrite", "CARS=cars.csv", "DEALERS=dealers.csv"],
    &["execute", "CARS=cars.csv", "DEALERS=dealers.csv"],
];

/// Over a table T.
const OVER_T: Ways<'static> = [
    &["answer", "T=t.csv"],
    &["via", "T=t.csv"],
    &["rewrite", "T=t.csv"],
    &["execute", "T=t.csv"],
];

#[test]
fn ids_of_cars(rt: HostRuntime) -> Result<(), Fail> {
    let alloc = rt.alloc();
    for (end, out) in [
        ("PREFERRING price AROUND 40000", "ID\n1\n\n"),
        (
            "PREFERRING LOWEST(price) AND HIGHEST(power)",
            "ID\n1\n2\n3\n4\n\n",
        ),
        (
            "PREFERRING color = 'red' CASCADE LOWEST(price)",
            "ID\n1\n\n",
        ),
        (
            "WHERE id >= 4 PREFERRING color = 'red' AND LOWEST(price)",
            "ID\n4\n\n",
        ),
        (
            "WHERE id >= 4 PREFERRING color = 'red' TRIVIAL AND LOWEST(price)",
            "ID\n4\n5\n\n",
        ),
        (
            "WHERE color <> 'red' PREFERRING color EXPLICIT ('red' > 'blue')",
            "ID\n2\n5\n\n",
        ),
        (
            "WHERE color <> 'blue' PREFERRING color EXPLICIT ('red' > 'blue', 'blue' > 'grey')",
            "ID\n1\n3\n\n",
        ),
        (
            "PREFERRING LOWEST(price) GROUPING dealer",
            "ID\n2\n3\n4\n\n",
        ),
        (
            "PREFERRING price AROUND 45000 BUT ONLY DISTANCE(price) <= 1000",
            "ID\n\n",
        ),
        (
            "PREFERRING LOWEST(price) AND price AROUND 40000 BUT ONLY TOP(price)",
            "ID\n1\n\n",
        ),
        (
            "PREFERRING color = 'grey' ELSE color <> 'blue'",
            "ID\n4\n\n",
        ),
        (
            "WHERE id <> 4 PREFERRING color = 'grey' ELSE color <> 'blue'",
            "ID\n1\n3\n\n",
        ),
        ("PREFERRING color <> 'red'", "ID\n2\n4\n5\n\n"),
        (
            "PREFERRING color = 'red' BUT ONLY LEVEL(color) > 1",
            "ID\n\n",
        ),
        (
            "PREFERRING power IN (180, 200) TRIVIAL CASCADE LOWEST(price)",
            "ID\n1\n2\n4\n\n",
        ),
        (
            "PREFERRING color = 'green' ELSE color = 'grey'",
            "ID\n4\n\n",
        ),
        (
            "WHERE id <> 4 PREFERRING color LAYERED (('grey'), OTHERS, ('red'))",
            "ID\n2\n5\n\n",
        ),
        (
            "WHERE dealer NOT IN ('north') PREFERRING LOWEST(price)",
            "ID\n3\n\n",
        ),
        ("PREFERRING DUAL(LOWEST(price))", "ID\n5\n\n"),
        (
            "PREFERRING DUAL(LOWEST(price) AND HIGHEST(power))",
            "ID\n5\n\n",
        ),
        (
            "PREFERRING DUAL(color EXPLICIT ('red' > 'blue'))",
            "ID\n4\n\n",
        ),
        (
            "PREFERRING DUAL(color = 'red') CASCADE LOWEST(price)",
            "ID\n2\n4\n\n",
        ),
        ("PREFERRING DUAL(DUAL(LOWEST(price)))", "ID\n2\n4\n\n"),
        (
            "PREFERRING DUAL(LOWEST(price) CASCADE HIGHEST(power))",
            "ID\n5\n\n",
        ),
        (
            "WHERE id >= 4 PREFERRING DUAL(color = 'red' AND LOWEST(price))",
            "ID\n5\n\n",
        ),
        (
            "WHERE id >= 4 PREFERRING DUAL(color = 'red' TRIVIAL AND LOWEST(price))",
            "ID\n4\n5\n\n",
        ),
        (
            "PREFERRING DUAL(price AROUND 40000) GROUPING dealer BUT ONLY DISTANCE(price) >= 2000",
            "ID\n2\n3\n5\n\n",
        ),
    ] {
        let script = format!(in alloc; "SELECT id FROM cars {end}")?;
        let case = answered(script.as_bytes(), out);
        assert!(rt; ends_each_way(alloc, &case, OVER_CARS)?, "{end}");
    }
    Ok(())
}

#[test]
fn whole_answers(rt: HostRuntime) -> Result<(), Fail> {
    let alloc = rt.alloc();
    for (script, out) in [
        ("", ""),
        (CHEAPEST, CHEAPEST_CARS),
        (
            "SELECT id, LEVEL(color) FROM cars PREFERRING color EXPLICIT ('red' > 'blue')",
            "ID,COL2\n1,1\n3,1\n\n",
        ),
        (
            "SELECT c.id, d.city FROM cars c, dealers d WHERE c.id <> 2 AND c.dealer = d.name PREFERRING LOWEST(c.price)",
            "ID,CITY\n1,Ulm\n\n",
        ),
        (
            "SELECT c.id, d.city FROM cars c, dealers d WHERE c.dealer = d.name PREFERRING DUAL(LOWEST(c.price) AND d.city = 'Ulm')",
            "ID,CITY\n3,Bonn\n\n",
        ),
        (
            "SELECT id, color AS colour, LEVEL(color), DISTANCE(price) AS off FROM cars WHERE power >= 150 PREFERRING color IN ('red', 'blue') ELSE color <> 'grey' AND price BETWEEN 38000 AND 42000 CASCADE power IN (180, 200) BUT ONLY DISTANCE(price) <= 5000 ORDER BY colour; -- shop",
            "ID,COLOUR,COL3,OFF\n2,blue,1,0\n1,red,1,0\n\n",
        ),
        (
            "SELECT DISTINCT dealer, color FROM cars ORDER BY dealer DESC",
            "DEALER,COLOR\n,blue\n,grey\nsouth,red\nnorth,blue\nnorth,red\n\n",
        ),
        // lines as on Windows
        (
            "SELECT id -- of one\r\nFROM cars\r\nWHERE\rid = 1\r\n",
            "ID\n1\n\n",
        ),
        // as many tables as a statement may have
        (
            "SELECT a.id, h.id AS other FROM cars a, cars b, cars c, cars d, cars e, cars f, cars g, cars h WHERE a.id = 1 AND b.id = 1 AND c.id = 1 AND d.id = 1 AND e.id = 1 AND f.id = 1 AND g.id = 1 AND h.id = 2",
            "ID,OTHER\n1,2\n\n",
        ),
    ] {
        let case = answered(script.as_bytes(), out);
        assert!(rt; ends_each_way(alloc, &case, OVER_CARS)?, "{script}");
    }
    Ok(())
}

#[test]
fn answers_over_other_tables(rt: HostRuntime) -> Result<(), Fail> {
    let alloc = rt.alloc();
    for (file, script, out) in [
        (
            "id INTEGER NOT NULL,color TEXT NOT NULL,price INTEGER NOT NULL,power INTEGER NOT NULL,dealer TEXT",
            "SELECT id, price FROM t PREFERRING LOWEST(price)",
            "ID,PRICE\n\n",
        ),
        (
            "v INTEGER NOT NULL\n-999999999999999999",
            "SELECT DISTANCE(v) FROM t PREFERRING v AROUND 999999999999999999",
            "COL1\n1999999999999999998\n\n",
        ),
        (
            "t TEXT NOT NULL\nplain\n\"it's, \"\"x\"\"\ny\"",
            "SELECT t FROM t PREFERRING t = 'it''s, \"x\"\ny'",
            "T\n\"it's, \"\"x\"\"\ny\"\n\n",
        ),
        (
            "A INTEGER NOT NULL,B INTEGER NOT NULL\n3,7\n1,9\n2,7\n",
            "SELECT * FROM T PREFERRING LOWEST(B)",
            "A,B\n2,7\n3,7\n\n",
        ),
    ] {
        let case = Case {
            files: &[("t.csv", file)],
            ..answered(script.as_bytes(), out)
        };
        assert!(rt; ends_each_way(alloc, &case, OVER_T)?, "{script}");
    }
    Ok(())
}

#[test]
fn as_much_as_the_limits_allow(rt: HostRuntime) -> Result<(), Fail> {
    let alloc = rt.alloc();
    let open = "(".repeat(alloc, 64)?;
    let close = ")".repeat(alloc, 64)?;
    let nested = format!(in alloc; "SELECT id FROM cars WHERE {open}id = 1{close}")?;
    assert!(rt; ends(alloc, &answered(nested.as_bytes(), "ID\n1\n\n"))?);
    let duals = "dual(".repeat(alloc, 64)?;
    let turned = format!(in alloc; "SELECT id FROM cars PREFERRING {duals}id = 1{close}")?;
    assert!(rt; ends(alloc, &answered(turned.as_bytes(), "ID\n1\n\n"))?);
    let lowest = "LOWEST(id) AND ".repeat(alloc, 7)?;
    let leaves = format!(in alloc; "SELECT id FROM cars PREFERRING {lowest}LOWEST(id)")?;
    assert!(rt; ends(alloc, &answered(leaves.as_bytes(), "ID\n1\n\n"))?);
    let ones = "1, ".repeat(alloc, 255)?;
    let set = format!(in alloc; "SELECT id FROM cars PREFERRING id IN ({ones}1)")?;
    assert!(rt; ends(alloc, &answered(set.as_bytes(), "ID\n1\n\n"))?);
    let statements = "SELECT id FROM cars;".repeat(alloc, 64)?;
    let answers = "ID\n1\n2\n3\n4\n5\n\n".repeat(alloc, 64)?;
    assert!(rt; ends(alloc, &answered(statements.as_bytes(), answers.as_str()))?);
    Ok(())
}
