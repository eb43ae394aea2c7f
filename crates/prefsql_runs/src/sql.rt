//! What SQL scripts answer over the cars, and their first faults.
use super::case::{Case, answered, ends, refused};
use prefsql_session::Status;
use std::alloc::Global;
use std::test::Fail;

/// The best car of each dealer, as it is written in SQL.
const BEST_OF_EACH_DEALER: &str =
    "SELECT \"A1\".\"C1\" AS \"ID\" FROM (SELECT \"T1\".\"ID\" AS \"C1\", \"T1\".\"DEALER\" AS \"C2\", \"T1\".\"PRICE\" AS \"L1\" FROM \"CARS\" AS \"T1\") AS \"A1\" WHERE NOT EXISTS (SELECT 1 AS \"X1\" FROM (SELECT \"T1\".\"ID\" AS \"C1\", \"T1\".\"DEALER\" AS \"C2\", \"T1\".\"PRICE\" AS \"L1\" FROM \"CARS\" AS \"T1\") AS \"A2\" WHERE (\"A2\".\"C2\" = \"A1\".\"C2\" OR \"A2\".\"C2\" IS NULL AND \"A1\".\"C2\" IS NULL) AND \"A2\".\"L1\" < \"A1\".\"L1\");\n";

const OTHER_CARS: &str =
    "id INTEGER NOT NULL,color TEXT NOT NULL,price INTEGER NOT NULL,power INTEGER NOT NULL,dealer TEXT\n7,red,10,1,\n8,red,10,1,\n9,red,20,1,east\n";

#[test]
fn answers_of_queries(rt: HostRuntime) -> Result<(), Fail> {
    let alloc = rt.alloc();
    for (script, out) in [
        (BEST_OF_EACH_DEALER, "ID\n2\n3\n4\n\n"),
        (
            "SELECT id - price - power AS d FROM cars WHERE id = 1",
            "D\n-40199\n\n",
        ),
        (
            "SELECT id FROM cars c WHERE EXISTS (SELECT 1 FROM dealers WHERE name = c.dealer) ORDER BY id DESC;",
            "ID\n3\n2\n1\n\n",
        ),
        (
            "SELECT id FROM cars WHERE NOT dealer = 'north'",
            "ID\n3\n\n",
        ),
        (
            "SELECT id, CASE WHEN price BETWEEN 38000 AND 40000 THEN 'mid' WHEN price NOT BETWEEN 1 AND 45000 THEN 'high' END AS band FROM cars WHERE dealer IS NOT NULL OR id > 4 AND (power > 100 AND color NOT IN ('red', 'grey'))",
            "ID,BAND\n1,mid\n2,mid\n3,\n5,high\n\n",
        ),
        (
            "SELECT d, 1 AS one FROM (SELECT DISTINCT dealer AS d FROM cars) t",
            "D,ONE\nnorth,1\nsouth,1\n,1\n\n",
        ),
        (
            "SELECT c.id FROM cars c WHERE c.price = 1 AND EXISTS (SELECT 1 FROM dealers)",
            "ID\n\n",
        ),
        (" -- nothing", ""),
        // 5 to the power of 20 combinations, of which the first one is enough
        (
            "SELECT id FROM cars WHERE id = 1 AND EXISTS (SELECT 1 FROM cars a, cars b, cars c, cars d, cars e, cars f, cars g, cars h, cars i, cars j, cars k, cars l, cars m, cars n, cars o, cars p, cars q, cars r, cars s, cars t)",
            "ID\n1\n\n",
        ),
        // as many, of which none passes, and this is told by the first car
        (
            "SELECT a.id FROM cars a, cars b, cars c, cars d, cars e, cars f, cars g, cars h, cars i, cars j, cars k, cars l, cars m, cars n, cars o, cars p, cars q, cars r, cars s, cars t WHERE a.color IS NULL AND a.color IS NOT NULL",
            "ID\n\n",
        ),
        // a missing dealer is equal to none
        (
            "SELECT c.id, d.id AS other FROM cars c, cars d WHERE c.dealer = d.dealer AND c.id < d.id",
            "ID,OTHER\n1,2\n\n",
        ),
        (
            "SELECT id FROM cars c WHERE NOT EXISTS (SELECT 1 FROM dealers WHERE c.dealer = name AND EXISTS (SELECT 1 FROM cars WHERE dealer = name AND id = c.id))",
            "ID\n4\n5\n\n",
        ),
        // the first condition that is true
        (
            "SELECT id, CASE WHEN id > 0 THEN 'first' WHEN id < 9 THEN 'second' END AS which FROM cars WHERE id = 1",
            "ID,WHICH\n1,first\n\n",
        ),
        // nothing is said of car 1, and a sum with nothing is nothing
        (
            "SELECT id, 10 - CASE WHEN id = 2 THEN 1 END AS less, CASE WHEN id = 2 THEN 1 END + id AS more FROM cars WHERE id < 3",
            "ID,LESS,MORE\n1,,\n2,9,3\n\n",
        ),
        // the inner one of two columns of a name
        (
            "SELECT id FROM cars c WHERE EXISTS (SELECT 1 FROM cars d WHERE id = 1 AND c.id = 2)",
            "ID\n2\n\n",
        ),
        // columns of the outermost of three queries, by name alone and with a table's
        (
            "SELECT id FROM cars c WHERE EXISTS (SELECT 1 FROM dealers d WHERE EXISTS (SELECT 1 FROM dealers e WHERE e.name = dealer AND d.city = 'Ulm' AND c.price < 40000))",
            "ID\n2\n\n",
        ),
    ] {
        let case = Case {
            words: &["execute", "CARS=cars.csv", "DEALERS=dealers.csv"],
            ..answered(script.as_bytes(), out)
        };
        assert!(rt; ends(alloc, &case)?, "{script}");
    }
    let case = Case {
        words: &["execute", "CARS=cars.csv"],
        files: &[("cars.csv", OTHER_CARS)],
        ..answered(BEST_OF_EACH_DEALER.as_bytes(), "ID\n7\n8\n9\n\n")
    };
    assert!(rt; ends(alloc, &case)?);
    Ok(())
}

#[test]
fn first_faults(rt: HostRuntime) -> Result<(), Fail> {
    let alloc = rt.alloc();
    for (script, err) in [
        ("SELECT id FROM", "error E202 at byte 14\n"),
        ("SELECT CASE END FROM cars", "error E201 at byte 12\n"),
        ("SELECT (id) FROM cars", "error E201 at byte 7\n"),
        ("SELECT id - FROM cars", "error E201 at byte 12\n"),
        (
            "SELECT id FROM cars WHERE NOT NOT id = 1",
            "error E201 at byte 30\n",
        ),
        ("SELECT id FROM cars;;", "error E201 at byte 20\n"),
        (
            "SELECT id FROM (SELECT id FROM cars)",
            "error E202 at byte 36\n",
        ),
        (
            "SELECT * FROM cars PREFERRING LOWEST(id)",
            "error E201 at byte 19\n",
        ),
        ("SELECT size FROM cars", "error E303 at byte 7\n"),
        ("SELECT id FROM car", "error E301 at byte 15\n"),
        (
            "SELECT id FROM cars WHERE color = 5",
            "error E305 at byte 34\n",
        ),
        ("SELECT id FROM cars ORDER BY 2", "error E316 at byte 29\n"),
        (
            "SELECT id FROM cars WHERE id != 1",
            "error E101 at byte 29\n",
        ),
        (
            "SELECT id FROM cars WHERE color = 'red",
            "error E102 at byte 34\n",
        ),
        (
            "SELECT v FROM big WHERE v = 1000000000000000000",
            "error E103 at byte 28\n",
        ),
        ("SELECT id FROM cars, cars", "error E302 at byte 21\n"),
        ("SELECT id FROM cars a, cars b", "error E304 at byte 7\n"),
        (
            "SELECT id FROM cars ORDER BY size",
            "error E314 at byte 29\n",
        ),
        (
            "SELECT id, power AS id FROM cars ORDER BY id",
            "error E315 at byte 42\n",
        ),
        // a derived table sees none of its neighbours
        (
            "SELECT x.id FROM cars c, (SELECT c.id FROM cars d) x",
            "error E303 at byte 33\n",
        ),
        // the inner one of two tables of a name
        (
            "SELECT a.id FROM cars a WHERE EXISTS (SELECT 1 FROM dealers a WHERE a.price = 1)",
            "error E303 at byte 68\n",
        ),
        // a term, an element, a bound, a result
        (
            "SELECT id + color AS s FROM cars",
            "error E305 at byte 12\n",
        ),
        ("SELECT color + id AS s FROM cars", "error E305 at byte 7\n"),
        (
            "SELECT id FROM cars WHERE id + 1 IN (1, 'b')",
            "error E305 at byte 40\n",
        ),
        (
            "SELECT id FROM cars WHERE id BETWEEN 'a' AND 2",
            "error E305 at byte 37\n",
        ),
        (
            "SELECT id FROM cars WHERE id BETWEEN 1 AND 'b'",
            "error E305 at byte 43\n",
        ),
        (
            "SELECT CASE WHEN id = 1 THEN 'a' ELSE 2 END AS c FROM cars",
            "error E305 at byte 38\n",
        ),
        (
            "SELECT CASE WHEN id = 1 THEN 2 WHEN id = 2 THEN 'b' ELSE 'c' END AS c FROM cars",
            "error E305 at byte 48\n",
        ),
        // clause by clause
        ("SELECT size FROM cars, cars", "error E302 at byte 23\n"),
        (
            "SELECT id FROM cars WHERE size = 1 ORDER BY 2",
            "error E303 at byte 26\n",
        ),
        // an inner query clause by clause too, and all of it where its SELECT stands
        (
            "SELECT id FROM cars WHERE EXISTS (SELECT size FROM cars, cars)",
            "error E302 at byte 57\n",
        ),
        (
            "SELECT id FROM cars WHERE EXISTS (SELECT size FROM cars) AND color = 5",
            "error E303 at byte 41\n",
        ),
        (
            "SELECT id FROM cars WHERE color = 5 AND EXISTS (SELECT size FROM cars)",
            "error E305 at byte 34\n",
        ),
        (
            "SELECT 1 AS one FROM cars x, (SELECT size FROM cars) x",
            "error E303 at byte 37\n",
        ),
        (
            "SELECT 1 AS one FROM car, (SELECT size FROM cars) x",
            "error E301 at byte 21\n",
        ),
        (
            "SELECT size FROM (SELECT id FROM car) x",
            "error E301 at byte 33\n",
        ),
    ] {
        let case = Case {
            words: &["execute", "CARS=cars.csv", "DEALERS=dealers.csv"],
            ..refused(script.as_bytes(), err)
        };
        assert!(rt; ends(alloc, &case)?, "{script}");
    }
    Ok(())
}

// The limits of a script in SQL.
#[test]
fn as_deep_as_the_limit_allows(rt: HostRuntime) -> Result<(), Fail> {
    let alloc = rt.alloc();
    for (count, status, out, err) in [
        (256, Status::Done, "ID\n1\n\n", ""),
        (257, Status::Refused, "", "error E104 at byte 282\n"),
    ] {
        let open = "(".repeat(alloc, count)?;
        let close = ")".repeat(alloc, count)?;
        let script = format!(in alloc; "SELECT id FROM cars WHERE {open}id = 1{close}")?;
        let case = Case {
            words: &["execute", "CARS=cars.csv"],
            status,
            err,
            ..answered(script.as_bytes(), out)
        };
        assert!(rt; ends(alloc, &case)?, "{count}");
    }
    let many = "SELECT id FROM cars;".repeat(alloc, 65)?;
    let case = Case {
        words: &["execute", "CARS=cars.csv"],
        ..refused(many.as_bytes(), "error E203 at byte 1280\n")
    };
    assert!(rt; ends(alloc, &case)?);
    Ok(())
}

// As many FROM items as one likes, one row of each.
#[test]
fn many_tables(rt: HostRuntime) -> Result<(), Fail> {
    let alloc = rt.alloc();
    let mut script = String::from_str(alloc, "SELECT 1 AS one FROM t")?;
    for number in 0..20_000 {
        let item = format!(in alloc; ", t t{number}")?;
        script.push_str(item.as_str())?;
    }
    let case = Case {
        words: &["execute", "T=t.csv"],
        files: &[("t.csv", "a INTEGER\n1")],
        ..answered(script.as_bytes(), "ONE\n1\n\n")
    };
    assert!(rt; ends(alloc, &case)?);
    Ok(())
}

/// So many derived tables inside one another, each with ten times the value of the one inside it.
fn tenfold(alloc: Global, depth: u32) -> Result<String, Fail> {
    let mut query = String::from_str(alloc, "SELECT price AS c FROM cars WHERE id = 1")?;
    for _ in 0..depth {
        query = format!(in alloc;
            "SELECT c + c + c + c + c + c + c + c + c + c AS c FROM ({query}) AS t"
        )?;
    }
    Ok(query)
}

// A sum may reach 10 to the power of 36, and a column of a table is less than 10 to the power of
// 18.
#[test]
fn bounds_of_sums(rt: HostRuntime) -> Result<(), Fail> {
    let alloc = rt.alloc();
    let within = tenfold(alloc, 18)?;
    let case = Case {
        words: &["execute", "CARS=cars.csv"],
        ..answered(within.as_bytes(), "C\n40000000000000000000000\n\n")
    };
    assert!(rt; ends(alloc, &case)?);
    let beyond = tenfold(alloc, 19)?;
    let case = Case {
        words: &["execute", "CARS=cars.csv"],
        ..refused(beyond.as_bytes(), "error E401 at byte 11\n")
    };
    assert!(rt; ends(alloc, &case)?);
    Ok(())
}
