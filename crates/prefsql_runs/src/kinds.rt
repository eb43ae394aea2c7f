//! What a query of each kind of base preference is written as.
use super::case::{CARS, Case, answered, ends};
use std::alloc::Global;
use std::test::Fail;

/// Whether the best cars by the preference are written with these items of the auxiliary query
/// behind the identifier, and with this condition of a better car.
fn is_written(alloc: Global, preference: &str, items: &str, better: &str) -> Result<bool, Fail> {
    let script = format!(in alloc; "SELECT id FROM cars PREFERRING {preference}")?;
    let cars = format!(in alloc;
        "SELECT \"T1\".\"ID\" AS \"C1\", {items} FROM \"CARS\" AS \"T1\""
    )?;
    let out = format!(in alloc;
        "SELECT \"A1\".\"C1\" AS \"ID\" FROM ({cars}) AS \"A1\" WHERE NOT EXISTS (SELECT 1 AS \"X1\" FROM ({cars}) AS \"A2\" WHERE {better});\n"
    )?;
    let case = Case {
        words: &["rewrite", "CARS=cars.csv"],
        files: &[("cars.csv", CARS)],
        ..answered(script.as_bytes(), out.as_str())
    };
    Ok(ends(alloc, &case)?)
}

const LESS: &str = "\"A2\".\"L1\" < \"A1\".\"L1\"";

const GREATER: &str = "\"A2\".\"L1\" > \"A1\".\"L1\"";

#[test]
fn each_kind_ranks_by_its_scalar(rt: HostRuntime) -> Result<(), Fail> {
    for (preference, items, better) in [
        (
            "color = 'red'",
            "CASE WHEN \"T1\".\"COLOR\" IN ('red') THEN 1 ELSE 2 END AS \"L1\"",
            LESS,
        ),
        (
            "color NOT IN ('red', 'blue')",
            "CASE WHEN \"T1\".\"COLOR\" IN ('red', 'blue') THEN 2 ELSE 1 END AS \"L1\"",
            LESS,
        ),
        (
            "color = 'red' ELSE color = 'blue'",
            "CASE WHEN \"T1\".\"COLOR\" IN ('red') THEN 1 WHEN \"T1\".\"COLOR\" IN ('blue') THEN 2 ELSE 3 END AS \"L1\"",
            LESS,
        ),
        (
            "color = 'red' ELSE color <> 'blue'",
            "CASE WHEN \"T1\".\"COLOR\" IN ('red') THEN 1 WHEN \"T1\".\"COLOR\" IN ('blue') THEN 3 ELSE 2 END AS \"L1\"",
            LESS,
        ),
        (
            "color LAYERED (('grey'), OTHERS, ('red'), ('blue'))",
            "CASE WHEN \"T1\".\"COLOR\" IN ('grey') THEN 1 WHEN \"T1\".\"COLOR\" IN ('red') THEN 3 WHEN \"T1\".\"COLOR\" IN ('blue') THEN 4 ELSE 2 END AS \"L1\"",
            LESS,
        ),
        (
            "color EXPLICIT ('red' > 'blue', 'blue' > 'grey')",
            "\"T1\".\"COLOR\" AS \"C2\", CASE WHEN \"T1\".\"COLOR\" IN ('red') THEN 1 WHEN \"T1\".\"COLOR\" IN ('blue') THEN 2 WHEN \"T1\".\"COLOR\" IN ('grey') THEN 3 ELSE 4 END AS \"L1\", CASE WHEN \"T1\".\"COLOR\" = 'red' THEN 1 WHEN \"T1\".\"COLOR\" = 'blue' THEN 2 WHEN \"T1\".\"COLOR\" = 'grey' THEN 3 ELSE 0 END AS \"E1\"",
            "\"A2\".\"E1\" = 1 AND \"A1\".\"E1\" IN (0, 2, 3) OR \"A2\".\"E1\" = 2 AND \"A1\".\"E1\" IN (0, 3) OR \"A2\".\"E1\" = 3 AND \"A1\".\"E1\" IN (0)",
        ),
        (
            "price AROUND 40000",
            "CASE WHEN \"T1\".\"PRICE\" < 40000 THEN 40000 - \"T1\".\"PRICE\" ELSE \"T1\".\"PRICE\" - 40000 END AS \"L1\"",
            LESS,
        ),
        (
            "price BETWEEN 38000 AND 42000",
            "CASE WHEN \"T1\".\"PRICE\" < 38000 THEN 38000 - \"T1\".\"PRICE\" WHEN \"T1\".\"PRICE\" > 42000 THEN \"T1\".\"PRICE\" - 42000 ELSE 0 END AS \"L1\"",
            LESS,
        ),
        ("LOWEST(price)", "\"T1\".\"PRICE\" AS \"L1\"", LESS),
        ("HIGHEST(power)", "\"T1\".\"POWER\" AS \"L1\"", GREATER),
    ] {
        let written = is_written(rt.alloc(), preference, items, better)?;
        assert!(rt; written, "{preference}");
    }
    Ok(())
}
