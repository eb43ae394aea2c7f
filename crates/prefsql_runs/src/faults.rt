//! The first faults of scripts, tables and words.
use super::case::{CARS, CHEAPEST, CHEAPEST_CARS, Case, USAGE, answered, ends, refused};
use prefsql_session::Status;
use std::alloc::Global;
use std::test::Fail;

#[test]
fn faults_of_scripts(rt: HostRuntime) -> Result<(), Fail> {
    let alloc = rt.alloc();
    for (script, code, at) in [
        ("SELECT id FROM cars PREFERRING dealer = 'north'", 306, 31),
        (
            "SELECT id FROM cars PREFERRING color EXPLICIT ('a' > 'b', 'b' > 'a')",
            309,
            58,
        ),
        (
            "SELECT id FROM cars PREFERRING color = 'red' ELSE color <> 'red'",
            308,
            59,
        ),
        (
            "SELECT id FROM cars PREFERRING color = 'red' ELSE power = 5",
            311,
            50,
        ),
        ("SELECT v FROM big WHERE v = 1000000000000000000", 103, 28),
        ("SELECT id FROM cars PREFERRING LOWEST(price) AND", 202, 48),
        ("SELECT id FROM cars PREFERRING AND", 201, 31),
        ("SELECT id FROM cars PREFERRING DUAL LOWEST(price)", 201, 36),
        (
            "SELECT id FROM cars PREFERRING DUAL(color = 'red') TRIVIAL",
            201,
            51,
        ),
        ("SELECT id FROM cars PREFERRING DUAL(dealer = 'x')", 306, 36),
        ("SELECT id FROM cars WHERE id != 1", 101, 29),
        ("SELECT id FROM cars WHERE color = 'red", 102, 34),
        ("SELECT id FROM cars;;", 201, 20),
        ("SELECT id FROM car", 301, 15),
        ("SELECT id FROM cars, cars", 302, 21),
        ("SELECT size FROM cars", 303, 7),
        ("SELECT id FROM cars a, cars b", 304, 7),
        ("SELECT id FROM cars WHERE color = 5", 305, 34),
        ("SELECT id FROM cars PREFERRING LOWEST(color)", 307, 38),
        ("SELECT id FROM cars PREFERRING LOWEST(c)", 303, 38),
        (
            "SELECT id FROM cars PREFERRING price BETWEEN 5 AND 4",
            310,
            51,
        ),
        (
            "SELECT LEVEL(price) FROM cars PREFERRING LOWEST(price)",
            312,
            13,
        ),
        (
            "SELECT LEVEL(color) FROM cars PREFERRING color = 'red' AND color <> 'blue'",
            313,
            13,
        ),
        ("SELECT id FROM cars ORDER BY size", 314, 29),
        ("SELECT id, power AS id FROM cars ORDER BY id", 315, 42),
        ("SELECT id FROM cars ORDER BY 2", 316, 29),
        (
            "SELECT a.id FROM cars a, cars b, cars c, cars d, cars e, cars f, cars g, cars h, cars i",
            317,
            81,
        ),
        ("SELECT size FROM cars PREFERRING dealer = 'north'", 303, 7),
        ("SELECT size FROM car", 301, 17),
        ("SELECT id FROM cars a WHERE cars.id = 1", 303, 28),
        (
            "SELECT id FROM cars; SELECT size FROM cars; SELECT id FROM car",
            303,
            28,
        ),
        ("SELECT id FROM cars WHERE color = 5 AND size = 5", 305, 34),
        ("SELECT id FROM cars WHERE id IN (1, 'b', 'c')", 305, 36),
        (
            "SELECT id FROM cars PREFERRING LOWEST(id) BUT ONLY 'a' = DISTANCE(nowhere)",
            305,
            57,
        ),
        (
            "SELECT id FROM cars PREFERRING color EXPLICIT ('a' > 'b', 'b' > 'c', 'c' > 'a', 'd' > 'a')",
            309,
            69,
        ),
        (
            "SELECT LEVEL(color) FROM cars PREFERRING color = 'red' AND color <> 5",
            313,
            13,
        ),
        (
            "SELECT id FROM cars PREFERRING LOWEST(id) GROUPING dealer, size",
            303,
            59,
        ),
        ("SELECT id FROM cars ORDER BY 1, 0", 316, 32),
        (
            "SELECT id FROM cars PREFERRING id EXPLICIT (1 > 2, 2 > 3, 3 > 4, 4 > 5, 5 > 6, 6 > 7, 7 > 8, 8 > 9, 9 > 10, 10 > 11, 11 > 12, 12 > 13, 13 > 14, 14 > 15, 15 > 16, 17 > 17)",
            309,
            162,
        ),
        (
            "SELECT size FROM cars; SELECT id FROM cars PREFERRING AND",
            201,
            54,
        ),
        // clause by clause
        (
            "SELECT id FROM cars PREFERRING dealer = 'x' GROUPING nowhere",
            306,
            31,
        ),
        (
            "SELECT id FROM cars PREFERRING LOWEST(id) GROUPING nowhere BUT ONLY TOP(nothing)",
            303,
            51,
        ),
        (
            "SELECT id FROM cars PREFERRING LOWEST(id) BUT ONLY TOP(nothing) ORDER BY size",
            303,
            55,
        ),
        // one with a distance and one with a level
        (
            "SELECT id FROM cars PREFERRING price AROUND 1 AND price = 5 BUT ONLY TOP(price)",
            313,
            73,
        ),
    ] {
        let line = format!(in alloc; "error E{code} at byte {at}\n")?;
        assert!(rt;
            ends(alloc, &refused(script.as_bytes(), line.as_str()))?,
            "{script}"
        );
    }
    let no_text = refused(b"\xff", "error E107 at byte 0\n");
    let long_number = refused(
        b"SELECT v FROM big WHERE v = 1000000000000000000",
        "error E103 at byte 28\n",
    );
    for (words, case) in [
        (["answer"], no_text),
        (["via"], no_text),
        (["execute"], no_text),
        (["via"], long_number),
    ] {
        let case = Case {
            words: &words,
            ..case
        };
        assert!(rt; ends(alloc, &case)?);
    }
    Ok(())
}

#[test]
fn more_than_the_limits_allow(rt: HostRuntime) -> Result<(), Fail> {
    let alloc = rt.alloc();
    for (front, part, count, end, line) in [
        (
            "SELECT id FROM cars WHERE ",
            "(",
            65,
            "id = 1",
            "error E104 at byte 90\n",
        ),
        ("SELECT ", "a", 65, "", "error E105 at byte 7\n"),
        ("", " ", 1_048_577, "", "error E106 at byte 1048576\n"),
        (
            "",
            "SELECT id FROM cars;",
            65,
            "",
            "error E203 at byte 1280\n",
        ),
        (
            "SELECT id FROM cars PREFERRING ",
            "LOWEST(id) AND ",
            8,
            "LOWEST(id)",
            "error E318 at byte 151\n",
        ),
        (
            "SELECT id FROM cars PREFERRING id IN (",
            "1, ",
            256,
            "1)",
            "error E319 at byte 806\n",
        ),
    ] {
        let parts = part.repeat(alloc, count)?;
        let script = format!(in alloc; "{front}{parts}{end}")?;
        assert!(rt; ends(alloc, &refused(script.as_bytes(), line))?, "{line}");
    }
    Ok(())
}

/// The script is refused for this file of the table T, with this line.
fn refuses_table(alloc: Global, file: &str, line: &str) -> Result<bool, Fail> {
    let case = Case {
        words: &["answer", "T=t.csv"],
        files: &[("t.csv", file)],
        ..refused(b"SELECT * FROM T PREFERRING AND", line)
    };
    Ok(ends(alloc, &case)?)
}

#[test]
fn faults_of_tables(rt: HostRuntime) -> Result<(), Fail> {
    let alloc = rt.alloc();
    for (file, code, at_record, at_field) in [
        ("a NUMBER", 501, 1, 1),
        ("a INTEGER,A TEXT", 502, 1, 2),
        ("a INTEGER,b TEXT\n1", 503, 2, 0),
        ("a INTEGER,b TEXT\n1,x\n2,y\n3", 503, 4, 0),
        ("\n\n\n ", 501, 1, 1),
        ("a INTEGER NOT NULL\n1\nx", 504, 3, 1),
        ("a INTEGER\n1000000000000000000", 505, 2, 1),
        ("a INTEGER NOT NULL,b TEXT\n,x", 506, 2, 1),
        ("a TEXT\nx\0", 507, 2, 1),
        ("", 510, 0, 0),
    ] {
        let line = format!(in alloc;
            "error E{code} in table T record {at_record} field {at_field}\n"
        )?;
        assert!(rt; refuses_table(alloc, file, line.as_str())?, "{line}");
    }
    let columns = "a TEXT,".repeat(alloc, 64)?;
    let header = format!(in alloc; "{columns}a TEXT")?;
    assert!(rt;
        refuses_table(
            alloc,
            header.as_str(),
            "error E509 in table T record 1 field 0\n"
        )?
    );
    // as long as a table may be, and then one byte more
    let ends_of_lines = "\n".repeat(alloc, 8_388_602)?;
    let longest = format!(in alloc; "a TEXT{ends_of_lines}")?;
    let case = Case {
        words: &["answer", "T=t.csv"],
        files: &[("t.csv", longest.as_str())],
        ..answered(b"SELECT * FROM T", "A\n\n")
    };
    assert!(rt; ends(alloc, &case)?);
    let long = "x".repeat(alloc, 8_388_609)?;
    assert!(rt;
        refuses_table(
            alloc,
            long.as_str(),
            "error E511 in table T record 0 field 0\n"
        )?
    );
    Ok(())
}

#[test]
fn words_of_command_lines(rt: HostRuntime) -> Result<(), Fail> {
    let alloc = rt.alloc();
    let words: [&[&str]; 23] = [
        &[],
        &[""],
        &["answer", "CARS"],
        &["answer", "CARS="],
        &["answer", "_CARS=cars.csv"],
        &["answer", "1=cars.csv"],
        &[
            "answer",
            "CARSCARSCARSCARSCARSCARSCARSCARSCARSCARSCARSCARSCARSCARSCARSCARSC=cars.csv",
        ],
        &[
            "answer", "A=a", "B=b", "C=c", "D=d", "E=e", "F=f", "G=g", "H=h", "I=i",
        ],
        &["answer", "--stats", "--stats"],
        &["rewrite", "--stats"],
        &["bench", "0"],
        &["bench", "100001"],
        &["bench", "0000001"],
        &["bench", "+1"],
        &["bench", "1", "--stats"],
        &["explain", "--stats"],
        &["via", "--stats"],
        &["execute", "--stats"],
        &["answer", "--", "--"],
        &["--", "answer"],
        &["help"],
        &["--help"],
        &["Answer"],
    ];
    for words in words {
        let case = Case {
            words,
            status: Status::Usage,
            ..refused(CHEAPEST.as_bytes(), USAGE)
        };
        assert!(rt; ends(alloc, &case)?);
    }
    Ok(())
}

// Names of tables, and paths, that are accepted.
#[test]
fn words_of_tables(rt: HostRuntime) -> Result<(), Fail> {
    for (words, files, script) in [
        (
            ["answer", "--", "CARS=cars.csv"],
            [("cars.csv", CARS)],
            CHEAPEST,
        ),
        (
            ["answer", "--", "CARS=a=b.csv"],
            [("a=b.csv", CARS)],
            CHEAPEST,
        ),
        (
            ["answer", "--", "c_1=cars.csv"],
            [("cars.csv", CARS)],
            "SELECT id, price FROM C_1 PREFERRING LOWEST(price)",
        ),
        (
            [
                "answer",
                "--",
                "CARSCARSCARSCARSCARSCARSCARSCARSCARSCARSCARSCARSCARSCARSCARSCARS=cars.csv",
            ],
            [("cars.csv", CARS)],
            "SELECT id, price FROM carscarscarscarscarscarscarscarscarscarscarscarscarscarscarscars PREFERRING LOWEST(price)",
        ),
    ] {
        let case = Case {
            words: &words,
            files: &files,
            ..answered(script.as_bytes(), CHEAPEST_CARS)
        };
        assert!(rt; ends(rt.alloc(), &case)?, "{script}");
    }
    Ok(())
}

// The first of a run, in the order of its work.
#[test]
fn first_faults(rt: HostRuntime) -> Result<(), Fail> {
    let alloc = rt.alloc();
    let script = "SELECT id FROM cars PREFERRING AND";
    for (words, files, line) in [
        (
            ["answer", "T=a.csv", "t=b.csv"],
            [("a.csv", "a TEXT"), ("c.csv", "a TEXT")],
            "error E512 in table T record 0 field 0\n",
        ),
        (
            ["answer", "T=a.csv", "U=b.csv"],
            [("a.csv", "a NUMBER"), ("c.csv", "a TEXT")],
            "error E501 in table T record 1 field 1\n",
        ),
        (
            ["answer", "T=a.csv", "U=b.csv"],
            [("a.csv", "a TEXT"), ("b.csv", "a INTEGER\nx")],
            "error E504 in table U record 2 field 1\n",
        ),
        (
            ["answer", "cars=cars.csv", "T=a.csv"],
            [("cars.csv", CARS), ("a.csv", "a TEXT")],
            "error E201 at byte 31\n",
        ),
    ] {
        let case = Case {
            words: &words,
            files: &files,
            ..refused(script.as_bytes(), line)
        };
        assert!(rt; ends(alloc, &case)?, "{line}");
    }
    Ok(())
}
