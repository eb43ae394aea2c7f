//! What stands on `out` and `err` where a source, a sink or a shelf fails.
use super::case::{CHEAPEST, CHEAPEST_CARS, Case, answered, ends, refused};
use prefsql_session::Status;
use std::test::Fail;

#[test]
fn each_device_fails(rt: HostRuntime) -> Result<(), Fail> {
    let alloc = rt.alloc();
    let answer = answered(CHEAPEST.as_bytes(), CHEAPEST_CARS);
    let refusal = refused(
        b"SELECT id FROM cars PREFERRING dealer = 'north'",
        "error E306 at byte 31\n",
    );
    let columns = Case {
        words: &["answer", "T=t.csv"],
        files: &[(
            "t.csv",
            "A INTEGER NOT NULL,B INTEGER NOT NULL\n3,7\n1,9\n2,7\n",
        )],
        ..answered(b"SELECT * FROM T PREFERRING LOWEST(B)", "A,B\n2,7\n3,7\n\n")
    };
    for case in [
        answer,
        refusal,
        columns,
        Case {
            out_room: 5,
            status: Status::WriteFault,
            out: "A,B\n2",
            ..columns
        },
        Case {
            failing_load: 1,
            status: Status::ShelfFault,
            out: "",
            ..columns
        },
        Case {
            script: b"SELECT * FROM T PREFERRING LOWEST(C)",
            status: Status::Refused,
            out: "",
            err: "error E303 at byte 34\n",
            ..columns
        },
        Case {
            files: &[("t.csv", "A TEXT\n")],
            status: Status::Refused,
            out: "",
            err: "error E303 at byte 34\n",
            ..columns
        },
        Case {
            failing_load: 1,
            status: Status::ShelfFault,
            out: "",
            ..answer
        },
        Case {
            failing_load: 2,
            status: Status::ShelfFault,
            out: "",
            ..answer
        },
        Case {
            out_room: 7,
            status: Status::WriteFault,
            out: "ID,PRIC",
            ..answer
        },
        Case {
            failing_read: 1,
            status: Status::ReadFault,
            out: "",
            ..answer
        },
        Case {
            err_room: 0,
            status: Status::WriteFault,
            err: "",
            ..refusal
        },
        Case {
            err_room: 0,
            ..answer
        },
        Case {
            words: &["explain", "CARS=cars.csv"],
            out_room: 4,
            status: Status::WriteFault,
            out: "best",
            ..answer
        },
        Case {
            words: &["explain", "CARS=cars.csv"],
            ..refusal
        },
        Case {
            words: &["rewrite", "CARS=cars.csv"],
            out_room: 6,
            status: Status::WriteFault,
            out: "SELECT",
            ..answer
        },
        Case {
            words: &["rewrite", "CARS=cars.csv"],
            ..refusal
        },
        Case {
            words: &["rewrite", "CARS=cars.csv"],
            script: b"",
            out: "",
            ..answer
        },
        Case {
            words: &[],
            err_room: 0,
            status: Status::WriteFault,
            err: "",
            ..refusal
        },
        Case {
            words: &["answer", "T=t.csv", "U=u.csv"],
            files: &[("t.csv", "a TEXT")],
            script: b"",
            status: Status::ShelfFault,
            out: "",
            ..answer
        },
        Case {
            words: &["answer", "T=t.csv", "U=u.csv"],
            files: &[("t.csv", "a NUMBER")],
            err: "error E501 in table T record 1 field 1\n",
            ..refusal
        },
        Case {
            words: &["answer"],
            files: &[],
            script: b"",
            out: "",
            failing_load: 1,
            ..answer
        },
    ] {
        assert!(rt; ends(alloc, &case)?);
    }
    Ok(())
}
