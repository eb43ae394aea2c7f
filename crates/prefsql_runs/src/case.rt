//! A run over memory forms, and how it is to end.
ghost use Rattle.std.specs.Prelude.{◌≡◌};

use prefsql_io::{MemoryShelf, MemorySink, MemorySource};
use prefsql_session::{Status, run};
use prefsql_values::{Memory, Steps, Text};
use std::alloc::Global;
use std::marker::Brand;
use std::sync::ledger::{Blank, Ledger};

pub(super) const CARS: &str =
    "id INTEGER NOT NULL,color TEXT NOT NULL,price INTEGER NOT NULL,power INTEGER NOT NULL,dealer TEXT\n1,red,40000,200,north\n2,blue,38000,180,north\n3,red,42000,220,south\n4,grey,38000,180,\n5,blue,50000,150,\n";

pub(super) const DEALERS: &str = "name TEXT,city TEXT NOT NULL\nnorth,Ulm\nsouth,Bonn\n";

pub(super) const CHEAPEST: &str = "SELECT id, price FROM cars PREFERRING LOWEST(price)";

pub(super) const CHEAPEST_CARS: &str = "ID,PRICE\n2,38000\n4,38000\n\n";

/// The line for words that are not accepted.
pub(super) const USAGE: &str =
    "usage: prefsql COMMAND [--stats] [NAME=PATH ...] or prefsql bench N\n";

/// A run, and how it is to end. A load or a read of number 0 is none.
#[derive(Clone, Copy)]
pub(super) struct Case<'a> {
    pub(super) words: &'a [&'a str],
    pub(super) files: &'a [(&'a str, &'a str)],
    pub(super) script: &'a [u8],
    pub(super) failing_load: u64,
    pub(super) failing_read: u64,
    pub(super) out_room: usize,
    pub(super) err_room: usize,
    pub(super) status: Status,
    pub(super) out: &'a str,
    pub(super) err: &'a str,
}

/// The script over the cars and the dealers, which is answered by this text.
pub(super) fn answered<'a>(script: &'a [u8], out: &'a str) -> Case<'a> {
    Case {
        words: &["answer", "CARS=cars.csv", "DEALERS=dealers.csv"],
        files: &[("cars.csv", CARS), ("dealers.csv", DEALERS)],
        script,
        failing_load: 0,
        failing_read: 0,
        out_room: 2000,
        err_room: 200,
        status: Status::Done,
        out,
        err: "",
    }
}

/// The script over the cars and the dealers, which is refused with this line.
pub(super) fn refused<'a>(script: &'a [u8], err: &'a str) -> Case<'a> {
    Case {
        status: Status::Refused,
        err,
        ..answered(script, "")
    }
}

/// The words of `answer`, `via`, `rewrite` and `execute` over the same tables.
pub(super) type Ways<'a> = [&'a [&'a str]; 4];

/// Runs the program over memory forms.
fn run_case(
    alloc: Global,
    case: &Case<'_>,
    out: &mut MemorySink,
    err: &mut MemorySink,
) -> Result<Status, Memory> {
    counted_run::<Brand>(alloc, case, out, err, Blank::new(1))
}

fn counted_run<L: Ledger>(
    alloc: Global,
    case: &Case<'_>,
    out: &mut MemorySink,
    err: &mut MemorySink,
    blank: Blank,
) -> Result<Status, Memory>
    requires name { blank.name ≡ L.name }
    requires parts { blank.parts ≡ L.parts }
    requires one { blank.parts ≡ 1 }
{
    let mut words = Vec::new(alloc);
    for word in case.words {
        words.push(Text::of(alloc, word)?)?;
    }
    let mut shelf = MemoryShelf::new(alloc, Vec::from_slice(alloc, &[case.failing_load])?);
    for (path, file) in case.files {
        shelf.add(path, Vec::from_slice(alloc, file.as_bytes())?)?;
    }
    let text = Vec::from_slice(alloc, case.script)?;
    let mut script = MemorySource::new(text, 7, Vec::from_slice(alloc, &[case.failing_read])?);
    let mut steps = Steps::<L>::new(blank);
    Ok(run(alloc, &words, &mut script, out, err, &mut shelf, &mut steps))
}

/// Whether the run ends so.
pub(super) fn ends(alloc: Global, case: &Case<'_>) -> Result<bool, Memory> {
    let mut out = MemorySink::new(alloc, case.out_room, 3, Vec::new(alloc))?;
    let mut err = MemorySink::new(alloc, case.err_room, 3, Vec::new(alloc))?;
    let status = run_case(alloc, case, &mut out, &mut err)?;
    Ok(
        status == case.status
            && out.written() == case.out.as_bytes()
            && err.written() == case.err.as_bytes(),
    )
}

/// Whether the run is done twice with the same text, which begins so.
pub(super) fn ends_twice(alloc: Global, case: &Case<'_>, front: &str) -> Result<bool, Memory> {
    let mut one = MemorySink::new(alloc, case.out_room, 3, Vec::new(alloc))?;
    let mut other = MemorySink::new(alloc, case.out_room, 3, Vec::new(alloc))?;
    let mut err = MemorySink::new(alloc, case.err_room, 3, Vec::new(alloc))?;
    let first = run_case(alloc, case, &mut one, &mut err)?;
    let second = run_case(alloc, case, &mut other, &mut err)?;
    Ok(
        first == Status::Done
            && second == Status::Done
            && one.written() == other.written()
            && one.written().starts_with(front.as_bytes()),
    )
}

/// Whether the run ends so where its script is written in SQL by these words, and that is executed
/// by the others.
fn executes(
    alloc: Global,
    case: &Case<'_>,
    rewrite: &[&str],
    execute: &[&str],
) -> Result<bool, Memory> {
    let written = Case {
        words: rewrite,
        ..*case
    };
    let mut text = MemorySink::new(alloc, 20_000, 3, Vec::new(alloc))?;
    let mut err = MemorySink::new(alloc, case.err_room, 3, Vec::new(alloc))?;
    let status = run_case(alloc, &written, &mut text, &mut err)?;
    let executed = Case {
        words: execute,
        script: text.written(),
        ..*case
    };
    Ok(status == Status::Done && ends(alloc, &executed)?)
}

/// Whether the script is answered so each way: by its plan, by its SQL query, and by the SQL that
/// is written first and then executed.
pub(super) fn ends_each_way(
    alloc: Global,
    case: &Case<'_>,
    ways: Ways<'_>,
) -> Result<bool, Memory> {
    let [answer, via, rewrite, execute] = ways;
    let by_plan = Case {
        words: answer,
        ..*case
    };
    let by_query = Case {
        words: via,
        ..*case
    };
    Ok(
        ends(alloc, &by_plan)?
            && ends(alloc, &by_query)?
            && executes(alloc, case, rewrite, execute)?,
    )
}
