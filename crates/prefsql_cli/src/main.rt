//! The program `prefsql`: its words, its standard streams and the files.
#![tactic(auto)]

mod words;

ghost use Rattle.std.specs.Prelude.{◌≡◌, [], true, false, None};
ghost use Rattle.std.specs.Process.{exit_status};
ghost use Rattle.prefsql_cli.specs.Exit.{exit_number};
ghost use Rattle.prefsql_cli.specs.Words.{are_texts, words_in};
ghost use Rattle.prefsql_session.specs.CommandLine.{accepted};
ghost use Rattle.prefsql_session.specs.Course.{Comes};
ghost use Rattle.prefsql_session.specs.Opening.{opening};
ghost use Rattle.prefsql_session.specs.Run.{EndsAt};

use crate::words::{NoWords, arguments, words_of};
use prefsql_io::{FileShelf, StdSink, StdSource};
use prefsql_session::{Status, run};
use prefsql_values::{List, Memory, Steps, Text};
use std::marker::Brand;
use std::process::ExitCode;
use std::rt::Runtime;
use std::sync::ledger::{Blank, Ledger};

fn main(rt: HostRuntime) -> ExitCode {
    let status = match arguments(&rt, rt.alloc()) {
        Ok(arguments) => run_over::<Brand>(rt, arguments.as_slice(), Blank::new(1)),
        Err(Memory) => Status::Memory,
    };
    ending(status)
}

/// What the process ends with.
fn ending(status: Status) -> ExitCode
    ensures { exit_status result ≡ exit_number status }
{
    ExitCode::from(exit_number(status))
}

fn exit_number(status: Status) -> u8
    ensures { result ≡ exit_number status }
{
    match status {
        Status::Done => 0,
        Status::Refused => 1,
        Status::Usage => 2,
        Status::ReadFault => 3,
        Status::WriteFault => 4,
        Status::Memory => 5,
        Status::ShelfFault => 6,
    }
}

/// Runs over the words of these arguments. Where one is no text, the words are not accepted.
fn run_over<L: Ledger>(rt: HostRuntime, arguments: &[List<u8>], blank: Blank) -> Status
    requires name { blank.name ≡ L.name }
    requires parts { blank.parts ≡ L.parts }
    requires one { blank.parts ≡ 1 }
    ensures texts { are_texts (words_in arguments.now) ≡ true
        → EndsAt (Comes (words_in arguments.now) None None) (opening (words_in arguments.now) None)
        (accepted (words_in arguments.now)) result }
    ensures no_text { are_texts (words_in arguments.now) ≡ false
        → EndsAt (Comes [] None None) (opening [] None) (accepted []) result }
{
    let alloc = rt.alloc();
    let words = match words_of(alloc, arguments) {
        Ok(words) => words,
        // No words are not accepted either.
        Err(NoWords::NotText) => List::new(alloc),
        Err(NoWords::Memory) => return Status::Memory,
    };
    run_real::<L>(rt, words.as_slice(), blank)
}

/// Runs over the standard streams and the files, which tell nothing of what they hold.
fn run_real<L: Ledger>(rt: HostRuntime, words: &[Text], blank: Blank) -> Status
    requires name { blank.name ≡ L.name }
    requires parts { blank.parts ≡ L.parts }
    requires one { blank.parts ≡ 1 }
    ensures { EndsAt (Comes words.now None None) (opening words.now None)
        (accepted words.now) result }
{
    let alloc = rt.alloc();
    let mut script = StdSource::new(rt.stdin());
    let mut out = StdSink::new(rt.stdout());
    let mut err = StdSink::new(rt.stderr());
    let mut shelf = FileShelf::new(rt);
    let mut steps = Steps::<L>::new(blank);
    run(
        alloc,
        words,
        &mut script,
        &mut out,
        &mut err,
        &mut shelf,
        &mut steps,
    )
}
