ghost use Rattle.std.specs.Prelude.{◌≡◌, ◌⊎◌, IsSome, IsTrue};
ghost use Rattle.std.specs.Io.KnownBytes.{IsAtEnd};
ghost use Rattle.prefsql_io.specs.Counts.{Rose, IsQuiet};
ghost use Rattle.prefsql_session.specs.CommandLine.{accepted};
ghost use Rattle.prefsql_session.specs.Course.{Comes, HasAnEnd, HasOneEnd};
ghost use Rattle.prefsql_session.specs.Faults.{fault_line, usage_line};
ghost use Rattle.prefsql_session.specs.Opening.{opening};
ghost use Rattle.prefsql_session.specs.Stage.{IsTold, Stage, missing};
ghost use Rattle.prefsql_session.specs.Written.{IsWrittenAt};
ghost use Rattle.prefsql_session.specs.declared.work.Work.{Work};

use crate::fault::{Fault, Stop, USAGE};
use crate::fault_line::fault_line;
use crate::prepare::prepare;
use crate::writing::write_work;
use prefsql_io::{Shelf, Sink, Source, write_all};
use prefsql_values::{Steps, Text};
use std::alloc::Global;
use std::sync::ledger::Ledger;

/// How a run ended. The program ends with its number, from 0 to 6 in the order of this list.
#[derive(Clone, Copy, Debug, PartialEq, Eq)]
pub enum Status {
    /// The script was read to its end, where one is asked for, and the whole text stands on `out`.
    Done,
    /// A table word, a table file or the script has a fault, and the line of the first one stands
    /// on `err`.
    Refused,
    /// The words are not accepted, and the usage line stands on `err`.
    Usage,
    /// The script could not be read.
    ReadFault,
    /// `out` or `err` could not be written.
    WriteFault,
    /// Want of memory.
    Memory,
    /// A file could not be loaded.
    ShelfFault,
}

ghost use Rattle.prefsql_session.specs.Parts.{WritesLine};
ghost use Rattle.prefsql_session.specs.Run.{AsksForScript, AtEnd, EndsAt, FallsShort, FinishesAt, HasCountsAt, HasStatus, IsDueSoFarOf, IsGood, IsTextOf, WritesDue, WritesText};

// Writes these bytes. Where they can't be written, that is how the run ends.
fn put<O: Sink>(sink: &mut O, bytes: &[u8], status: Status) -> Status
    ensures wrote { WritesLine
        (λ wanted. wanted ≡ bytes.now) status (O.faults sink.old) (O.faults sink.new)
        (O.written sink.old) (O.written sink.new) result }
    ensures kept { (result ≡ Status.WriteFault → ⊥) → O.faults sink.new ≡ O.faults sink.old }
{
    match write_all(sink, bytes) {
        Ok(()) => status,
        Err(_) => Status::WriteFault,
    }
}

// Writes the line of a fault on `err`.
fn refuse<E: Sink>(alloc: Global, fault: &Fault, err: &mut E) -> Status
    ensures wrote { WritesLine
        (λ line. line ≡ fault_line fault.now) Status.Refused (E.faults err.old) (E.faults err.new)
        (E.written err.old) (E.written err.new) result }
    ensures kept { (result ≡ Status.WriteFault → ⊥) → E.faults err.new ≡ E.faults err.old }
{
    match fault_line(alloc, fault) {
        Ok(line) => put(err, line.as_bytes(), Status::Refused),
        Err(_) => Status::Memory,
    }
}

// Writes the line for words that are not accepted on `err`.
fn refuse_words<E: Sink>(err: &mut E) -> Status
    ensures wrote { WritesLine
        (λ line. line ≡ usage_line) Status.Usage (E.faults err.old) (E.faults err.new)
        (E.written err.old) (E.written err.new) result }
    ensures kept { (result ≡ Status.WriteFault → ⊥) → E.faults err.new ≡ E.faults err.old }
{
    put(err, USAGE.as_bytes(), Status::Usage)
}

/// Runs the program over these words, which are those after its name: `answer`, `explain`,
/// `rewrite`, `via` or `execute`, at most eight table words `NAME=PATH`, one `--`, and after
/// `answer` one `--stats`; or `bench`, one `--` and a number of rows from 1 to 100,000. What the
/// words, the files and the script come to is the run's course, and what the run writes and how it
/// ends follow from that, want of memory and the faults of the four outer objects. A step is one
/// comparison of a base preference.
pub fn run<S: Source, O: Sink, E: Sink, H: Shelf, L: Ledger>(
    alloc: Global,
    words: &[Text],
    script: &mut S,
    out: &mut O,
    err: &mut E,
    shelf: &mut H,
    steps: &mut Steps<L>,
) -> Status
    ensures status { EndsAt (Comes words.now (H.files shelf.old) (S.left script.old))
        (opening words.now (H.files shelf.old)) (accepted words.now) result }

    // What stands on `out` and on `err` then.
    ensures text { WritesText (Comes words.now (H.files shelf.old) (S.left script.old)) result
        (O.written out.old) (O.written out.new) }
    ensures due { WritesDue (Comes words.now (H.files shelf.old) (S.left script.old))
        (accepted words.now) result
        (E.written err.old) (E.written err.new) }

    // The course comes to exactly one end, which is told where the files and the script are. The
    // work that it may be needs no more tests than it may take.
    ensures an_end { HasAnEnd (Comes words.now (H.files shelf.old) (S.left script.old)) }
    ensures one_end { HasOneEnd (Comes words.now (H.files shelf.old) (S.left script.old)) }
    ensures told_end { IsSome (H.files shelf.old) → IsSome (S.left script.old)
        → AtEnd (Comes words.now (H.files shelf.old) (S.left script.old)) IsTold }
    ensures countable { AtEnd (Comes words.now (H.files shelf.old) (S.left script.old))
        HasCountsAt }

    ensures read_whole { result ≡ Status.Done → AsksForScript (accepted words.now)
        → IsAtEnd (S.left script.new) }
    ensures unread { (AsksForScript (accepted words.now) → ⊥)
        → S.left script.new ≡ S.left script.old }

    // The SQL texts read back, over all tables with these columns, as queries that mean the same.
    ensures written { result ≡ Status.Done
        → AtEnd (Comes words.now (H.files shelf.old) (S.left script.old)) IsWrittenAt }

    // An answer takes from one to eight steps a test, and so many tests as its plan needs at least
    // and may take at most. Where they are asked for, the counts stand on `err`.
    ensures counted { result ≡ Status.Done
        → AtEnd (Comes words.now (H.files shelf.old) (S.left script.old))
        (λ end. FinishesAt end (E.written err.old) (E.written err.new) steps.old steps.new) }

    // No fault is answered by itself.
    ensures read_fault { result ≡ Status.ReadFault
        → Rose (S.faults script.old) (S.faults script.new) }
    ensures write_fault { result ≡ Status.WriteFault
        → FallsShort (IsTextOf (Comes words.now (H.files shelf.old) (S.left script.old)))
        (O.faults out.old) (O.faults out.new) (O.written out.old) (O.written out.new)
        ⊎ FallsShort (IsDueSoFarOf (Comes words.now (H.files shelf.old) (S.left script.old)))
        (E.faults err.old) (E.faults err.new) (E.written err.old) (E.written err.new) }
    ensures shelf_fault { result ≡ Status.ShelfFault
        → Rose (H.faults shelf.old) (H.faults shelf.new) }
    ensures sure_shelf { IsTrue (H.sure shelf.old) → result ≡ Status.ShelfFault
        → opening words.now (H.files shelf.old) ≡ missing }

    // No fault is passed over: a count rises only where the run ends for it.
    ensures script_kept { (result ≡ Status.ReadFault → ⊥)
        → S.faults script.new ≡ S.faults script.old }
    ensures sinks_kept { (result ≡ Status.WriteFault → ⊥)
        → (O.faults out.new ≡ O.faults out.old) × (E.faults err.new ≡ E.faults err.old) }
    ensures shelf_kept { (result ≡ Status.ShelfFault → ⊥)
        → H.faults shelf.new ≡ H.faults shelf.old }

    // Where no device fails, a run whose end is told has the status of that end, or memory was not
    // granted.
    ensures decided { (end : Stage Work)
        → Comes words.now (H.files shelf.old) (S.left script.old) end → IsTold end
        → IsQuiet (S.faults script.old) (S.faults script.new)
        → IsQuiet (O.faults out.old) (O.faults out.new)
        → IsQuiet (E.faults err.old) (E.faults err.new)
        → IsTrue (H.sure shelf.old) ⊎ IsQuiet (H.faults shelf.old) (H.faults shelf.new)
        → HasStatus end result ⊎ (result ≡ Status.Memory) }

    // A run without a fault is done, where memory is granted.
    ensures complete { AtEnd (Comes words.now (H.files shelf.old) (S.left script.old)) IsGood
        → IsQuiet (S.faults script.old) (S.faults script.new)
        → IsQuiet (O.faults out.old) (O.faults out.new)
        → IsQuiet (E.faults err.old) (E.faults err.new)
        → IsTrue (H.sure shelf.old) ⊎ IsQuiet (H.faults shelf.old) (H.faults shelf.new)
        → (result ≡ Status.Done) ⊎ (result ≡ Status.Memory) }
{
    match prepare(alloc, words, script, shelf) {
        Ok(work) => write_work(alloc, &work, out, err, steps),
        Err(Stop::Usage) => refuse_words(err),
        Err(Stop::Refused(fault)) => refuse(alloc, &fault, err),
        Err(Stop::ReadFault) => Status::ReadFault,
        Err(Stop::ShelfFault) => Status::ShelfFault,
        Err(Stop::Memory) => Status::Memory,
    }
}
