//! The work of a run up to the writing.
ghost use Rattle.std.specs.Prelude.{◌≡◌, ◌<◌, ◌≤◌, Some, IsTrue, All, IfOk, OnOk, IsErrOf, length};
ghost use Rattle.std.specs.Io.KnownBytes.{IsAtEnd};
ghost use Rattle.prefsql_io.specs.Counts.{HasCause};
ghost use Rattle.prefsql_values.specs.Limits.{IsName};
ghost use Rattle.prefsql_session.specs.CommandLine.{accepted};
ghost use Rattle.prefsql_session.specs.Course.{Comes, GoesOn};
ghost use Rattle.prefsql_session.specs.Opening.{job_stage, opening};
ghost use Rattle.prefsql_session.specs.Parts.{IsAskedFor, IsOfTask, Prepares};
ghost use Rattle.prefsql_session.specs.Run.{AsksForScript};
ghost use Rattle.prefsql_session.specs.Stage.{missing};
ghost use Rattle.prefsql_session.specs.Texts.{HasTexts};
ghost use Rattle.prefsql_session.specs.declared.command.Command.TheVariants.{OnScript};
ghost use Rattle.prefsql_session.specs.declared.command.TableWord.{TableWord};

use crate::fault::Stop;
use crate::script::read_work;
use crate::tables::open_tables;
use crate::work::Work;
use crate::{Command, TableWord, Task, accepted};
use prefsql_io::{Shelf, Source};
use prefsql_values::Text;
use std::alloc::Global;

// A task on a script: the tables are opened, and then the script is read.
fn prepare_script<S: Source, H: Shelf>(
    alloc: Global,
    task: Task,
    words: &[TableWord],
    script: &mut S,
    shelf: &mut H,
) -> Result<Work, Stop>
    requires few { length words.now ≤ 8 }
    requires named { All (λ (word : TableWord). IsName word.name) words.now }
    ensures follows { Prepares (GoesOn (job_stage (H.files shelf.old) (OnScript task words.now))
        (S.left script.old))
        (job_stage (H.files shelf.old) (OnScript task words.now))
        (Some (OnScript task words.now)) result }
    ensures asked { IfOk result (IsOfTask task) }
    ensures texts { IfOk result HasTexts }
    ensures read { HasCause (S.faults script.old) (S.faults script.new)
        (IsErrOf result Stop.ReadFault) }
    ensures load { HasCause (H.faults shelf.old) (H.faults shelf.new)
        (IsErrOf result Stop.ShelfFault) }
    ensures script_kept { (IsErrOf result Stop.ReadFault → ⊥)
        → S.faults script.new ≡ S.faults script.old }
    ensures shelf_kept { (IsErrOf result Stop.ShelfFault → ⊥)
        → H.faults shelf.new ≡ H.faults shelf.old }
    ensures sure { IsTrue (H.sure shelf.old) → IsErrOf result Stop.ShelfFault
        → job_stage (H.files shelf.old) (OnScript task words.now) ≡ missing }
    ensures end { OnOk result (IsAtEnd (S.left script.new)) }
{
    let tables = open_tables(alloc, words, shelf)?;
    read_work(alloc, task, tables, script)
}

/// Does the work of a run up to the writing: it judges the words, opens the tables and reads the
/// script.
pub(crate) fn prepare<S: Source, H: Shelf>(
    alloc: Global,
    words: &[Text],
    script: &mut S,
    shelf: &mut H,
) -> Result<Work, Stop>
    ensures follows { Prepares (Comes words.now (H.files shelf.old) (S.left script.old))
        (opening words.now (H.files shelf.old)) (accepted words.now) result }
    ensures asked { IfOk result (IsAskedFor (accepted words.now)) }
    ensures texts { IfOk result HasTexts }
    ensures read { HasCause (S.faults script.old) (S.faults script.new)
        (IsErrOf result Stop.ReadFault) }
    ensures load { HasCause (H.faults shelf.old) (H.faults shelf.new)
        (IsErrOf result Stop.ShelfFault) }
    ensures script_kept { (IsErrOf result Stop.ReadFault → ⊥)
        → S.faults script.new ≡ S.faults script.old }
    ensures shelf_kept { (IsErrOf result Stop.ShelfFault → ⊥)
        → H.faults shelf.new ≡ H.faults shelf.old }
    ensures sure { IsTrue (H.sure shelf.old) → IsErrOf result Stop.ShelfFault
        → opening words.now (H.files shelf.old) ≡ missing }
    ensures end { OnOk result (AsksForScript (accepted words.now) → IsAtEnd (S.left script.new)) }
    ensures unasked { (AsksForScript (accepted words.now) → ⊥)
        → S.left script.new ≡ S.left script.old }
{
    let Some(command) = accepted(alloc, words)? else {
        return Err(Stop::Usage);
    };
    match &command {
        Command::OnScript(task, words) => {
            prepare_script(alloc, *task, words.as_slice(), script, shelf)
        }
        Command::Bench(count) => Ok(Work::Bench(*count)),
    }
}
