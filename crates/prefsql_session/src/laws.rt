//! What two runs come to, one after the other.

ghost use Rattle.std.specs.Prelude.{◌≤◌, ℕ, Bool, List, Option, Some, length};
ghost use Rattle.prefsql_io.specs.Files.{Files};
ghost use Rattle.prefsql_tables.specs.Table.{Tables};
ghost use Rattle.sql_read_back.specs.Texts.{max_bytes};
ghost use Rattle.written_script.specs.WrittenScript.{IsOther};
ghost use Rattle.prefsql_session.specs.Course.{Comes};
ghost use Rattle.prefsql_session.specs.Stage.{ready};
ghost use Rattle.prefsql_session.specs.Texts.{text_of};
ghost use Rattle.prefsql_session.specs.Written.{IsWrittenAt, OpensWith, WriteTheSame};
ghost use Rattle.prefsql_session.specs.declared.command.Shown.TheVariants.{Query};
ghost use Rattle.prefsql_session.specs.declared.command.Task.TheVariants.{Ask, Execute};
ghost use Rattle.prefsql_session.specs.declared.command.Wish.TheVariants.{Answer, Show};
ghost use Rattle.prefsql_session.specs.declared.work.Work.{Work};

/// The law of a text that is written and then executed. Let a run of `rewrite` over a script come
/// to its work, and let that be written as `run` ensures at its good end. Over any valid tables
/// with the same names in the same order and equal columns, a run of `execute` over the text of
/// that work, if it is no longer than a script may be, and a run of `answer` over the first script
/// come to good ends, and write the same text.
pub fn written_text_executes()
    ensures { (rewriting executing answering : List (List ℕ)) (files others : Option Files)
        (tables other_tables : Tables) (tells : Bool) (script : List ℕ) (work : Work)
        → OpensWith rewriting files (Ask (Show Query)) tables
        → OpensWith executing others Execute other_tables
        → OpensWith answering others (Ask (Answer tells)) other_tables
        → IsOther tables other_tables
        → Comes rewriting files (Some script) (ready work) → IsWrittenAt (ready work)
        → length (text_of work) ≤ max_bytes
        → WriteTheSame (Comes executing others (Some (text_of work)))
        (Comes answering others (Some script)) }
{}
