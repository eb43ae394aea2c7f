ghost use Rattle.std.specs.Prelude.{◌≡◌, IfOk, true, map};
ghost use Rattle.clap.specs.Simple.{app_of, HasMatchesOf};
ghost use Rattle.prefsql_session.specs.WordsApp.{words_app};

use clap::{Arg, ArgAction, Command};
use std::alloc::{AllocError, Global};

// The one command that reads the words.
pub(crate) fn words_command<'a>(alloc: Global) -> Result<Command<'a>, AllocError>
    ensures { IfOk result (λ command. app_of command ≡ words_app) }
{
    let command = Arg::new(alloc, "command")
        .required(true)
        .action(ArgAction::Set);
    let words = Arg::new(alloc, "words").action(ArgAction::Append);
    let stats = Arg::new(alloc, "stats")
        .long("stats")
        .action(ArgAction::SetTrue);
    Command::new(alloc, "prefsql")
        .no_binary_name(true)
        .disable_help_flag(true)
        .arg(command)?
        .arg(words)?
        .arg(stats)
}
