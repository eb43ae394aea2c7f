ghost use Rattle.std.specs.Prelude.{◌≡◌, Some, IfOk, MatchOption, [], map, true, ◌∷◌, ℕ, List, Bool};
ghost use Rattle.std.specs.Char.{is_ascii_digit};
ghost use Rattle.std.specs.List.{list_all};
ghost use Rattle.std.specs.Str.Parse.{digits_value};
ghost use Rattle.clap.specs.Faults.{fault_of};
ghost use Rattle.clap.specs.Matches.{found_of};
ghost use Rattle.clap.specs.Simple.{matches_of};
ghost use Rattle.clap.specs.Takes.{takes};
ghost use Rattle.clap.specs.Walk.{rows_of};
ghost use Rattle.prefsql_session.specs.CommandLine.{accepted, begins_plain, bench_count, command_of, is_number, is_plain, row_count, script_command, shown_of, task_named, wish_named};
ghost use Rattle.prefsql_session.specs.WordsApp.{Reads, words_app};

use crate::reader::words_command;
use crate::table_words::table_words;
use crate::{Command, Shown, Task, Wish};
use clap::ArgMatches;
use clap::error::ErrorKind;
use prefsql_values::{Memory, Text};
use std::alloc::Global;

// What is shown of each statement, by the name of the command.
fn shown_of(name: &str) -> Option<Shown>
    ensures { result ≡ shown_of name.now }
{
    match name {
        "explain" => Some(Shown::Plan),
        "rewrite" => Some(Shown::Query),
        "via" => Some(Shown::Executed),
        _ => None,
    }
}

// What is written of each statement, by the name of the command and by whether `--stats` stands
// there.
fn wish_named(name: &str, counts: bool) -> Option<Wish>
    ensures { result ≡ wish_named name.now counts }
{
    if name == "answer" {
        return Some(Wish::Answer(counts));
    }
    if counts {
        return None;
    }
    shown_of(name).map(Wish::Show)
}

// What is done with a script, by the same.
fn task_named(name: &str, counts: bool) -> Option<Task>
    ensures { result ≡ task_named name.now counts }
{
    if name != "execute" {
        return wish_named(name, counts).map(Task::Ask);
    }
    if counts { None } else { Some(Task::Execute) }
}

fn are_digits(bytes: &[u8]) -> bool
    ensures { result ≡ list_all is_ascii_digit bytes.now }
{
    bytes.iter().all(|byte| byte.is_ascii_digit())
}

// One to six digits.
fn is_number(word: &str) -> bool
    ensures { result ≡ is_number word.now }
{
    are_digits(word.as_bytes()) && !word.is_empty() && word.len() <= 6
}

// The number that they write.
fn number(word: &str) -> Option<u32>
    requires { is_number word.now ≡ true }
    ensures { result ≡ Some (digits_value 10 word.now) }
{
    word.parse::<u32>().ok()
}

// The same, where it is from 1 to 100,000.
fn row_count(word: &str) -> Option<u32>
    ensures { result ≡ row_count word.now }
{
    if !is_number(word) {
        return None;
    }
    let count = number(word)?;
    if 1 <= count && count <= 100_000 {
        Some(count)
    } else {
        None
    }
}

// The one word after `bench`.
fn bench_count(words: &[&str]) -> Option<u32>
    ensures { result ≡ bench_count (map (λ word. word.now) words.now) }
{
    match words {
        [word] => row_count(word),
        _ => None,
    }
}

// A command on a script.
fn script_command(
    alloc: Global,
    name: &str,
    counts: bool,
    words: &[&str],
) -> Result<Option<Command>, Memory>
    ensures { IfOk result
        (λ command. command ≡ script_command name.now counts (map (λ word. word.now) words.now)) }
{
    let Some(task) = task_named(name, counts) else {
        return Ok(None);
    };
    let tables = table_words(alloc, words)?;
    Ok(tables.map(|tables| Command::OnScript(task, tables)))
}

// A command of this name, with `--stats` or without, and with these further words.
fn command_of(
    alloc: Global,
    name: &str,
    counts: bool,
    words: &[&str],
) -> Result<Option<Command>, Memory>
    ensures { IfOk result
        (λ command. command ≡ command_of name.now counts (map (λ word. word.now) words.now)) }
{
    if name != "bench" {
        return script_command(alloc, name, counts, words);
    }
    if counts {
        return Ok(None);
    }
    Ok(bench_count(words).map(Command::Bench))
}

// What `clap` reads of the words, where it takes them.
fn read<'a>(alloc: Global, words: &'a [&'a str]) -> Result<Option<ArgMatches<'a>>, Memory>
    ensures { IfOk result
        (λ read. MatchOption read (takes words_app (map (λ word. word.now) words.now) ≡ true → ⊥)
        (λ matches. (rows_of (found_of matches)
        ≡ matches_of words_app (map (λ word. word.now) words.now))
        × (fault_of words_app (map (λ word. word.now) words.now) ≡ []))) }
{
    let command = words_command(alloc)?;
    match command.try_get_matches_from(words) {
        Ok(matches) => Ok(Some(matches)),
        Err(error) => {
            if error.kind() == ErrorKind::OutOfMemory {
                return Err(Memory);
            }
            Ok(None)
        }
    }
}

// The command that the matches name.
fn meaning(alloc: Global, matches: &ArgMatches<'_>) -> Result<Option<Command>, Memory>
    ensures { (name : List ℕ) (counts : Bool) (words : List (List ℕ))
        → Reads name counts words (rows_of (found_of matches.now))
        → IfOk result (λ command. command ≡ command_of name counts words) }
{
    let Some(name) = matches.get_str("command") else {
        return Ok(None);
    };
    let words = matches.get_strs("words").unwrap_or(&[]);
    command_of(alloc, name, matches.get_flag("stats"), words)
}

// The word begins with no hyphen, so `clap` takes it for no flag.
fn is_plain(word: &str) -> bool
    ensures { result ≡ is_plain word.now }
{
    match word.as_bytes() {
        [first, ..] => *first != b'-',
        [] => true,
    }
}

// There is a first word, and it begins with no hyphen.
fn begins_plain(words: &[&str]) -> bool
    ensures { result ≡ begins_plain (map (λ word. word.now) words.now) }
{
    match words {
        [name, ..] => is_plain(name),
        [] => false,
    }
}

fn meaning_of(alloc: Global, words: &[&str]) -> Result<Option<Command>, Memory>
    ensures { IfOk result (λ command. command ≡ accepted (map (λ word. word.now) words.now)) }
{
    if !begins_plain(words) {
        return Ok(None);
    }
    match read(alloc, words) {
        Ok(Some(matches)) => meaning(alloc, &matches),
        Ok(None) => Ok(None),
        Err(Memory) => Err(Memory),
    }
}

fn strs<'a>(alloc: Global, words: &'a [Text]) -> Result<Vec<&'a str>, Memory>
    ensures { IfOk result (λ strs. map (λ word. word.now) strs.items ≡ words.now) }
{
    let mut strs = Vec::new(alloc);
    for word in words {
        strs.push(word.as_str())?;
    }
    Ok(strs)
}

/// What the words of a command line mean, where they are accepted. The only error is want of
/// memory.
pub(crate) fn accepted(alloc: Global, words: &[Text]) -> Result<Option<Command>, Memory>
    ensures { IfOk result (λ command. command ≡ accepted words.now) }
{
    let words = strs(alloc, words)?;
    meaning_of(alloc, &words)
}
