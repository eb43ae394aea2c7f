ghost use Rattle.std.specs.Prelude.{◌≡◌, IfOk, ◌||◌, ◌==◌, map};
ghost use Rattle.std.specs.Char.{is_ascii_alphanumeric};
ghost use Rattle.std.specs.List.{list_all};
ghost use Rattle.prefsql_session.specs.CommandLine.{each, is_identifier, table_word, table_words};

use crate::TableWord;
use prefsql_values::{List, Memory, Text};
use std::alloc::Global;

fn are_name_bytes(bytes: &[u8]) -> bool
    ensures { result ≡ list_all (λ c. is_ascii_alphanumeric c || c == 95) bytes.now }
{
    bytes
        .iter()
        .all(|c| c.is_ascii_alphanumeric() || *c == b'_')
}

fn is_identifier(name: &str) -> bool
    ensures { result ≡ is_identifier name.now }
{
    match name.as_bytes() {
        [first, rest @ ..] => first.is_ascii_alphabetic() && are_name_bytes(rest),
        [] => false,
    }
}

fn table_word(alloc: Global, word: &str) -> Result<Option<TableWord>, Memory>
    ensures { IfOk result (λ table. table ≡ table_word word.now) }
{
    let Some((name, path)) = word.split_once('=') else {
        return Ok(None);
    };
    if !is_identifier(name) || name.len() > 64 || path.is_empty() {
        return Ok(None);
    }
    let upper = name.to_ascii_uppercase(alloc)?;
    Ok(Some(TableWord {
        name: Text::of(alloc, upper.as_str())?,
        path: Text::of(alloc, path)?,
    }))
}

fn each_table_word(alloc: Global, words: &[&str]) -> Result<Option<List<TableWord>>, Memory>
    ensures { IfOk result (λ tables. tables ≡ each table_word (map (λ word. word.now) words.now)) }
{
    let mut tables = List::new(alloc);
    for word in words {
        match table_word(alloc, word)? {
            Some(table) => tables.push(table)?,
            None => return Ok(None),
        }
    }
    Ok(Some(tables))
}

/// What these words mean, where they are at most eight table words. The only error is want of
/// memory.
pub(crate) fn table_words(alloc: Global, words: &[&str]) -> Result<Option<List<TableWord>>, Memory>
    ensures { IfOk result (λ tables. tables ≡ table_words (map (λ word. word.now) words.now)) }
{
    if words.len() > 8 {
        return Ok(None);
    }
    each_table_word(alloc, words)
}
