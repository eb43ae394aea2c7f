//! The words of the command line.

ghost use Rattle.std.specs.Prelude.{◌≡◌, true, false, IfOk, OnOk, IsErrOf};
ghost use Rattle.std.specs.Str.{is_utf8};
ghost use Rattle.prefsql_cli.specs.Words.{are_texts, words_in};

use prefsql_values::{List, Memory, Text};
use std::alloc::Global;
use std::env::{Env, FillError};
use std::str;

/// Why a command line has no words.
#[derive(Clone, Copy, Debug, PartialEq, Eq)]
pub(crate) enum NoWords {
    /// A word is not UTF-8.
    NotText,
    /// Want of memory, which comes only where each word is UTF-8.
    Memory,
}

impl From<Memory> for NoWords {
    ghost use Rattle.prefsql_cli.specs.declared.words.NoWords.TheVariants as why;

    ghost from_gives = { λ _ e. e ≡ why.Memory };

    fn from(_memory: Memory) -> NoWords {
        NoWords::Memory
    }
}

/// The words: the arguments behind the program's own name, in their order. The name may hold any
/// bytes.
pub(crate) fn words_of(alloc: Global, arguments: &[List<u8>]) -> Result<List<Text>, NoWords>
    ensures words { IfOk result (λ words. words ≡ words_in arguments.now) }
    ensures texts { OnOk result (are_texts (words_in arguments.now) ≡ true) }
    ensures not_text { IsErrOf result NoWords.NotText → are_texts (words_in arguments.now) ≡ false }
    ensures memory { IsErrOf result NoWords.Memory → are_texts (words_in arguments.now) ≡ true }
{
    let words = behind_the_name(arguments);
    if !are_texts(words) {
        return Err(NoWords::NotText);
    }
    Ok(texts_of(alloc, words)?)
}

fn behind_the_name(arguments: &[List<u8>]) -> &[List<u8>]
    ensures { result.now ≡ words_in arguments.now }
{
    match arguments {
        [_, words @ ..] => words,
        [] => arguments,
    }
}

fn are_texts(words: &[List<u8>]) -> bool
    ensures { result ≡ are_texts words.now }
{
    words.iter().all(|word| is_text(word.as_slice()))
}

fn is_text(word: &[u8]) -> bool
    ensures { result ≡ is_utf8 word.now }
{
    match str::from_utf8(word) {
        Ok(_) => true,
        Err(_) => false,
    }
}

/// The words as texts, or want of memory.
fn texts_of(alloc: Global, words: &[List<u8>]) -> Result<List<Text>, Memory>
    requires { are_texts words.now ≡ true }
    ensures { IfOk result (λ texts. texts ≡ words.now) }
{
    let mut texts = List::new(alloc);
    for word in words {
        let Ok(text) = str::from_utf8(word.as_slice()) else {
            unreachable!()
        };
        texts.push(Text::of(alloc, text)?)?;
    }
    Ok(texts)
}

/// The arguments of the process, the program's own name first.
pub(crate) fn arguments<R: Env>(env: &R, alloc: Global) -> Result<List<List<u8>>, Memory> {
    let mut all = List::new(alloc);
    for place in 0..usize::MAX {
        let Some(argument) = argument(env, alloc, place)? else {
            break;
        };
        all.push(List::of(argument))?;
    }
    Ok(all)
}

/// The bytes of the argument at a place, which is None behind the last one. The room for it is
/// doubled until it is enough.
fn argument<R: Env>(env: &R, alloc: Global, place: usize) -> Result<Option<Vec<u8>>, Memory> {
    let mut room: usize = 256;
    for _ in 0..usize::BITS {
        let mut bytes = Vec::new(alloc);
        bytes.resize(room, 0)?;
        match env.arg(place, bytes.as_mut_slice()) {
            Ok(count) => {
                bytes.truncate(count);
                return Ok(Some(bytes));
            }
            Err(FillError::NotPresent) => return Ok(None),
            Err(FillError::TooLong) => room = room.saturating_mul(2),
        }
    }
    Err(Memory)
}
