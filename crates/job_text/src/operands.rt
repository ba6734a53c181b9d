//! The words after the first ones of a line: numbers, symbols and the names of objects.

ghost use Rattle.std.specs.Prelude.{◌≡◌, IfOk, drop, not};
ghost use Rattle.std.specs.List.{list_any};
ghost use Rattle.job_text.specs.Grammar.{is_short_name};
ghost use Rattle.job_text.specs.Actions.{IsAction};
ghost use Rattle.job_text.specs.LineAnswers.{IsRead};
ghost use Rattle.job_text.specs.LineEffects.{action_of};
ghost use Rattle.job_text.specs.LineFaults.{action_fault, has_long_object, symbol_fault};
ghost use Rattle.job_text.specs.Words.{word_at};
ghost use Rattle.job_text.specs.declared.grammar.Verb.TheVariants as verb;

use crate::fault::{Flaw, JobFaultKind};
use crate::grammar::{Verb, is_short_name};
use crate::numbers::{number, number_within};
use crate::spelling::{Name, Names};
use crate::thread_lines::Action;
use crate::words::Words;
use std::alloc::{AllocError, Global};

/// The most bytes that a peek shows.
const MAX_PEEK: u64 = 4_096;

/// What a line of a thread does, apart from its image.
pub(crate) fn read_action(alloc: Global, verb: Verb, words: &Words) -> Result<Action, Flaw>
    ensures answer { IsRead (action_fault verb words.now) (action_of verb words.now) result }
    ensures shown { IfOk result IsAction }
{
    match verb {
        Verb::Call => read_call(alloc, words),
        Verb::Open => Ok(Action::Open),
        Verb::Close => Ok(Action::Close),
        Verb::Peek => read_peek(alloc, words),
    }
}

fn read_call(alloc: Global, words: &Words) -> Result<Action, Flaw>
    ensures answer { IsRead (action_fault verb.Call words.now) (action_of verb.Call words.now) result }
    ensures shown { IfOk result IsAction }
{
    let Some(a) = number(words.at(4)) else {
        return Err(Flaw::Kind(JobFaultKind::Number));
    };
    let Some(b) = number(words.at(5)) else {
        return Err(Flaw::Kind(JobFaultKind::Number));
    };
    let Some(c) = number(words.at(6)) else {
        return Err(Flaw::Kind(JobFaultKind::Number));
    };
    let symbol = read_symbol(alloc, words)?;
    Ok(Action::Call { symbol, a, b, c })
}

fn read_peek(alloc: Global, words: &Words) -> Result<Action, Flaw>
    ensures answer { IsRead (action_fault verb.Peek words.now) (action_of verb.Peek words.now) result }
    ensures shown { IfOk result IsAction }
{
    let Some(length) = number_within(words.at(4), 0, MAX_PEEK) else {
        return Err(Flaw::Kind(JobFaultKind::Number));
    };
    let symbol = read_symbol(alloc, words)?;
    Ok(Action::Peek {
        symbol,
        length: length as u32,
    })
}

fn read_symbol(alloc: Global, words: &Words) -> Result<Name, Flaw>
    ensures { IsRead (symbol_fault words.now) (word_at 3 words.now) result }
{
    if !is_short_name(words.at(3)) {
        return Err(Flaw::Kind(JobFaultKind::Name));
    }
    Ok(Name::new(alloc, words.at(3))?)
}

/// Whether the name of one of the objects is too long.
pub(crate) fn has_long_object(words: &Words) -> bool
    ensures { result ≡ has_long_object words.now }
{
    has_long(words.objects())
}

fn has_long(words: &[&str]) -> bool
    ensures { result ≡ list_any (λ word. not (is_short_name word.now)) words.now }
{
    words.iter().any(|word| !is_short_name(word))
}

/// The names of an image's objects.
pub(crate) fn objects_of(alloc: Global, words: &Words) -> Result<Names, AllocError>
    ensures { IfOk result (λ names. names ≡ drop 3 words.now) }
{
    let mut names = Names::new(alloc);
    for index in 3..words.count() {
        names.push(Name::new(alloc, words.at(index))?)?;
    }
    Ok(names)
}
