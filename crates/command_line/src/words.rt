//! From words to a command.
ghost use Rattle.std.specs.Prelude.{◌≡◌, true, false, Some, None, codes, is_some, map, string_bytes, IfOk, OnOk, IsErrOf};
ghost use Rattle.std.specs.Option.{option_and_then, option_map};
ghost use Rattle.clap.specs.Matches.{found_of};
ghost use Rattle.clap.specs.Walk.{rows_of};
ghost use Rattle.clap.specs.Simple.{subcommand_rows_of};
ghost use Rattle.command_line.specs.Counts.{count_of as count_in};
ghost use Rattle.command_line.specs.Words.{asked, command_of, text_at, rewriting_at, IsInLimits, IsWithinLimits};

use crate::command_set::tool_command;
use crate::counts::count_of;
use crate::{Command, Rewriting, Task, Text, WordsFault};
use clap::ArgMatches;
use clap::error::ErrorKind;
use std::alloc::{AllocError, Global};

impl From<AllocError> for WordsFault {
    ghost use Rattle.std.specs.Prelude.{◌≡◌};
    ghost use Rattle.command_line.specs.declared.tasks.WordsFault.TheVariants as fault;

    ghost from_gives = { λ _ e. e ≡ fault.OutOfMemory };

    fn from(_error: AllocError) -> WordsFault {
        WordsFault::OutOfMemory
    }
}

/// The text of an argument that is required.
fn text_of<'a>(matches: &ArgMatches<'a>, id: &str) -> &'a str
    ensures { result.now ≡ text_at id.now (rows_of (found_of matches.now)) }
{
    matches.get_str(id).unwrap_or("")
}

/// Whether sequences may be rewritten: unless the flag is set.
fn rewriting_of(matches: &ArgMatches<'_>) -> Rewriting
    ensures { result ≡ rewriting_at (rows_of (found_of matches.now)) }
{
    if text_of(matches, "no-relax") == "true" {
        Rewriting::Off
    } else {
        Rewriting::Allowed
    }
}

fn run_of(alloc: Global, matches: &ArgMatches<'_>) -> Result<Task, AllocError>
    ensures { IfOk result (λ task. task ≡ Task.Run
        (text_at (codes "JOB") (rows_of (found_of matches.now))) (rewriting_at (rows_of (found_of matches.now)))) }
{
    Ok(Task::Run {
        job: Text::copy_of(alloc, text_of(matches, "JOB"))?,
        rewriting: rewriting_of(matches),
    })
}

fn race_of(alloc: Global, matches: &ArgMatches<'_>) -> Result<Command, AllocError>
    ensures { IfOk result (λ command. command ≡ Command.Race
        (text_at (codes "JOB") (rows_of (found_of matches.now))) (rewriting_at (rows_of (found_of matches.now)))) }
{
    Ok(Command::Race {
        job: Text::copy_of(alloc, text_of(matches, "JOB"))?,
        rewriting: rewriting_of(matches),
    })
}

fn link_of(alloc: Global, matches: &ArgMatches<'_>) -> Result<Task, AllocError>
    ensures { IfOk result (λ task. task ≡ Task.Link
        (text_at (codes "JOB") (rows_of (found_of matches.now)))
        (text_at (codes "IMAGE") (rows_of (found_of matches.now)))
        (text_at (codes "OUT") (rows_of (found_of matches.now))) (rewriting_at (rows_of (found_of matches.now)))) }
{
    Ok(Task::Link {
        job: Text::copy_of(alloc, text_of(matches, "JOB"))?,
        image: Text::copy_of(alloc, text_of(matches, "IMAGE"))?,
        out: Text::copy_of(alloc, text_of(matches, "OUT"))?,
        rewriting: rewriting_of(matches),
    })
}

fn sites_of(alloc: Global, matches: &ArgMatches<'_>) -> Result<Task, AllocError>
    ensures { IfOk result (λ task. task ≡ Task.Sites
        (text_at (codes "JOB") (rows_of (found_of matches.now)))
        (text_at (codes "IMAGE") (rows_of (found_of matches.now)))) }
{
    Ok(Task::Sites {
        job: Text::copy_of(alloc, text_of(matches, "JOB"))?,
        image: Text::copy_of(alloc, text_of(matches, "IMAGE"))?,
    })
}

fn show_of(alloc: Global, matches: &ArgMatches<'_>) -> Result<Task, AllocError>
    ensures { IfOk result (λ task. task ≡ Task.Show (text_at (codes "FILE") (rows_of (found_of matches.now)))) }
{
    Ok(Task::Show {
        file: Text::copy_of(alloc, text_of(matches, "FILE"))?,
    })
}

fn check_of(alloc: Global, matches: &ArgMatches<'_>) -> Result<Task, AllocError>
    ensures { IfOk result (λ task. task ≡ Task.Check (text_at (codes "JOB") (rows_of (found_of matches.now)))) }
{
    Ok(Task::Check {
        job: Text::copy_of(alloc, text_of(matches, "JOB"))?,
    })
}

fn gen_of(matches: &ArgMatches<'_>) -> Result<Task, WordsFault>
    ensures ok { IfOk result (λ task.
        option_map Task.Gen (count_in (text_at (codes "N") (rows_of (found_of matches.now)))) ≡ Some task) }
    ensures within { IfOk result IsInLimits }
    ensures usage { IsErrOf result WordsFault.Usage
        → option_map Task.Gen (count_in (text_at (codes "N") (rows_of (found_of matches.now)))) ≡ None }
{
    match count_of(text_of(matches, "N")) {
        Some(count) => Ok(Task::Gen { count }),
        None => Err(WordsFault::Usage),
    }
}

/// The command that `clap` found, with the values of its words.
fn command_of_matches(alloc: Global, matches: &ArgMatches<'_>) -> Result<Command, WordsFault>
    ensures ok { IfOk result (λ command. option_and_then command_of (subcommand_rows_of matches.now) ≡ Some command) }
    ensures within { IfOk result IsWithinLimits }
    ensures usage { IsErrOf result WordsFault.Usage
        → option_and_then command_of (subcommand_rows_of matches.now) ≡ None }
{
    match matches.subcommand() {
        Some(("run", values)) => Ok(Command::Plain(run_of(alloc, values)?)),
        Some(("race", values)) => Ok(race_of(alloc, values)?),
        Some(("link", values)) => Ok(Command::Plain(link_of(alloc, values)?)),
        Some(("sites", values)) => Ok(Command::Plain(sites_of(alloc, values)?)),
        Some(("show", values)) => Ok(Command::Plain(show_of(alloc, values)?)),
        Some(("check", values)) => Ok(Command::Plain(check_of(alloc, values)?)),
        Some(("gen", values)) => Ok(Command::Plain(gen_of(values)?)),
        _ => Err(WordsFault::Usage),
    }
}

/// Reads the words that follow the program's name.
pub fn read_words(alloc: Global, words: &[String]) -> Result<Command, WordsFault>
    ensures ok { IfOk result (λ command. asked (map string_bytes words.now) ≡ Some command) }
    ensures within { IfOk result IsWithinLimits }
    ensures taken { OnOk result (is_some (asked (map string_bytes words.now)) ≡ true) }
    ensures usage { IsErrOf result WordsFault.Usage → is_some (asked (map string_bytes words.now)) ≡ false }
{
    let command = tool_command(alloc)?;
    match command.try_get_matches_from(words) {
        Ok(matches) => command_of_matches(alloc, &matches),
        Err(error) => match error.kind() {
            ErrorKind::OutOfMemory => Err(WordsFault::OutOfMemory),
            _ => Err(WordsFault::Usage),
        },
    }
}
