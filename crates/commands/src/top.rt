//! The top calls, which `main` makes.
ghost use Rattle.std.specs.Prelude.{◌≡◌, ◌≢◌, IfSome, None, false, is_some, map, string_bytes};
ghost use Rattle.command_line.specs.Words.{IsInLimits, asked};
ghost use Rattle.command_replies.specs.Delivery.{Delivered};
ghost use Rattle.command_replies.specs.Statuses.{FilesShown, UsageShown, StoreShown, SinkShown};
ghost use Rattle.ports.specs.Files.{untold_files};
ghost use Rattle.commands.specs.Completes.{Completes, DidNotFail};
ghost use Rattle.commands.specs.Replies.{Asked, AskedWords, MaySay, WordsLeave, WordsMaySay};
ghost use Rattle.commands.specs.Commands.{CommandLeaves};
ghost use Rattle.commands.specs.Untold.{Over};

use crate::command::output;
use crate::races::raced;
use command_line::{Command, Task, WordsFault, read_words};
use command_replies::{Status, deliver, say, say_no_memory};
use ports::{Sink, Store};
use std::alloc::Global;
use std::sync::Wait;
use std::thread::Threads;

/// Reads the words, without the program's name, and runs their command: puts its output, or the one line that says why
/// there is none, and returns the status to end with.
#[tactic(auto, using(crate::proofs::Words::asked_late, crate::proofs::Words::asked_usage, crate::proofs::Words::leave_usage, crate::proofs::Words::leave_late, crate::proofs::Completing::usage_completes, crate::proofs::Completing::late_completes))]
pub fn tlsld<R: Threads + Wait + Sync, S: Store, K: Sink>(
    rt: &R,
    alloc: Global,
    words: &[String],
    store: &mut S,
    out: &mut K,
) -> u8
    ensures usage { UsageShown (is_some (asked (map string_bytes words.now))) result }
    ensures store { StoreShown (S.faults store.old) (S.faults store.new) result }
    ensures sink { SinkShown (K.view out.old).faults (K.view out.new).faults result }
    ensures kept { FilesShown (S.files store.old) (S.files store.new) result }
    ensures files { WordsLeave (S.files store.old) (S.files store.new) (asked (map string_bytes words.now)) }
    ensures shows { Delivered (WordsMaySay (S.files store.old) (S.files store.new) (asked (map string_bytes words.now)))
        (K.view out.old) (K.view out.new) result }
    ensures asked { Over (S.files store.old) (λ fs. AskedWords fs (asked (map string_bytes words.now))
        (S.asked store.old) (S.asked store.new) result) }
    ensures completes { IfSome (asked (map string_bytes words.now)) (λ command.
        DidNotFail (S.faults store.old) (S.faults store.new)
        → DidNotFail (K.view out.old).faults (K.view out.new).faults
        → Completes (S.files store.old) command result) }
    ensures out { S.out store.new ≡ S.out store.old }
{
    match read_words(alloc, words) {
        Ok(Command::Plain(task)) => tlsld_plain(rt, alloc, &task, store, out),
        Ok(Command::Race { job, rewriting }) => {
            let raced = raced(rt, alloc, store, job.as_str(), rewriting);
            deliver(out, &raced)
        }
        Err(WordsFault::Usage) => say_usage(out),
        Err(WordsFault::OutOfMemory) => say_no_memory(out),
    }
}

/// Runs a command that waits for no other thread.
#[tactic(auto, using(crate::proofs::Kept::output_kept))]
pub fn tlsld_plain<R: Threads + Sync, S: Store, K: Sink>(
    rt: &R,
    alloc: Global,
    task: &Task,
    store: &mut S,
    out: &mut K,
) -> u8
    requires within { IsInLimits task.now }
    ensures taken { result ≢ 2 }
    ensures store { StoreShown (S.faults store.old) (S.faults store.new) result }
    ensures sink { SinkShown (K.view out.old).faults (K.view out.new).faults result }
    ensures kept { FilesShown (S.files store.old) (S.files store.new) result }
    ensures files { CommandLeaves (S.files store.old) (S.files store.new) (Command.Plain task.now) }
    ensures shows { Delivered (MaySay (S.files store.old) (S.files store.new) (Command.Plain task.now))
        (K.view out.old) (K.view out.new) result }
    ensures asked { Over (S.files store.old)
        (λ fs. Asked fs (Command.Plain task.now) (S.asked store.old) (S.asked store.new) result) }
    ensures completes { DidNotFail (S.faults store.old) (S.faults store.new)
        → DidNotFail (K.view out.old).faults (K.view out.new).faults
        → Completes (S.files store.old) (Command.Plain task.now) result }
    ensures out { S.out store.new ≡ S.out store.old }
{
    let output = output(rt, alloc, task, store);
    deliver(out, &output)
}

/// Puts the line for words that are not accepted.
fn say_usage<K: Sink>(out: &mut K) -> u8
    ensures usage { UsageShown false result }
    ensures shows { Delivered (WordsMaySay untold_files untold_files None) (K.view out.old) (K.view out.new) result }
    ensures sink { SinkShown (K.view out.old).faults (K.view out.new).faults result }
{
    say(out, Status::Usage, b"usage\n")
}
