//! The program `tlsld`: runs the command that its words name, over the host's files and standard output.
//!
//! It passes all three to [`commands::tlsld`], whose contract says what happens.
//!
//! If standard error is a terminal, a long fetch of files shows its progress there (`terminal_progress`), and once the
//! command has ended, a refusal is explained in one line more (`terminal_notes`). Neither changes the status or standard
//! output.
#![tactic(auto)]

use command_replies::say_no_memory;
use commands::tlsld;
use ports::{HostSink, HostStore};
use std::alloc::Global;
use std::io::{ErrorKind, IsTerminal};
use std::process::ExitCode;
use std::rt::Env;
use std::{env, io};
use terminal_notes::{KeptSink, note_of};
use terminal_progress::ProgressStore;

/// The largest request for memory that freed memory may serve, in bytes.
const LARGEST_KEPT: usize = 1 << 21;

/// Makes the C library keep freed memory for later requests up to this size: it raises its limit to the largest block
/// that was allocated and freed. Otherwise it would request each table of an object from the host anew.
fn keep_freed(alloc: Global) {
    let _given_back = Vec::<u8>::with_capacity(alloc, LARGEST_KEPT);
}

/// The words after the program's name. Each must be UTF-8.
fn words_of(rt: &(impl Env + AllocGlobal)) -> io::Result<Vec<String>> {
    let mut words = Vec::new(rt.alloc());
    for word in env::args(rt)?.skip(1) {
        words.push(word)?;
    }
    Ok(words)
}

fn main(rt: HostRuntime) -> ExitCode {
    keep_freed(rt.alloc());
    let mut out = KeptSink::new(rt.alloc(), HostSink::new(io::writer(&rt)));
    let words = match words_of(&rt) {
        Ok(words) => words,
        Err(error) if error.kind() == ErrorKind::OutOfMemory => {
            return ExitCode::from(say_no_memory(&mut out));
        }
        // If a word is not UTF-8, no command fits, just as without words.
        Err(_) => Vec::new(rt.alloc()),
    };
    let files = HostStore::new(&rt, rt.alloc());
    let is_shown = rt.stderr().is_terminal();
    let mut store = ProgressStore::new(files, &rt, is_shown);
    let status = tlsld(&rt, rt.alloc(), words.as_slice(), &mut store, &mut out);
    if is_shown {
        if let Some(note) = note_of(rt.alloc(), status, out.last(), store.inner()) {
            let _ = rt.stderr().write_all(note.as_slice());
        }
    }
    ExitCode::from(status)
}
