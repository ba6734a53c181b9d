//! A gate that is called when a line begins and when it is over.

ghost use Rattle.std.specs.Prelude.{◌≡◌};
ghost use Rattle.racing_thread.specs.Lines.{line_of};

use job_turns::Ask;

/// Called for each line of each thread, before its first look and after its end. The thread waits for the call to
/// return, so a test can hold one thread back until another has come far enough.
pub trait Gate {
    /// A line of a thread begins. Both are counted from 1.
    fn before(&self, thread: u32, line: u32);

    /// A line of a thread is over.
    fn after(&self, thread: u32, line: u32);
}

/// A gate that holds no thread back.
pub struct NoGate;

impl Gate for NoGate {
    fn before(&self, _thread: u32, _line: u32) {}

    fn after(&self, _thread: u32, _line: u32) {}
}

/// The line of a thread's next turn, or 0 if its lines are over.
fn line_of(ask: Ask) -> u32
    ensures { result ≡ line_of ask }
{
    match ask {
        Ask::Done => 0,
        Ask::Look(line) | Ask::Opens(line, _) | Ask::Closes(line, _) => line,
    }
}

/// Calls the gate if the next turn is in another line than `line`, that of the turn before (0 before the first).
/// Returns the next turn's line.
pub(crate) fn pass_gate<G: Gate>(gate: &G, thread: u32, line: u32, ask: Ask) -> u32
    ensures { result ≡ line_of ask }
{
    let next = line_of(ask);
    if next == line {
        return next;
    }
    if line > 0 {
        gate.after(thread, line);
    }
    if next > 0 {
        gate.before(thread, next);
    }
    next
}
