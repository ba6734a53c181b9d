//! How a command's output, or the line of its refusal, reaches the sink.
ghost use Rattle.command_replies.specs.Delivery.{Says, Delivers, Delivered, memory_line};
ghost use Rattle.command_replies.specs.Statuses.{IsLate, SinkShown, code_of};
ghost use Rattle.command_replies.specs.Replies.{IsDelivered, IsOwn};

use crate::fault::CommandFault;
use crate::statuses::Status;
use ports::{PutFault, Sink};

/// The line of a command that ran out of memory.
const OUT_OF_MEMORY: &[u8] = b"out of memory\n";

/// The line of a command whose store failed.
const STORE_FAULT: &[u8] = b"store fault\n";

/// A refusal: a status for the system, and a text for the sink.
#[derive(Drop)]
pub struct Reply {
    pub status: Status,
    pub text: Vec<u8>,
}

/// Writes the text, and returns the status to end with: its own; 4 if the sink failed; if the sink ran out of
/// memory, that of saying so.
pub fn say<K: Sink>(out: &mut K, status: Status, text: &[u8]) -> u8
    ensures delivers { Delivers text.now (code_of status) (K.view out.old) (K.view out.new) result }
    ensures sink { SinkShown (K.view out.old).faults (K.view out.new).faults result }
{
    match out.put(text) {
        Ok(()) => status.code(),
        Err(PutFault::Failed) => 4,
        Err(PutFault::OutOfMemory) => say_no_memory(out),
    }
}

/// Writes the line `out of memory`, and returns 1, or 4 if the sink failed.
pub fn say_no_memory<K: Sink>(out: &mut K) -> u8
    ensures says { Says memory_line 1 (K.view out.old) (K.view out.new) result }
    ensures sink { SinkShown (K.view out.old).faults (K.view out.new).faults result }
    ensures late { IsLate result }
{
    match out.put(OUT_OF_MEMORY) {
        Ok(()) | Err(PutFault::OutOfMemory) => 1,
        Err(PutFault::Failed) => 4,
    }
}

/// Writes the command's output, or the line that says why there is none, and returns the status to end with.
pub fn deliver<K: Sink>(out: &mut K, output: &Result<Vec<u8>, CommandFault>) -> u8
    ensures delivered { Delivered (IsOwn (λ text. text.items) output.now) (K.view out.old) (K.view out.new) result }
    ensures sink { SinkShown (K.view out.old).faults (K.view out.new).faults result }
    ensures own { IsDelivered output.now result }
{
    match output {
        Ok(text) => say(out, Status::Done, text.as_slice()),
        Err(CommandFault::Store) => say(out, Status::Store, STORE_FAULT),
        Err(CommandFault::OutOfMemory) => say_no_memory(out),
        Err(CommandFault::Refused(reply)) => say(out, reply.status, reply.text.as_slice()),
    }
}
