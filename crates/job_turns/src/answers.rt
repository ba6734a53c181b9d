//! The answers of a history's registry to a thread.

ghost use Rattle.std.specs.Prelude.{◌≡◌, IfOk, OnOk};
ghost use Rattle.module_table.specs.History.{left};
ghost use Rattle.job_turns.specs.Asking.{answer_to};
ghost use Rattle.job_turns.specs.Turning.{AddsAsked};

use crate::asking::{Ask, LineAnswer, refused_close, refused_open};
use module_table::Registry;
use std::alloc::AllocError;

/// The answer to what a thread asks. An accepted open or close is added to the history. The only error is out of
/// memory.
#[tactic(auto, unfolding(module_table::specs::History::open_answer, module_table::specs::History::opened_of, module_table::specs::History::close_answer, module_table::specs::History::closed_of))]
pub(crate) fn answer(
    registry: &mut Registry,
    thread: u32,
    ask: Ask,
) -> Result<Option<LineAnswer>, AllocError>
    ensures answer { IfOk result (λ answer. answer ≡ answer_to (left registry.old) ask) }
    ensures adds { OnOk result (AddsAsked thread ask registry.old registry.new) }
{
    match ask {
        Ask::Done | Ask::Look(_) => {
            registry.history_is_lawful();
            Ok(None)
        }
        Ask::Opens(line, image) => match registry.open(thread, line, image) {
            Ok(opened) => Ok(Some(LineAnswer::Opened(Ok(opened)))),
            Err(refusal) => Ok(Some(LineAnswer::Opened(Err(refused_open(refusal)?)))),
        },
        Ask::Closes(line, image) => match registry.close(thread, line, image) {
            Ok(closed) => Ok(Some(LineAnswer::Closed(Ok(closed)))),
            Err(refusal) => Ok(Some(LineAnswer::Closed(Err(refused_close(refusal)?)))),
        },
    }
}
