//! One turn of a thread.

ghost use Rattle.std.specs.Prelude.{◌≡◌, OnOk};
ghost use Rattle.job_turns.specs.Progress.{Share, is_over};
ghost use Rattle.job_turns.specs.Standing.{IsGoing, ask_of};
ghost use Rattle.job_turns.specs.Turning.{CanTurn, CanTurnIn, Turned, TurnedIn};

use crate::answers::answer;
use crate::runner::Runner;
use module_data::Data;
use module_table::Registry;
use std::alloc::AllocError;
use thread_turns::{MOST_EVENTS, TurnTaker};

/// What all threads share: the history, and the data of all images.
#[derive(Drop)]
pub struct Common {
    pub(crate) registry: Registry,
    pub(crate) pieces: Data,
}

impl<'j, 'n, 'm> TurnTaker<Common> for Runner<'j, 'n, 'm> {
    ghost is_done = { is_over };

    ghost can_turn = { CanTurnIn };

    ghost turned = { TurnedIn };

    ghost fit = { Share };

    fn is_done(&self) -> bool {
        self.asks().is_done()
    }

    fn turn(&mut self, shared: &mut Common) -> Result<(), AllocError> {
        take_turn(self, &mut shared.registry, &mut shared.pieces)
    }
}

/// Takes the thread's next turn, at the whole history. Its own open or close is added after it.
fn take_turn(
    runner: &mut Runner<'_, '_, '_>,
    registry: &mut Registry,
    pieces: &mut Data,
) -> Result<(), AllocError>
    requires going { IsGoing (ask_of runner.old) }
    requires can { CanTurn registry.old pieces.old runner.old }
    ensures { OnOk result (Turned registry.old pieces.old runner.old registry.new pieces.new runner.new) }
{
    if registry.len() >= MOST_EVENTS {
        return Err(AllocError);
    }
    let seen = runner.seen();
    let known = registry.since(seen).len();
    let answer = answer(registry, runner.thread(), runner.asks())?;
    let events = &registry.since(seen)[..known];
    runner.advance(events, answer, pieces)
}
