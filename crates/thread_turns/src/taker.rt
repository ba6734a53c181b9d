//! What a thread does in a turn.

ghost use Rattle.std.specs.Prelude.{◌≡◌, Bool, false, List, OnOk};

use std::alloc::AllocError;

/// A thread that takes turns with others. `S` is what all of them share.
pub trait TurnTaker<S>: Drop {
    // nothing is left to do
    ghost is_done: { Self → Bool };

    // the thread can take its turn
    ghost can_turn: { S → Self → Type 0 };

    // what its turn leaves of the shared state and of the thread
    ghost turned: { S → Self → S → Self → Type 0 };

    // these threads share this state
    ghost fit: { S → List Self → Type 0 };

    /// Whether the thread has nothing left to do.
    fn is_done(&self) -> bool
        ensures { result ≡ is_done self.now };

    /// Takes the thread's next turn. Fails only when memory runs out.
    fn turn(&mut self, shared: &mut S) -> Result<(), AllocError>
        requires going { is_done self.old ≡ false }
        requires can { can_turn shared.old self.old }
        ensures { OnOk result (turned shared.old self.old shared.new self.new) };
}
