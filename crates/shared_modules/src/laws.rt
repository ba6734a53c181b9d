//! Laws for facts about one thread that stay true while others go on: each function's contract is the law, and its
//! body is empty. `specs/Stable` has the general law, for any kind of fact.

ghost use Rattle.std.specs.Prelude.{◌≡◌, ◌≤◌, ℕ, List, length, take};
ghost use Rattle.module_table.specs.declared.events.Event.{Event};
ghost use Rattle.shared_modules.specs.Views.{times, Knows};
ghost use Rattle.shared_modules.specs.Laws.{own_events};

use crate::board::Place;
use crate::shared::{Pass, Shared};

/// The seen list of a thread's pass shows the thread's own events, and their places, as the history has them.
pub fn own_events_stay()
    ensures { (history seen : List Event) (threads : List ℕ) (thread : ℕ) → Knows history threads seen
        → 1 ≤ times thread threads → own_events thread history ≡ own_events thread seen }
{}

/// Up to a point that was seen, the history equals the seen list.
#[tactic(auto, using(crate::specs::Stable::points_stay))]
pub fn points_stay()
    ensures { (history seen : List Event) (threads : List ℕ) (point : ℕ) → Knows history threads seen
        → point ≤ length seen → take point history ≡ take point seen }
{}

/// What is known of a history holds of a later one that other threads made longer.
#[tactic(auto, using(crate::specs::Stable::knowledge_stays))]
pub fn knowledge_stays()
    ensures { (later history seen : List Event) (threads : List ℕ) → Knows history threads seen
        → Knows later threads history → Knows later threads seen }
{}

/// Checks that threads may move and share a type's values.
fn crosses_threads<T: Send + Sync>() {}

/// Threads may move and share a shared history, its passes and what they hold. A `&` to a pass gives only its length.
pub fn passes_cross_threads() {
    crosses_threads::<Shared>();
    crosses_threads::<Pass>();
    crosses_threads::<Place>();
}
