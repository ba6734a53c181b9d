//! Laws of a job's threads. Each function does nothing; what it ensures is the law.

ghost use Rattle.thread_blocks.specs.JobStatements.{HistoriesAreLegal, HoldsLive, ThreadsEnd, ThreadsTakeTheirOwnTurns};

/// Each open and close of a job was accepted after those before it, in any order of the threads' turns.
#[tactic(auto, using(crate::proofs::Histories::histories_legal))]
pub fn histories_are_legal()
    ensures { HistoriesAreLegal }
{}

/// Each thread of a job finishes, in any order of the threads' turns.
pub fn threads_end()
    ensures { ThreadsEnd }
{}

/// If no image has data that threads write, a thread of a job takes the turns that it would take alone. Its looks see
/// fronts of the history, each of which the next one continues.
pub fn threads_take_their_own_turns()
    ensures { ThreadsTakeTheirOwnTurns }
{}

/// After a look a thread holds no block and no data of a closed instance.
#[tactic(auto, using(crate::proofs::Looks::looks_leave_live))]
pub fn looks_leave_what_is_live()
    ensures { HoldsLive }
{}
