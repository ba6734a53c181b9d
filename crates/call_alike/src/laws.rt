//! Laws of calls. Each function does nothing; what it ensures is the law.

ghost use Rattle.call_alike.specs.Laws.{CallsStayAlike, CodeIsAlike, MemoriesStayAlike, UsualStepsAdvance};
ghost use Rattle.call_alike.specs.Prints.{TiedJobsPrint, TiedThreadsPrint};

/// Memories of a thread in a call stay related under reads and writes.
#[tactic(auto, using(crate::proofs::Memories::memories_alike))]
pub fn memories_stay_alike()
    ensures { MemoriesStayAlike }
{}

/// The code of a thread in a call is related as the tie of each live instance says.
pub fn code_is_alike()
    ensures { CodeIsAlike }
{}

/// Where no sequence begins, a step of the meaning is a step of the machine, or the meaning is unclean.
#[tactic(auto, using(crate::proofs::Steps::usual_steps))]
pub fn usual_steps_advance()
    ensures { UsualStepsAdvance }
{}

/// A call of the meaning is a call of the machine: each step is one to four of its steps, and a look in the middle of
/// the call has the same result.
#[tactic(auto, using(crate::proofs::Simulated::calls_alike))]
pub fn calls_stay_alike()
    ensures { CallsStayAlike }
{}

/// A clean job prints what it means, if what is loaded is tied to what is meant.
pub fn tied_jobs_print()
    ensures { TiedJobsPrint }
{}

/// So does each clean thread by itself, whatever points its turns see.
pub fn tied_threads_print()
    ensures { TiedThreadsPrint }
{}
