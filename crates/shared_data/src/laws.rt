//! Laws of shared data. Each function does nothing; what it ensures is the law.

ghost use Rattle.shared_data.specs.Laws.{JobsAreOrders, MachineDataAreThere, MachineDataLast, MachineReadsLast};
ghost use Rattle.shared_data.specs.Laws.{MeaningsAreOrders, MeantDataAreThere, MeantDataLast, MeantReadsLast};
ghost use Rattle.shared_data.specs.Laws.{NotesFollow, NotesFollowMeaning};

/// A step over a memory that notes its stores is the machine's step: noting changes nothing.
#[tactic(auto, using(crate::proofs::Machine::notes_follow))]
pub fn notes_follow_the_machine()
    ensures { NotesFollow }
{}

/// All turns of a job are turns in an order, as the laws need them.
#[tactic(auto, using(crate::proofs::Jobs::jobs_are_orders))]
pub fn jobs_are_orders()
    ensures { JobsAreOrders }
{}

/// After any turns the shared data are what the last changes left.
pub fn data_are_last_left()
    ensures { MachineDataLast }
{}

/// A thread of the machine reads at each address of data what the last change there left, in the order of all turns.
pub fn reads_are_last_left()
    ensures { MachineReadsLast }
{}

/// Where what is loaded lies below all that threads have for themselves, a thread finds each byte of the data of each
/// instance that it has seen live at its place: it reads what the last change there left, and what it stores there is
/// told as the next. It holds the data from their load on, from look to look.
#[tactic(auto, using(crate::proofs::Jobs::machine_there))]
pub fn data_are_there()
    ensures { MachineDataAreThere }
{}

/// Noting the stores of the meaning's instructions changes nothing.
#[tactic(auto, using(crate::proofs::Jobs::notes_follow_meaning))]
pub fn notes_follow_the_meaning()
    ensures { NotesFollowMeaning }
{}

/// All turns of a job's meaning are turns in an order.
#[tactic(auto, using(crate::proofs::Jobs::meanings_are_orders))]
pub fn meanings_are_orders()
    ensures { MeaningsAreOrders }
{}

/// After any turns of the meaning the shared data are what the last changes left.
pub fn meant_data_are_last_left()
    ensures { MeantDataLast }
{}

/// A thread of the meaning reads at each address of data what the last change there left, in the order of all turns.
pub fn meant_reads_are_last_left()
    ensures { MeantReadsLast }
{}

/// The same as `data_are_there`, for a thread of the meaning.
#[tactic(auto, using(crate::proofs::Jobs::meant_there))]
pub fn meant_data_are_there()
    ensures { MeantDataAreThere }
{}
