//! Laws of single jobs. Each function does nothing; what it ensures is the law.

ghost use Rattle.closed_jobs.specs.Laws.{LocalCodeIsTied, LocalCodeSaysTheSame, LocalJobIsTied, ReopenedSaysTheSame};
ghost use Rattle.closed_jobs.specs.Laws.{TablesHoldTheirWords};

/// The job of `specs/LocalCode.antt` prints the same in the meaning and in the machine, rewritten and kept.
#[tactic(auto, using(crate::proofs::LocalCode::says_the_same))]
pub fn local_code_says_the_same()
    ensures { LocalCodeSaysTheSame }
{}

/// In the image of that job, rewritten and kept, the code in place of a sequence does what it means, and the offset
/// field moves the base of each thread's block to one address.
#[tactic(auto, using(crate::proofs::LocalSites::is_tied))]
pub fn local_code_is_tied()
    ensures { LocalCodeIsTied }
{}

/// All that is loaded of that image, rewritten and kept, is tied to all that its object means: the premises of the
/// laws of whole jobs can be satisfied.
#[tactic(auto, using(crate::proofs::LocalTied::job_tied))]
pub fn local_job_is_tied()
    ensures { LocalJobIsTied }
{}

/// The job of `specs/Reopened.antt` prints the same in the meaning and in the machine, rewritten and kept.
#[tactic(auto, using(crate::proofs::Reopened::says_the_same))]
pub fn reopened_says_the_same()
    ensures { ReopenedSaysTheSame }
{}

/// The tables of the three images of `specs/Tables.antt` hold the words that are written there, and these are the
/// words of `loaded_words`.
#[tactic(auto, using(crate::proofs::Tables::hold_their_words))]
pub fn tables_hold_their_words()
    ensures { TablesHoldTheirWords }
{}
