//! The main laws. Each function does nothing; what it ensures is the law.

ghost use Rattle.linked_jobs.specs.Answers.{LinkedAnswersAgree, LinkedJobsStandAlike, LinkedSequencesFind};
ghost use Rattle.linked_jobs.specs.Answers.{LinkedThreadsStandAlike};
ghost use Rattle.linked_jobs.specs.Data.{LinkedThreadsShareData};
ghost use Rattle.linked_jobs.specs.Laws.{LinkedJobsPrint, LinkedThreadsPrint, LinksAreTied};
ghost use Rattle.linked_jobs.specs.Laws.{TranscriptsTellTheirThreads};

/// All that a loader leaves of linked images is tied to all that their objects mean, at each time of a job.
pub fn links_are_tied()
    ensures { LinksAreTied }
{}

/// A clean job of linked images prints what their objects mean: its events, and its lines, thread by thread.
pub fn linked_jobs_print()
    ensures { LinkedJobsPrint }
{}

/// So does each clean thread by itself, whatever points its turns see.
pub fn linked_threads_print()
    ensures { LinkedThreadsPrint }
{}

/// If no image has data that threads write, each thread of a transcript that is clean at the points that it prints has
/// the lines that it means there.
pub fn transcripts_tell_their_threads()
    ensures { TranscriptsTellTheirThreads }
{}

/// Wherever the meaning of a clean thread is in a turn, the machine's thread is in the same turn, and both are in one
/// call.
pub fn linked_threads_stand_alike()
    ensures { LinkedThreadsStandAlike }
{}

/// The same in any order of turns of a clean job, while the thread holds the data of its images.
pub fn linked_jobs_stand_alike()
    ensures { LinkedJobsStandAlike }
{}

/// There a General Dynamic sequence finds its variable's address in the thread's own block, and the call of a
/// descriptor finds that address's distance from the thread pointer.
pub fn linked_sequences_find()
    ensures { LinkedSequencesFind }
{}

/// So the two agree on one variable, up to the thread pointer, whether a linker kept or rewrote either.
pub fn linked_answers_agree()
    ensures { LinkedAnswersAgree }
{}

/// Whatever a job's threads do, what each reads of data that they share is what the last change there left, in the
/// order of turns, and each byte of these data is at its own address. So it is of what they mean.
pub fn linked_threads_share_data()
    ensures { LinkedThreadsShareData }
{}
