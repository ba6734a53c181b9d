//! The law of generated texts. The function does nothing; what it ensures is the law.
ghost use Rattle.generated_laws.specs.JobLaws.{GeneratedTextsAreJobs};

/// The text that `gen` makes spells a job without fault: a program of all the objects, a late module, and two threads
/// that call what these define and peek at it.
pub fn generated_texts_are_jobs()
    ensures { GeneratedTextsAreJobs }
{}
