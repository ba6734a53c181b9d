//! Laws of lines and of jobs. Each function does nothing; what it ensures is the law.

ghost use Rattle.begin_alike.specs.Laws.{CleanJobsPrint, CleanThreadsPrint, EventsAreOne, JobsStartAlike};
ghost use Rattle.begin_alike.specs.Laws.{JobsStayAlike, LinesBeginAlike};

/// A line adds the same event in the meaning and in the machine, or none.
pub fn events_are_one()
    ensures { EventsAreOne }
{}

/// A line of any kind begins alike: both end it in the same way, or both are in a call, or the meaning's line is
/// unclean.
pub fn lines_begin_alike()
    ensures { LinesBeginAlike }
{}

/// Before the first turn the threads of a job and their data are related.
pub fn jobs_start_alike()
    ensures { JobsStartAlike }
{}

/// After all turns they are related, or some line is unclean, if calls are alike.
pub fn jobs_stay_alike()
    ensures { JobsStayAlike }
{}

/// A clean job prints what it means, if calls are alike.
pub fn clean_jobs_print()
    ensures { CleanJobsPrint }
{}

/// So does a clean thread by itself, whatever points its turns see.
pub fn clean_threads_print()
    ensures { CleanThreadsPrint }
{}
