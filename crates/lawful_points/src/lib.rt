//! Definitions and laws of a run's points: how many events of the history each look saw. No code runs here.
//!
//! The threads of a job take turns (`thread_blocks`). A turn begins with a **look**: the thread sees the events so
//! far, opens and closes of modules, and may add one of its own. The number of events that a look saw is its
//! **point**, and the transcript prints the points of each line. Say thread 1 opens a module, calls a function of it
//! and closes it, and thread 2 calls that function before and after:
//!
//! ```text
//! t1 l1 g0 opened 2              look at 0 events, adds event 0
//! t1 l2 g1,1 = 000000000000000c  looks at 1 and 1
//! t1 l3 g1 closed                look at 1, adds event 1
//! t2 l1 g0 refused not-open
//! t2 l2 g2 refused not-open
//! e0 t1 l1 open plug
//! e1 t1 l3 close plug
//! ```
//!
//! The turns may be taken in a given order, or by threads that run at once. Either way, such a transcript makes sense
//! only if its points are **lawful** (`specs/Told`, `AreLawfulPoints`). For each thread:
//!
//! - the points never fall, and those after an open or a close that was accepted at point p are above p (`rise`);
//! - no point is past the end of the history (`within`);
//! - the events of the history that name the thread are the ones that its lines tell, in their order, and one that was
//!   accepted at point p is event p (`own`).
//!
//! That is a statement about printed lines alone: `told_by` reads the looks off their points and answers, where an
//! `opened` or a `closed` is the one look of its line and adds the line's event. If event 1 of the example were thread
//! 2's, or the points of `t1 l2` were 1 and 0, no order of turns could give this transcript.
//!
//! The rule of the crate: **in any order of turns, whatever is loaded, the points of each thread are lawful**
//! ([`laws::points_are_lawful`]). The proof is about the looks themselves, with all that they saw: the looks of a
//! thread are a function of the order (`specs/Orders`, `looks_in`), each sees all that the thread knows
//! (`specs/Points`, `AreLawful`; [`laws::looks_are_lawful`]), and they are those that the thread's lines tell
//! ([`laws::lines_tell_looks`]).
//!
//! If no image has data that threads write, a thread's turns are a function of what they saw. A transcript is
//! **raced** (`specs/Raced`) if each of its threads took, alone and at lawful looks, the turns that its lines tell of.
//! That definition has no order in it, so it also fits threads that run at once. Each job's transcript is raced
//! ([`laws::runs_are_raced`]), and the points of a raced one are lawful ([`laws::raced_points_are_lawful`]). What a
//! raced thread saw, with its own event added, is always a front of the history ([`laws::racers_are_in_history`]), so
//! a proof that follows such a thread turn by turn (`order_laws`) stays within one history. What it saw can be rebuilt
//! from the history and the points that its lines print ([`laws::racers_print_their_points`]): a transcript tells all
//! turns of its threads.
//!
//! Lawful points speak of the job's threads alone: an event `e2 t9 l1 open plug` at the example's end, in a job of two
//! threads, would contradict none of them. So a raced transcript also has no event of another thread (`specs/Raced`,
//! `named`), and with that **no event is one that nobody made** (`specs/Made`, `EventsAreMade`): event p names a line
//! that says `opened` or `closed`, of the same image, with p as its one point, and each line that says so has its
//! event. So it is in any order of turns, whatever is loaded ([`laws::runs_make_their_events`]), and in each raced
//! transcript ([`laws::races_make_their_events`]).
//!
//! A thread's events with their places are `own_events` of `shared_modules`, where their laws are too: they hold while
//! other threads add events.
#![tactic(auto)]

pub mod laws;
