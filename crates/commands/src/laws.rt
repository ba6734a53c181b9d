//! Laws of a job and of its links. The functions do nothing: what they ensure is the law.
ghost use Rattle.std.specs.Prelude.{ℕ, List};
ghost use Rattle.commands.specs.Events.{RacesMakeTheirEvents, RunsMakeTheirEvents};
ghost use Rattle.commands.specs.RunJobs.{CheckedLinksAreRun};
ghost use Rattle.commands.specs.InOrder.{IsInOrder};
ghost use Rattle.job_text.specs.Jobs.{JobParts};

/// In each job that a text spells, the first image and no other is the program, and late images come last.
#[tactic(auto, using(crate::proofs::InOrder::in_order))]
pub fn images_are_in_order()
    ensures { (text : List ℕ) (job : JobParts) → IsInOrder text job }
{}

/// `run` promises the meaning's lines for exactly the jobs for which `check` prints `clean`, in
/// either setting of `run`.
pub fn checked_links_are_run()
    ensures { CheckedLinksAreRun }
{}

/// No run prints an event that nobody made: each is told by one line, and each line that says that it opened or closed
/// its image has its event.
pub fn runs_make_their_events()
    ensures { RunsMakeTheirEvents }
{}

/// So it is in each race.
pub fn races_make_their_events()
    ensures { RacesMakeTheirEvents }
{}
