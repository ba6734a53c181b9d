//! Laws of points. Each function does nothing; what it ensures is the law.

ghost use Rattle.lawful_points.specs.Laws.{LinesTellLooks, LooksAreLawful, PointsAreLawful};
ghost use Rattle.lawful_points.specs.Laws.{RacedPointsAreLawful, RacersAreInHistory, RacersPrintTheirPoints, RunsAreRaced};
ghost use Rattle.lawful_points.specs.Laws.{RacesMakeTheirEvents, RunsMakeTheirEvents};

/// In any order of turns the looks of each thread are lawful, whatever is loaded.
pub fn looks_are_lawful()
    ensures { LooksAreLawful }
{}

/// The looks of a thread are those that its lines tell.
pub fn lines_tell_looks()
    ensures { LinesTellLooks }
{}

/// The printed points are lawful.
pub fn points_are_lawful()
    ensures { PointsAreLawful }
{}

/// If no image has data that threads write, a job's transcript is raced.
pub fn runs_are_raced()
    ensures { RunsAreRaced }
{}

/// The points of a raced transcript are lawful.
pub fn raced_points_are_lawful()
    ensures { RacedPointsAreLawful }
{}

/// In any order of turns no event is made by nobody: each is told by one line, and each line that says that it opened
/// or closed its image has its event.
pub fn runs_make_their_events()
    ensures { RunsMakeTheirEvents }
{}

/// So it is in each raced transcript.
pub fn races_make_their_events()
    ensures { RacesMakeTheirEvents }
{}

/// What each turn of a raced thread saw is a front of the history, also with the thread's own event added.
pub fn racers_are_in_history()
    ensures { RacersAreInHistory }
{}

/// What the turns of a raced thread saw can be rebuilt from the history and the points that its lines print.
pub fn racers_print_their_points()
    ensures { RacersPrintTheirPoints }
{}
