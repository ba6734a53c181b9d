//! The laws. The functions do nothing: what they ensure is the law.

ghost use Rattle.constant_laws.specs.Addresses.{ImagesLie, RunTimeLies, ThreadsLie};
ghost use Rattle.constant_laws.specs.Jobs.{JobsAreSmall};
ghost use Rattle.constant_laws.specs.Sizes.{ImagesAreSmall, InstructionsAreShort, LinksAreSmall, ObjectsAreSmall};

/// Where the functions of the run time lie.
#[tactic(auto, using(crate::proofs::Addresses::run_time_is))]
pub fn run_time_lies()
    ensures { RunTimeLies }
{}

/// Where the parts of a thread lie, and how far those of the next one.
#[tactic(auto, using(crate::proofs::Addresses::threads_are))]
pub fn threads_lie()
    ensures { ThreadsLie }
{}

/// Where images begin, how large a page is, and where their instances lie.
#[tactic(auto, using(crate::proofs::Addresses::images_are))]
pub fn images_lie()
    ensures { ImagesLie }
{}

/// How large the parts of an object may be.
#[tactic(auto, using(crate::proofs::Sizes::objects_are))]
pub fn objects_are_small()
    ensures { ObjectsAreSmall }
{}

/// How large a link may be.
#[tactic(auto, using(crate::proofs::Sizes::links_are))]
pub fn links_are_small()
    ensures { LinksAreSmall }
{}

/// How large an image may be, and how many there are.
#[tactic(auto, using(crate::proofs::Sizes::images_are))]
pub fn images_are_small()
    ensures { ImagesAreSmall }
{}

/// How long an instruction may be.
#[tactic(auto, using(crate::proofs::Sizes::instructions_are))]
pub fn instructions_are_short()
    ensures { InstructionsAreShort }
{}

/// The limits of jobs.
#[tactic(auto, using(crate::proofs::Jobs::jobs_are))]
pub fn jobs_are_small()
    ensures { JobsAreSmall }
{}
