//! What a command does with a job whose images all link.
ghost use Rattle.std.specs.Prelude.{IfErr, IfOk};
ghost use Rattle.commands.specs.Jobs.{has};
ghost use Rattle.commands.specs.Purposes.{Finds, IsMissing, IsWithin, wanted_by};

use crate::telling::Telling;
use command_line::Rewriting;
use command_replies::image_place;
use job_text::{Job, JobFault};

/// An image of a job, and the file that it is put into, by their names.
#[derive(Clone, Copy)]
pub struct Put<'n> {
    pub image: &'n str,
    pub out: &'n str,
}

/// What a command does with a job whose images all link, with the image by its name.
#[derive(Clone, Copy)]
pub enum Purpose<'n> {
    /// Runs it, and prints the run this way.
    Run(Telling),
    /// Says whether it is clean.
    Check,
    /// Puts an image into a file.
    File(Put<'n>),
    /// Lists the sites of the image of that name.
    Sites { image: &'n str },
}

/// The same, with the image by its place in image order, counted from 0.
#[derive(Clone, Copy)]
pub enum Ending<'n> {
    Run(Telling),
    Check,
    File { place: usize, put: Put<'n> },
    Sites { place: usize },
}

/// How a command goes on with a job: whether sequences may be rewritten, and its last step.
#[derive(Clone, Copy)]
pub struct Course<'n> {
    pub rewriting: Rewriting,
    pub ending: Ending<'n>,
}

impl<'n> Purpose<'n> {
    /// Finds the image in this job; it is refused if it has no image of that name.
    pub fn ending(self, job: &Job) -> Result<Ending<'n>, JobFault>
        ensures ending { IfOk result (Finds self.entry job.now) }
        ensures within { IfOk result (λ ending. IsWithin ending job.now) }
        ensures missing { IfErr result (IsMissing (has job.now (wanted_by self.entry))) }
    {
        match self {
            Purpose::Run(telling) => Ok(Ending::Run(telling)),
            Purpose::Check => Ok(Ending::Check),
            Purpose::File(put) => match image_place(job, put.image) {
                Ok(place) => Ok(Ending::File { place, put }),
                Err(fault) => Err(fault),
            },
            Purpose::Sites { image } => match image_place(job, image) {
                Ok(place) => Ok(Ending::Sites { place }),
                Err(fault) => Err(fault),
            },
        }
    }
}
