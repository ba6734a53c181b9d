//! How a run is printed.

ghost use Rattle.std.specs.Prelude.{◌≡◌, All, IfOk};
ghost use Rattle.transcript_text.specs.Texts.{IsImageNumber, transcript_text};
ghost use Rattle.commands.specs.RunJobs.{told};

use job_text::Job;
use run_summary::{SiteCounts, summary};
use std::alloc::{AllocError, Global};
use transcript_text::Transcript;

/// How a run is printed.
#[derive(Clone, Copy)]
pub enum Telling {
    /// Its transcript.
    Transcript,
    /// One line of numbers, for the job of `gen count`.
    Summary { count: u32 },
}

/// The text of a transcript.
pub fn text_of_transcript(
    alloc: Global,
    job: &Job,
    transcript: &Transcript,
) -> Result<Vec<u8>, AllocError>
    requires { All (λ event. IsImageNumber job.now.images event.image) transcript.now.events }
    ensures { IfOk result (λ text. text.items ≡ transcript_text job.now.images transcript.now) }
{
    let mut text = Vec::new(alloc);
    transcript.text(job, &mut text)?;
    Ok(text)
}

impl Telling {
    /// The text of a run; `counts` are the numbers of sites in its images.
    pub fn text(
        self,
        alloc: Global,
        job: &Job,
        counts: SiteCounts,
        transcript: &Transcript,
    ) -> Result<Vec<u8>, AllocError>
        requires { All (λ event. IsImageNumber job.now.images event.image) transcript.now.events }
        ensures { IfOk result (λ text. text.items ≡ told self job.now.images counts transcript.now) }
    {
        match self {
            Telling::Transcript => text_of_transcript(alloc, job, transcript),
            Telling::Summary { count } => summary(alloc, count, counts, transcript),
        }
    }
}
