//! Runs the threads of a job at once over images that link.
//!
//! Each image is written into its file and read back, as for `run`, and then each thread runs in a thread of its own
//! (`job_race`). All that threads share is one history of opens and closes (`shared_modules`), which begins empty and
//! ends as the transcript's history.
//!
//! Two runs may print different transcripts. `HasRace` holds of each: each thread's lines are what the machine gives
//! at the points that they print, which are lawful; and the lines of a thread that is clean by itself are what the
//! objects mean. No clause says that a thread makes progress: threads wait for one another.
ghost use Rattle.std.specs.Prelude.{◌≡◌, List, [], All, IfOk, false, map};
ghost use Rattle.commands.specs.InOrder.{AreLinks};
ghost use Rattle.commands.specs.Races.{AreRaced, HasRace};
ghost use Rattle.commands.specs.RunJobs.{IsTold};
ghost use Rattle.commands.specs.declared.telling.Telling.TheVariants.{Transcript as TheTranscript};
ghost use Rattle.job_turns.specs.Alone.{has_data};
ghost use Rattle.link_core.specs.Images.{linked_of};
ghost use Rattle.link_needs.specs.Linking.{Linking};
ghost use Rattle.linked_modules.specs.Dataless.{IsOfDataless};
ghost use Rattle.loaded_modules.specs.Images.{infos, last_offset};
ghost use Rattle.shared_modules.specs.Passes.{first_pass};
ghost use Rattle.transcript_text.specs.Texts.{IsImageNumber};

use crate::runs::modules_again;
use crate::telling::text_of_transcript;
use job_link::write_images;
use job_race::race_job;
use job_text::Job;
use lawful_points::laws::{racers_are_in_history, racers_print_their_points};
use link_core::{Linked, ReadyLink};
use linked_jobs::linked_threads_print;
use linked_modules::laws::dataless_objects_share_no_data;
use loaded_modules::Modules;
use module_table::Registry;
use racing_thread::NoGate;
use shared_modules::{Pass, Shared};
use standing_sequences::linked_images_hold_the_table;
use std::alloc::{AllocError, Global};
use std::sync::Wait;
use std::thread::Threads;
use transcript_text::Transcript;

/// Races a job whose images are ready to be written; returns the text of the transcript.
pub fn told_race<R: Threads + Wait + Sync>(
    rt: &R,
    alloc: Global,
    job: &Job,
    ready: Vec<ReadyLink>,
) -> Result<Vec<u8>, AllocError>
    requires links { AreLinks job.now ready.items }
    requires dataless { All IsOfDataless ready.items }
    ensures { IfOk result (λ text. IsTold HasRace TheTranscript job.now ready.entry.items text.items) }
{
    let all = write_images(rt, alloc, ready)?;
    let transcript = race_linked(rt, alloc, job, all)?;
    text_of_transcript(alloc, job, &transcript)
}

/// Races a job over linked images, each of which is written and read back.
fn race_linked<R: Threads + Wait + Sync>(
    rt: &R,
    alloc: Global,
    job: &Job,
    all: Vec<Linked>,
) -> Result<Transcript, AllocError>
    requires links { (ls : List Linking) × AreLinks job.now ls × All IsOfDataless ls
        × (all.items ≡ map linked_of ls) }
    ensures ran { IfOk result (λ transcript. (ls : List Linking) → AreLinks job.now ls → all.items ≡ map linked_of ls
        → HasRace job.now ls transcript) }
    ensures images { IfOk result (λ transcript.
        All (λ event. IsImageNumber job.now.images event.image) transcript.events) }
{
    dataless_objects_share_no_data();
    linked_threads_print();
    racers_are_in_history();
    racers_print_their_points();
    linked_images_hold_the_table();
    job.keeps_limits();
    let modules = modules_again(alloc, job, all)?;
    race_modules(rt, alloc, job, &modules)
}

/// Races a job over these modules; the threads share one history.
fn race_modules<R: Threads + Wait + Sync>(
    rt: &R,
    alloc: Global,
    job: &Job,
    modules: &Modules,
) -> Result<Transcript, AllocError>
    requires job { modules.now.kinds ≡ map (λ image. image.kind) job.now.images }
    requires alone { has_data modules.now ≡ false }
    ensures ran { IfOk result (AreRaced modules.now job.now) }
    ensures images { IfOk result (λ transcript.
        All (λ event. IsImageNumber job.now.images event.image) transcript.events) }
{
    let (shared, pass) = history_of(alloc, modules)?;
    race_shared(rt, alloc, job, modules, shared, pass)
}

/// The history that the threads share over these modules, before any event, and the pass for all of them.
fn history_of(alloc: Global, modules: &Modules) -> Result<(Shared, Pass), AllocError>
    ensures images { IfOk result (λ started. started.0.images
        ≡ record { infos = infos modules.now; last_offset = last_offset modules.now }) }
    ensures pass { IfOk result (λ started. started.1 ≡ first_pass started.0 []) }
{
    let registry = Registry::new(alloc, modules.infos(), modules.last_offset())?;
    Shared::start(alloc, registry)
}

/// Races the threads over this history.
fn race_shared<R: Threads + Wait + Sync>(
    rt: &R,
    alloc: Global,
    job: &Job,
    modules: &Modules,
    shared: Shared,
    pass: Pass,
) -> Result<Transcript, AllocError>
    requires job { modules.now.kinds ≡ map (λ image. image.kind) job.now.images }
    requires alone { has_data modules.now ≡ false }
    requires images { shared.images ≡ record { infos = infos modules.now; last_offset = last_offset modules.now } }
    requires first { pass ≡ first_pass shared [] }
    ensures ran { IfOk result (AreRaced modules.now job.now) }
    ensures images { IfOk result (λ transcript.
        All (λ event. IsImageNumber job.now.images event.image) transcript.events) }
{
    let (pass, transcript) = race_job(rt, alloc, job, modules, &shared, pass, &NoGate);
    let registry = shared.finish(pass);
    registry.history_is_lawful();
    transcript
}
