//! The commands: the steps of each, from its words to its output, in the order in which their faults come.
ghost use Rattle.std.specs.Prelude.{◌≡◌, [], ◌∷◌, Some, IfOk, IfSome, OnErr};
ghost use Rattle.command_line.specs.Words.{IsInLimits};
ghost use Rattle.command_line.specs.declared.tasks.Command.TheVariants.{Plain};
ghost use Rattle.command_replies.specs.Faults.{StoreCounts, NoStoreFault};
ghost use Rattle.command_replies.specs.Says.{HasFile};
ghost use Rattle.command_replies.specs.Steps.{Asks, Comes};
ghost use Rattle.image_text.specs.Shown.{shown};
ghost use Rattle.ports.specs.Files.{file_at};
ghost use Rattle.commands.specs.Commands.{CommandLeaves, CommandSays, command_names};
ghost use Rattle.commands.specs.Jobs.{asked_names};
ghost use Rattle.commands.specs.Links.{SitesSays};
ghost use Rattle.commands.specs.Listings.{ListingSays};
ghost use Rattle.commands.specs.Untold.{HasImageStatus, HasJobStatus, Over, UntoldSays};

use crate::generated::generated;
use crate::links::link;
use crate::purpose::{Purpose, Put};
use crate::telling::Telling;
use crate::told::told;
use command_line::{Rewriting, Task};
use command_replies::{CommandFault, image_refusal, whole_file};
use image_file::{Image, read_owned};
use image_text::push_shown;
use ports::Store;
use std::alloc::{AllocError, Global};
use std::thread::Threads;

/// The output of a task, or its refusal.
#[tactic(auto, using(crate::proofs::Kept::keeps_same))]
pub fn output<R: Threads + Sync, S: Store>(
    rt: &R,
    alloc: Global,
    task: &Task,
    store: &mut S,
) -> Result<Vec<u8>, CommandFault>
    requires { IsInLimits task.now }
    ensures files { CommandLeaves (S.files store.old) (S.files store.new) (Plain task.now) }
    ensures kept { OnErr result (S.files store.new ≡ S.files store.old) }
    ensures cause { StoreCounts (S.faults store.old) (S.faults store.new) result }
    ensures says { IfSome (S.files store.old) (λ fs. Comes (λ text. text.items)
        (CommandSays fs (S.files store.new) (Plain task.now)) result) }
    ensures may { Comes (λ text. text.items) (UntoldSays (Plain task.now)) result }
    ensures asks { Over (S.files store.old) (λ fs. Asks (command_names fs (Plain task.now))
        (S.asked store.old) (S.asked store.new) result) }
    ensures out { S.out store.new ≡ S.out store.old }
{
    match task {
        Task::Run { job, rewriting } => {
            let purpose = Purpose::Run(Telling::Transcript);
            told(rt, alloc, store, job.as_str(), *rewriting, purpose)
        }
        Task::Check { job } => {
            let rewriting = Rewriting::Allowed;
            told(rt, alloc, store, job.as_str(), rewriting, Purpose::Check)
        }
        Task::Link {
            job,
            image,
            out,
            rewriting,
        } => {
            let put = Put {
                image: image.as_str(),
                out: out.as_str(),
            };
            link(rt, alloc, store, job.as_str(), put, *rewriting)
        }
        Task::Sites { job, image } => sites(rt, alloc, store, job.as_str(), image.as_str()),
        Task::Show { file } => show(alloc, store, file.as_str()),
        Task::Gen { count } => generated(rt, alloc, store, *count),
    }
}

/// `sites JOB IMAGE`: the lines of the image's sites.
fn sites<R: Threads + Sync, S: Store>(
    rt: &R,
    alloc: Global,
    store: &mut S,
    job: &str,
    image: &str,
) -> Result<Vec<u8>, CommandFault>
    ensures files { S.files store.new ≡ S.files store.old }
    ensures cause { StoreCounts (S.faults store.old) (S.faults store.new) result }
    ensures says { IfSome (S.files store.old) (λ fs. Comes (λ text. text.items)
        (SitesSays fs job.now image.now) result) }
    ensures own { Comes (λ text. text.items) (λ own text. HasJobStatus ⊥ own) result }
    ensures asks { Over (S.files store.old) (λ fs. Asks (asked_names fs job.now (Some image.now))
        (S.asked store.old) (S.asked store.new) result) }
    ensures out { S.out store.new ≡ S.out store.old }
{
    let purpose = Purpose::Sites { image };
    told(rt, alloc, store, job, Rewriting::Allowed, purpose)
}

/// `show FILE`: the text of the image.
fn show<S: Store>(alloc: Global, store: &mut S, name: &str) -> Result<Vec<u8>, CommandFault>
    ensures files { S.files store.new ≡ S.files store.old }
    ensures cause { StoreCounts (S.faults store.old) (S.faults store.new) result }
    ensures says { IfSome (S.files store.old) (λ fs. Comes (λ text. text.items)
        (λ own text. HasFile (file_at fs name.now) (λ bytes. ListingSays bytes own text)) result) }
    ensures own { Comes (λ text. text.items) (λ own text. HasImageStatus own) result }
    ensures asks { Asks (name.now ∷ []) (S.asked store.old) (S.asked store.new) result }
    ensures out { S.out store.new ≡ S.out store.old }
{
    match whole_file(alloc, store, name) {
        Ok(bytes) => show_file(alloc, bytes),
        Err(fault) => Err(fault),
    }
}

/// The text of the image with these bytes.
fn show_file(alloc: Global, bytes: Vec<u8>) -> Result<Vec<u8>, CommandFault>
    ensures says { Comes (λ text. text.items) (ListingSays bytes.items) result }
    ensures cause { NoStoreFault result }
{
    match read_owned(bytes) {
        Ok(image) => Ok(listing_of(alloc, &image)?),
        Err(fault) => Err(CommandFault::Refused(image_refusal(alloc, fault)?)),
    }
}

/// The text of an image.
fn listing_of(alloc: Global, image: &Image) -> Result<Vec<u8>, AllocError>
    ensures { IfOk result (λ text. text.items ≡ shown image.now) }
{
    let mut text = Vec::new(alloc);
    push_shown(image, &mut text)?;
    Ok(text)
}
