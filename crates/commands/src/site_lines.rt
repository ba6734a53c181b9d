//! The lines of the sites of an image that links.
ghost use Rattle.std.specs.Prelude.{◌≡◌, ◌<◌, IfOk, length, map};
ghost use Rattle.commands.specs.InOrder.{AreLinked};
ghost use Rattle.commands.specs.Jobs.{objects_of};
ghost use Rattle.commands.specs.Links.{AreLines, HaveLines, OfLink, lines_of as lines_of_sites};

use dynamic_symbols::laws::sites_have_symbols;
use job_link::ImageObjects;
use job_text::{Job, Name};
use link_core::ReadyLink;
use relax_sites::Choice;
use site_text::push_sites;
use std::alloc::{AllocError, Global};

/// The lines of the sites of the image at that place. No byte of any image is laid.
pub fn image_lines(
    alloc: Global,
    job: &Job,
    images: &[ImageObjects],
    ready: Vec<ReadyLink>,
    place: usize,
) -> Result<Vec<u8>, AllocError>
    requires linked { AreLinked job.now images.now ready.items }
    requires place { place < length job.now.images }
    ensures { IfOk result (λ lines.
        OfLink place (AreLines (objects_of job.now place)) ready.entry.items 0 lines.items) }
{
    sites_have_symbols();
    let mut ready = ready;
    let names = job.images()[place].objects.as_slice();
    let choices = ready.swap_remove(place).into_choices();
    lines_of(alloc, names, &images[place], choices.as_slice())
}

/// The lines of the sites of an image, object by object.
fn lines_of(
    alloc: Global,
    names: &[Name],
    image: &ImageObjects,
    choices: &[Vec<Choice>],
) -> Result<Vec<u8>, AllocError>
    requires { HaveLines names.now image.now (map (λ own. own.items) choices.now) }
    ensures { IfOk result (λ lines. lines.items
        ≡ lines_of_sites names.now image.now.objects image.now.sites (map (λ own. own.items) choices.now)) }
{
    let mut lines = Vec::new(alloc);
    for number in 0..names.len() {
        let sites = image.sites()[number].as_slice();
        let chosen = choices[number].as_slice();
        push_sites(
            alloc,
            names[number].as_str(),
            &image.objects()[number],
            sites,
            chosen,
            &mut lines,
        )?;
    }
    Ok(lines)
}
