//! The slots before any event.

ghost use Rattle.std.specs.Prelude.{◌≡◌, ◌≤◌, ◌<◌, ◌+◌, ◌-◌, IfOk};
ghost use Rattle.thread_vector.specs.Starting.{AreFirst, IsFirst, startup_info};

use crate::slot::Slot;
use job_text::index_of;
use loaded_modules::{Instance, Modules};
use module_table::{ImageInfo, MOST_IDS};
use std::alloc::{AllocError, Global};

/// The TLS segment of a startup image, by the image's number from 1.
fn startup_info(infos: &[ImageInfo], image: u32) -> Option<ImageInfo>
    requires { 1 ≤ image }
    ensures { result ≡ startup_info infos.now image }
{
    match infos.get(index_of(image)) {
        Some(info) => { if info.late { None } else { Some(*info) } }
        None => None,
    }
}

/// The slot of a module id: the block of the startup image with that number, if there is one.
fn first_slot(alloc: Global, modules: &Modules, image: u32) -> Result<Slot, AllocError>
    requires { 1 ≤ image }
    ensures { IfOk result (λ slot. IsFirst modules.now image slot) }
{
    let Some(info) = startup_info(modules.infos(), image) else {
        return Ok(Slot::empty(alloc));
    };
    let instance = Instance {
        image,
        number: image,
        id: u64::from(image),
        offset: Some(modules.static_offset(image)),
    };
    Slot::fresh(alloc, modules, &instance, info.size as usize)
}

/// The slots by module id, with the static surplus at 0.
pub(crate) fn first_slots(alloc: Global, modules: &Modules) -> Result<Vec<Slot>, AllocError>
    ensures { IfOk result (λ slots. AreFirst modules.now slots.items) }
{
    let mut slots = Vec::with_capacity(alloc, MOST_IDS as usize + 1)?;
    slots.push(Slot::surplus(alloc)?)?;
    for image in 1..MOST_IDS + 1 {
        let slot = first_slot(alloc, modules, image)?;
        slots.push(slot)?;
    }
    Ok(slots)
}
