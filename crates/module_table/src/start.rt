//! The tables before any event.

ghost use Rattle.std.specs.Prelude.{◌≡◌, ℕ, ◌<◌, ◌≤◌, ◌∷◌, ◌^◌, All, IfOk, length, slice_index};
ghost use Rattle.module_table.specs.Modules.{no_module};
ghost use Rattle.module_table.specs.Past.{first_modules, startup_count};
ghost use Rattle.module_table.specs.Start.{HasSmallId, MarksIds};

use crate::ids::IdSet;
use crate::modules::{ImageInfo, Module};
use std::alloc::{AllocError, Global};

/// How many images start with the program.
pub(crate) fn startup_count(infos: &[ImageInfo]) -> u32
    requires { length infos.now ≤ 64 }
    ensures { result ≡ startup_count infos.now }
{
    infos.iter().filter(|info| !info.late).count() as u32
}

/// The images by their numbers; entry 0 is no image.
pub(crate) fn first_modules(alloc: Global, infos: &[ImageInfo]) -> Result<Vec<Module>, AllocError>
    requires { length infos.now ≤ 64 }
    ensures { IfOk result (λ modules. modules.items ≡ no_module ∷ first_modules infos.now 1) }
{
    let mut modules = vec![in alloc; Module::NONE]?;
    for info in infos {
        let image = modules.len() as u32;
        modules.push(Module::at_start(*info, image))?;
    }
    Ok(modules)
}

/// The ids in use.
pub(crate) fn ids_of(modules: &[Module]) -> IdSet
    requires { All HasSmallId modules.now }
    ensures { MarksIds result.word modules.now }
{
    let mut ids = IdSet::EMPTY;
    for module in modules {
        if module.is_loaded() {
            ids.insert(module.id);
        }
    }
    ids
}

/// A table in which every key names the image of its own number. That is right for startup images, and does not
/// matter for other keys, since a key counts only if its image is loaded under it.
pub(crate) fn own_numbers(alloc: Global, count: u32) -> Result<Vec<u32>, AllocError>
    ensures len { IfOk result (λ slots. length slots.items ≡ count) }
    ensures each { IfOk result (λ slots. (k : ℕ) → k < count → slice_index slots.items k ≡ k) }
{
    let mut slots = Vec::with_capacity(alloc, count as usize)?;
    for image in 0..count {
        slots.push(image)?;
    }
    Ok(slots)
}
