//! The data at an instance's start.

ghost use Rattle.std.specs.Prelude.{◌≡◌, IfOk};
ghost use Rattle.module_data.specs.Parts.{fresh_data};

use crate::part::data_number;
use loaded_modules::{Instance, Modules};
use std::alloc::{AllocError, Global};

/// The data of an instance before any write; empty if its image has no data part.
#[tactic(auto, unfolding(crate::specs::Parts::fresh_data))]
pub(crate) fn fresh_bytes(
    alloc: Global,
    modules: &Modules,
    instance: &Instance,
) -> Result<Vec<u8>, AllocError>
    ensures { IfOk result (λ bytes. bytes.items ≡ fresh_data modules.now instance.now) }
{
    let Some(part) = data_number(modules, instance) else {
        return Ok(Vec::new(alloc));
    };
    let mut bytes = vec![in alloc; 0; modules.part_size(instance, part) as usize]?;
    modules.copy_bytes(instance, part, 0, bytes.as_mut_slice());
    Ok(bytes)
}
