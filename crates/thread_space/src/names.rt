//! The functions and variables of a job's images, by name.

ghost use Rattle.std.specs.Prelude.{◌≡◌, ◌<◌, ◌^◌, IfOk, IfSome, option_map};
ghost use Rattle.image_names.specs.Functions.{entry_in};
ghost use Rattle.loaded_modules.specs.Images.{image_at};
ghost use Rattle.thread_blocks.specs.JobLoads.{job_loads};

use image_file::image_is_spelled;
use image_names::ImageNames;
use job_text::at_number;
use loaded_modules::{Instance, Modules};
use std::alloc::{AllocError, Global};
use std::marker::Model;

/// The functions and variables of a job's images, by name. Contracts see the images.
#[derive(Drop)]
pub struct JobNames<'m> {
    modules: &'m Modules,
    names: Vec<ImageNames<'m>>,
}

impl<'m> Model for JobNames<'m> {
    ghost use Rattle.std.specs.Prelude.{◌≡◌};
    ghost use Rattle.loaded_modules.specs.Images.{JobImages};

    ghost Value = { JobImages };

    ghost view = { λ names. names.modules.now };

    ghost invariant = { λ names. names.names.items ≡ names.modules.now.images };
}

/// The address of the function with a name, before the load bias is added.
fn entry_place(names: &ImageNames, name: &[u8]) -> Option<u64>
    ensures value { result ≡ entry_in names.now name.now }
    ensures low { IfSome result (λ place. place < 2 ^ 32) }
{
    image_is_spelled(names.image());
    let place = names.function(name)?;
    Some(place)
}

/// The names of all images, in their order.
fn names_of<'m>(alloc: Global, modules: &'m Modules) -> Result<Vec<ImageNames<'m>>, AllocError>
    ensures { IfOk result (λ names. names.items ≡ modules.now.images) }
{
    let mut names = Vec::new(alloc);
    for index in 0..modules.image_count() {
        if let Some(image) = modules.image(index + 1) {
            names.push(ImageNames::new(alloc, image)?)?;
        }
    }
    Ok(names)
}

impl<'m> JobNames<'m> {
    /// Hashes the names of a job's images. The only error is out of memory.
    pub fn new(alloc: Global, modules: &'m Modules) -> Result<JobNames<'m>, AllocError>
        ensures { IfOk result (λ names. names ≡ modules.now) }
    {
        let names = names_of(alloc, modules)?;
        Ok(JobNames { modules, names })
    }

    /// The images.
    pub fn modules(&self) -> &'m Modules
        ensures { result.now ≡ self.now }
    {
        self.modules
    }

    /// The names of an image, by its number from 1.
    fn of_image(&self, number: u32) -> Option<&ImageNames<'m>>
        ensures { option_map (λ names. names.now) result ≡ image_at self.now number }
    {
        at_number(self.names.as_slice(), number)
    }

    /// The address of the function with a name in an instance, if it has one that can be called.
    #[tactic(auto, unfolding(loaded_modules::specs::LoaderLaws::bias_of, thread_blocks::specs::JobLoads::job_loads))]
    pub fn function(&self, instance: &Instance, name: &[u8]) -> Option<u64>
        ensures { result ≡ (job_loads self.now).function instance.now name.now }
    {
        let names = self.of_image(instance.image)?;
        let place = entry_place(names, name)?;
        Some(place + self.modules.bias(instance))
    }

    /// The offset of the variable with a name in the blocks of an image, if it has one.
    #[tactic(auto, unfolding(thread_blocks::specs::JobLoads::job_loads))]
    pub fn variable(&self, image: u32, name: &[u8]) -> Option<u64>
        ensures { result ≡ (job_loads self.now).variable image name.now }
    {
        let names = self.of_image(image)?;
        let variable = names.variable(name)?;
        Some(variable.offset)
    }
}

/// Compiles only if threads may move and share a type's values.
fn crosses_threads<T: Send + Sync>() {}

/// Threads may move and share the names of a job's images: all of a job's threads find functions in one table.
pub fn names_cross_threads() {
    crosses_threads::<JobNames<'static>>();
}
