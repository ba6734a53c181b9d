//! What is changed: objects and jobs among the data of `command_runs`, and images that are linked of them.

ghost use Rattle.std.specs.Prelude.{◌≡◌};

use crate::alarm::Alarm;
use job_changes::Generator;
use ports::{MemoryStore, Store};
use std::alloc::Global;
use std::str;

/// The objects. Most are one function `f` of a few instructions; `forms.o` has each form of sequence once.
pub(crate) const OBJECTS: [&str; 41] = [
    "added.o",
    "base_returned.o",
    "callee.o",
    "caller.o",
    "count.o",
    "counter.o",
    "desc_app.o",
    "desc_lib.o",
    "descriptor.o",
    "descriptor_added.o",
    "distance.o",
    "divider.o",
    "errors.o",
    "field.o",
    "field_before.o",
    "flag.o",
    "forms.o",
    "general.o",
    "half_base.o",
    "importer.o",
    "indirect.o",
    "initial.o",
    "jump_inside.o",
    "linker.o",
    "load.o",
    "local.o",
    "local_indirect.o",
    "no_base.o",
    "no_stack.o",
    "no_tls.o",
    "pair.o",
    "plug.o",
    "plug_local.o",
    "reader.o",
    "runtime_jump.o",
    "sum.o",
    "surplus.o",
    "table.o",
    "twice.o",
    "variable.o",
    "writer.o",
];

/// The jobs.
pub(crate) const JOBS: [&str; 24] = [
    "jobs/forms",
    "jobs/forms_anywhere",
    "jobs/late",
    "jobs/startup",
    "jobs/descriptors",
    "jobs/table",
    "jobs/surplus",
    "jobs/shared_data",
    "jobs/several",
    "jobs/descriptor",
    "jobs/local",
    "jobs/initial",
    "jobs/indirect",
    "jobs/loop",
    "jobs/load",
    "jobs/flag",
    "jobs/inside",
    "jobs/field",
    "jobs/linker",
    "jobs/undefined",
    "jobs/base",
    "jobs/descriptor_added",
    "jobs/writable",
    "jobs/distance",
];

/// A job whose image has 2^20 bytes of data, and the object that has them. It takes long, so it seldom comes.
const LARGE_JOB: &str = "jobs/large";

pub(crate) const LARGE_OBJECT: &str = "space.o";

/// How often the large job comes.
const SELDOM: u64 = 256;

/// The names of images that jobs have.
pub(crate) const IMAGES: [&str; 3] = ["app", "lib", "plug"];

/// Objects and jobs as they are before any change.
#[derive(Drop)]
pub(crate) struct Samples {
    files: MemoryStore,
}

/// Copies files of a store into memory.
fn lay_all<S: Store>(
    alloc: Global,
    store: &mut S,
    files: &mut MemoryStore,
    names: &[&str],
) -> Result<(), Alarm>
    ensures { S.files store.new ≡ S.files store.old }
{
    for name in names {
        let mut bytes = Vec::new(alloc);
        store.fetch(name, &mut bytes)?;
        files.add(name, &bytes)?;
    }
    Ok(())
}

/// The name of a job by chance.
pub(crate) fn any_job(generator: &mut Generator) -> &'static str {
    if generator.is_one_in(SELDOM) {
        return LARGE_JOB;
    }
    generator.pick(&JOBS).unwrap_or(LARGE_JOB)
}

impl Samples {
    /// The samples, from a store that has the data of `command_runs`.
    pub(crate) fn fetch<S: Store>(alloc: Global, store: &mut S) -> Result<Samples, Alarm>
        ensures { S.files store.new ≡ S.files store.old }
    {
        let mut files = MemoryStore::new(alloc);
        lay_all(alloc, store, &mut files, &OBJECTS)?;
        lay_all(alloc, store, &mut files, &JOBS)?;
        lay_all(alloc, store, &mut files, &[LARGE_JOB, LARGE_OBJECT])?;
        Ok(Samples { files })
    }

    /// The bytes of an object or a job.
    pub(crate) fn bytes(&self, name: &str) -> Result<&[u8], Alarm> {
        match self.files.get(name) {
            Some(bytes) => Ok(bytes),
            None => Err(Alarm::Sample),
        }
    }

    /// The text of a job.
    pub(crate) fn text(&self, name: &str) -> Result<&str, Alarm> {
        match str::from_utf8(self.bytes(name)?) {
            Ok(text) => Ok(text),
            Err(_) => Err(Alarm::Sample),
        }
    }
}
