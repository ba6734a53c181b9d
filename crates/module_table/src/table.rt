//! The tables that answer every question about a history without a walk along it.

ghost use Rattle.std.specs.Prelude.{◌≡◌, ◌<◌, ◌^◌, true, ◌+◌, ◌≤◌, IfOk, None, nat_lt, slice_get};
ghost use Rattle.module_table.specs.Modules.{AreInfos};
ghost use Rattle.module_table.specs.Past.{start, module_of};
ghost use Rattle.module_table.specs.PastLaws.{live, offset, current, instance_of, image_of};
ghost use Rattle.module_table.specs.Past.{open_refusal, close_refusal, accepts, after_one, loaded, retained};
ghost use Rattle.module_table.specs.Past.{released, next_offset, opened};

use crate::events::{CloseRefusal, Event, OpenRefusal};
use crate::ids::IdSet;
use crate::modules::{ImageInfo, Module};
use crate::start::{first_modules, ids_of, own_numbers, startup_count};
use crate::{MOST_IDS, MOST_INSTANCES, SURPLUS};
use std::alloc::{AllocError, Global};
use std::marker::Model;

/// The state after a history. Contracts see a `Past`.
///
/// Two tables lead from a number to an image. A load writes them, and nothing clears them: an entry counts only if its
/// image is loaded under the number of the entry, so a close changes only the image itself.
#[derive(Drop)]
pub struct ModuleTable {
    /// How many events there were.
    seen: u64,
    /// How many instances were made, startup ones included.
    made: u32,
    /// How far below the thread pointer the static blocks reach.
    taken: u64,
    /// How far they may reach.
    limit: u64,
    /// The images by their numbers; entry 0 is no image.
    modules: Vec<Module>,
    image_by_instance: Vec<u32>,
    image_by_id: Vec<u32>,
    /// The ids of the live instances, to find the least free one at once.
    ids: IdSet,
}

impl Model for ModuleTable {
    ghost use Rattle.module_table.specs.Past.{Past};

    ghost Value = { Past };

    ghost use Rattle.module_table.specs.Tables.{past_of, HoldsTables};

    ghost view = { past_of };

    ghost invariant = { HoldsTables };
}

/// The image of a key in a table; `None` past the table's end.
fn image_in(images: &[u32], key: usize) -> Option<u32>
    ensures { result ≡ slice_get images.now key }
{
    images.get(key).copied()
}

impl ModuleTable {
    ghost use Rattle.module_table.specs.Modules.{is_loaded};
    ghost use Rattle.module_table.specs.Past.{new_instance, least_free};
    ghost use Rattle.module_table.specs.PastLaws.{IsLeastFree};
    ghost use Rattle.module_table.specs.Tables.{IsTheImage, IsTheImageUnder, CanLoad, HasFreeId};

    /// The tables before any event, for these images; the last startup image's block begins `last_offset` bytes
    /// below the thread pointer.
    pub fn new(
        alloc: Global,
        infos: &[ImageInfo],
        last_offset: u64,
    ) -> Result<ModuleTable, AllocError>
        requires infos { AreInfos infos.now }
        requires low { last_offset < 2 ^ 27 }
        ensures { IfOk result (λ table. table ≡ start infos.now last_offset) }
    {
        let modules = first_modules(alloc, infos)?;
        let image_by_instance = own_numbers(alloc, MOST_INSTANCES + 1)?;
        let image_by_id = own_numbers(alloc, MOST_IDS + 1)?;
        let ids = ids_of(&modules);
        Ok(ModuleTable {
            seen: 0,
            made: startup_count(infos),
            taken: last_offset,
            limit: last_offset + SURPLUS,
            modules,
            image_by_instance,
            image_by_id,
            ids,
        })
    }

    /// A copy of the tables.
    pub fn copy(&self) -> Result<ModuleTable, AllocError>
        ensures { IfOk result (λ table. table ≡ self.now) }
    {
        Ok(ModuleTable {
            seen: self.seen,
            made: self.made,
            taken: self.taken,
            limit: self.limit,
            modules: self.modules.clone()?,
            image_by_instance: self.image_by_instance.clone()?,
            image_by_id: self.image_by_id.clone()?,
            ids: self.ids,
        })
    }

    /// How many events there were.
    pub fn seen(&self) -> u64
        ensures { result ≡ self.now.seen }
    {
        self.seen
    }

    /// The state of an image after the history; [`Module::NONE`] for a number without an image.
    pub fn module(&self, image: u32) -> Module
        ensures { result ≡ module_of self.now image }
    {
        self.modules
            .get(image as usize)
            .copied()
            .unwrap_or(Module::NONE)
    }

    /// Where a block of the image would begin in the static surplus: past the bytes given so far, at a
    /// multiple of its alignment.
    fn next_offset(&self, image: u32) -> u64
        ensures value { result ≡ next_offset self.now (module_of self.now image) }
    {
        let info = self.module(image).info;
        (self.taken + info.size).next_multiple_of(info.align)
    }

    /// Whether the rest of the static surplus is too small for a block of the image.
    fn lacks_room(&self, image: u32) -> bool
        ensures { result ≡ nat_lt self.now.limit (next_offset self.now (module_of self.now image)) }
    {
        self.next_offset(image) > self.limit
    }

    /// The least module id from 1 on that no live instance has.
    fn least_free(&self) -> u64
        requires { HasFreeId self.now }
        ensures value { result ≡ least_free self.now.modules }
        ensures low { 1 ≤ result }
        ensures high { result ≤ 64 }
    {
        self.ids.least_absent()
    }

    /// Why an open of the image is refused, memory apart: the first of `Unknown`, `Full` and `StaticFull`.
    #[tactic(auto, unfolding(crate::specs::Past::open_refusal))]
    pub fn open_refusal(&self, image: u32) -> Option<OpenRefusal>
        ensures { result ≡ open_refusal self.now image }
    {
        let module = self.module(image);
        if !module.info.late {
            return Some(OpenRefusal::Unknown);
        }
        if module.is_loaded() {
            return None;
        }
        if self.made >= MOST_INSTANCES {
            return Some(OpenRefusal::Full);
        }
        if module.info.statics && self.lacks_room(image) {
            return Some(OpenRefusal::StaticFull);
        }
        None
    }

    /// Why a close of the image is refused, memory apart: the first of `Permanent` and `NotOpen`.
    #[tactic(auto, unfolding(crate::specs::Past::close_refusal))]
    pub fn close_refusal(&self, image: u32) -> Option<CloseRefusal>
        ensures { result ≡ close_refusal self.now image }
    {
        let module = self.module(image);
        if module.is_permanent() {
            return Some(CloseRefusal::Permanent);
        }
        if !module.is_loaded() {
            return Some(CloseRefusal::NotOpen);
        }
        None
    }

    /// The live instance of an image.
    #[tactic(auto, unfolding(crate::specs::PastLaws::current))]
    pub fn current(&self, image: u32) -> Option<u32>
        ensures { result ≡ current self.now image }
    {
        let module = self.module(image);
        if module.is_loaded() {
            Some(module.instance)
        } else {
            None
        }
    }

    /// The one image that may be loaded as an instance.
    fn image_at(&self, instance: u32) -> Option<u32>
        ensures { IsTheImage self.now instance result }
    {
        image_in(&self.image_by_instance, instance as usize)
    }

    /// The one image that may be loaded with a module id.
    fn image_under(&self, id: u64) -> Option<u32>
        ensures { IsTheImageUnder self.now id result }
    {
        image_in(&self.image_by_id, id as usize)
    }

    /// The image of a live instance.
    pub fn image_of(&self, instance: u32) -> Option<u32>
        ensures { result ≡ image_of self.now instance }
    {
        let image = self.image_at(instance)?;
        if self.module(image).has_instance(instance) {
            Some(image)
        } else {
            None
        }
    }

    /// The live instance with a module id.
    pub fn instance_of(&self, id: u64) -> Option<u32>
        ensures { result ≡ instance_of self.now id }
    {
        let module = self.module(self.image_under(id)?);
        if module.has_id(id) {
            Some(module.instance)
        } else {
            None
        }
    }

    /// Whether an instance is live.
    #[tactic(auto, unfolding(crate::specs::PastLaws::live))]
    pub fn live(&self, instance: u32) -> bool
        ensures { result ≡ live self.now instance }
    {
        self.image_of(instance).is_some()
    }

    /// How far below the thread pointer the block of a live instance begins; `None` if the block is not
    /// in the static surplus.
    #[tactic(auto, unfolding(crate::specs::PastLaws::offset))]
    pub fn offset(&self, instance: u32) -> Option<u64>
        ensures { result ≡ offset self.now instance }
    {
        let image = self.image_of(instance)?;
        self.module(image).offset
    }

    /// A new instance of an image that is not loaded: the next number, the least free id, and an offset in the static
    /// surplus if its blocks are static.
    fn new_instance(&self, image: u32) -> Module
        requires { CanLoad self.now image }
        ensures value { result ≡ new_instance self.now (module_of self.now image) }
        ensures low { 1 ≤ result.id }
        ensures high { result.id ≤ 64 }
    {
        let info = self.module(image).info;
        let offset = if info.statics {
            Some(self.next_offset(image))
        } else {
            None
        };
        Module {
            info,
            uses: 1,
            instance: self.made + 1,
            id: self.least_free(),
            offset,
        }
    }

    /// Applies an open of an image that is not loaded.
    fn load(&mut self, image: u32)
        requires can { CanLoad self.old image }
        requires room { self.old.seen < 2 ^ 63 }
        ensures { self.new ≡ loaded self.old image }
    {
        let module = self.new_instance(image);
        self.seen += 1;
        self.made += 1;
        self.taken = module.offset.unwrap_or(self.taken);
        self.ids.insert(module.id);
        self.image_by_instance[module.instance as usize] = image;
        self.image_by_id[module.id as usize] = image;
        self.modules[image as usize] = module;
    }

    /// Applies an open of a loaded image, which makes no instance.
    fn retain(&mut self, image: u32)
        requires loaded { is_loaded (module_of self.old image) ≡ true }
        requires room { self.old.seen < 2 ^ 63 }
        ensures { self.new ≡ retained self.old image }
    {
        let mut module = self.module(image);
        module.uses += 1;
        self.seen += 1;
        self.modules[image as usize] = module;
    }

    /// Applies a close of an image that stays loaded.
    fn release(&mut self, image: u32)
        requires more { 1 < (module_of self.old image).uses }
        requires room { self.old.seen < 2 ^ 63 }
        ensures { self.new ≡ released self.old image }
    {
        let mut module = self.module(image);
        module.uses -= 1;
        self.seen += 1;
        self.modules[image as usize] = module;
    }

    /// Applies the last close of an image. Its id becomes free; its bytes of the static surplus are not given back.
    fn unload(&mut self, image: u32)
        requires last { (module_of self.old image).uses ≡ 1 }
        requires room { self.old.seen < 2 ^ 63 }
        ensures { self.new ≡ released self.old image }
    {
        let mut module = self.module(image);
        module.uses -= 1;
        self.seen += 1;
        self.ids.remove(module.id);
        self.modules[image as usize] = module;
    }

    /// Applies an open.
    #[tactic(auto, using(crate::proofs::Refusals::can_load), unfolding(crate::specs::Past::opened))]
    fn open(&mut self, image: u32)
        requires accepted { open_refusal self.old image ≡ None }
        requires room { self.old.seen < 2 ^ 63 }
        ensures { self.new ≡ opened self.old image }
    {
        if self.module(image).is_loaded() {
            self.retain(image)
        } else {
            self.load(image)
        }
    }

    /// Applies a close.
    #[tactic(auto, using(crate::proofs::Refusals::held))]
    fn close(&mut self, image: u32)
        requires accepted { close_refusal self.old image ≡ None }
        requires room { self.old.seen < 2 ^ 63 }
        ensures { self.new ≡ released self.old image }
    {
        if self.module(image).uses > 1 {
            self.release(image)
        } else {
            self.unload(image)
        }
    }

    /// Applies an event that is accepted. It allocates no memory, and its cost does not grow with the history.
    #[tactic(auto, using(crate::proofs::Refusals::accepts_open, crate::proofs::Refusals::accepts_close), unfolding(crate::specs::Past::after_one))]
    pub fn accept(&mut self, event: Event)
        requires accepted { accepts self.old event ≡ true }
        requires room { self.old.seen < 2 ^ 63 }
        ensures { self.new ≡ after_one self.old event }
    {
        if event.opens {
            self.open(event.image)
        } else {
            self.close(event.image)
        }
    }
}
