//! Live instances, and the addresses of their blocks.

ghost use Rattle.std.specs.Prelude.{◌≡◌, ◌==◌, ◌+◌, ◌≤◌, ◌^◌, IfSome, option_map};
ghost use Rattle.std.specs.List.{find, list_any};
ghost use Rattle.module_table.specs.Past.{startup_count};
ghost use Rattle.thread_blocks.specs.Instances.{block_start, is_startup_id};
ghost use Rattle.thread_blocks.specs.JobLoads.{job_loads};
ghost use Rattle.thread_blocks.specs.RunTime.{has_words};
ghost use Rattle.thread_space.specs.Kept.{live_in};
ghost use Rattle.thread_vector.specs.Vectors.{held};

use crate::space::ThreadSpace;
use address_map::block_place;
use loaded_modules::Instance;
use module_table::ImageInfo;

/// How many startup images there are.
fn startup_count(infos: &[ImageInfo]) -> u64
    ensures { result ≡ startup_count infos.now }
{
    infos.iter().filter(|info| !info.late).count() as u64
}

impl<'m> ThreadSpace<'m> {
    /// The live instance with a number.
    pub fn numbered(&self, number: u32) -> Option<Instance>
        ensures { result ≡ find (λ x. x.number == number) (live_in self.now.vector.images self.now.vector.past) }
    {
        for instance in &self.live {
            if instance.number == number {
                return Some(*instance);
            }
        }
        None
    }

    /// The live instance with a module id.
    pub fn with_id(&self, id: u64) -> Option<Instance>
        ensures { result ≡ find (λ x. x.id == id) (live_in self.now.vector.images self.now.vector.past) }
    {
        for instance in &self.live {
            if instance.id == id {
                return Some(*instance);
            }
        }
        None
    }

    /// The address of the thread's block of an instance.
    pub fn block_start(&self, instance: &Instance) -> u64
        ensures { result ≡ block_start self.now.vector.thread instance.now }
    {
        block_place(self.dtv.thread(), instance.number, instance.offset)
    }

    /// The bytes of the thread's block of an instance, if it has one.
    pub fn block(&self, instance: u32) -> Option<&[u8]>
        ensures { held self.now.vector instance ≡ option_map (λ b. b.now) result }
    {
        self.dtv.block(instance)
    }

    /// Whether a module id is that of a startup image.
    #[tactic(auto, unfolding(thread_blocks::specs::JobLoads::job_loads))]
    pub fn is_startup(&self, id: u64) -> bool
        ensures { result ≡ is_startup_id (job_loads self.now.vector.images) id }
    {
        id != 0 && id <= startup_count(self.modules.infos())
    }

    /// The live instance that asks the run time by two words at an address: the one whose written parts hold them.
    pub fn asker(&self, address: u64) -> Option<Instance>
        ensures low { IfSome result (λ x. address + 16 ≤ 2 ^ 64) }
        ensures found { result ≡ find (λ x. list_any (has_words address) ((job_loads self.now.vector.images).tables x))
            (live_in self.now.vector.images self.now.vector.past) }
    {
        for instance in &self.live {
            if self.has_words(instance, address) {
                return Some(*instance);
            }
        }
        None
    }
}
