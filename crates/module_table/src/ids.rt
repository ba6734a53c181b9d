//! The module ids in use, as one word.

ghost use Rattle.std.specs.Prelude.{◌≡◌, ◌+◌, ◌-◌, ◌<◌, ◌≤◌, ◌^◌};
ghost use Rattle.module_table.specs.Marks.{AddsId, RemovesId, IsLeastAbsent, HasRoom};

/// Which of the module ids 1 to 64 are in use: bit `id - 1` is set if `id` is.
#[derive(Clone, Copy)]
pub(crate) struct IdSet {
    pub word: u64,
}

impl IdSet {
    /// No id.
    pub const EMPTY: IdSet = IdSet { word: 0 };

    #[tactic(auto, using(crate::proofs::Bits::adds))]
    pub fn insert(&mut self, id: u64)
        requires low { 1 ≤ id }
        requires high { id ≤ 64 }
        ensures { AddsId self.old.word id self.new.word }
    {
        self.word |= 1 << (id - 1);
    }

    #[tactic(auto, using(crate::proofs::Bits::removes))]
    pub fn remove(&mut self, id: u64)
        requires low { 1 ≤ id }
        requires high { id ≤ 64 }
        ensures { RemovesId self.old.word id self.new.word }
    {
        self.word &= !(1 << (id - 1));
    }

    /// The least id from 1 on that is not in use.
    #[tactic(auto, using(crate::proofs::Bits::least_absent))]
    pub fn least_absent(&self) -> u64
        requires { HasRoom self.now.word }
        ensures { IsLeastAbsent self.now.word result }
    {
        u64::from(self.word.trailing_ones()) + 1
    }
}
