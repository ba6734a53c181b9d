//! A thread's memory, as steps of marked code reach it: the marks of code, and its stack.

ghost use Rattle.std.specs.Prelude.{[]};
ghost use Rattle.address_map.specs.Map.{stack_start};
ghost use Rattle.thread_blocks.specs.Held.{ranges_in};
ghost use Rattle.marked_memory.specs.Kept.{mark_in, shape_of};

use crate::bytes::Outline;
use crate::space::MarkedMemory;
use meant_steps::{CallStack, Marks};
use whole_meaning::Mark;

impl<'m> Marks for MarkedMemory<'m> {
    ghost mark = { mark_in };

    fn mark(&self, place: u64) -> Mark {
        MarkedMemory::mark(self, place)
    }
}

impl<'m> CallStack for MarkedMemory<'m> {
    type Rest = Outline;

    ghost memory = { λ k. record { seen = []; stack = k.stack; own = ranges_in k.own } };

    ghost start = { λ k. stack_start k.thread };

    ghost rest = { shape_of };

    fn holds(&self, place: u64) -> bool {
        self.is_stack(place)
    }

    fn forget(&mut self, place: u64) {
        MarkedMemory::forget(self, place);
    }
}
