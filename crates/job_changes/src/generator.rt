//! A fixed sequence of numbers that look random: a linear congruential generator (Knuth, "The Art of Computer
//! Programming", 3.3.4, that of MMIX).

ghost use Rattle.std.specs.Prelude.{◌≡◌, ◌<◌, ◌↔◌, IsTrue, length, slice_get};
ghost use Rattle.job_changes.specs.Sequence.{advanced, drawn};

use std::marker::Model;

const FACTOR: u64 = 6_364_136_223_846_793_005;

const SUMMAND: u64 = 1_442_695_040_888_963_407;

/// Where in the sequence it is.
#[derive(Drop)]
pub struct Generator {
    state: u64,
}

impl Model for Generator {
    ghost use Rattle.std.specs.Prelude.{ℕ};

    ghost Value = { ℕ };

    ghost view = { λ generator. generator.state };
}

impl Generator {
    /// The sequence that belongs to a seed. Neighbouring seeds begin far apart.
    #[tactic(auto, unfolding(crate::specs::Sequence::advanced))]
    pub fn new(seed: u64) -> Generator
        ensures { result ≡ advanced seed }
    {
        Generator {
            state: seed.wrapping_mul(FACTOR).wrapping_add(SUMMAND),
        }
    }

    /// The next number below an end; 0 where there is none. The low bits of the state repeat soon, so the high ones are
    /// taken.
    #[tactic(auto, unfolding(crate::specs::Sequence::advanced, crate::specs::Sequence::drawn))]
    pub fn below(&mut self, end: u64) -> u64
        ensures value { result ≡ drawn end (advanced self.old) }
        ensures next { self.new ≡ advanced self.old }
        ensures within { 0 < end → result < end }
    {
        self.state = self.state.wrapping_mul(FACTOR).wrapping_add(SUMMAND);
        if end == 0 {
            0
        } else {
            (self.state >> 32) % end
        }
    }

    /// Whether something happens that happens once in so many times.
    pub fn is_one_in(&mut self, times: u64) -> bool
        ensures value { IsTrue result ↔ drawn times (advanced self.old) ≡ 0 }
        ensures next { self.new ≡ advanced self.old }
    {
        self.below(times) == 0
    }

    /// One of these, if there is any.
    pub fn pick<T: Copy>(&mut self, items: &[T]) -> Option<T>
        ensures value { result ≡ slice_get items.now (drawn (length items.now) (advanced self.old)) }
        ensures next { self.new ≡ advanced self.old }
    {
        items.get(self.below(items.len() as u64) as usize).copied()
    }
}
