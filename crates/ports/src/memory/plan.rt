//! Which call fails.
ghost use Rattle.std.specs.Prelude.{◌≡◌, ◌-◌, ◌↔◌, IsTrue};
ghost use Rattle.ports.specs.Counts.{counted, Counted};

/// How often a store or sink has failed, and which of its calls will fail.
#[derive(Clone, Copy)]
pub(super) struct FaultPlan {
    pub(super) faults: u64,
    /// The call that fails, counted from the next one, which is 1; 0 means none.
    pub(super) fails_in: u64,
}

impl FaultPlan {
    pub(super) fn new() -> Self
        ensures { result ≡ record { faults = 0; fails_in = 0 } }
    {
        FaultPlan {
            faults: 0,
            fails_in: 0,
        }
    }

    /// Counts a call, and says whether it is the one that fails.
    pub(super) fn counts_call(&mut self) -> bool
        ensures answer { IsTrue result ↔ (self.old.fails_in ≡ 1) }
        ensures after { self.new ≡ record self.old { fails_in = self.old.fails_in - 1 } }
    {
        let fails_now = self.fails_in == 1;
        self.fails_in = self.fails_in.saturating_sub(1);
        fails_now
    }

    /// Counts a fault, up to the greatest value of the count.
    pub(super) fn counts_fault(&mut self)
        ensures after { self.new ≡ record self.old { faults = counted self.old.faults } }
        ensures rose { Counted self.old.faults self.new.faults }
    {
        self.faults = self.faults.saturating_add(1);
    }
}
