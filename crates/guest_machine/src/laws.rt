//! Laws of steps and runs. Each function does nothing; what it ensures is the law.

ghost use Rattle.guest_machine.specs.Clean.{PlainIsClean};
ghost use Rattle.guest_machine.specs.Reaching.{ReachesWhatItTouches};

/// A run over plain numbers never stops `Unclean`.
pub fn plain_is_clean()
    ensures { PlainIsClean }
{}

/// A step accesses only the bytes of memory that its instruction touches.
pub fn reaches_what_it_touches()
    ensures { ReachesWhatItTouches }
{}
