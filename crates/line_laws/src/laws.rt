//! Laws of lines. Each function does nothing; what it ensures is the law.

ghost use Rattle.line_laws.specs.Counted.{MachineStepsAreCounted, MeantStepsAreCounted, PointsAreTold};
ghost use Rattle.line_laws.specs.Histories.{ClosesAreRuled, HistoriesHaveAccounts, OpensAreRuled};
ghost use Rattle.line_laws.specs.Printed.{FirstLooksAreRuled};

/// A line has a point for its first look, and one more for each look in its middle.
pub fn points_are_told()
    ensures { PointsAreTold }
{}

/// A call of the machine ends with `steps` exactly where it has taken four times `fuel` steps, an answer of the run
/// time counted as one, and is not over.
pub fn machine_steps_are_counted()
    ensures { MachineStepsAreCounted }
{}

/// A call of the meaning is unclean for `steps` exactly where it has taken `fuel` steps, is not over, and its next step
/// has no other cause.
pub fn meant_steps_are_counted()
    ensures { MeantStepsAreCounted }
{}

/// Each legal history has an account: how many instances were made, and how far static blocks reach, after each event.
pub fn histories_have_accounts()
    ensures { HistoriesHaveAccounts }
{}

/// An open is refused exactly where the rule of histories says, for the first reason in its order.
pub fn opens_are_ruled()
    ensures { OpensAreRuled }
{}

/// So is a close.
pub fn closes_are_ruled()
    ensures { ClosesAreRuled }
{}

/// An open prints the registry's answer, and so does a close; a call and a peek are refused for the first reason in
/// their order.
pub fn first_looks_are_ruled()
    ensures { FirstLooksAreRuled }
{}
