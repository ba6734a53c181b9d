//! Laws of turns. Each function does nothing; what it ensures is the law.

ghost use Rattle.order_laws.specs.Laws.{OrdersStayAlike, PointsAreTold, TurnsStayAlike};

/// Related threads that take turns at events of one history stay related, or the first has an unclean line.
#[tactic(auto, using(crate::proofs::Related::turns_stay))]
pub fn turns_stay_alike()
    ensures { TurnsStayAlike }
{}

/// Related worlds stay related in all turns of an order, or the first has an unclean line: the same events, the same
/// lines, and related data.
pub fn orders_stay_alike()
    ensures { OrdersStayAlike }
{}

/// The numbers of events that a thread's lines tell are those that its turns saw, in their order. So what the turns
/// saw can be rebuilt from the history and these numbers.
#[tactic(auto, using(crate::proofs::Related::points_told))]
pub fn points_are_told()
    ensures { PointsAreTold }
{}
