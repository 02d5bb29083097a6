//! Laws of live settles and of orders, over the definitions alone: each function's contract is the law's sentence.

ghost use Rattle.mc_live_settle.specs.Laws.{MeetsBehindLeft, OneHandKeepsOrder, OrdersHaveTheSame, SettledBehindLeft, SettlesWhatIsUsed, StoppedBehindLeft, StopsLiveInOrder};

/// Turns that settle what is left of an order, behind those that have made its first commands, settle the order.
pub fn settled_behind_left()
    ensures { SettledBehindLeft }
{}

/// Turns that stopped within what is left of an order, behind those that have made its first commands, stopped within
/// the order.
pub fn stopped_behind_left()
    ensures { StoppedBehindLeft }
{}

/// If these met the last version, so did all.
pub fn meets_behind_left()
    ensures { MeetsBehindLeft }
{}

/// Where a live settle stopped, all its turns stopped within an order of the batch, with the same cause.
pub fn stops_live_in_order()
    ensures { StopsLiveInOrder }
{}

/// An order of a batch that is dealt to one operator has the batch's commands, box by box and in their order.
pub fn one_hand_keeps_order()
    ensures { OneHandKeepsOrder }
{}

/// What settles the commands of a batch, box by box and in their order, settles the batch.
pub fn settles_what_is_used()
    ensures { SettlesWhatIsUsed }
{}

/// An order has as many commands of each kind for each box as the batch, however many operators it is dealt to, if there
/// is one.
pub fn orders_have_the_same()
    ensures { OrdersHaveTheSame }
{}
