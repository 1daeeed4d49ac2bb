//! The laws. Each function does nothing.

ghost use Rattle.sw_order_laws.specs.Laws.{AlikeHaveOneFuture, CallsApartChangePlaces, CallsApartLeaveTheSame, CallsApartMove, ClosedAreEnough, ExhaustedHasNoEnd, ExhaustedHasNoOrder, IdleCallsComeNext, IdleCallsMove, LeftAloneStaysApart, OneOfEnoughComesNext, OrdersAreWhole, RepliesTellOfNone, UnknownMayBeLeftOut, UntouchedLack, WantingFewerLack, WantingMoreLack, WholeAreOrders};

/// A whole beginning is an order: each order that is found is one, and of each there is a history with which it is an order
/// that is found.
pub fn whole_beginnings_are_orders()
    ensures found { OrdersAreWhole }
    ensures orders { WholeAreOrders }
{}

/// Of the calls that may come next, one that changes nothing and has the list's reply may be placed at once.
pub fn idle_calls_come_at_once()
    ensures moved { IdleCallsMove }
    ensures next { IdleCallsComeNext }
    ensures told { RepliesTellOfNone }
    ensures left_out { UnknownMayBeLeftOut }
{}

/// Calls that do not bear on one another need one order alone.
pub fn calls_apart_need_one_order()
    ensures exchanged { CallsApartChangePlaces }
    ensures same { CallsApartLeaveTheSame }
    ensures moved { CallsApartMove }
    ensures later { LeftAloneStaysApart }
{}

/// A state is what was placed, which rows live and how many keys were given: all else of a beginning has no say in what may
/// stand behind it.
pub fn equal_states_have_equal_futures()
    ensures { AlikeHaveOneFuture }
{}

/// Of calls that are enough one may be placed next, and no other need be tried.
pub fn enough_calls_are_enough()
    ensures next { OneOfEnoughComesNext }
    ensures closed { ClosedAreEnough }
    ensures lacking { UntouchedLack }
    ensures more { WantingMoreLack }
    ensures fewer { WantingFewerLack }
{}

/// Where a search has tried all there is no order.
pub fn exhausted_searches_have_no_order()
    ensures end { ExhaustedHasNoEnd }
    ensures order { ExhaustedHasNoOrder }
{}
