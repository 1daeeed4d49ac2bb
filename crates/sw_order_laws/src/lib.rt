//! Laws on which a search for an order of sessions' calls may rest.
#![tactic(auto)]

mod laws;

pub use laws::{
    calls_apart_need_one_order, enough_calls_are_enough, equal_states_have_equal_futures,
    exhausted_searches_have_no_order, idle_calls_come_at_once, whole_beginnings_are_orders,
};
