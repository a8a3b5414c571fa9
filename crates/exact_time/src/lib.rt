//! Exact times: fractions of seconds, their order, and durations rounded down without drift.
//!
//! A time is a whole number of ticks over a whole number of ticks per second. Nothing here uses floating point or
//! allocates, and every call returns for every argument that its contract allows.
#![tactic(auto)]

mod digits;
mod floor;
mod laws;
mod nanos;
mod order;
mod rounder;
mod tick;

pub use digits::Digits;
pub use floor::{ceil_count, floor_ticks, floor_unit};
pub use laws::{
    calls_are_printed, calls_go_on, each_time_has_one_floor, same_times_print_alike,
    sums_are_floors, times_are_ordered, whole_units_stay,
};
pub use nanos::Nanos;
pub use order::compare;
pub use rounder::{Equal, Rounder};
pub use tick::Tick;
