//! Schedules: their keys, the records that hold them, and what every schedule has.
#![tactic(auto)]

pub mod building;
pub mod check;
pub mod key;
pub mod order;
pub mod record;
pub mod schedule;
pub mod transaction;
