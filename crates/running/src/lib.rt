// Which trains run: the schedule of a train that is in force on a day.
#![tactic(auto)]

pub mod force;
pub mod laws;
pub mod worked;
