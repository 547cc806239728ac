// Departure boards: which lines a station shows on a day.
#![tactic(auto)]

pub mod display;
pub mod fill;
pub mod follow;
pub mod laws;
pub mod line;
pub mod order;
pub mod turn;
