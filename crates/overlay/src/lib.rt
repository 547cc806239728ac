// Pending transactions, and the overlay that they make over any store.
#![tactic(auto)]

pub mod as_timetable;
pub mod joining;
pub mod last;
pub mod laws;
pub mod least;
pub mod overlay;
pub mod pending;
pub mod questions;
pub mod settling;
