// A controller: an extract that is read over any store, and the calls.
#![tactic(auto)]

pub mod answer;
pub mod controller;
pub mod fault;
pub mod laws;
pub mod questions;
pub mod telling;
