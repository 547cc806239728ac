//! What the words of the command line ask for.
#![tactic(auto)]

mod command;
mod matches;
mod reading;
mod refusal;
pub mod worked;

pub use reading::tasks_in;
pub use refusal::NoTask;
