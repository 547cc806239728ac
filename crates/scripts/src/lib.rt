//! Scripts of calls: what their lines ask for.
#![tactic(auto)]

pub mod history;
pub mod reading;
pub mod step;
pub mod text;
