//! The tasks of the program, and the words for the two stores and for a time.
#![tactic(auto)]

mod clocks;
mod store;
mod task;

pub use clocks::clock;
pub use store::StoreKind;
pub use task::{Task, Wanted, WantedPage, Work};
