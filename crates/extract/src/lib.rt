// An extract as it is read: stages, the transaction being read, what a row does.
#![tactic(auto)]

pub mod extract;
pub mod moving;
pub mod opening;
pub mod stage;
pub mod taking;
pub mod transactions;
