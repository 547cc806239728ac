// Installations that are asked any calls, one after another, from new controllers and boards on.
#![tactic(auto)]

pub mod call;
pub mod installation;
pub mod laws;
pub mod memory;
pub mod pair;
pub mod plan;
pub mod run;
pub mod whole;
