// The page of a board: 11 rows of 24 characters.
#![tactic(auto)]

pub mod heading;
pub mod laws;
pub mod page;
pub mod rows;
pub mod worked;
