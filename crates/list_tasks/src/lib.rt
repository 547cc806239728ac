//! Tasks that list what files of rows hold, put into stores or shown on a board.
#![tactic(auto)]

pub mod boards;
pub mod drafts;
pub mod error;
pub mod keeping;
pub mod rows;
