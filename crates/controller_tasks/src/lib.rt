//! Tasks in which controllers hear the rows of files, or the calls of scripts.
#![tactic(auto)]

pub mod extracts;
pub mod follow;
pub mod glass;
pub mod replay;
