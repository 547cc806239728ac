//! Tables of keyed elements in any order, over slots that a caller lends.
#![tactic(auto)]

pub mod loose;
pub mod scans;
pub mod table;
