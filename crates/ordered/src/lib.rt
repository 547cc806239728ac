//! Tables of keyed elements over slots that a caller lends.
#![tactic(auto)]

pub mod halving;
pub mod keys;
pub mod mapped;
pub mod moves;
pub mod ordered;
pub mod shift;
pub mod slots;
pub mod sort;
pub mod table;
