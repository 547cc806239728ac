//! Rows of the CIF layout: what they hold, or why they are turned away. docs/rows.md has the columns and forms, and
//! docs/refusals.md the refusals.
#![tactic(auto)]

pub mod content;
pub mod header;
pub mod identity;
pub mod location;
pub mod reading;
pub mod refusal;
pub mod row;
pub mod schedule;
pub mod whole;
pub mod worked;
