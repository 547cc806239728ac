//! How rows, schedules, transactions, answers and pages are said in plain words.
#![tactic(auto)]

pub mod answers;
pub mod changes;
pub mod pages;
pub mod rows;
pub mod words;
