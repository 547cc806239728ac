//! The forms of a row's fields. Each reader takes any bytes, and answers what they mean or that they lack the form.
//! docs/rows.md has the rules.
#![tactic(auto)]

pub mod end;
pub mod letters;
pub mod numbers;
pub mod places;
pub mod text;
pub mod worked;
