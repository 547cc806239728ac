//! What the command line says in place of a task, as tests.
#![tactic(auto)]

#[cfg(test)]
mod tests;
