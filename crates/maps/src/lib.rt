//! Finite maps as lists in the order of their keys: definitions in specs/ and their laws in proofs/. No code is needed for either.
#![tactic(auto)]
