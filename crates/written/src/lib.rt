//! A message that is written block by block: it is lawful, and it holds what was put.
//!
//! The crate has lemmas only, for the proofs of the others.
#![tactic(auto)]
