//! Rules over all numbers below a bound, each proved by one test that the checker computes.
//!
//! The crate has lemmas only, for the proofs of the others.
#![tactic(auto)]
