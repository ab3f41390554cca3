//! Correction of words: of a single wrong symbol anywhere, and of two erased symbols at known places.
#![tactic(auto)]

pub mod erasures;
pub mod single;
