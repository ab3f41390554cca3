//! The blocks of messages of type 10, a record of counts for each.
//!
//! A count times the scale of its field is the value.
#![tactic(auto)]

pub mod ephemeris1;
pub mod ephemeris2;
pub mod integrity;
