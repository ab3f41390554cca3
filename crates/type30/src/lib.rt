//! The blocks of messages of type 30, a record of counts for each.
//!
//! A count times the scale of its field is the value.
#![tactic(auto)]

pub mod accuracy;
pub mod bdt_utc;
pub mod clock;
pub mod earth_orientation;
pub mod group_delay;
pub mod health;
pub mod ionosphere;
pub mod week;
