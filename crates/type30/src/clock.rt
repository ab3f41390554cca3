//! The clock of the satellite.
ghost use Rattle.layout.specs.declared.MessageType.TheVariants.{Type30};
ghost use Rattle.type30.specs.ClockCounts.{counts_of, place_of, record_of};
ghost use Rattle.std.specs.Prelude.{refl};
ghost use Rattle.blocks.proofs.Standing.{stands_at};
ghost use Rattle.std.proofs.Common.{rules};
ghost use Rattle.std.proofs.Math.Dec.{lit<};
ghost use Rattle.layout.specs.Layout.{fields_of, parts_of, width_of};

use blocks::Block;
use blocks::place::Place;
use blocks::text::{Described, FieldText};
use layout::{MessageType, Part};

/// The block, number 5.
pub struct Clock;

#[derive(Clone, Copy, PartialEq, Default)]
pub struct ClockRecord {
    /// t_oc: reference time of the clock, scale 300 s.
    pub t_oc: i64,
    /// a0: bias, scale 2^-34 s.
    pub a0: i64,
    /// a1: drift, scale 2^-50 s/s.
    pub a1: i64,
    /// a2: rate of the drift, scale 2^-66 s/s^2.
    pub a2: i64,
}

impl Block for Clock {
    const WIDTH: usize = 69;

    const PLACE: Place = Place {
        number: 5,
        message_type: MessageType::Type30,
        part: Part::Clock,
        first_bit: 43,
        width: Self::WIDTH,
    };

    type Record = ClockRecord;

    ghost PLACE = { place_of };

    ghost size = { 4 };

    ghost counts = { counts_of };

    ghost made = { record_of };

    ghost stands = { unfold fields_of parts_of width_of in stands_at Type30 2 4 (lit< tt) refl };

    ghost counted = { Prim.search rules };

    ghost back = { Prim.search rules };

    fn zero() -> ClockRecord {
        ClockRecord::default()
    }

    fn count(of: &ClockRecord, i: usize) -> i64 {
        match i {
            0 => of.t_oc,
            1 => of.a0,
            2 => of.a1,
            3 => of.a2,
            _ => 0,
        }
    }

    fn set_count(of: &mut ClockRecord, i: usize, z: i64) {
        match i {
            0 => of.t_oc = z,
            1 => of.a0 = z,
            2 => of.a1 = z,
            3 => of.a2 = z,
            _ => {}
        }
    }
}

impl Described for Clock {
    const NAME: &'static str = "clock";

    fn field_text(i: usize) -> FieldText {
        match i {
            0 => FieldText::scaled("t_oc", 300, 0, "s"),
            1 => FieldText::scaled("a0", 1, -34, "s"),
            2 => FieldText::scaled("a1", 1, -50, "s/s"),
            _ => FieldText::scaled("a2", 1, -66, "s/s^2"),
        }
    }
}
