//! The orientation of the earth.
ghost use Rattle.layout.specs.declared.MessageType.TheVariants.{Type30};
ghost use Rattle.type30.specs.EarthOrientationCounts.{counts_of, place_of, record_of};
ghost use Rattle.std.specs.Prelude.{refl};
ghost use Rattle.blocks.proofs.Standing.{stands_at};
ghost use Rattle.std.proofs.Common.{rules};
ghost use Rattle.std.proofs.Math.Dec.{lit<};
ghost use Rattle.layout.specs.Layout.{fields_of, parts_of, width_of};

use blocks::Block;
use blocks::place::Place;
use blocks::text::{Described, FieldText};
use layout::{MessageType, Part};

/// The block, number 9.
pub struct EarthOrientation;

#[derive(Clone, Copy, PartialEq, Default)]
pub struct EarthOrientationRecord {
    /// t_EOP: reference time, scale 2^4 s.
    pub t_eop: i64,
    /// PM_X: polar motion, x, scale 2^-20 arcsec.
    pub pm_x: i64,
    /// PM_X_dot: rate of the polar motion, x, scale 2^-21 arcsec/day.
    pub pm_x_dot: i64,
    /// PM_Y: polar motion, y, scale 2^-20 arcsec.
    pub pm_y: i64,
    /// PM_Y_dot: rate of the polar motion, y, scale 2^-21 arcsec/day.
    pub pm_y_dot: i64,
    /// dUT1: UT1 - UTC, scale 2^-24 s.
    pub dut1: i64,
    /// dUT1_dot: rate of UT1 - UTC, scale 2^-25 s/day.
    pub dut1_dot: i64,
}

impl Block for EarthOrientation {
    const WIDTH: usize = 138;

    const PLACE: Place = Place {
        number: 9,
        message_type: MessageType::Type30,
        part: Part::EarthOrientation,
        first_bit: 295,
        width: Self::WIDTH,
    };

    type Record = EarthOrientationRecord;

    ghost PLACE = { place_of };

    ghost size = { 7 };

    ghost counts = { counts_of };

    ghost made = { record_of };

    ghost stands = { unfold fields_of parts_of width_of in stands_at Type30 6 8 (lit< tt) refl };

    ghost counted = { Prim.search rules };

    ghost back = { Prim.search rules };

    fn zero() -> EarthOrientationRecord {
        EarthOrientationRecord::default()
    }

    fn count(of: &EarthOrientationRecord, i: usize) -> i64 {
        match i {
            0 => of.t_eop,
            1 => of.pm_x,
            2 => of.pm_x_dot,
            3 => of.pm_y,
            4 => of.pm_y_dot,
            5 => of.dut1,
            6 => of.dut1_dot,
            _ => 0,
        }
    }

    fn set_count(of: &mut EarthOrientationRecord, i: usize, z: i64) {
        match i {
            0 => of.t_eop = z,
            1 => of.pm_x = z,
            2 => of.pm_x_dot = z,
            3 => of.pm_y = z,
            4 => of.pm_y_dot = z,
            5 => of.dut1 = z,
            6 => of.dut1_dot = z,
            _ => {}
        }
    }
}

impl Described for EarthOrientation {
    const NAME: &'static str = "earth_orientation";

    fn field_text(i: usize) -> FieldText {
        match i {
            0 => FieldText::scaled("t_EOP", 1, 4, "s"),
            1 => FieldText::scaled("PM_X", 1, -20, "arcsec"),
            2 => FieldText::scaled("PM_X_dot", 1, -21, "arcsec/day"),
            3 => FieldText::scaled("PM_Y", 1, -20, "arcsec"),
            4 => FieldText::scaled("PM_Y_dot", 1, -21, "arcsec/day"),
            5 => FieldText::scaled("dUT1", 1, -24, "s"),
            _ => FieldText::scaled("dUT1_dot", 1, -25, "s/day"),
        }
    }
}
