//! Ephemeris I: the shape of the orbit.
ghost use Rattle.layout.specs.declared.MessageType.TheVariants.{Type10};
ghost use Rattle.type10.specs.Ephemeris1Counts.{counts_of, place_of, record_of};
ghost use Rattle.std.specs.Prelude.{refl};
ghost use Rattle.blocks.proofs.Standing.{stands_at};
ghost use Rattle.std.proofs.Common.{rules};
ghost use Rattle.std.proofs.Math.Dec.{lit<};
ghost use Rattle.layout.specs.Layout.{fields_of, parts_of, width_of};

use blocks::Block;
use blocks::place::Place;
use blocks::text::{Described, FieldText};
use layout::{MessageType, Part};

/// The block, number 1.
pub struct Ephemeris1;

#[derive(Clone, Copy, PartialEq, Default)]
pub struct Ephemeris1Record {
    /// t_oe: reference time of the ephemeris, scale 300 s.
    pub t_oe: i64,
    /// SatType: orbit: 1 GEO, 2 IGSO, 3 MEO.
    pub sat_type: i64,
    /// DeltaA: difference of the semi-major axis from its reference value at t_oe, scale 2^-9 m.
    pub delta_a: i64,
    /// A_dot: rate of the semi-major axis, scale 2^-21 m/s.
    pub a_dot: i64,
    /// Delta_n0: difference of the mean motion from the computed value at t_oe, scale 2^-44 pi/s.
    pub delta_n0: i64,
    /// Delta_n0_dot: rate of that difference, scale 2^-57 pi/s^2.
    pub delta_n0_dot: i64,
    /// M0: mean anomaly at t_oe, scale 2^-32 pi.
    pub m0: i64,
    /// e: eccentricity, scale 2^-34.
    pub e: i64,
    /// omega: argument of perigee, scale 2^-32 pi.
    pub omega: i64,
}

impl Block for Ephemeris1 {
    const WIDTH: usize = 203;

    const PLACE: Place = Place {
        number: 1,
        message_type: MessageType::Type10,
        part: Part::Ephemeris1,
        first_bit: 30,
        width: Self::WIDTH,
    };

    type Record = Ephemeris1Record;

    ghost PLACE = { place_of };

    ghost size = { 9 };

    ghost counts = { counts_of };

    ghost made = { record_of };

    ghost stands = { unfold fields_of parts_of width_of in stands_at Type10 1 0 (lit< tt) refl };

    ghost counted = { Prim.search rules };

    ghost back = { Prim.search rules };

    fn zero() -> Ephemeris1Record {
        Ephemeris1Record::default()
    }

    fn count(of: &Ephemeris1Record, i: usize) -> i64 {
        match i {
            0 => of.t_oe,
            1 => of.sat_type,
            2 => of.delta_a,
            3 => of.a_dot,
            4 => of.delta_n0,
            5 => of.delta_n0_dot,
            6 => of.m0,
            7 => of.e,
            8 => of.omega,
            _ => 0,
        }
    }

    fn set_count(of: &mut Ephemeris1Record, i: usize, z: i64) {
        match i {
            0 => of.t_oe = z,
            1 => of.sat_type = z,
            2 => of.delta_a = z,
            3 => of.a_dot = z,
            4 => of.delta_n0 = z,
            5 => of.delta_n0_dot = z,
            6 => of.m0 = z,
            7 => of.e = z,
            8 => of.omega = z,
            _ => {}
        }
    }
}

impl Described for Ephemeris1 {
    const NAME: &'static str = "ephemeris1";

    fn field_text(i: usize) -> FieldText {
        match i {
            0 => FieldText::scaled("t_oe", 300, 0, "s"),
            1 => FieldText::plain("SatType"),
            2 => FieldText::scaled("DeltaA", 1, -9, "m"),
            3 => FieldText::scaled("A_dot", 1, -21, "m/s"),
            4 => FieldText::scaled("Delta_n0", 1, -44, "pi/s"),
            5 => FieldText::scaled("Delta_n0_dot", 1, -57, "pi/s^2"),
            6 => FieldText::scaled("M0", 1, -32, "pi"),
            7 => FieldText::scaled("e", 1, -34, ""),
            _ => FieldText::scaled("omega", 1, -32, "pi"),
        }
    }
}
