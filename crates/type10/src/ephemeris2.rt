//! Ephemeris II: the place of the orbit, and its corrections.
ghost use Rattle.layout.specs.declared.MessageType.TheVariants.{Type10};
ghost use Rattle.type10.specs.Ephemeris2Counts.{counts_of, place_of, record_of};
ghost use Rattle.std.specs.Prelude.{refl};
ghost use Rattle.blocks.proofs.Standing.{stands_at};
ghost use Rattle.std.proofs.Common.{rules};
ghost use Rattle.std.proofs.Math.Dec.{lit<};
ghost use Rattle.layout.specs.Layout.{fields_of, parts_of, width_of};

use blocks::Block;
use blocks::place::Place;
use blocks::text::{Described, FieldText};
use layout::{MessageType, Part};

/// The block, number 2.
pub struct Ephemeris2;

#[derive(Clone, Copy, PartialEq, Default)]
pub struct Ephemeris2Record {
    /// Omega0: longitude of the ascending node at the start of the week, scale 2^-32 pi.
    pub omega0: i64,
    /// i0: inclination at t_oe, scale 2^-32 pi.
    pub i0: i64,
    /// Omega_dot: rate of the right ascension, scale 2^-44 pi/s.
    pub omega_dot: i64,
    /// i0_dot: rate of the inclination, scale 2^-44 pi/s.
    pub i0_dot: i64,
    /// Cis: sine correction of the inclination, scale 2^-30 rad.
    pub cis: i64,
    /// Cic: cosine correction of the inclination, scale 2^-30 rad.
    pub cic: i64,
    /// Crs: sine correction of the orbit radius, scale 2^-8 m.
    pub crs: i64,
    /// Crc: cosine correction of the orbit radius, scale 2^-8 m.
    pub crc: i64,
    /// Cus: sine correction of the argument of latitude, scale 2^-30 rad.
    pub cus: i64,
    /// Cuc: cosine correction of the argument of latitude, scale 2^-30 rad.
    pub cuc: i64,
}

impl Block for Ephemeris2 {
    const WIDTH: usize = 222;

    const PLACE: Place = Place {
        number: 2,
        message_type: MessageType::Type10,
        part: Part::Ephemeris2,
        first_bit: 233,
        width: Self::WIDTH,
    };

    type Record = Ephemeris2Record;

    ghost PLACE = { place_of };

    ghost size = { 10 };

    ghost counts = { counts_of };

    ghost made = { record_of };

    ghost stands = { unfold fields_of parts_of width_of in stands_at Type10 2 1 (lit< tt) refl };

    ghost counted = { Prim.search rules };

    ghost back = { Prim.search rules };

    fn zero() -> Ephemeris2Record {
        Ephemeris2Record::default()
    }

    fn count(of: &Ephemeris2Record, i: usize) -> i64 {
        match i {
            0 => of.omega0,
            1 => of.i0,
            2 => of.omega_dot,
            3 => of.i0_dot,
            4 => of.cis,
            5 => of.cic,
            6 => of.crs,
            7 => of.crc,
            8 => of.cus,
            9 => of.cuc,
            _ => 0,
        }
    }

    fn set_count(of: &mut Ephemeris2Record, i: usize, z: i64) {
        match i {
            0 => of.omega0 = z,
            1 => of.i0 = z,
            2 => of.omega_dot = z,
            3 => of.i0_dot = z,
            4 => of.cis = z,
            5 => of.cic = z,
            6 => of.crs = z,
            7 => of.crc = z,
            8 => of.cus = z,
            9 => of.cuc = z,
            _ => {}
        }
    }
}

impl Described for Ephemeris2 {
    const NAME: &'static str = "ephemeris2";

    fn field_text(i: usize) -> FieldText {
        match i {
            0 => FieldText::scaled("Omega0", 1, -32, "pi"),
            1 => FieldText::scaled("i0", 1, -32, "pi"),
            2 => FieldText::scaled("Omega_dot", 1, -44, "pi/s"),
            3 => FieldText::scaled("i0_dot", 1, -44, "pi/s"),
            4 => FieldText::scaled("Cis", 1, -30, "rad"),
            5 => FieldText::scaled("Cic", 1, -30, "rad"),
            6 => FieldText::scaled("Crs", 1, -8, "m"),
            7 => FieldText::scaled("Crc", 1, -8, "m"),
            8 => FieldText::scaled("Cus", 1, -30, "rad"),
            _ => FieldText::scaled("Cuc", 1, -30, "rad"),
        }
    }
}
