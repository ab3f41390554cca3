//! BeiDou time against UTC.
ghost use Rattle.layout.specs.declared.MessageType.TheVariants.{Type30};
ghost use Rattle.type30.specs.BdtUtcCounts.{counts_of, place_of, record_of};
ghost use Rattle.std.specs.Prelude.{refl};
ghost use Rattle.blocks.proofs.Standing.{stands_at};
ghost use Rattle.std.proofs.Common.{rules};
ghost use Rattle.std.proofs.Math.Dec.{lit<};
ghost use Rattle.layout.specs.Layout.{fields_of, parts_of, width_of};

use blocks::Block;
use blocks::place::Place;
use blocks::text::{Described, FieldText};
use layout::{MessageType, Part};

/// The block, number 8.
pub struct BdtUtc;

#[derive(Clone, Copy, PartialEq, Default)]
pub struct BdtUtcRecord {
    /// A0_UTC: bias of BeiDou time against UTC, scale 2^-35 s.
    pub a0_utc: i64,
    /// A1_UTC: drift of BeiDou time against UTC, scale 2^-51 s/s.
    pub a1_utc: i64,
    /// A2_UTC: rate of that drift, scale 2^-68 s/s^2.
    pub a2_utc: i64,
    /// dt_LS: leap seconds before the new leap second, scale 1 s.
    pub dt_ls: i64,
    /// t_ot: reference time of the week, scale 2^4 s.
    pub t_ot: i64,
    /// WN_ot: reference week, scale 1 week.
    pub wn_ot: i64,
    /// WN_LSF: week of the new leap second, scale 1 week.
    pub wn_lsf: i64,
    /// DN: day of the new leap second, scale 1 day.
    pub dn: i64,
    /// dt_LSF: leap seconds after the new leap second, scale 1 s.
    pub dt_lsf: i64,
}

impl Block for BdtUtc {
    const WIDTH: usize = 97;

    const PLACE: Place = Place {
        number: 8,
        message_type: MessageType::Type30,
        part: Part::BdtUtc,
        first_bit: 198,
        width: Self::WIDTH,
    };

    type Record = BdtUtcRecord;

    ghost PLACE = { place_of };

    ghost size = { 9 };

    ghost counts = { counts_of };

    ghost made = { record_of };

    ghost stands = { unfold fields_of parts_of width_of in stands_at Type30 5 7 (lit< tt) refl };

    ghost counted = { Prim.search rules };

    ghost back = { Prim.search rules };

    fn zero() -> BdtUtcRecord {
        BdtUtcRecord::default()
    }

    fn count(of: &BdtUtcRecord, i: usize) -> i64 {
        match i {
            0 => of.a0_utc,
            1 => of.a1_utc,
            2 => of.a2_utc,
            3 => of.dt_ls,
            4 => of.t_ot,
            5 => of.wn_ot,
            6 => of.wn_lsf,
            7 => of.dn,
            8 => of.dt_lsf,
            _ => 0,
        }
    }

    fn set_count(of: &mut BdtUtcRecord, i: usize, z: i64) {
        match i {
            0 => of.a0_utc = z,
            1 => of.a1_utc = z,
            2 => of.a2_utc = z,
            3 => of.dt_ls = z,
            4 => of.t_ot = z,
            5 => of.wn_ot = z,
            6 => of.wn_lsf = z,
            7 => of.dn = z,
            8 => of.dt_lsf = z,
            _ => {}
        }
    }
}

impl Described for BdtUtc {
    const NAME: &'static str = "bdt_utc";

    fn field_text(i: usize) -> FieldText {
        match i {
            0 => FieldText::scaled("A0_UTC", 1, -35, "s"),
            1 => FieldText::scaled("A1_UTC", 1, -51, "s/s"),
            2 => FieldText::scaled("A2_UTC", 1, -68, "s/s^2"),
            3 => FieldText::scaled("dt_LS", 1, 0, "s"),
            4 => FieldText::scaled("t_ot", 1, 4, "s"),
            5 => FieldText::scaled("WN_ot", 1, 0, "week"),
            6 => FieldText::scaled("WN_LSF", 1, 0, "week"),
            7 => FieldText::scaled("DN", 1, 0, "day"),
            _ => FieldText::scaled("dt_LSF", 1, 0, "s"),
        }
    }
}
