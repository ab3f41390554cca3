//! The week number.
ghost use Rattle.layout.specs.declared.MessageType.TheVariants.{Type30};
ghost use Rattle.type30.specs.WeekCounts.{counts_of, place_of, record_of};
ghost use Rattle.std.specs.Prelude.{refl};
ghost use Rattle.blocks.proofs.Standing.{stands_at};
ghost use Rattle.std.proofs.Common.{rules};
ghost use Rattle.std.proofs.Math.Dec.{lit<};
ghost use Rattle.layout.specs.Layout.{fields_of, parts_of, width_of};

use blocks::Block;
use blocks::place::Place;
use blocks::text::{Described, FieldText};
use layout::{MessageType, Part};

/// The block, number 4.
pub struct Week;

#[derive(Clone, Copy, PartialEq, Default)]
pub struct WeekRecord {
    /// WN: week of BeiDou time, from 2006-01-01, scale 1 week.
    pub wn: i64,
}

impl Block for Week {
    const WIDTH: usize = 13;

    const PLACE: Place = Place {
        number: 4,
        message_type: MessageType::Type30,
        part: Part::Week,
        first_bit: 26,
        width: Self::WIDTH,
    };

    type Record = WeekRecord;

    ghost PLACE = { place_of };

    ghost size = { 1 };

    ghost counts = { counts_of };

    ghost made = { record_of };

    ghost stands = { unfold fields_of parts_of width_of in stands_at Type30 0 3 (lit< tt) refl };

    ghost counted = { Prim.search rules };

    ghost back = { Prim.search rules };

    fn zero() -> WeekRecord {
        WeekRecord::default()
    }

    fn count(of: &WeekRecord, i: usize) -> i64 {
        match i {
            0 => of.wn,
            _ => 0,
        }
    }

    fn set_count(of: &mut WeekRecord, i: usize, z: i64) {
        match i {
            0 => of.wn = z,
            _ => {}
        }
    }
}

impl Described for Week {
    const NAME: &'static str = "week";

    fn field_text(_i: usize) -> FieldText {
        FieldText::scaled("WN", 1, 0, "week")
    }
}
