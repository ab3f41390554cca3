//! The group delay.
ghost use Rattle.layout.specs.declared.MessageType.TheVariants.{Type30};
ghost use Rattle.type30.specs.GroupDelayCounts.{counts_of, place_of, record_of};
ghost use Rattle.std.specs.Prelude.{refl};
ghost use Rattle.blocks.proofs.Standing.{stands_at};
ghost use Rattle.std.proofs.Common.{rules};
ghost use Rattle.std.proofs.Math.Dec.{lit<};
ghost use Rattle.layout.specs.Layout.{fields_of, parts_of, width_of};

use blocks::Block;
use blocks::place::Place;
use blocks::text::{Described, FieldText};
use layout::{MessageType, Part};

/// The block, number 6.
pub struct GroupDelay;

#[derive(Clone, Copy, PartialEq, Default)]
pub struct GroupDelayRecord {
    /// TGD: group delay of the B2b I component, scale 2^-34 s.
    pub tgd: i64,
}

impl Block for GroupDelay {
    const WIDTH: usize = 12;

    const PLACE: Place = Place {
        number: 6,
        message_type: MessageType::Type30,
        part: Part::GroupDelay,
        first_bit: 112,
        width: Self::WIDTH,
    };

    type Record = GroupDelayRecord;

    ghost PLACE = { place_of };

    ghost size = { 1 };

    ghost counts = { counts_of };

    ghost made = { record_of };

    ghost stands = { unfold fields_of parts_of width_of in stands_at Type30 3 5 (lit< tt) refl };

    ghost counted = { Prim.search rules };

    ghost back = { Prim.search rules };

    fn zero() -> GroupDelayRecord {
        GroupDelayRecord::default()
    }

    fn count(of: &GroupDelayRecord, i: usize) -> i64 {
        match i {
            0 => of.tgd,
            _ => 0,
        }
    }

    fn set_count(of: &mut GroupDelayRecord, i: usize, z: i64) {
        match i {
            0 => of.tgd = z,
            _ => {}
        }
    }
}

impl Described for GroupDelay {
    const NAME: &'static str = "group_delay";

    fn field_text(_i: usize) -> FieldText {
        FieldText::scaled("TGD", 1, -34, "s")
    }
}
