//! The health of the satellite.
ghost use Rattle.layout.specs.declared.MessageType.TheVariants.{Type30};
ghost use Rattle.type30.specs.HealthCounts.{counts_of, place_of, record_of};
ghost use Rattle.std.specs.Prelude.{refl};
ghost use Rattle.blocks.proofs.Standing.{stands_at};
ghost use Rattle.std.proofs.Common.{rules};
ghost use Rattle.std.proofs.Math.Dec.{lit<};
ghost use Rattle.layout.specs.Layout.{fields_of, parts_of, width_of};

use blocks::Block;
use blocks::place::Place;
use blocks::text::{Described, FieldText};
use layout::{MessageType, Part};

/// The block, number 11.
pub struct Health;

#[derive(Clone, Copy, PartialEq, Default)]
pub struct HealthRecord {
    /// HS: 0 healthy, 1 unhealthy or in a test.
    pub hs: i64,
}

impl Block for Health {
    const WIDTH: usize = 2;

    const PLACE: Place = Place {
        number: 11,
        message_type: MessageType::Type30,
        part: Part::Health,
        first_bit: 460,
        width: Self::WIDTH,
    };

    type Record = HealthRecord;

    ghost PLACE = { place_of };

    ghost size = { 1 };

    ghost counts = { counts_of };

    ghost made = { record_of };

    ghost stands = { unfold fields_of parts_of width_of in stands_at Type30 8 10 (lit< tt) refl };

    ghost counted = { Prim.search rules };

    ghost back = { Prim.search rules };

    fn zero() -> HealthRecord {
        HealthRecord::default()
    }

    fn count(of: &HealthRecord, i: usize) -> i64 {
        match i {
            0 => of.hs,
            _ => 0,
        }
    }

    fn set_count(of: &mut HealthRecord, i: usize, z: i64) {
        match i {
            0 => of.hs = z,
            _ => {}
        }
    }
}

impl Described for Health {
    const NAME: &'static str = "health";

    fn field_text(_i: usize) -> FieldText {
        FieldText::plain("HS")
    }
}
