//! Integrity flags.
ghost use Rattle.layout.specs.declared.MessageType.TheVariants.{Type10};
ghost use Rattle.type10.specs.IntegrityCounts.{counts_of, place_of, record_of};
ghost use Rattle.std.specs.Prelude.{refl};
ghost use Rattle.blocks.proofs.Standing.{stands_at};
ghost use Rattle.std.proofs.Common.{rules};
ghost use Rattle.std.proofs.Math.Dec.{lit<};
ghost use Rattle.layout.specs.Layout.{fields_of, parts_of, width_of};

use blocks::Block;
use blocks::place::Place;
use blocks::text::{Described, FieldText};
use layout::{MessageType, Part};

/// The block, number 3.
pub struct Integrity;

#[derive(Clone, Copy, PartialEq, Default)]
pub struct IntegrityRecord {
    /// DIF: 1: the error of the message parameters exceeds the predicted accuracy.
    pub dif: i64,
    /// SIF: 1: the signal is abnormal.
    pub sif: i64,
    /// AIF: 1: SISMAI is not valid.
    pub aif: i64,
    /// SISMAI: index of the monitored signal accuracy.
    pub sismai: i64,
}

impl Block for Integrity {
    const WIDTH: usize = 7;

    const PLACE: Place = Place {
        number: 3,
        message_type: MessageType::Type10,
        part: Part::Integrity,
        first_bit: 455,
        width: Self::WIDTH,
    };

    type Record = IntegrityRecord;

    ghost PLACE = { place_of };

    ghost size = { 4 };

    ghost counts = { counts_of };

    ghost made = { record_of };

    ghost stands = { unfold fields_of parts_of width_of in stands_at Type10 3 2 (lit< tt) refl };

    ghost counted = { Prim.search rules };

    ghost back = { Prim.search rules };

    fn zero() -> IntegrityRecord {
        IntegrityRecord::default()
    }

    fn count(of: &IntegrityRecord, i: usize) -> i64 {
        match i {
            0 => of.dif,
            1 => of.sif,
            2 => of.aif,
            3 => of.sismai,
            _ => 0,
        }
    }

    fn set_count(of: &mut IntegrityRecord, i: usize, z: i64) {
        match i {
            0 => of.dif = z,
            1 => of.sif = z,
            2 => of.aif = z,
            3 => of.sismai = z,
            _ => {}
        }
    }
}

impl Described for Integrity {
    const NAME: &'static str = "integrity";

    fn field_text(i: usize) -> FieldText {
        match i {
            0 => FieldText::plain("DIF"),
            1 => FieldText::plain("SIF"),
            2 => FieldText::plain("AIF"),
            _ => FieldText::plain("SISMAI"),
        }
    }
}
