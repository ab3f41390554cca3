//! Indices of the signal accuracy.
ghost use Rattle.layout.specs.declared.MessageType.TheVariants.{Type30};
ghost use Rattle.type30.specs.AccuracyCounts.{counts_of, place_of, record_of};
ghost use Rattle.std.specs.Prelude.{refl};
ghost use Rattle.blocks.proofs.Standing.{stands_at};
ghost use Rattle.std.proofs.Common.{rules};
ghost use Rattle.std.proofs.Math.Dec.{lit<};
ghost use Rattle.layout.specs.Layout.{fields_of, parts_of, width_of};

use blocks::Block;
use blocks::place::Place;
use blocks::text::{Described, FieldText};
use layout::{MessageType, Part};

/// The block, number 10.
pub struct Accuracy;

#[derive(Clone, Copy, PartialEq, Default)]
pub struct AccuracyRecord {
    /// t_op: time of week of the prediction.
    pub t_op: i64,
    /// SISAI_ocb: index of the radial and fixed clock accuracy.
    pub sisai_ocb: i64,
    /// SISAI_oc1: index of the clock drift accuracy.
    pub sisai_oc1: i64,
    /// SISAI_oc2: index of the clock drift rate accuracy.
    pub sisai_oc2: i64,
    /// SISAI_oe: index of the along-track and cross-track accuracy.
    pub sisai_oe: i64,
}

impl Block for Accuracy {
    const WIDTH: usize = 27;

    const PLACE: Place = Place {
        number: 10,
        message_type: MessageType::Type30,
        part: Part::Accuracy,
        first_bit: 433,
        width: Self::WIDTH,
    };

    type Record = AccuracyRecord;

    ghost PLACE = { place_of };

    ghost size = { 5 };

    ghost counts = { counts_of };

    ghost made = { record_of };

    ghost stands = { unfold fields_of parts_of width_of in stands_at Type30 7 9 (lit< tt) refl };

    ghost counted = { Prim.search rules };

    ghost back = { Prim.search rules };

    fn zero() -> AccuracyRecord {
        AccuracyRecord::default()
    }

    fn count(of: &AccuracyRecord, i: usize) -> i64 {
        match i {
            0 => of.t_op,
            1 => of.sisai_ocb,
            2 => of.sisai_oc1,
            3 => of.sisai_oc2,
            4 => of.sisai_oe,
            _ => 0,
        }
    }

    fn set_count(of: &mut AccuracyRecord, i: usize, z: i64) {
        match i {
            0 => of.t_op = z,
            1 => of.sisai_ocb = z,
            2 => of.sisai_oc1 = z,
            3 => of.sisai_oc2 = z,
            4 => of.sisai_oe = z,
            _ => {}
        }
    }
}

impl Described for Accuracy {
    const NAME: &'static str = "accuracy";

    fn field_text(i: usize) -> FieldText {
        match i {
            0 => FieldText::plain("t_op"),
            1 => FieldText::plain("SISAI_ocb"),
            2 => FieldText::plain("SISAI_oc1"),
            3 => FieldText::plain("SISAI_oc2"),
            _ => FieldText::plain("SISAI_oe"),
        }
    }
}
