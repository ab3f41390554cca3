//! The coefficients of the ionosphere.
ghost use Rattle.std.specs.Prelude.{◌≡◌, ℕ, ◌-◌, ◌≤◌, pos, negsuc, ◌<ℤ◌, Some, None, slice_index_or, refl};
ghost use Rattle.type30.specs.Eighths.{eighths_of};
ghost use Rattle.layout.specs.declared.MessageType.TheVariants.{Type30};
ghost use Rattle.type30.specs.IonosphereCounts.{counts_of, place_of, record_of};
ghost use Rattle.blocks.proofs.Standing.{stands_at};
ghost use Rattle.std.proofs.Common.{rules};
ghost use Rattle.std.proofs.Math.Dec.{lit<};
ghost use Rattle.layout.specs.Layout.{fields_of, parts_of, width_of};

use blocks::Block;
use blocks::place::Place;
use blocks::text::{Described, FieldText};
use layout::{MessageType, Part};

/// The block, number 7.
pub struct Ionosphere;

#[derive(Clone, Copy, PartialEq, Default)]
pub struct IonosphereRecord {
    /// alpha1: coefficient 1 of the ionospheric delay, scale 2^-3 TECu.
    pub alpha1: i64,
    /// alpha2: coefficient 2 of the ionospheric delay, scale 2^-3 TECu.
    pub alpha2: i64,
    /// alpha3: coefficient 3 of the ionospheric delay, scale 2^-3 TECu.
    pub alpha3: i64,
    /// alpha4: coefficient 4 of the ionospheric delay, scale 2^-3 TECu.
    pub alpha4: i64,
    /// alpha5: coefficient 5 of the ionospheric delay, scale -2^-3 TECu.
    pub alpha5: i64,
    /// alpha6: coefficient 6 of the ionospheric delay, scale 2^-3 TECu.
    pub alpha6: i64,
    /// alpha7: coefficient 7 of the ionospheric delay, scale 2^-3 TECu.
    pub alpha7: i64,
    /// alpha8: coefficient 8 of the ionospheric delay, scale 2^-3 TECu.
    pub alpha8: i64,
    /// alpha9: coefficient 9 of the ionospheric delay, scale 2^-3 TECu.
    pub alpha9: i64,
}

impl Block for Ionosphere {
    const WIDTH: usize = 74;

    const PLACE: Place = Place {
        number: 7,
        message_type: MessageType::Type30,
        part: Part::Ionosphere,
        first_bit: 124,
        width: Self::WIDTH,
    };

    type Record = IonosphereRecord;

    ghost PLACE = { place_of };

    ghost size = { 9 };

    ghost counts = { counts_of };

    ghost made = { record_of };

    ghost stands = { unfold fields_of parts_of width_of in stands_at Type30 4 6 (lit< tt) refl };

    ghost counted = { Prim.search rules };

    ghost back = { Prim.search rules };

    fn zero() -> IonosphereRecord {
        IonosphereRecord::default()
    }

    fn count(of: &IonosphereRecord, i: usize) -> i64 {
        match i {
            0 => of.alpha1,
            1 => of.alpha2,
            2 => of.alpha3,
            3 => of.alpha4,
            4 => of.alpha5,
            5 => of.alpha6,
            6 => of.alpha7,
            7 => of.alpha8,
            8 => of.alpha9,
            _ => 0,
        }
    }

    fn set_count(of: &mut IonosphereRecord, i: usize, z: i64) {
        match i {
            0 => of.alpha1 = z,
            1 => of.alpha2 = z,
            2 => of.alpha3 = z,
            3 => of.alpha4 = z,
            4 => of.alpha5 = z,
            5 => of.alpha6 = z,
            6 => of.alpha7 = z,
            7 => of.alpha8 = z,
            8 => of.alpha9 = z,
            _ => {}
        }
    }
}

impl Described for Ionosphere {
    const NAME: &'static str = "ionosphere";

    fn field_text(i: usize) -> FieldText {
        match i {
            0 => FieldText::scaled("alpha1", 1, -3, "TECu"),
            1 => FieldText::scaled("alpha2", 1, -3, "TECu"),
            2 => FieldText::scaled("alpha3", 1, -3, "TECu"),
            3 => FieldText::scaled("alpha4", 1, -3, "TECu"),
            4 => FieldText::scaled("alpha5", -1, -3, "TECu"),
            5 => FieldText::scaled("alpha6", 1, -3, "TECu"),
            6 => FieldText::scaled("alpha7", 1, -3, "TECu"),
            7 => FieldText::scaled("alpha8", 1, -3, "TECu"),
            _ => FieldText::scaled("alpha9", 1, -3, "TECu"),
        }
    }
}

impl IonosphereRecord {
    /// Coefficient `number`, 1 to 9, in eighths of a TECu; none for another number, and where the result is no `i64`.
    ///
    /// Coefficient 5 is sent with the factor -1.
    pub fn eighths(&self, number: usize) -> Option<i64>
        ensures same { 1 ≤ number → number ≤ 9 → negsuc 9223372036854775807 <ℤ slice_index_or (counts_of self.now) (number - 1) (pos 0) → result ≡ Some (eighths_of number (slice_index_or (counts_of self.now) (number - 1) (pos 0))) }
        ensures none { (1 ≤ number → number ≤ 9 → ⊥) → result ≡ None }
    {
        match number {
            5 => 0i64.checked_sub(self.alpha5),
            1..=9 => Some(Ionosphere::count(self, number - 1)),
            _ => None,
        }
    }
}
