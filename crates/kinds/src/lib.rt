//! The kinds of block that a message of each type has, in the order of their bits.
#![tactic(auto)]

ghost use Rattle.std.specs.Prelude.{OnOk, ⊤};
ghost use Rattle.std.specs.List.{FoldsTo};
ghost use Rattle.blocks.specs.declared.place.Place.{Place};
ghost use Rattle.kinds.specs.Places.{places_of};

use blocks::Block;
use blocks::text::Described;
use layout::MessageType;
use type10::ephemeris1::Ephemeris1;
use type10::ephemeris2::Ephemeris2;
use type10::integrity::Integrity;
use type30::accuracy::Accuracy;
use type30::bdt_utc::BdtUtc;
use type30::clock::Clock;
use type30::earth_orientation::EarthOrientation;
use type30::group_delay::GroupDelay;
use type30::health::Health;
use type30::ionosphere::Ionosphere;
use type30::week::Week;

/// Visits kinds of block, one after another.
pub trait EachKind {
    /// Why it ends early.
    type Fault;

    // Relates the visitor before a call that succeeds, the place of the kind, and the visitor after it.
    ghost step: { Self → Place → Self → Type 0 } = { λ _ _ _. ⊤ };

    /// Visits one kind.
    fn kind<K: Block + Described>(&mut self) -> Result<(), Self::Fault>
    where
        K::Record: PartialEq,
        ensures { OnOk result (step self.old K.PLACE self.new) };
}

/// Visits every kind of block that a message of the type has, in the order of their bits, up to the first fault.
pub fn for_each_kind<V: EachKind>(of: MessageType, visitor: &mut V) -> Result<(), V::Fault>
    ensures { OnOk result (FoldsTo V.step visitor.old (places_of of) visitor.new) }
{
    match of {
        MessageType::Type10 => {
            visitor.kind::<Ephemeris1>()?;
            visitor.kind::<Ephemeris2>()?;
            visitor.kind::<Integrity>()
        }
        MessageType::Type30 => {
            visitor.kind::<Week>()?;
            visitor.kind::<Clock>()?;
            visitor.kind::<GroupDelay>()?;
            visitor.kind::<Ionosphere>()?;
            visitor.kind::<BdtUtc>()?;
            visitor.kind::<EarthOrientation>()?;
            visitor.kind::<Accuracy>()?;
            visitor.kind::<Health>()
        }
        MessageType::Type40 => Ok(()),
    }
}
