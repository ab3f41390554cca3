//! Why a decoder refuses what it is asked.
ghost use Rattle.std.specs.Prelude.{◌≡◌};
ghost use Rattle.decoders.specs.Refused.{ask_refusal};
ghost use Rattle.decoders.specs.declared.fault.AskFault.TheVariants.{Levels};

use levels::fault::LevelFault;
use refusal::{Layer, Reason, Refusal};

/// Why a decoder refuses what it is asked.
#[derive(Clone, Copy, PartialEq, Debug)]
pub enum AskFault {
    /// The buffer has more bytes than 162 or fewer.
    Buffer,
    /// The levels are not 972 legal ones.
    Levels(LevelFault),
}

impl From<LevelFault> for AskFault {
    ghost from_gives = { λ e r. r ≡ Levels e };

    fn from(fault: LevelFault) -> AskFault {
        AskFault::Levels(fault)
    }
}

impl AskFault {
    /// Its number, layer and place.
    pub fn refusal(self) -> Refusal
        ensures { result ≡ ask_refusal self }
    {
        match self {
            AskFault::Buffer => Refusal {
                reason: Reason::WrongLength,
                layer: Layer::Decoder,
                place: 0,
            },
            AskFault::Levels(fault) => fault.refusal(Layer::Decoder),
        }
    }
}
