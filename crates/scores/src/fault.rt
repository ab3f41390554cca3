//! Why a word is not scored.
ghost use Rattle.std.specs.Prelude.{◌≡◌};
ghost use Rattle.scores.specs.Faults.{score_refusal};
ghost use Rattle.scores.specs.declared.fault.ScoreFault.TheVariants.{Levels, Symbols};

use levels::fault::LevelFault;
use parity::SymbolFault;
use refusal::{Layer, Refusal};

/// Why a word is not scored.
#[derive(Clone, Copy, PartialEq, Debug)]
pub enum ScoreFault {
    /// The levels are not 972 legal ones.
    Levels(LevelFault),
    /// The bytes are not 162 symbols.
    Symbols(SymbolFault),
}

impl From<LevelFault> for ScoreFault {
    ghost from_gives = { λ e r. r ≡ Levels e };

    fn from(fault: LevelFault) -> ScoreFault {
        ScoreFault::Levels(fault)
    }
}

impl From<SymbolFault> for ScoreFault {
    ghost from_gives = { λ e r. r ≡ Symbols e };

    fn from(fault: SymbolFault) -> ScoreFault {
        ScoreFault::Symbols(fault)
    }
}

impl ScoreFault {
    /// Its number, layer and place.
    pub fn refusal(self) -> Refusal
        ensures { result ≡ score_refusal self }
    {
        match self {
            ScoreFault::Levels(fault) => fault.refusal(Layer::Decoder),
            ScoreFault::Symbols(fault) => fault.refusal(Layer::Decoder),
        }
    }
}
