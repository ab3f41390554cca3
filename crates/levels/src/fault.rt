//! Why levels are refused.
ghost use Rattle.std.specs.Prelude.{◌≡◌};
ghost use Rattle.levels.specs.Refused.{level_refusal};

use refusal::{Layer, Reason, Refusal};

/// Why levels are refused.
#[derive(Clone, Copy, PartialEq, Debug)]
pub enum LevelFault {
    /// There are more of them or fewer.
    Length,
    /// The level at this index, the first such, is not legal.
    Illegal(usize),
}

impl LevelFault {
    /// Its number and place, with the layer of the call that refuses.
    pub fn refusal(self, layer: Layer) -> Refusal
        ensures { result ≡ level_refusal layer self }
    {
        let (reason, place) = match self {
            LevelFault::Length => (Reason::WrongLength, 0),
            LevelFault::Illegal(index) => (Reason::IllegalLevel, index),
        };
        Refusal {
            reason,
            layer,
            place,
        }
    }
}
