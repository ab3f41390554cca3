//! The refusal of a symbol fault.
ghost use Rattle.std.specs.Prelude.{◌≡◌};
ghost use Rattle.parity.specs.Refused.{symbol_refusal};

use crate::SymbolFault;
use refusal::{Layer, Reason, Refusal};

impl SymbolFault {
    /// Its number and place, with the layer of the call that refuses.
    pub fn refusal(self, layer: Layer) -> Refusal
        ensures { result ≡ symbol_refusal layer self }
    {
        let (reason, place) = match self {
            SymbolFault::Length => (Reason::WrongLength, 0),
            SymbolFault::Byte(index) => (Reason::NoSymbol, index),
        };
        Refusal {
            reason,
            layer,
            place,
        }
    }
}
