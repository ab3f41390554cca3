//! Why a block is not read or not written.
ghost use Rattle.std.specs.Prelude.{◌≡◌};
ghost use Rattle.blocks.specs.Refused.{block_refusal};
ghost use Rattle.blocks.specs.declared.fault.BlockFault.TheVariants.{Symbols};

use parity::SymbolFault;
use refusal::{Layer, Reason, Refusal};

/// Why a block is not read or not written.
#[derive(Clone, Copy, PartialEq, Debug)]
pub enum BlockFault {
    /// The bytes are not the symbols of a message.
    Symbols(SymbolFault),
    /// The message is of a type that does not have this block.
    OtherType(u8),
    /// The field that begins at this bit, the first such of the block, is out of range.
    Field(usize),
}

impl From<SymbolFault> for BlockFault {
    ghost from_gives = { λ e r. r ≡ Symbols e };

    fn from(fault: SymbolFault) -> BlockFault {
        BlockFault::Symbols(fault)
    }
}

impl BlockFault {
    /// Its number, layer and place.
    pub fn refusal(self) -> Refusal
        ensures { result ≡ block_refusal self }
    {
        let (reason, place) = match self {
            BlockFault::Symbols(fault) => return fault.refusal(Layer::Block),
            BlockFault::OtherType(block) => (Reason::OtherBlock, block as usize),
            BlockFault::Field(bit) => (Reason::OutOfRange, bit),
        };
        Refusal {
            reason,
            layer: Layer::Block,
            place,
        }
    }
}
