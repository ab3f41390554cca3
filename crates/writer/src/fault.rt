//! Why a step of writing is refused.
ghost use Rattle.std.specs.Prelude.{◌≡◌};
ghost use Rattle.writer.specs.Answers.{told};
ghost use Rattle.writer.specs.Refused.{writer_refusal};

use blocks::fault::BlockFault;
use refusal::{Layer, Reason, Refusal};

/// Why a draft is not begun, a block not put, or a draft not sealed.
#[derive(Clone, Copy, PartialEq, Debug)]
pub enum WriterFault {
    /// The buffer is not 162 bytes.
    Length,
    /// No draft is of the type of this number.
    UnknownType(u8),
    /// The second is not one of a week.
    Second,
    /// The draft is of a type that does not have this block.
    OtherType(u8),
    /// The draft has this block already.
    AlreadyPut(u8),
    /// The field that begins at this bit, the first such of the block, is out of range.
    Field(usize),
    /// The draft does not have this block, the lowest such.
    Missing(u8),
}

impl From<BlockFault> for WriterFault {
    ghost from_gives = { λ e r. r ≡ told e };

    fn from(fault: BlockFault) -> WriterFault {
        match fault {
            BlockFault::Symbols(_) => WriterFault::Length,
            BlockFault::OtherType(block) => WriterFault::OtherType(block),
            BlockFault::Field(bit) => WriterFault::Field(bit),
        }
    }
}

impl WriterFault {
    /// Its number, layer and place.
    pub fn refusal(self) -> Refusal
        ensures { result ≡ writer_refusal self }
    {
        let (reason, place) = match self {
            WriterFault::Length => (Reason::WrongLength, 0),
            WriterFault::UnknownType(number) => (Reason::WrongType, number as usize),
            WriterFault::Second => (Reason::LateSecond, 6),
            WriterFault::OtherType(block) => (Reason::OtherBlock, block as usize),
            WriterFault::AlreadyPut(block) => (Reason::BlockTwice, block as usize),
            WriterFault::Field(bit) => (Reason::OutOfRange, bit),
            WriterFault::Missing(block) => (Reason::NoBlock, block as usize),
        };
        Refusal {
            reason,
            layer: Layer::Writer,
            place,
        }
    }
}
