//! Why a message is not lawful, and why bytes are no word of a lawful message.
ghost use Rattle.std.specs.Prelude.{◌≡◌};
ghost use Rattle.message.specs.Refused.{message_refusal, word_refusal};
ghost use Rattle.message.specs.declared.fault.MessageFault.TheVariants.{UnknownType as OfUnknownType};
ghost use Rattle.message.specs.declared.fault.WordFault.TheVariants.{Symbols, Message};

use layout::UnknownType;
use parity::SymbolFault;
use refusal::{Layer, Reason, Refusal};

/// Why a message is not lawful.
#[derive(Clone, Copy, PartialEq, Debug)]
pub enum MessageFault {
    /// The last 24 bits are not the CRC of the others.
    Crc,
    /// This number is no type's.
    UnknownType(u8),
    /// The second is not one of a week.
    Second,
    /// This reserved bit, the first such, is set.
    Reserved(usize),
    /// The field that begins at this bit, the first such, is out of range.
    Field(usize),
}

/// Why bytes are no word of a lawful message.
#[derive(Clone, Copy, PartialEq, Debug)]
pub enum WordFault {
    /// They are not 162 symbols.
    Symbols(SymbolFault),
    /// The sum of this row, the first such, is not 0.
    RowSum(usize),
    /// The message is not lawful.
    Message(MessageFault),
}

impl From<UnknownType> for MessageFault {
    ghost from_gives = { λ e r. r ≡ OfUnknownType e.0 };

    fn from(fault: UnknownType) -> MessageFault {
        MessageFault::UnknownType(fault.0)
    }
}

impl From<SymbolFault> for WordFault {
    ghost from_gives = { λ e r. r ≡ Symbols e };

    fn from(fault: SymbolFault) -> WordFault {
        WordFault::Symbols(fault)
    }
}

impl From<MessageFault> for WordFault {
    ghost from_gives = { λ e r. r ≡ Message e };

    fn from(fault: MessageFault) -> WordFault {
        WordFault::Message(fault)
    }
}

impl MessageFault {
    /// Its number, layer and place.
    pub fn refusal(self) -> Refusal
        ensures { result ≡ message_refusal self }
    {
        let (reason, place) = match self {
            MessageFault::Crc => (Reason::WrongCrc, 0),
            MessageFault::UnknownType(number) => (Reason::WrongType, number as usize),
            MessageFault::Second => (Reason::LateSecond, 6),
            MessageFault::Reserved(bit) => (Reason::ReservedBit, bit),
            MessageFault::Field(bit) => (Reason::OutOfRange, bit),
        };
        Refusal {
            reason,
            layer: Layer::Message,
            place,
        }
    }
}

impl WordFault {
    /// Its number, layer and place.
    pub fn refusal(self) -> Refusal
        ensures { result ≡ word_refusal self }
    {
        match self {
            WordFault::Symbols(fault) => fault.refusal(Layer::Word),
            WordFault::RowSum(row) => Refusal {
                reason: Reason::NonzeroSum,
                layer: Layer::Word,
                place: row,
            },
            WordFault::Message(fault) => fault.refusal(),
        }
    }
}
