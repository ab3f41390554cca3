//! What a refusal answers: its reason, which has a number, the layer that refuses, and a place.
//!
//! Each layer has an enum of its own for its faults, and one definition gives the refusal of each case. The numbers and what
//! their places mean are listed in docs/REFUSALS.md.
#![tactic(auto)]

ghost use Rattle.std.specs.Prelude.{◌≡◌, Some};
ghost use Rattle.refusal.specs.Numbers.{layer_number, reason_number, Reasoned};
ghost use Rattle.refusal.specs.Lines.{refused_line};

use std::fmt;

/// The layers, from the levels of a frame up.
#[derive(Clone, Copy, PartialEq, Debug)]
pub enum Layer {
    Levels = 1,
    Header = 2,
    Decoder = 3,
    Word = 4,
    Message = 5,
    Block = 6,
    Rows = 7,
    Writer = 8,
}

impl Layer {
    /// 1 to 8, in their order.
    pub fn number(self) -> u8
        ensures { result ≡ layer_number self }
    {
        self as u8
    }
}

/// Why something is refused, by its number.
#[derive(Clone, Copy, PartialEq, Debug)]
pub enum Reason {
    WrongLength,
    NoSatellite,
    IllegalLevel,
    WrongPreamble,
    OtherSatellite,
    ReservedBit,
    NoWord,
    NoSymbol,
    NonzeroSum,
    WrongCrc,
    WrongType,
    LateSecond,
    OutOfRange,
    NoMessage,
    OtherBlock,
    BlockTwice,
    NoBlock,
    /// A number that stands for none of these.
    // Its number comes with it, so the others have theirs in `number`, and not as discriminants.
    Unknown(u8),
}

impl Reason {
    /// 1 to 17, in their order; of an unknown one the number that it holds.
    pub fn number(self) -> u8
        ensures { result ≡ reason_number self }
    {
        match self {
            Reason::WrongLength => 1,
            Reason::NoSatellite => 2,
            Reason::IllegalLevel => 3,
            Reason::WrongPreamble => 4,
            Reason::OtherSatellite => 5,
            Reason::ReservedBit => 6,
            Reason::NoWord => 7,
            Reason::NoSymbol => 8,
            Reason::NonzeroSum => 9,
            Reason::WrongCrc => 10,
            Reason::WrongType => 11,
            Reason::LateSecond => 12,
            Reason::OutOfRange => 13,
            Reason::NoMessage => 14,
            Reason::OtherBlock => 15,
            Reason::BlockTwice => 16,
            Reason::NoBlock => 17,
            Reason::Unknown(number) => number,
        }
    }
}

/// The reason that a number stands for.
impl From<u8> for Reason {
    ghost from_gives = { Reasoned };

    fn from(number: u8) -> Reason {
        match number {
            1 => Reason::WrongLength,
            2 => Reason::NoSatellite,
            3 => Reason::IllegalLevel,
            4 => Reason::WrongPreamble,
            5 => Reason::OtherSatellite,
            6 => Reason::ReservedBit,
            7 => Reason::NoWord,
            8 => Reason::NoSymbol,
            9 => Reason::NonzeroSum,
            10 => Reason::WrongCrc,
            11 => Reason::WrongType,
            12 => Reason::LateSecond,
            13 => Reason::OutOfRange,
            14 => Reason::NoMessage,
            15 => Reason::OtherBlock,
            16 => Reason::BlockTwice,
            17 => Reason::NoBlock,
            _ => Reason::Unknown(number),
        }
    }
}

#[derive(Clone, Copy, PartialEq, Debug)]
pub struct Refusal {
    pub reason: Reason,
    pub layer: Layer,
    pub place: usize,
}

/// `refused NUMBER LAYER PLACE`.
impl fmt::Display for Refusal {
    ghost output = { λ x. Some (refused_line x) };

    fn fmt<W: fmt::Write>(&self, f: &mut fmt::Formatter<W>) -> fmt::Result {
        let number = self.reason.number();
        let layer = self.layer.number();
        let place = self.place;
        write!(f, "refused {number} {layer} {place}")
    }
}

/// A refusal in words.
#[derive(Clone, Copy)]
pub struct InWords(pub Refusal);

impl fmt::Display for InWords {
    fn fmt<W: fmt::Write>(&self, f: &mut fmt::Formatter<W>) -> fmt::Result {
        let place = self.0.place;
        match self.0.reason {
            Reason::WrongLength => write!(f, "the input or a buffer has the wrong length"),
            Reason::NoSatellite => write!(f, "the satellite is not one of 6 to 58"),
            Reason::IllegalLevel => write!(f, "level {place} is not a number from -4 to 4"),
            Reason::WrongPreamble => write!(f, "bit {place} of the preamble is wrong"),
            Reason::OtherSatellite => write!(f, "the header names another satellite"),
            Reason::ReservedBit => write!(f, "reserved bit {place} is set"),
            Reason::NoWord => write!(f, "the decoder proposes no word"),
            Reason::NoSymbol => write!(f, "byte {place} is above 63"),
            Reason::NonzeroSum => write!(f, "the sum of row {place} is not 0"),
            Reason::WrongCrc => write!(f, "the CRC does not fit the message"),
            Reason::WrongType => write!(f, "message type {place} is not allowed here"),
            Reason::LateSecond => write!(f, "the second of week is above 604799"),
            Reason::OutOfRange => write!(f, "the field that begins at bit {place} is out of range"),
            Reason::NoMessage => write!(f, "no message was accepted for this satellite and type"),
            Reason::OtherBlock => write!(f, "block {place} is not of this message type"),
            Reason::BlockTwice => write!(f, "block {place} was put already"),
            Reason::NoBlock => write!(f, "block {place} is missing"),
            Reason::Unknown(number) => write!(f, "refusal {number} is not known"),
        }
    }
}
