//! Where a block stands in a message.
use layout::{MessageType, Part};

#[derive(Clone, Copy)]
pub struct Place {
    /// The number of the block.
    // A number and no part: refusals name the number that a kind gives, and anyone may write a kind.
    pub number: u8,
    pub message_type: MessageType,
    pub part: Part,
    pub first_bit: usize,
    /// Its width in bits.
    pub width: usize,
}
