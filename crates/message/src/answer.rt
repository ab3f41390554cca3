//! What the check of a word answers.
ghost use Rattle.message.specs.Lines.{message_line};
ghost use Rattle.std.specs.Prelude.{Some};

use layout::MessageType;
use std::fmt;

/// The beginning of a message: its type and its second of the week.
#[derive(Clone, Copy, PartialEq, Debug)]
pub struct Header {
    pub message_type: MessageType,
    pub second: u32,
}

/// `message TYPE SECOND`.
impl fmt::Display for Header {
    ghost output = { λ h. Some (message_line h) };

    fn fmt<W: fmt::Write>(&self, f: &mut fmt::Formatter<W>) -> fmt::Result {
        let number = self.message_type.number();
        let second = self.second;
        write!(f, "message {number} {second}")
    }
}
