//! Why a text is not read.
ghost use Rattle.std.specs.Prelude.{◌≡◌, Decides};
ghost use Rattle.text.specs.Names.{written};
ghost use Rattle.text.specs.declared.fault.TextFault.TheVariants.{NoMemory};

use std::alloc::{AllocError, AllocFailed};
use std::fmt;
use thiserror::Error;

/// The name of a number in a text.
#[derive(Clone, Copy, PartialEq, Debug)]
pub enum Name {
    /// A name without a block.
    Plain(&'static str),
    /// A block and a field, written BLOCK.FIELD.
    Field(&'static str, &'static str),
}

impl Name {
    /// Whether this is how the name is written.
    pub fn is(self, text: &str) -> bool
        ensures { Decides result (text.now ≡ written self) }
    {
        match self {
            Name::Plain(name) => text == name,
            // As a chain of `and_then` and `is_some_and` a goal stays open.
            Name::Field(block, field) => match text.strip_prefix(block) {
                Some(rest) => match rest.strip_prefix('.') {
                    Some(rest) => rest == field,
                    None => false,
                },
                None => false,
            },
        }
    }
}

impl fmt::Display for Name {
    fn fmt<W: fmt::Write>(&self, f: &mut fmt::Formatter<W>) -> fmt::Result {
        match *self {
            Name::Plain(name) => write!(f, "{name}"),
            Name::Field(block, field) => write!(f, "{block}.{field}"),
        }
    }
}

/// Why a text is not read. A line has its number, from 1.
#[derive(Clone, Copy, PartialEq, Debug, Error)]
pub enum TextFault {
    #[error("there is no memory for the text")]
    NoMemory,
    /// A name stands alone.
    #[error("line {line}: there is no number after the name")]
    NoNumber { line: usize },
    /// What stands after the name is not a whole number of 64 bits.
    #[error("line {line}: what follows the name is not a whole number")]
    BadNumber { line: usize },
    /// More than a name and a number.
    #[error("line {line}: more than a name and a number")]
    TooLong { line: usize },
    /// The name stands on an earlier line too.
    #[error("line {line}: the name stands twice")]
    Doubled { line: usize },
    /// Nobody asked for the name.
    #[error("line {line}: the name is not known here")]
    Unknown { line: usize },
    /// The name does not stand in the text.
    #[error("{0} is missing")]
    Missing(Name),
}

// By hand, since a derive would put the error into the variant, and its contract would not say which fault it gives.
impl From<AllocError> for TextFault {
    ghost from_gives = { λ _ r. r ≡ NoMemory };

    fn from(_fault: AllocError) -> TextFault {
        TextFault::NoMemory
    }
}

impl<T: Drop> From<AllocFailed<T>> for TextFault {
    ghost from_gives = { λ _ r. r ≡ NoMemory };

    fn from(_fault: AllocFailed<T>) -> TextFault {
        TextFault::NoMemory
    }
}
