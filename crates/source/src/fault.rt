//! Why no frame is written.
use frames::FrameFault;
use refusal::{InWords, Refusal};
use text::fault::TextFault;
use thiserror::Error;
use writer::fault::WriterFault;

/// Why a text gives no frame.
#[derive(Clone, Copy, Debug, Error)]
pub enum SourceFault {
    /// The text is not one of a message.
    #[error(transparent)]
    Text(#[from] TextFault),
    /// The number under this name is negative, or too large for what it counts.
    #[error("the number under {0} is out of range")]
    OutOfRange(&'static str),
    /// The message is not lawful.
    #[error("{}", InWords(.0.refusal()))]
    Writer(#[from] WriterFault),
    /// The frame is refused.
    #[error("{}", InWords(.0.refusal()))]
    Frame(#[from] FrameFault),
}

impl SourceFault {
    /// Its number, layer and place, where a message or a frame is refused.
    pub(crate) fn refusal(self) -> Option<Refusal> {
        match self {
            SourceFault::Text(_) | SourceFault::OutOfRange(_) => None,
            SourceFault::Writer(fault) => Some(fault.refusal()),
            SourceFault::Frame(fault) => Some(fault.refusal()),
        }
    }
}
