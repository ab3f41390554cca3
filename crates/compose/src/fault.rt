//! Why no frame is composed.
ghost use Rattle.std.specs.Prelude.{◌≡◌};
ghost use Rattle.compose.specs.Refused.{compose_refusal};
ghost use Rattle.compose.specs.declared.fault.ComposeFault.TheVariants.{Frame, Writer};

use frames::FrameFault;
use refusal::Refusal;
use writer::fault::WriterFault;

/// Why no frame is composed.
#[derive(Clone, Copy, PartialEq, Debug)]
pub enum ComposeFault {
    /// The message is not written.
    Writer(WriterFault),
    /// The frame is not written.
    Frame(FrameFault),
}

impl From<WriterFault> for ComposeFault {
    ghost from_gives = { λ e r. r ≡ Writer e };

    fn from(fault: WriterFault) -> ComposeFault {
        ComposeFault::Writer(fault)
    }
}

impl From<FrameFault> for ComposeFault {
    ghost from_gives = { λ e r. r ≡ Frame e };

    fn from(fault: FrameFault) -> ComposeFault {
        ComposeFault::Frame(fault)
    }
}

impl ComposeFault {
    /// Its number, layer and place.
    pub fn refusal(self) -> Refusal
        ensures { result ≡ compose_refusal self }
    {
        match self {
            ComposeFault::Writer(fault) => fault.refusal(),
            ComposeFault::Frame(fault) => fault.refusal(),
        }
    }
}
