//! The frame of a coded word: 1000 bits in 125 bytes, most significant first.
//!
//! A frame is the preamble EB90h, the satellite's number in six bits, six zeros, and the 972 bits of the word's 162 symbols.
#![tactic(auto)]

ghost use Rattle.std.specs.Prelude.{◌≡◌, ◌+◌, ◌*◌, ◌%◌, ◌<◌, ◌≤◌, true, length, MatchResult, OnOk};
ghost use Rattle.std.specs.Int.Digits.{number_from_digits};
ghost use Rattle.bits.specs.Bits.{bits_of, part};
ghost use Rattle.frames.specs.Frame.{bytes_bits, frame_answer, frame_bits, is_satellite};
ghost use Rattle.frames.specs.Refused.{frame_refusal};

use refusal::{Layer, Reason, Refusal};

/// Why no frame is written.
#[derive(Clone, Copy, PartialEq, Debug)]
pub enum FrameFault {
    /// The buffer has more bytes than 125 or fewer.
    Length,
    /// The number is no satellite's.
    Satellite,
}

impl FrameFault {
    /// Its number, layer and place.
    pub fn refusal(self) -> Refusal
        ensures { result ≡ frame_refusal self }
    {
        let reason = match self {
            FrameFault::Length => Reason::WrongLength,
            FrameFault::Satellite => Reason::NoSatellite,
        };
        Refusal {
            reason,
            layer: Layer::Writer,
            place: 0,
        }
    }
}

/// Whether a satellite has this number: 6 to 58.
pub fn is_satellite(number: u8) -> bool
    ensures { result ≡ is_satellite number }
{
    (6..=58).contains(&number)
}

/// The number that eight bits of the word from the bit `at` on write.
///
/// Since `at` is even, two symbols have them all.
fn word_byte(word: &[u8; 162], at: usize) -> u8
    requires { (at + 8 ≤ 972) × (at % 2 ≡ 0) }
    ensures { result ≡ number_from_digits 2 (part (bits_of word.now) at 8) }
{
    let two = (word[at / 6] % 64) as u16 * 64 + (word[at / 6 + 1] % 64) as u16;
    ((two >> (4 - at % 6)) % 256) as u8
}

/// The byte `i` of the frame.
///
/// It is found by its number, since the header ends within a byte, and no symbols fill whole bytes from there on.
fn frame_byte(word: &[u8; 162], satellite: u8, i: usize) -> u8
    requires { (satellite < 64) × (i < 125) }
    ensures { result ≡ number_from_digits 2 (part (frame_bits satellite word.now) (8 * i) 8) }
{
    match i {
        0 => 0xEB,
        1 => 0x90,
        2 => satellite * 4,
        3 => word[0] % 64 / 4,
        _ => word_byte(word, 8 * i - 28),
    }
}

/// Whether a buffer of this length takes the frame for a satellite of this number, or the first fault.
pub fn ask_frame(length: usize, satellite: u8) -> Result<(), FrameFault>
    ensures answer { result ≡ frame_answer length satellite }
    ensures fits { OnOk result ((length ≡ 125) × (satellite < 64) × (is_satellite satellite ≡ true)) }
{
    if length != 125 {
        return Err(FrameFault::Length);
    }
    if !is_satellite(satellite) {
        return Err(FrameFault::Satellite);
    }
    Ok(())
}

/// Fills the buffer with the frame of the coded word, the low six bits of 162 bytes.
///
/// A buffer that it refuses to fill stays as it is.
pub fn write_frame(word: &[u8; 162], satellite: u8, out: &mut [u8]) -> Result<(), FrameFault>
    ensures answer { result ≡ frame_answer (length out.old) satellite }
    ensures bits { MatchResult result (λ _. bytes_bits out.new ≡ frame_bits satellite word.now) (λ _. out.new ≡ out.old) }
{
    ask_frame(out.len(), satellite)?;
    for (i, byte) in out.iter_mut().enumerate() {
        *byte = frame_byte(word, satellite, i);
    }
    Ok(())
}
