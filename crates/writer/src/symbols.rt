//! The 162 symbols of a lent buffer, and the steps of writing over them.
ghost use Rattle.std.specs.Prelude.{◌≡◌, ℕ, List, length, take, MatchResult};
ghost use Rattle.bits.specs.Bits.{bits_of, pasted, spelled};
ghost use Rattle.blocks.specs.Held.{placed_of};
ghost use Rattle.blocks.specs.Write.{first_unfit, written_over};
ghost use Rattle.crc.specs.Crc.{crc_of_message};
ghost use Rattle.parity.specs.Code.{Encodes, SymbolList};
ghost use Rattle.parity.specs.Table.{bcnav3};
ghost use Rattle.writer.specs.Answers.{by_field};
ghost use Rattle.written.specs.Written.{start_bits};

use crate::fault::WriterFault;
use bits::put_bits;
use blocks::{Block, write};
use crc::crc24q;
use parity::Message;

/// The symbols of a lent buffer.
///
/// They are a slice and no array: the library lends an array anew, and no clause could say that it is the lent buffer.
// That a step works on the buffer that was lent is the clause `same` of each, since no type says it.
#[derive(Drop)]
pub(crate) struct Row<'a> {
    pub(crate) buf: &'a mut [u8],
    ghost symbols: { SymbolList 162 buf.now },
}

impl<'a> Row<'a> {
    /// Makes the symbols a type, a second, and zeros.
    pub(crate) fn begin(buf: &'a mut [u8], number: u8, second: u32) -> Row<'a>
        requires { length buf.old ≡ 162 }
        ensures bits { bits_of result.buf.now ≡ start_bits number second }
        ensures same { result.buf.ghost_name ≡ buf.entry.ghost_name }
    {
        buf.fill(0);
        put_bits(buf, 0, 6, number as u64);
        put_bits(buf, 6, 20, second as u64);
        Row { buf }
    }

    /// The symbols of the message.
    fn message(&self) -> &[u8; 81]
        ensures { result.now ≡ take 81 self.now.buf.now }
    {
        let Some(message) = self.buf.first_chunk() else {
            unreachable()
        };
        message
    }

    /// Writes a block over its bits, or names its first field out of range and changes nothing.
    pub(crate) fn write<K: Block>(&mut self, of: &K::Record) -> Result<(), WriterFault>
        ensures answer { result ≡ by_field (first_unfit (placed_of K.PLACE) (K.counts of.now)) }
        ensures writes { MatchResult result (λ _. bits_of self.new.buf.now ≡ written_over K.PLACE (K.counts of.now) (bits_of self.old.buf.now)) (λ _. self.new.buf.now ≡ self.old.buf.now) }
        ensures same { self.new.buf.ghost_name ≡ self.old.buf.ghost_name }
    {
        Ok(write::<K>(of, self.buf)?)
    }

    /// Writes the CRC of the message into its last 24 bits.
    pub(crate) fn put_crc(&mut self)
        ensures bits { bits_of self.new.buf.now ≡ pasted (bits_of self.old.buf.now) 462 (spelled 24 (crc_of_message (take 81 self.old.buf.now))) }
        ensures same { self.new.buf.ghost_name ≡ self.old.buf.ghost_name }
    {
        let crc = crc24q(self.message());
        put_bits(self.buf, 462, 24, crc as u64);
    }

    /// Makes the symbols the word of the message that they begin with.
    pub(crate) fn put_checks(&mut self)
        ensures encodes { Encodes bcnav3 (take 81 self.old.buf.now) self.new.buf.now }
        ensures only { (v : List ℕ) → Encodes bcnav3 (take 81 self.old.buf.now) v → v ≡ self.new.buf.now }
        ensures same { self.new.buf.ghost_name ≡ self.old.buf.ghost_name }
    {
        let Ok(message) = Message::new(self.message()) else {
            unreachable()
        };
        self.buf.copy_from_slice(message.encode().bytes());
    }
}
