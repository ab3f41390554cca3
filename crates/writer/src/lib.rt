//! Writing a message into one buffer that the caller lends.
//!
//! A draft takes blocks until it has every block of its type. It is then sealed with its CRC, and the sealed message is
//! encoded. Each step consumes what the step before it made, over the same buffer. What a step would refuse can be asked first.
#![tactic(auto)]

ghost use Rattle.std.specs.Prelude.{◌≡◌, ℕ, ◌-◌, ◌<◌, ◌≤◌, true, false, ◌≢◌, List, length, take, replicate, not, position, is_ok, Some, None, Ok, MatchResult, OnOk, IfSome, slice_set};
ghost use Rattle.bits.specs.Bits.{bits_of, pasted, spelled};
ghost use Rattle.blocks.specs.Held.{placed_of};
ghost use Rattle.blocks.specs.Numbered.{Numbered};
ghost use Rattle.blocks.specs.Write.{first_unfit, written_over};
ghost use Rattle.crc.specs.Crc.{crc_of_message};
ghost use Rattle.frames.specs.Frame.{bytes_bits, frame_answer, frame_bits};
ghost use Rattle.layout.specs.Layout.{number_of, type_of};
ghost use Rattle.layout.specs.declared.MessageType.TheVariants.{Type40};
ghost use Rattle.message.specs.Checked.{checked, in_turn};
ghost use Rattle.message.specs.Examined.{examined};
ghost use Rattle.message.specs.Lawful.{Lawful, number_at};
ghost use Rattle.parity.specs.Code.{Encodes};
ghost use Rattle.parity.specs.Table.{bcnav3};
ghost use Rattle.writer.specs.Answers.{start_answer, put_answer, missing, seal_answer};
ghost use Rattle.written.specs.Drafted.{Drafted, PutInto, SealedAs};
ghost use Rattle.written.specs.Written.{Counted, Full, HoldsAll, LawfulAs, start_bits, written_from};

use blocks::Block;
use frames::{FrameFault, write_frame};
use layout::MessageType;
use message::LAST_SECOND;

pub mod fault;
mod symbols;

use fault::WriterFault;
use symbols::Row;

/// A message that is being written: its type, its second, and the blocks that were put.
///
/// That it is drafted stands in clauses: `put` takes any kind of block, and one with a wrong number would not keep it.
#[derive(Drop)]
pub struct Draft<'a> {
    row: Row<'a>,
    message_type: MessageType,
    /// Which blocks it has, by their numbers; no block has the number 0.
    // An array, since the numbers are those that kinds give, and no heap is used.
    done: [bool; 12],
}

/// A message that has every block of its type, and its CRC.
#[derive(Drop)]
pub struct Sealed<'a> {
    row: Row<'a>,
}

/// The word of a message.
#[derive(Drop)]
pub struct Coded<'a> {
    // A slice, as in `Row`.
    buf: &'a mut [u8],
    ghost long: { length buf.now ≡ 162 },
}

/// Whether a draft of this type and this second can begin in a buffer of this length, or the first fault.
// Two numbers, and no struct of a type and a second: refusal 11 names the one that was given, whatever it was.
pub fn ask_start(length: usize, number: u8, second: u32) -> Result<(), WriterFault>
    ensures { result ≡ start_answer length number second }
{
    if length != 162 {
        return Err(WriterFault::Length);
    }
    let Ok(MessageType::Type10 | MessageType::Type30) = MessageType::try_from(number) else {
        return Err(WriterFault::UnknownType(number));
    };
    if second > LAST_SECOND {
        return Err(WriterFault::Second);
    }
    Ok(())
}

/// A draft of a type and a second, without a block, where `ask_start` refuses nothing.
///
/// All other bits of the buffer become 0. The draft is drafted: what `seal` needs for a lawful message holds of it.
// The number again, as `ask_start` said yes to it.
pub fn start<'a>(buffer: &'a mut [u8], number: u8, second: u32) -> Draft<'a>
    requires { start_answer (length buffer.old) number second ≡ Ok tt }
    ensures holds { bits_of result.row.buf.now ≡ start_bits number second }
    ensures of { (type_of number ≡ Some result.message_type) × (result.done ≡ replicate 12 false) }
    ensures second { number_at (take 81 result.row.buf.now) 6 20 ≡ second }
    ensures drafted { Drafted result.message_type result.done (take 81 result.row.buf.now) }
    ensures same { result.row.buf.ghost_name ≡ buffer.entry.ghost_name }
{
    let Ok(message_type) = MessageType::try_from(number) else {
        unreachable()
    };
    Draft {
        row: Row::begin(buffer, number, second),
        message_type,
        done: [false; 12],
    }
}

/// The place of the first that is not done.
fn first_undone(done: &[bool]) -> Option<usize>
    ensures place { result ≡ position not done.now }
    ensures within { IfSome result (λ i. i < length done.now) }
{
    done.iter().position(|done| !*done)
}

/// Of the blocks from `first` up to `end`, the lowest that is not done, as a fault.
fn lowest_missing(done: &[bool; 12], first: usize, end: usize) -> Result<(), WriterFault>
    requires { (first ≤ end) × (end ≤ 12) }
    ensures { result ≡ missing first (end - first) done.now }
{
    match first_undone(&done[first..end]) {
        Some(i) => Err(WriterFault::Missing((first + i) as u8)),
        None => Ok(()),
    }
}

impl<'a> Draft<'a> {
    /// Writes a block, or refuses it and changes nothing.
    ///
    /// A block is refused where the draft's type does not have it, then where the draft has it already, then at its first
    /// field out of range. A kind that has the number of its part, as the eleven kinds do, leaves a draft that holds the block's
    /// counts, and the other blocks' as before; and a draft that was drafted stays so.
    pub fn put<K: Block>(&mut self, of: &K::Record) -> Result<(), WriterFault>
        ensures answer { result ≡ put_answer self.old.message_type self.old.done K.PLACE (K.counts of.now) }
        ensures writes { MatchResult result (λ _. (bits_of self.new.row.buf.now ≡ written_over K.PLACE (K.counts of.now) (bits_of self.old.row.buf.now)) × (self.new.done ≡ slice_set self.old.done K.PLACE.number true)) (λ _. (self.new.row.buf.now ≡ self.old.row.buf.now) × (self.new.done ≡ self.old.done)) }
        ensures puts { Numbered K.PLACE → OnOk result (PutInto K.PLACE (K.counts of.now) (take 81 self.old.row.buf.now) (take 81 self.new.row.buf.now)) }
        ensures drafted { Numbered K.PLACE → Drafted self.old.message_type self.old.done (take 81 self.old.row.buf.now) → Drafted self.new.message_type self.new.done (take 81 self.new.row.buf.now) }
        ensures of { self.new.message_type ≡ self.old.message_type }
        ensures same { self.new.row.buf.ghost_name ≡ self.old.row.buf.ghost_name }
    {
        let place = K::PLACE;
        if place.number > 11 || place.message_type != self.message_type {
            return Err(WriterFault::OtherType(place.number));
        }
        let at = place.number as usize;
        if self.done[at] {
            return Err(WriterFault::AlreadyPut(place.number));
        }
        self.row.write::<K>(of)?;
        self.done[at] = true;
        Ok(())
    }

    /// Whether the draft has every block of its type, or the lowest that it does not have.
    pub fn ask_seal(&self) -> Result<(), WriterFault>
        ensures { result ≡ seal_answer self.now.message_type self.now.done }
    {
        match self.message_type {
            MessageType::Type10 => lowest_missing(&self.done, 1, 4),
            MessageType::Type30 => lowest_missing(&self.done, 4, 12),
            MessageType::Type40 => Ok(()),
        }
    }

    /// The message of the draft with its CRC, where `ask_seal` refuses nothing.
    ///
    /// The message of a drafted draft is lawful, in whatever order the blocks were put, and has the draft's type and second and
    /// the counts of every block. So it is of a draft that was written in the order of the layout, with counts in range.
    pub fn seal(self) -> Sealed<'a>
        requires { seal_answer self.message_type self.done ≡ Ok tt }
        ensures holds { bits_of result.row.buf.now ≡ pasted (bits_of self.entry.row.buf.now) 462 (spelled 24 (crc_of_message (take 81 self.entry.row.buf.now))) }
        ensures lawful { (s : ℕ) (xs : List Counted) → self.entry.message_type ≢ Type40 → s ≤ 604799 → Full self.entry.message_type xs → bits_of self.entry.row.buf.now ≡ written_from 26 xs (start_bits (number_of self.entry.message_type) s) → LawfulAs (take 81 result.row.buf.now) self.entry.message_type s × HoldsAll (take 81 result.row.buf.now) self.entry.message_type xs }
        ensures seals { Drafted self.entry.message_type self.entry.done (take 81 self.entry.row.buf.now) → SealedAs self.entry.message_type (take 81 self.entry.row.buf.now) (take 81 result.row.buf.now) }
        ensures examined { Drafted self.entry.message_type self.entry.done (take 81 self.entry.row.buf.now) → examined (take 81 result.row.buf.now) ≡ Ok (record { message_type = self.entry.message_type; second = number_at (take 81 self.entry.row.buf.now) 6 20 }) }
        ensures same { result.row.buf.ghost_name ≡ self.entry.row.buf.ghost_name }
    {
        let Draft {
            mut row,
            message_type: _,
            done: _,
        } = self;
        row.put_crc();
        Sealed { row }
    }
}

impl<'a> Sealed<'a> {
    /// The word that the message encodes to, the only one: its first 81 symbols stay.
    ///
    /// `check` accepts the word of a lawful message, and answers what the message is examined as.
    pub fn encode(self) -> Coded<'a>
        ensures encodes { Encodes bcnav3 (take 81 self.entry.row.buf.now) result.buf.now }
        ensures only { (v : List ℕ) → Encodes bcnav3 (take 81 self.entry.row.buf.now) v → v ≡ result.buf.now }
        ensures checked { checked result.buf.now ≡ in_turn None None (examined (take 81 self.entry.row.buf.now)) }
        ensures accepted { Lawful (take 81 self.entry.row.buf.now) → is_ok (checked result.buf.now) ≡ true }
        ensures same { result.buf.ghost_name ≡ self.entry.row.buf.ghost_name }
    {
        let Sealed { mut row } = self;
        row.put_checks();
        let Row { buf } = row;
        Coded { buf }
    }
}

impl<'a> Coded<'a> {
    /// The word.
    fn word(&self) -> &[u8; 162]
        ensures { result.now ≡ self.now.buf.now }
    {
        let Some(word) = self.buf.as_array() else {
            unreachable()
        };
        word
    }

    /// Fills a buffer of 125 bytes with the frame of the word for a satellite, or refuses and changes nothing.
    pub fn frame(&self, satellite: u8, out: &mut [u8]) -> Result<(), FrameFault>
        ensures answer { result ≡ frame_answer (length out.old) satellite }
        ensures bits { MatchResult result (λ _. bytes_bits out.new ≡ frame_bits satellite self.now.buf.now) (λ _. out.new ≡ out.old) }
    {
        write_frame(self.word(), satellite, out)
    }

    /// The lent buffer, which holds the word.
    pub fn into_buffer(self) -> &'a mut [u8]
        ensures holds { result.now ≡ self.entry.buf.now }
        ensures same { result.ghost_name ≡ self.entry.buf.ghost_name }
    {
        let Coded { buf } = self;
        buf
    }
}
