//! A whole frame in one call: from the records of a message to its word and its frame.
//!
//! `compose` starts a draft, puts every block of the type, seals, encodes and writes the frame. It asks for every refusal before it
//! changes anything.
#![tactic(auto)]

ghost use Rattle.std.specs.Prelude.{◌≡◌, ℕ, length, take, Ok, MatchResult};
ghost use Rattle.blocks.specs.Held.{placed_of};
ghost use Rattle.blocks.specs.Write.{first_unfit};
ghost use Rattle.frames.specs.Frame.{frame_answer};
ghost use Rattle.writer.specs.Answers.{by_field};
ghost use Rattle.compose.specs.Contents.{counts10, counts30};
ghost use Rattle.compose.specs.Composed.{ask_all, either, write_answer, Composed, Filled, Stepped, Word};
ghost use Rattle.compose.specs.declared.records.Records.TheVariants.{Type10, Type30};

use blocks::{Block, first_unfit};
use frames::ask_frame;
use type10::ephemeris1::Ephemeris1;
use type10::ephemeris2::Ephemeris2;
use type10::integrity::Integrity;
use type30::accuracy::Accuracy;
use type30::bdt_utc::BdtUtc;
use type30::clock::Clock;
use type30::earth_orientation::EarthOrientation;
use type30::group_delay::GroupDelay;
use type30::health::Health;
use type30::ionosphere::Ionosphere;
use type30::week::Week;
use writer::fault::WriterFault;
use writer::{Coded, Draft, ask_start, start};

pub mod fault;
pub mod records;

use fault::ComposeFault;
use records::{Contents, Records, Type10Records, Type30Records};

/// Whether the fields of a block may hold its counts, or the first that may not.
fn ask_block<K: Block>(of: &K::Record) -> Result<(), WriterFault>
    ensures { result ≡ by_field (first_unfit (placed_of K.PLACE) (K.counts of.now)) }
{
    match first_unfit::<K>(of) {
        Some(bit) => Err(WriterFault::Field(bit)),
        None => Ok(()),
    }
}

// `ask_10` and `ask_30`, and `draft_10` and `draft_30`, are lists of kinds: a trait over them adds more lines than it saves.
fn ask_10(records: &Type10Records) -> Result<(), WriterFault>
    ensures { result ≡ ask_all (counts10 records.now) }
{
    ask_block::<Ephemeris1>(&records.ephemeris1)?;
    ask_block::<Ephemeris2>(&records.ephemeris2)?;
    ask_block::<Integrity>(&records.integrity)
}

fn ask_30(records: &Type30Records) -> Result<(), WriterFault>
    ensures { result ≡ ask_all (counts30 records.now) }
{
    ask_block::<Week>(&records.week)?;
    ask_block::<Clock>(&records.clock)?;
    ask_block::<GroupDelay>(&records.group_delay)?;
    ask_block::<Ionosphere>(&records.ionosphere)?;
    ask_block::<BdtUtc>(&records.bdt_utc)?;
    ask_block::<EarthOrientation>(&records.earth_orientation)?;
    ask_block::<Accuracy>(&records.accuracy)?;
    ask_block::<Health>(&records.health)
}

/// Puts a block that was asked for. A block that is refused leaves a draft that cannot be sealed.
fn put<K: Block>(draft: &mut Draft, of: &K::Record)
    ensures step { Stepped K.PLACE K.size (K.counts of.now) draft.old.message_type draft.old.done (take 81 draft.old.row.buf.now) draft.new.message_type draft.new.done (take 81 draft.new.row.buf.now) }
    ensures same { draft.new.row.buf.ghost_name ≡ draft.old.row.buf.ghost_name }
{
    let _ = draft.put::<K>(of);
}

/// A draft with the three blocks of type 10.
fn draft_10<'a>(buffer: &'a mut [u8], second: u32, records: &Type10Records) -> Draft<'a>
    requires { write_answer (length buffer.old) second (Type10 records.now) ≡ Ok tt }
    ensures fills { Filled (Type10 records.now) second result.message_type result.done (take 81 result.row.buf.now) }
    ensures same { result.row.buf.ghost_name ≡ buffer.entry.ghost_name }
{
    let mut draft = start(buffer, 10, second);
    put::<Ephemeris1>(&mut draft, &records.ephemeris1);
    put::<Ephemeris2>(&mut draft, &records.ephemeris2);
    put::<Integrity>(&mut draft, &records.integrity);
    draft
}

/// A draft with the eight blocks of type 30.
fn draft_30<'a>(buffer: &'a mut [u8], second: u32, records: &Type30Records) -> Draft<'a>
    requires { write_answer (length buffer.old) second (Type30 records.now) ≡ Ok tt }
    ensures fills { Filled (Type30 records.now) second result.message_type result.done (take 81 result.row.buf.now) }
    ensures same { result.row.buf.ghost_name ≡ buffer.entry.ghost_name }
{
    let mut draft = start(buffer, 30, second);
    put::<Week>(&mut draft, &records.week);
    put::<Clock>(&mut draft, &records.clock);
    put::<GroupDelay>(&mut draft, &records.group_delay);
    put::<Ionosphere>(&mut draft, &records.ionosphere);
    put::<BdtUtc>(&mut draft, &records.bdt_utc);
    put::<EarthOrientation>(&mut draft, &records.earth_orientation);
    put::<Accuracy>(&mut draft, &records.accuracy);
    put::<Health>(&mut draft, &records.health);
    draft
}

impl Contents {
    /// Whether the message can be written into a buffer of this length, or the first fault.
    fn ask(&self, length: usize) -> Result<(), WriterFault>
        ensures { result ≡ write_answer length self.now.second self.now.records }
    {
        match &self.records {
            Records::Type10(records) => {
                ask_start(length, 10, self.second)?;
                ask_10(records)
            }
            Records::Type30(records) => {
                ask_start(length, 30, self.second)?;
                ask_30(records)
            }
        }
    }

    /// A draft with every block.
    fn draft<'a>(&self, buffer: &'a mut [u8]) -> Draft<'a>
        requires { write_answer (length buffer.old) self.now.second self.now.records ≡ Ok tt }
        ensures fills { Filled self.now.records self.now.second result.message_type result.done (take 81 result.row.buf.now) }
        ensures same { result.row.buf.ghost_name ≡ buffer.entry.ghost_name }
    {
        match &self.records {
            Records::Type10(records) => draft_10(buffer, self.second, records),
            Records::Type30(records) => draft_30(buffer, self.second, records),
        }
    }

    /// The word of the message, in the buffer.
    fn write<'a>(&self, buffer: &'a mut [u8]) -> Coded<'a>
        requires { write_answer (length buffer.old) self.now.second self.now.records ≡ Ok tt }
        ensures word { Word self.now.records self.now.second result.buf.now }
        ensures same { result.buf.ghost_name ≡ buffer.entry.ghost_name }
    {
        self.draft(buffer).seal().encode()
    }
}

/// Fills the buffer of 162 bytes with the word of a message that says this, and the other one with the frame in which the
/// satellite sends it; or refuses and changes nothing.
///
/// The message is lawful, reading its blocks gives the records, the word is the only one that begins with it, and `check` accepts
/// it. A refusal is the first of those of starting, of the blocks in the order of their numbers, and of the frame.
pub fn compose(
    buffer: &mut [u8],
    contents: &Contents,
    satellite: u8,
    frame: &mut [u8],
) -> Result<(), ComposeFault>
    ensures answer { result ≡ either (write_answer (length buffer.old) contents.now.second contents.now.records) (frame_answer (length frame.old) satellite) }
    ensures composed { MatchResult result (λ _. Composed contents.now.records contents.now.second satellite buffer.new frame.new) (λ _. (buffer.new ≡ buffer.old) × (frame.new ≡ frame.old)) }
{
    contents.ask(buffer.len())?;
    ask_frame(frame.len(), satellite)?;
    let coded = contents.write(buffer);
    coded.frame(satellite, frame)?;
    Ok(())
}
