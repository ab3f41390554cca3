//! Blocks of a message as records of counts.
//!
//! A kind of block is a part of the layout with a record type. Reading and writing are one generic text over the layout's
//! fields; a kind adds its record, and says which count stands where.
#![tactic(auto)]

ghost use Rattle.std.specs.Prelude.{◌≡◌, ℕ, ◌-◌, ◌^◌, ◌<◌, ◌≤◌, true, false, List, length, take, ℤ, pos, negsuc, ◌≤ℤ◌, is_ok, IfOk, None, Ok, slice_index_or, slice_set};
ghost use Rattle.bits.specs.Bits.{bits_of, KeepsSmall};
ghost use Rattle.message.specs.Checked.{checked};
ghost use Rattle.parity.specs.Code.{SymbolList};
ghost use Rattle.blocks.specs.Held.{held_in, placed_of, zeros};
ghost use Rattle.blocks.specs.Read.{is_of, read_as};
ghost use Rattle.blocks.specs.Stands.{Stands};
ghost use Rattle.blocks.specs.Write.{raw_of, first_unfit, written_over, write_answer};
ghost use Rattle.blocks.specs.declared.place.Place.{Place};

use bits::put_bits;
use layout::{MessageType, count_at, fields, first_outside_in, is_outside};
use message::type_number;
use parity::{Message, SymbolFault};

pub mod fault;
pub mod place;
pub mod text;

use fault::BlockFault;
use place::Place;

/// A kind of block.
///
/// The meaning of a record is the list of its counts, in the order of the layout's fields.
pub trait Block {
    /// Its width in bits.
    // A constant of its own beside `PLACE`: a form that the project asks for.
    const WIDTH: usize;
    /// Where it stands in a message.
    const PLACE: Place;
    /// The counts of its fields.
    type Record: Copy;

    ghost PLACE: { Place };

    ghost size: { ℕ };

    ghost counts: { Self.Record → List ℤ };

    ghost made: { List ℤ → Self.Record };

    /// The record whose counts are all 0.
    // By a call in each kind: a bound `Default` would say nothing of the counts.
    fn zero() -> Self::Record
        ensures { counts result ≡ zeros size };

    /// The count of field number `i`; 0 past the last.
    // By a match in each kind: a record has a name for each field, and a macro for the matches would be as long as they are.
    fn count(of: &Self::Record, i: usize) -> i64
        ensures { result ≡ slice_index_or (counts of.now) i (pos 0) };

    /// Makes `z` the count of field number `i`; past the last it changes nothing.
    fn set_count(of: &mut Self::Record, i: usize, z: i64)
        ensures { counts of.new ≡ slice_set (counts of.old) i z };

    ghost stands: { Stands PLACE size };

    ghost counted: { (r : Self.Record) → length (counts r) ≡ size };

    ghost back: { (r : Self.Record) → made (counts r) ≡ r };
}

/// The counts of the block's fields in a message.
fn get_counts<K: Block>(symbols: &[u8; 81]) -> K::Record
    ensures { K.counts result ≡ held_in K.PLACE symbols.now }
{
    let place = K::PLACE;
    let mut found = K::zero();
    // The first bit of each field is counted along, here and in the other walks over fields: an iterator that did it would be one
    // more type, and each walk would still need its invariant.
    let mut at = place.first_bit;
    let all = fields(place.part);
    for (i, field) in all.iter().enumerate() {
        K::set_count(&mut found, i, count_at(*field, at, symbols));
        at += field.width;
    }
    found
}

/// Whether a message is of a type, by its first six bits.
fn is_of(message: &Message, kind: MessageType) -> bool
    ensures { result ≡ is_of kind message.now.bytes }
{
    type_number(message) == kind.number()
}

fn read_in_turn<K: Block>(bytes: &[u8]) -> Result<K::Record, BlockFault>
    ensures answer { result ≡ read_as K.PLACE K.made bytes.now }
    ensures held { IfOk result (λ got. (K.counts got ≡ held_in K.PLACE bytes.now) × (length bytes.now ≡ 81)) }
{
    let message = Message::new(bytes)?;
    let place = K::PLACE;
    if !is_of(&message, place.message_type) {
        return Err(BlockFault::OtherType(place.number));
    }
    if let Some(bit) = first_outside_in(place.part, place.first_bit, message.bytes()) {
        return Err(BlockFault::Field(bit));
    }
    Ok(get_counts::<K>(message.bytes()))
}

/// The record of a block in a message, or the first fault.
///
/// Writing what was read gives the same bits. In a message that `check` accepts every block of its type is read.
pub fn read<K: Block>(bytes: &[u8]) -> Result<K::Record, BlockFault>
    ensures answer { result ≡ read_as K.PLACE K.made bytes.now }
    ensures writes { IfOk result (λ got. written_over K.PLACE (K.counts got) (bits_of bytes.now) ≡ bits_of bytes.now) }
    ensures accepted { (w : List ℕ) → is_ok (checked w) ≡ true → bytes.now ≡ take 81 w → is_of K.PLACE.message_type bytes.now ≡ true → is_ok result ≡ true }
{
    read_in_turn::<K>(bytes)
}

/// The low `width` bits of a count.
fn raw_of(width: usize, z: i64) -> u64
    requires { (1 ≤ width) × ((width ≤ 55) × (negsuc (2 ^ width - 1) ≤ℤ z)) }
    ensures { result ≡ raw_of width z }
{
    if z < 0 {
        (1u64 << width) - z.unsigned_abs()
    } else {
        z as u64
    }
}

/// The first bit of the first field that may not hold its count: what `write` would refuse a record for.
pub fn first_unfit<K: Block>(of: &K::Record) -> Option<usize>
    ensures { result ≡ first_unfit (placed_of K.PLACE) (K.counts of.now) }
{
    let place = K::PLACE;
    // Counted along, as in `get_counts`.
    let mut at = place.first_bit;
    let all = fields(place.part);
    for (i, field) in all.iter().enumerate() {
        if is_outside(*field, K::count(of, i)) {
            return Some(at);
        }
        at += field.width;
    }
    None
}

/// Writes the counts over the block's bits.
fn put_counts<K: Block>(of: &K::Record, symbols: &mut [u8])
    requires { (81 ≤ length symbols.old) × (first_unfit (placed_of K.PLACE) (K.counts of.now) ≡ None) }
    ensures bits { bits_of symbols.new ≡ written_over K.PLACE (K.counts of.now) (bits_of symbols.old) }
    ensures small { KeepsSmall symbols.old symbols.new }
{
    let place = K::PLACE;
    // Counted along, as in `get_counts`.
    let mut at = place.first_bit;
    let all = fields(place.part);
    for (i, field) in all.iter().enumerate() {
        let raw = raw_of(field.width, K::count(of, i));
        put_bits(symbols, at, field.width, raw);
        at += field.width;
    }
}

/// Writes a record over the block's bits in a message, the first 81 symbols; or names the first fault and changes nothing.
///
/// No other bit changes, and a byte below 64 stays below 64. Reading what was written gives the record.
pub fn write<K: Block>(of: &K::Record, symbols: &mut [u8]) -> Result<(), BlockFault>
    ensures answer { result ≡ write_answer K.PLACE (K.counts of.now) (length symbols.old) }
    ensures written { is_ok result ≡ true → bits_of symbols.new ≡ written_over K.PLACE (K.counts of.now) (bits_of symbols.old) }
    ensures kept { is_ok result ≡ false → symbols.new ≡ symbols.old }
    ensures small { KeepsSmall symbols.old symbols.new }
    ensures back { is_ok result ≡ true → SymbolList 81 (take 81 symbols.old) → is_of K.PLACE.message_type (take 81 symbols.old) ≡ true → read_as K.PLACE K.made (take 81 symbols.new) ≡ Ok of.now }
{
    if symbols.len() < 81 {
        return Err(BlockFault::Symbols(SymbolFault::Length));
    }
    if let Some(bit) = first_unfit::<K>(of) {
        return Err(BlockFault::Field(bit));
    }
    put_counts::<K>(of, symbols);
    Ok(())
}
