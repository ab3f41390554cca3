//! The layout of a message's data, bits 26 to 461: the parts of each type, and the fields of each part.
//!
//! Only widths, signs and ranges are written down; the first bit of a field follows from the widths before it.
//! A reserved bit is a field of one bit with the range 0 to 0.
//! From the layout come two searches of a message: for a reserved bit that is set, and for a field out of its range.
#![tactic(auto)]

ghost use Rattle.std.specs.Prelude.{◌≡◌, ◌+◌, ◌^◌, ◌<◌, ◌≤◌, Bool, pos, None};
ghost use Rattle.std.specs.List.{AllByRecursion};
ghost use Rattle.bits.specs.Bits.{bits_of};
ghost use Rattle.layout.specs.Layout.{fields_of, widths, width_of, parts_of, number_of, Typed};
ghost use Rattle.layout.specs.Placed.{at as placed_at, placed, spread, is_reserved, reserved_of, Decided, parameters_of};
ghost use Rattle.layout.specs.Ranges.{count_of, held, Sized, outside, first_outside, First};
ghost use Rattle.layout.specs.Laws.{Tiles, FirstBits, Ruled};

use bits::get_bits;

mod table;

/// The types of message.
#[derive(Clone, Copy, PartialEq, Debug)]
pub enum MessageType {
    Type10 = 10,
    Type30 = 30,
    Type40 = 40,
}

/// The parts of which the data of a message consist: blocks of fields, reserved bits, and bits that are not taken apart.
#[derive(Clone, Copy, PartialEq, Debug)]
pub enum Part {
    Reserved,
    Ephemeris1,
    Ephemeris2,
    Integrity,
    Week,
    Clock,
    GroupDelay,
    Ionosphere,
    BdtUtc,
    EarthOrientation,
    Accuracy,
    Health,
    Opaque,
}

/// A field: its width in bits, whether it is two's complement, and the least and the greatest count that it may hold.
#[derive(Clone, Copy, PartialEq)]
pub struct Field {
    pub width: usize,
    pub signed: bool,
    pub least: i64,
    pub most: i64,
}

/// A number that no type has.
#[derive(Clone, Copy, PartialEq, Debug)]
pub struct UnknownType(pub u8);

impl TryFrom<u8> for MessageType {
    type Error = UnknownType;

    ghost try_from_gives = { Typed };

    fn try_from(number: u8) -> Result<MessageType, UnknownType> {
        match number {
            10 => Ok(MessageType::Type10),
            30 => Ok(MessageType::Type30),
            40 => Ok(MessageType::Type40),
            _ => Err(UnknownType(number)),
        }
    }
}

impl MessageType {
    /// The number of the type.
    pub fn number(self) -> u8
        ensures { result ≡ number_of self }
    {
        self as u8
    }
}

/// The parts of a type, one after another from bit 26.
///
/// They tile the bits 26 to 461, and the fields tile each part that has fields.
#[tactic(auto, using(crate::proofs::Laws::tiles, crate::proofs::Laws::first_bits, crate::proofs::Laws::ruled), unfolding(crate::specs::Layout::parts_of))]
pub fn parts(kind: MessageType) -> &'static [Part]
    ensures same { result.now ≡ parts_of kind }
    ensures tiles { Tiles }
    ensures begins { FirstBits }
    ensures ruled { Ruled }
{
    match kind {
        MessageType::Type10 => &table::TYPE_10,
        MessageType::Type30 => &table::TYPE_30,
        MessageType::Type40 => &table::TYPE_40,
    }
}

/// The fields of a part, one after another; opaque bits have none.
#[tactic(auto, unfolding(crate::specs::Layout::fields_of))]
pub fn fields(part: Part) -> &'static [Field]
    ensures { result.now ≡ fields_of part }
{
    match part {
        Part::Reserved => &table::RESERVED,
        Part::Ephemeris1 => &table::EPHEMERIS_1,
        Part::Ephemeris2 => &table::EPHEMERIS_2,
        Part::Integrity => &table::INTEGRITY,
        Part::Week => &table::WEEK,
        Part::Clock => &table::CLOCK,
        Part::GroupDelay => &table::GROUP_DELAY,
        Part::Ionosphere => &table::IONOSPHERE,
        Part::BdtUtc => &table::BDT_UTC,
        Part::EarthOrientation => &table::EARTH_ORIENTATION,
        Part::Accuracy => &table::ACCURACY,
        Part::Health => &table::HEALTH,
        Part::Opaque => &[],
    }
}

/// Whether a part is reserved bits.
fn is_reserved(part: Part) -> bool
    ensures { result ≡ is_reserved part }
{
    part == Part::Reserved
}

/// The bits of some fields together.
fn total(fields: &[Field]) -> usize
    requires { widths fields.now ≤ 486 }
    ensures { result ≡ widths fields.now }
{
    fields.iter().map(|field| field.width).sum()
}

/// The bits of a part.
fn width(part: Part) -> usize
    ensures { result ≡ width_of part }
{
    match part {
        Part::Opaque => 436,
        _ => total(fields(part)),
    }
}

/// The count that the bits of a field stand for.
fn count_of(field: Field, raw: u64) -> i64
    requires { Sized field × (raw < 2 ^ field.width) }
    ensures { result ≡ count_of field.signed field.width raw }
{
    if field.signed && raw >= (1u64 << (field.width - 1)) {
        -(((1u64 << field.width) - raw) as i64)
    } else {
        raw as i64
    }
}

/// The count that the bits of a field hold where it begins at bit `at`.
///
/// It is 0 where the message has no such bits, and where they are none or more than 55.
pub fn count_at(field: Field, at: usize, symbols: &[u8; 81]) -> i64
    ensures same { Sized field → at + field.width ≤ 486 → result ≡ held (placed_at at field) (bits_of symbols.now) }
    ensures none { (Sized field → at + field.width ≤ 486 → ⊥) → result ≡ pos 0 }
{
    if field.width == 0 || field.width > 55 || at > 486 - field.width {
        return 0;
    }
    count_of(field, get_bits(symbols, at, field.width))
}

/// Whether a count is out of the field's range.
pub fn is_outside(field: Field, count: i64) -> bool
    ensures { result ≡ outside field count }
{
    count < field.least || count > field.most
}

/// Whether a field that begins at bit `at` holds a count out of its range.
fn holds_outside(field: Field, at: usize, symbols: &[u8; 81]) -> bool
    requires { (Sized field) × (at + field.width ≤ 486) }
    ensures { result ≡ outside field (held (placed_at at field) (bits_of symbols.now)) }
{
    is_outside(field, count_at(field, at, symbols))
}

/// The first bit of the first field out of its range, of fields that lie one after another from bit `from`.
fn first_outside(fields: &[Field], from: usize, symbols: &[u8; 81]) -> Option<usize>
    requires { (AllByRecursion Sized fields.now) × (from + widths fields.now ≤ 486) }
    ensures { result ≡ first_outside (placed from fields.now) (bits_of symbols.now) }
{
    // The first bit of each field is counted along, as in `blocks`.
    let mut at = from;
    for field in fields {
        if holds_outside(*field, at, symbols) {
            return Some(at);
        }
        at += field.width;
    }
    None
}

/// The first bit of the first field out of its range, of a part that begins at bit `from`.
///
/// None where the message has no room for the part there.
pub fn first_outside_in(part: Part, from: usize, symbols: &[u8; 81]) -> Option<usize>
    ensures same { from + width_of part ≤ 486 → result ≡ first_outside (placed from (fields_of part)) (bits_of symbols.now) }
    ensures none { 486 < from + width_of part → result ≡ None }
{
    if from <= 486 - width(part) {
        first_outside(fields(part), from, symbols)
    } else {
        None
    }
}

/// The same over all parts of a type that the test keeps.
fn first_in_parts<F: Fn(Part) -> bool>(
    kind: MessageType,
    keeps: F,
    symbols: &[u8; 81],
) -> Option<usize>
    requires { F.IsAlwaysCallable keeps }
    ensures { (keep : Part → Bool) → Decided (F.post keeps) keep → result ≡ first_outside (spread keep 26 (parts_of kind)) (bits_of symbols.now) }
{
    // The first bit of each part is counted along, as that of each field.
    let mut at = 26;
    for part in parts(kind) {
        if keeps(*part) {
            if let Some(bit) = first_outside_in(*part, at, symbols) {
                return Some(bit);
            }
        }
        at += width(*part);
    }
    None
}

/// The first reserved bit that is set.
pub fn first_set_reserved(kind: MessageType, symbols: &[u8; 81]) -> Option<usize>
    ensures same { result ≡ first_outside (reserved_of kind) (bits_of symbols.now) }
    ensures first { First (reserved_of kind) (bits_of symbols.now) result }
{
    first_in_parts(kind, is_reserved, symbols)
}

/// The first bit of the first field out of its range, reserved bits aside.
pub fn first_out_of_range(kind: MessageType, symbols: &[u8; 81]) -> Option<usize>
    ensures same { result ≡ first_outside (parameters_of kind) (bits_of symbols.now) }
    ensures first { First (parameters_of kind) (bits_of symbols.now) result }
{
    first_in_parts(kind, |part| !is_reserved(part), symbols)
}
