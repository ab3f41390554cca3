//! Writes and reads records at the edges of their ranges, of every kind of block, and prints a line for each kind.
//!
//! It also composes a frame of the least counts of each type, and prints nothing of that where it goes as it should.
#![tactic(auto)]

use anyhow::{bail, ensure};
use blocks::fault::BlockFault;
use blocks::text::Described;
use blocks::{Block, read, write};
use compose::compose;
use compose::records::{Contents, Records, Type10Records, Type30Records};
use kinds::{EachKind, for_each_kind};
use layout::{Field, MessageType, fields};
use message::answer::Header;
use message::check;
use std::io;
use type10::ephemeris1::Ephemeris1;
use type10::ephemeris2::Ephemeris2;
use type10::integrity::Integrity;
use type30::accuracy::Accuracy;
use type30::bdt_utc::BdtUtc;
use type30::clock::Clock;
use type30::earth_orientation::EarthOrientation;
use type30::group_delay::GroupDelay;
use type30::health::Health;
use type30::ionosphere::Ionosphere;
use type30::week::Week;

/// Whether the record comes back from a message full of ones.
fn comes_back<K: Block>(of: &K::Record) -> bool
where
    K::Record: PartialEq,
{
    let mut symbols = [63u8; 81];
    symbols[0] = K::PLACE.message_type.number();
    write::<K>(of, &mut symbols).is_ok() && read::<K>(&symbols) == Ok(*of)
}

/// Whether writing refuses the record by the field that begins at this bit, and changes nothing.
fn is_refused<K: Block>(of: &K::Record, bit: usize) -> bool {
    let mut symbols = [21u8; 81];
    write::<K>(of, &mut symbols) == Err(BlockFault::Field(bit)) && symbols == [21u8; 81]
}

/// The record with every field at its least count.
fn least<K: Block>() -> K::Record {
    let mut of = K::zero();
    for (i, field) in fields(K::PLACE.part).iter().enumerate() {
        K::set_count(&mut of, i, field.least);
    }
    of
}

/// How many of four trials of field number `i`, which begins at `bit`, go as they should: its ends, and one past each.
fn ends<K: Block>(i: usize, bit: usize, field: Field) -> usize
where
    K::Record: PartialEq,
{
    let mut of = least::<K>();
    let at_least = comes_back::<K>(&of);
    K::set_count(&mut of, i, field.most);
    let at_most = comes_back::<K>(&of);
    K::set_count(&mut of, i, field.most.saturating_add(1));
    let above = is_refused::<K>(&of, bit);
    K::set_count(&mut of, i, field.least.saturating_sub(1));
    let below = is_refused::<K>(&of, bit);
    [at_least, at_most, above, below]
        .iter()
        .filter(|right| **right)
        .count()
}

/// The trials of the kinds so far.
#[derive(Drop)]
struct Trials<'a> {
    rt: &'a HostRuntime,
    all_right: bool,
}

/// Tries every field of a kind, and prints a line.
impl EachKind for Trials<'_> {
    type Fault = io::Error;

    fn kind<K: Block + Described>(&mut self) -> io::Result<()>
    where
        K::Record: PartialEq,
    {
        let place = K::PLACE;
        let all = fields(place.part);
        // Counted along, as in `blocks`.
        let mut bit = place.first_bit;
        let mut right = 0usize;
        for (i, field) in all.iter().enumerate() {
            right = right.saturating_add(ends::<K>(i, bit, *field));
            bit = bit.saturating_add(field.width);
        }
        let trials = all.len().saturating_mul(4);
        self.all_right = self.all_right && right == trials;
        let number = place.number;
        let name = K::NAME;
        println!(self.rt; "block {number} {name}: {right} of {trials} trials right")
    }
}

// Two lists of records: what is composed has a field for each.
/// The least counts of a message of type 10.
fn least_10() -> Records {
    Records::Type10(Type10Records {
        ephemeris1: least::<Ephemeris1>(),
        ephemeris2: least::<Ephemeris2>(),
        integrity: least::<Integrity>(),
    })
}

/// The least counts of a message of type 30.
fn least_30() -> Records {
    Records::Type30(Type30Records {
        week: least::<Week>(),
        clock: least::<Clock>(),
        group_delay: least::<GroupDelay>(),
        ionosphere: least::<Ionosphere>(),
        bdt_utc: least::<BdtUtc>(),
        earth_orientation: least::<EarthOrientation>(),
        accuracy: least::<Accuracy>(),
        health: least::<Health>(),
    })
}

/// Composes a frame of the records for the last second of the week, and has its word accepted as one of their type.
fn try_composing(message_type: MessageType, records: Records) -> anyhow::Result<()> {
    let number = message_type.number();
    let second = 604_799;
    let mut word = [0u8; 162];
    let mut frame = [0u8; 125];
    if let Err(fault) = compose(&mut word, &Contents { second, records }, 58, &mut frame) {
        let refusal = fault.refusal();
        bail!("no frame of type {number} was composed: {refusal}");
    }
    ensure!(
        check(&word)
            == Ok(Header {
                message_type,
                second,
            }),
        "no frame of type {number} was composed"
    );
    Ok(())
}

fn main(rt: HostRuntime) -> anyhow::Result<()> {
    let mut trials = Trials {
        rt: &rt,
        all_right: true,
    };
    for_each_kind(MessageType::Type10, &mut trials)?;
    for_each_kind(MessageType::Type30, &mut trials)?;
    ensure!(trials.all_right, "some trials did not go as they should");
    try_composing(MessageType::Type10, least_10())?;
    try_composing(MessageType::Type30, least_30())
}
