//! Reads a message written as text.
//!
//! A line is a name, spaces and a whole number. What follows a `#` is a comment, and a line with nothing before it says nothing.
//! `parse` reads the lines; the one who knows which names there should be takes the numbers by name, in any order, and
//! `finish` then refuses what nobody took.
#![tactic(auto)]

ghost use Rattle.std.specs.Prelude.{◌≡◌, IfOk};
ghost use Rattle.text.specs.Lines.{Unused, counted, finished, marked, named};
ghost use Rattle.text.specs.declared.fault.Name.TheVariants.{Plain, Field};

use blocks::Block;
use blocks::text::Described;
use layout::fields;
use std::alloc::Global;

pub mod fault;

use fault::{Name, TextFault};

/// A line that says something.
#[derive(Drop)]
struct Entry {
    line: usize,
    name: String,
    count: i64,
    used: bool,
}

impl Entry {
    /// Whether it has this name.
    fn has_name(&self, name: Name) -> bool
        ensures { result ≡ named name self.now }
    {
        name.is(self.name.as_str())
    }
}

/// The lines of a text that say something, in their order. No name stands twice.
///
/// A list, since a map would need memory for the key BLOCK.FIELD at each look-up, which cannot fail for memory.
#[derive(Drop)]
pub struct Entries {
    list: Vec<Entry>,
}

/// Reads a text. Its lines are numbered from 1, and the first that cannot be read is refused.
///
/// The contract says that no line is used yet; how a line is read is tested and not proved. The time grows with the square of
/// the number of lines, so a caller bounds the length of what it reads.
pub fn parse(heap: Global, text: &str) -> Result<Entries, TextFault>
    ensures { IfOk result (λ es. Unused es.list.items) }
{
    let mut entries = Entries {
        list: Vec::new(heap),
    };
    for (i, line) in text.lines().enumerate() {
        entries.add(heap, i + 1, line)?;
    }
    Ok(entries)
}

impl Entries {
    /// The number under a name without a block, which is used from now on.
    pub fn take(&mut self, name: &'static str) -> Result<i64, TextFault>
        ensures value { result ≡ counted (Plain name.entry) self.old.list.items }
        ensures after { self.new.list.items ≡ marked (Plain name.entry) self.old.list.items }
    {
        self.take_named(Name::Plain(name))
    }

    /// The number under BLOCK.FIELD, which is used from now on.
    pub fn take_field(&mut self, block: &'static str, field: &'static str) -> Result<i64, TextFault>
        ensures value { result ≡ counted (Field block.entry field.entry) self.old.list.items }
        ensures after { self.new.list.items ≡ marked (Field block.entry field.entry) self.old.list.items }
    {
        self.take_named(Name::Field(block, field))
    }

    /// The record of a block, with every field from the text. The counts are not compared with the ranges of the fields.
    ///
    /// It has no contract, since no definition says how a block's fields are called; each is taken by `take_field`.
    pub fn record<K: Block + Described>(&mut self) -> Result<K::Record, TextFault> {
        let mut found = K::zero();
        // i is the number of a field, which the kind is asked by, and no index.
        for i in 0..fields(K::PLACE.part).len() {
            let count = self.take_field(K::NAME, K::field_text(i).name)?;
            K::set_count(&mut found, i, count);
        }
        Ok(found)
    }

    /// Refuses the first line that nobody used.
    pub fn finish(&self) -> Result<(), TextFault>
        ensures { result ≡ finished self.now.list.items }
    {
        match self.list.iter().find(|entry| !entry.used) {
            Some(entry) => Err(TextFault::Unknown { line: entry.line }),
            None => Ok(()),
        }
    }

    /// Adds what a line says.
    fn add(&mut self, heap: Global, number: usize, line: &str) -> Result<(), TextFault>
        ensures { Unused self.old.list.items → Unused self.new.list.items }
    {
        let said = line.split_once('#').map_or(line, |(said, _comment)| said);
        let mut words = said.split_whitespace();
        let Some(name) = words.next() else {
            return Ok(());
        };
        let Some(digits) = words.next() else {
            return Err(TextFault::NoNumber { line: number });
        };
        if words.next().is_some() {
            return Err(TextFault::TooLong { line: number });
        }
        let Ok(count) = digits.parse::<i64>() else {
            return Err(TextFault::BadNumber { line: number });
        };
        if self.has(name) {
            return Err(TextFault::Doubled { line: number });
        }
        self.list.push(Entry {
            line: number,
            name: String::from_str(heap, name)?,
            count,
            used: false,
        })?;
        Ok(())
    }

    /// Whether a name stands on a line so far.
    fn has(&self, name: &str) -> bool {
        self.list.iter().any(|entry| entry.name.as_str() == name)
    }

    /// The number under a name, which is used from now on.
    fn take_named(&mut self, name: Name) -> Result<i64, TextFault>
        ensures value { result ≡ counted name self.old.list.items }
        ensures after { self.new.list.items ≡ marked name self.old.list.items }
    {
        let Some(i) = self.list.iter().position(|entry| entry.has_name(name)) else {
            return Err(TextFault::Missing(name));
        };
        let held = &mut self.list[i];
        held.used = true;
        Ok(held.count)
    }
}

#[cfg(test)]
mod tests;
