//! Prints the fields of a message as text.
#![tactic(auto)]

use blocks::text::{Described, FieldText};
use blocks::{Block, read};
use kinds::{EachKind, for_each_kind};
use layout::{MessageType, fields};
use message::answer::Header;
use message::{check, examine};
use parity::Message;
use refusal::{InWords, Layer, Refusal};
use std::io::Read;
use std::num::nearest_i64_to_f64;
use std::{env, fmt};
use terminal::{no_word, on_word};

const HELP: &str = "usage: fields < MESSAGE

Reads standard input as a message (81 bytes of one symbol each) or as a word (162 bytes, which is checked first) and prints the
message as text: `type` and `second`, then a line BLOCK.FIELD COUNT for each field, with its value after a #.
A message or word that is not lawful gives `refused NUMBER LAYER PLACE`, with the reason in words on standard error.

docs/FORMAT.md describes the text, docs/REFUSALS.md the refusals.";

/// One byte more than a word has.
const LIMIT: u64 = 163;

/// The value of a count, as a comment.
#[derive(Drop)]
struct Value {
    text: FieldText,
    count: i64,
}

impl fmt::Display for Value {
    fn fmt<W: fmt::Write>(&self, f: &mut fmt::Formatter<W>) -> fmt::Result {
        match self.text.scale {
            None => Ok(()),
            Some(scale) => {
                let value = nearest_i64_to_f64(self.count)
                    * f64::from(scale.factor)
                    * 2.0f64.powi(scale.power);
                write!(f, " # {value}")?;
                match scale.unit {
                    "" => Ok(()),
                    unit => write!(f, " {unit}"),
                }
            }
        }
    }
}

/// A message whose blocks are printed.
#[derive(Drop)]
struct Blocks<'a> {
    rt: &'a HostRuntime,
    message: &'a Message,
}

/// Prints the fields of one block, or says why it is not read.
impl EachKind for Blocks<'_> {
    type Fault = anyhow::Error;

    fn kind<K: Block + Described>(&mut self) -> anyhow::Result<()>
    where
        K::Record: PartialEq,
    {
        let found = match read::<K>(self.message.bytes()) {
            Ok(found) => found,
            Err(fault) => return refuse(self.rt, fault.refusal()),
        };
        let block = K::NAME;
        // i is the number of a field, which the kind is asked by, and no index.
        for i in 0..fields(K::PLACE.part).len() {
            let text = K::field_text(i);
            let name = text.name;
            let count = K::count(&found, i);
            let value = Value { text, count };
            println!(self.rt; "{block}.{name} {count}{value}")?;
        }
        Ok(())
    }
}

/// Messages of type 40 are shown as they are.
fn show_symbols(rt: &HostRuntime, message: &Message) -> anyhow::Result<()> {
    print!(rt; "symbols")?;
    for symbol in message.bytes() {
        print!(rt; " {symbol}")?;
    }
    Ok(println!(rt; "")?)
}

fn show_message(rt: &HostRuntime, header: Header, message: &Message) -> anyhow::Result<()> {
    let number = header.message_type.number();
    let second = header.second;
    println!(rt; "type {number}")?;
    println!(rt; "second {second}")?;
    match header.message_type {
        MessageType::Type40 => show_symbols(rt, message),
        of => for_each_kind(of, &mut Blocks { rt, message }),
    }
}

fn refuse(rt: &HostRuntime, refusal: Refusal) -> anyhow::Result<()> {
    let words = InWords(refusal);
    println!(rt; "{refusal}")?;
    Ok(eprintln!(rt; "fields: {words}")?)
}

/// The message of some bytes, with its header. 81 bytes are a message, and anything else is checked as a word.
fn message_of(bytes: &[u8]) -> Result<(Header, Message), Refusal> {
    if bytes.len() != 81 {
        check(bytes).map_err(|fault| fault.refusal())?;
    }
    let symbols = &bytes[..bytes.len().min(81)];
    let message = Message::new(symbols).map_err(|fault| fault.refusal(Layer::Block))?;
    let header = examine(&message).map_err(|fault| fault.refusal())?;
    Ok((header, message))
}

fn answer(rt: &HostRuntime, bytes: &[u8]) -> anyhow::Result<()> {
    match message_of(bytes) {
        Ok((header, message)) => show_message(rt, header, &message),
        Err(refusal) => refuse(rt, refusal),
    }
}

fn main(rt: HostRuntime) -> anyhow::Result<()> {
    let word = env::args(&rt)?.nth(1);
    on_word(&rt, HELP, word.as_deref(), |word| {
        no_word(word)?;
        let mut bytes = Vec::new(rt.alloc());
        rt.stdin().take(LIMIT).read_to_end(&mut bytes)?;
        answer(&rt, &bytes)
    })
}
