//! Writes the frame of a message that is given as text.
#![tactic(auto)]

use anyhow::{anyhow, ensure};
use blocks::Block;
use blocks::text::Described;
use kinds::{EachKind, for_each_kind};
use layout::MessageType;
use refusal::Refusal;
use std::alloc::Global;
use std::io::Read;
use std::{env, io};
use terminal::{on_word, unknown_word};
use text::{Entries, parse};
use writer::fault::WriterFault;
use writer::{Draft, ask_start, start};

mod fault;

use fault::SourceFault;

const HELP: &str = "usage: source [bytes | levels] < TEXT

Reads a message as text on standard input: `satellite N`, `type 10` or `type 30`, `second N`, and a line BLOCK.FIELD COUNT for
each field of the type, in any order; what follows a # is a comment. It writes the frame that the satellite sends:
without a word   one line `frame` and 250 hexadecimal digits
bytes            125 bytes
levels           1000 levels as little-endian f32, +1 for bit 0 and -1 for bit 1

A text that gives no frame ends with status 1 and the reason in words on standard error; a message that is refused gives
`refused NUMBER LAYER PLACE` before it, on standard error where bytes or levels are asked for.

docs/FORMAT.md describes the text, docs/REFUSALS.md the refusals.";

/// One byte more than a text may have.
const LIMIT: u64 = 65_537;

/// How the frame is written.
#[derive(Clone, Copy, PartialEq, Debug)]
enum Form {
    Hexadecimal,
    Bytes,
    Levels,
}

impl Form {
    /// The form that the first word asks for.
    fn asked_by(word: Option<&str>) -> anyhow::Result<Form> {
        match word {
            None => Ok(Form::Hexadecimal),
            Some("bytes") => Ok(Form::Bytes),
            Some("levels") => Ok(Form::Levels),
            Some(_) => Err(unknown_word()),
        }
    }
}

/// A draft, and the text that says what it is to hold.
#[derive(Drop)]
struct Filling<'a, 'b> {
    entries: &'a mut Entries,
    draft: &'a mut Draft<'b>,
}

/// Puts a block as the text has it.
impl EachKind for Filling<'_, '_> {
    type Fault = SourceFault;

    fn kind<K: Block + Described>(&mut self) -> Result<(), SourceFault>
    where
        K::Record: PartialEq,
    {
        let of = self.entries.record::<K>()?;
        Ok(self.draft.put::<K>(&of)?)
    }
}

/// The number under a name, where its type has it.
fn take<T: TryFrom<i64>>(entries: &mut Entries, name: &'static str) -> Result<T, SourceFault>
where
    T::Error: Drop,
{
    let count = entries.take(name)?;
    T::try_from(count).map_err(|_| SourceFault::OutOfRange(name))
}

/// The frame of the message that a text says.
fn frame_of(heap: Global, said: &str) -> Result<[u8; 125], SourceFault> {
    let mut entries = parse(heap, said)?;
    let satellite: u8 = take(&mut entries, "satellite")?;
    let number: u8 = take(&mut entries, "type")?;
    let second: u32 = take(&mut entries, "second")?;
    let of = MessageType::try_from(number).map_err(|fault| WriterFault::UnknownType(fault.0))?;
    let mut symbols = [0u8; 162];
    ask_start(symbols.len(), number, second)?;
    let mut draft = start(&mut symbols, number, second);
    for_each_kind(
        of,
        &mut Filling {
            entries: &mut entries,
            draft: &mut draft,
        },
    )?;
    entries.finish()?;
    draft.ask_seal()?;
    let mut frame = [0u8; 125];
    draft.seal().encode().frame(satellite, &mut frame)?;
    Ok(frame)
}

fn print_hexadecimal(rt: &HostRuntime, frame: &[u8]) -> anyhow::Result<()> {
    print!(rt; "frame ")?;
    for byte in frame {
        print!(rt; "{byte:02x}")?;
    }
    Ok(println!(rt; "")?)
}

/// Writes a level for each bit, most significant first.
fn write_levels(rt: &HostRuntime, frame: &[u8]) -> anyhow::Result<()> {
    let mut levels = Vec::new(rt.alloc());
    for byte in frame {
        // i is how far a bit is shifted, and no index.
        for i in (0..8u32).rev() {
            let level: f32 = if *byte >> i & 1 == 0 { 1.0 } else { -1.0 };
            levels.extend_from_slice(&level.to_le_bytes())?;
        }
    }
    Ok(rt.write_all(&levels)?)
}

/// Where the answer goes, and the form of the frame.
#[derive(Drop)]
struct Output<'a> {
    rt: &'a HostRuntime,
    form: Form,
}

impl Output<'_> {
    fn write_frame(&self, frame: &[u8]) -> anyhow::Result<()> {
        match self.form {
            Form::Hexadecimal => print_hexadecimal(self.rt, frame),
            Form::Bytes => Ok(self.rt.write_all(frame)?),
            Form::Levels => write_levels(self.rt, frame),
        }
    }

    /// Prints the line of a refusal where no frame is expected.
    fn print_refusal(&self, refusal: Refusal) -> io::Result<()> {
        match self.form {
            Form::Hexadecimal => println!(self.rt; "{refusal}"),
            _ => eprintln!(self.rt; "{refusal}"),
        }
    }

    fn refuse(&self, fault: SourceFault) -> anyhow::Result<()> {
        if let Some(refusal) = fault.refusal() {
            self.print_refusal(refusal)?;
        }
        eprintln!(self.rt; "source: {fault}")?;
        Err(anyhow!("no frame was written"))
    }

    /// Answers the text on standard input.
    fn answer(&self) -> anyhow::Result<()> {
        let mut said = String::new(self.rt.alloc());
        let read = self.rt.stdin().take(LIMIT).read_to_string(&mut said)?;
        ensure!(read as u64 != LIMIT, "the text has more than 65536 bytes");
        match frame_of(self.rt.alloc(), said.as_str()) {
            Ok(frame) => self.write_frame(&frame),
            Err(fault) => self.refuse(fault),
        }
    }
}

fn main(rt: HostRuntime) -> anyhow::Result<()> {
    let word = env::args(&rt)?.nth(1);
    on_word(&rt, HELP, word.as_deref(), |word| {
        let form = Form::asked_by(word)?;
        Output { rt: &rt, form }.answer()
    })
}
