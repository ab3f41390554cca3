//! Measures the time of calls. It is proved like every program; what it prints is not compared.
#![tactic(auto)]

ghost use Rattle.std.specs.Prelude.{◌<◌};

use anyhow::bail;
use blocks::Block;
use decoders::Decoder;
use erasure::ErasureDecoder;
use message::check;
use nearest::NearestDecoder;
use single_error::SingleErrorDecoder;
use std::io::Read;
use std::time::Instant;
use std::{array, env};
use type10::ephemeris1::Ephemeris1;
use type10::ephemeris2::Ephemeris2;
use type10::integrity::Integrity;
use writer::fault::WriterFault;
use writer::{ask_start, start};

const HELP: &str = "usage: bench check < WORD
       bench frame
       bench decoders

check: prints the mean time of a check of the word on standard input, over 100,000 runs.
frame: prints the mean time from the records of a message of type 10 to its frame, over 10,000 seconds.
decoders: prints the mean time of asking each decoder for a word as it was sent, with its last symbol altered, and with two
symbols altered so that there is none, over 1,000 runs.";

const RUNS: u32 = 100_000;

const FRAMES: u32 = 10_000;

const ASKS: u32 = 1_000;

/// Does something so many times. Says how long it took on average, in nanoseconds, and how often the answer was yes.
fn time<F: FnMut() -> bool>(rt: &HostRuntime, runs: u32, mut run: F) -> anyhow::Result<(u128, u32)>
    requires callable { F.IsAlwaysCallable run }
    requires some { 0 < runs }
{
    let mut yes = 0u32;
    let start = Instant::now(rt)?;
    for _ in 0..runs {
        if run() {
            yes = yes.saturating_add(1);
        }
    }
    Ok((start.elapsed(rt)?.as_nanos() / u128::from(runs), yes))
}

fn time_check(rt: &HostRuntime) -> anyhow::Result<()> {
    let mut bytes = Vec::new(rt.alloc());
    rt.stdin().take(163).read_to_end(&mut bytes)?;
    let (mean, accepted) = time(rt, RUNS, || check(&bytes).is_ok())?;
    println!(rt; "check: {mean} ns, {accepted} of {RUNS} accepted")?;
    Ok(())
}

/// The frame of a second.
fn frame_of(second: u32) -> Result<[u8; 125], WriterFault> {
    let mut symbols = [0u8; 162];
    ask_start(symbols.len(), 10, second)?;
    let mut draft = start(&mut symbols, 10, second);
    let mut orbit = Ephemeris1::zero();
    orbit.sat_type = 3;
    draft.put::<Ephemeris1>(&orbit)?;
    draft.put::<Ephemeris2>(&Ephemeris2::zero())?;
    draft.put::<Integrity>(&Integrity::zero())?;
    draft.ask_seal()?;
    let mut frame = [0u8; 125];
    let _ = draft.seal().encode().frame(19, &mut frame);
    Ok(frame)
}

fn time_frame(rt: &HostRuntime) -> anyhow::Result<()> {
    let mut second = 0u32;
    let mut last = 0u8;
    let (mean, written) = time(rt, FRAMES, || {
        let frame = frame_of(second);
        second = second.saturating_add(1);
        if let Ok(frame) = frame {
            last = frame[124];
        }
        frame.is_ok()
    })?;
    println!(rt; "frame: {mean} ns, {written} of {FRAMES} written, last byte {last}")?;
    Ok(())
}

/// The levels of a word: +1 for bit 0 and -1 for bit 1.
// What is measured is given its input by no code of ours.
fn levels_of(word: &[u8; 162]) -> [f32; 972] {
    array::from_fn(|i| match word[i / 6] >> (5 - i % 6) & 1 {
        0 => 1.0,
        _ => -1.0,
    })
}

fn time_asks<D: Decoder>(
    rt: &HostRuntime,
    decoder: &mut D,
    name: &str,
    levels: &[f32; 972],
) -> anyhow::Result<()> {
    // A refusal is told, and not timed.
    if let Err(fault) = decoder.ask(levels, &mut [0; 162]) {
        let refusal = fault.refusal();
        bail!("the decoder refuses its levels: {refusal}");
    }
    let (mean, given) = time(rt, ASKS, || decoder.ask(levels, &mut [0; 162]) == Ok(true))?;
    println!(rt; "{name}: {mean} ns, {given} of {ASKS} given")?;
    Ok(())
}

fn time_decoder<D: Decoder>(
    rt: &HostRuntime,
    decoder: &mut D,
    word: [u8; 162],
) -> anyhow::Result<()> {
    time_asks(rt, decoder, "  as sent", &levels_of(&word))?;
    let mut altered = word;
    altered[161] ^= 1;
    time_asks(rt, decoder, "  last symbol altered", &levels_of(&altered))?;
    altered[80] ^= 1;
    time_asks(rt, decoder, "  two symbols altered", &levels_of(&altered))
}

fn time_decoders(rt: &HostRuntime) -> anyhow::Result<()> {
    // the zeros are a code word
    let word = [0u8; 162];
    println!(rt; "single error")?;
    time_decoder(rt, &mut SingleErrorDecoder::new(), word)?;
    println!(rt; "erasure")?;
    time_decoder(rt, &mut ErasureDecoder::new(), word)?;
    println!(rt; "nearest of the two")?;
    let mut nearest = NearestDecoder::new(SingleErrorDecoder::new(), ErasureDecoder::new());
    time_decoder(rt, &mut nearest, word)
}

fn run(rt: &HostRuntime) -> anyhow::Result<()> {
    match env::args(rt)?.nth(1).as_deref() {
        Some("check") => time_check(rt),
        Some("frame") => time_frame(rt),
        Some("decoders") => time_decoders(rt),
        _ => Ok(eprintln!(rt; "{HELP}")?),
    }
}

fn main(rt: HostRuntime) -> anyhow::Result<()> {
    run(&rt)
}
