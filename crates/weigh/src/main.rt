//! Scores a word against the levels on standard input.
#![tactic(auto)]

use anyhow::anyhow;
use levels::read_levels;
use refusal::InWords;
use scores::fault::ScoreFault;
use scores::{Score, score_bytes};
use std::alloc::Global;
use std::env;
use std::fs::File;
use std::io::Read;
use std::num::f32_to_bits_with_nan;
use terminal::unknown_word;

const HELP: &str = "usage: weigh DIGITS < LEVELS
       weigh --file WORD < LEVELS

Reads levels as little-endian f32 on standard input, 972 of a word or 1000 of a frame, whose first 28 are skipped, and scores a word
against them. The word is 324 hexadecimal digits, two for each symbol (00 to 3f), or a file of 162 bytes. It prints

  sum DECIMAL BITS               the sum of the squared distances between the levels and the signs of the word's bits
  largest DECIMAL BITS           the largest of them

or, with the reason in words on standard error,

  refused NUMBER LAYER PLACE     a length is wrong, a level is not a number from -4 to 4, or a byte is above 63

docs/REFUSALS.md lists the numbers, the layers and what a place means.";

/// One level more than a frame has: that settles the length, however long the input is.
const LEVEL_LIMIT: u64 = 4004;

/// One byte more than a word has.
const WORD_LIMIT: u64 = 163;

/// The bytes that hexadecimal digits write, two digits for each.
fn parse_hexadecimal(heap: Global, digits: &str) -> anyhow::Result<Vec<u8>> {
    let (pairs, odd) = digits.as_bytes().as_chunks::<2>();
    if !odd.is_empty() {
        return Err(anyhow!("the word has an odd number of hexadecimal digits"));
    }
    let mut bytes = Vec::new(heap);
    for [high, low] in pairs {
        let high = char::from(*high).to_digit(16);
        let low = char::from(*low).to_digit(16);
        let (Some(high), Some(low)) = (high, low) else {
            return Err(anyhow!("the word is not in hexadecimal digits; try --help"));
        };
        bytes.push((high * 16 + low) as u8)?;
    }
    Ok(bytes)
}

fn read_word(rt: &HostRuntime, path: &str) -> anyhow::Result<Vec<u8>> {
    let mut bytes = Vec::new(rt.alloc());
    File::open(rt, path)?
        .take(WORD_LIMIT)
        .read_to_end(&mut bytes)?;
    Ok(bytes)
}

/// The bytes of the word's levels: of a frame those after its header, 28 levels of four bytes.
fn body(bytes: &[u8]) -> &[u8] {
    if bytes.len() == 4000 {
        &bytes[112..]
    } else {
        bytes
    }
}

fn print_score(rt: &HostRuntime, score: &Score) -> anyhow::Result<()> {
    let sum = score.sum;
    let sum_bits = f32_to_bits_with_nan(sum);
    let largest = score.largest;
    let largest_bits = f32_to_bits_with_nan(largest);
    println!(rt; "sum {sum} {sum_bits:#010x}")?;
    println!(rt; "largest {largest} {largest_bits:#010x}")?;
    Ok(())
}

/// What follows a count that is the most that is read.
fn or_more(is_limit: bool) -> &'static str {
    if is_limit { " or more" } else { "" }
}

fn refuse(rt: &HostRuntime, fault: ScoreFault, levels: usize, bytes: usize) -> anyhow::Result<()> {
    let refusal = fault.refusal();
    let words = InWords(refusal);
    let more_levels = or_more(levels > 1000);
    let more_bytes = or_more(bytes > 162);
    println!(rt; "{refusal}")?;
    eprintln!(rt;
        "weigh: {words} ({levels} levels{more_levels}, a word of {bytes} bytes{more_bytes})"
    )?;
    Ok(())
}

fn answer(rt: &HostRuntime, word: &[u8]) -> anyhow::Result<()> {
    let mut bytes = Vec::new(rt.alloc());
    rt.stdin().take(LEVEL_LIMIT).read_to_end(&mut bytes)?;
    if bytes.len() % 4 != 0 {
        return Err(anyhow!("the input ends within a level"));
    }
    let levels = read_levels(rt.alloc(), body(&bytes))?;
    match score_bytes(&levels, word) {
        Ok(score) => print_score(rt, &score),
        Err(fault) => refuse(rt, fault, levels.len(), word.len()),
    }
}

fn run(rt: &HostRuntime) -> anyhow::Result<()> {
    let mut args = env::args(rt)?;
    let _program = args.next();
    let (Some(first), second, None) = (args.next(), args.next(), args.next()) else {
        return Err(anyhow!("one word is wanted; try --help"));
    };
    match (first.as_str(), second) {
        ("--help", None) => Ok(println!(rt; "{HELP}")?),
        ("--file", Some(path)) => answer(rt, &read_word(rt, path.as_str())?),
        (digits, None) => answer(rt, &parse_hexadecimal(rt.alloc(), digits)?),
        _ => Err(unknown_word()),
    }
}

fn main(rt: HostRuntime) -> anyhow::Result<()> {
    run(&rt)
}
