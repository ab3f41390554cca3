//! Reads standard input as one word and prints what the check of it answers.
#![tactic(auto)]

use message::check;
use refusal::InWords;
use std::env;
use std::io::Read;
use terminal::{no_word, on_word};

const HELP: &str = "usage: wordcheck < WORD

Reads standard input as one word of a B-CNAV3 frame, 162 bytes of one symbol (0 to 63) each, and prints one line:

  message TYPE SECOND            the word carries a lawful message of this type and second of week
  refused NUMBER LAYER PLACE     it does not; the reason in words goes to standard error

docs/REFUSALS.md lists the numbers, the layers and what a place means.";

/// One byte more than a word has: that settles the length, however long the input is.
const LIMIT: u64 = 163;

fn answer(rt: &HostRuntime) -> anyhow::Result<()> {
    let mut bytes = Vec::new(rt.alloc());
    rt.stdin().take(LIMIT).read_to_end(&mut bytes)?;
    match check(&bytes) {
        Ok(header) => println!(rt; "{header}")?,
        Err(fault) => {
            let refusal = fault.refusal();
            let words = InWords(refusal);
            println!(rt; "{refusal}")?;
            eprintln!(rt; "wordcheck: {words}")?;
        }
    }
    Ok(())
}

fn main(rt: HostRuntime) -> anyhow::Result<()> {
    let word = env::args(&rt)?.nth(1);
    on_word(&rt, HELP, word.as_deref(), |word| {
        no_word(word)?;
        answer(&rt)
    })
}
