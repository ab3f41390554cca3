//! How far a word is from the levels that were received.
//!
//! The score of a word has the sum of the squared distances between each level and the sign of its bit, and the largest of
//! them. Each difference, product and sum is rounded once.
#![tactic(auto)]

ghost use Rattle.std.specs.Prelude.{◌≡◌, ℕ, ◌<◌, false, IfOk, Some, None, Decides, slice_index};
ghost use Rattle.std.specs.Float.{float_max};
ghost use Rattle.std.specs.Float.Ieee.{lt};
ghost use Rattle.std.specs.Float.Ieee.Exact.{HasValue};
ghost use Rattle.bits.specs.Bits.{bits_of};
ghost use Rattle.parity.specs.Bytes.{OkUnless};
ghost use Rattle.scores.specs.Faults.{score_fault};
ghost use Rattle.scores.specs.Scored.{distance as distance_of, score_of};
ghost use Rattle.scores.specs.Whole.{EveryEighth, Exact};

use levels::word_levels;
use parity::{SymbolFault, Word};

pub mod fault;
#[cfg(test)]
mod tests;

use fault::ScoreFault;

/// How far a word is from levels.
#[derive(Clone, Copy, PartialEq, Debug)]
pub struct Score {
    /// The sum of the squared distances.
    pub sum: f32,
    /// The largest of them.
    pub largest: f32,
}

/// The bit `i` of a word.
fn word_bit(word: &Word, i: usize) -> u8
    requires { i < 972 }
    ensures { result ≡ slice_index (bits_of word.now.bytes) i }
{
    (word.bytes()[i / 6] >> (5 - i % 6)) % 2
}

/// The level minus the sign of its bit: +1 for bit 0, -1 for bit 1.
fn distance(level: f32, bit: u8) -> f32
    ensures { result ≡ distance_of level bit }
{
    let sign = if bit == 1 { -1.0 } else { 1.0 };
    level - sign
}

/// The larger of two numbers, and the other one where one is no number.
// Not `f32::max`, which does not say which of two zeros it gives.
fn larger(a: f32, b: f32) -> f32
    ensures { result ≡ float_max a b }
{
    if b <= a || b.is_nan() { a } else { b }
}

/// The score of a word against levels, as far as there are both levels and bits of the word.
pub fn score_word(levels: &[f32], word: &Word) -> Score
    ensures { result ≡ score_of levels.now word.now.bytes }
{
    let mut sum = 0.0;
    let mut largest = 0.0f32;
    for (i, level) in levels.iter().take(972).enumerate() {
        let d = distance(*level, word_bit(word, i));
        let square = d * d;
        sum += square;
        largest = larger(largest, square);
    }
    Score { sum, largest }
}

/// Whether `a` is strictly nearer than `b`, by the sums. Sums that are whole sixty-fourths compare as the whole numbers do.
pub fn is_nearer(a: &Score, b: &Score) -> bool
    ensures value { result ≡ lt a.now.sum b.now.sum }
    ensures whole { (m n : ℕ) → HasValue a.now.sum false m 64 → HasValue b.now.sum false n 64 → Decides result (m < n) }
{
    a.sum < b.sum
}

fn score_in_turn(levels: &[f32], word: &[u8]) -> Result<Score, ScoreFault>
    ensures { OkUnless (score_fault levels.now word.now) (λ s. s ≡ score_of levels.now word.now) result }
{
    if word.len() != 162 {
        return Err(ScoreFault::Symbols(SymbolFault::Length));
    }
    let levels = word_levels(levels)?;
    let word = Word::new(word)?;
    Ok(score_word(levels, &word))
}

/// The score of a word against 972 legal levels.
///
/// It refuses a wrong length first, then the first illegal level, then the first byte above 63. Against levels that are whole eighths
/// the score is exact; every eighth from -4 to 4 is a level.
pub fn score_bytes(levels: &[f32], word: &[u8]) -> Result<Score, ScoreFault>
    ensures answer { OkUnless (score_fault levels.now word.now) (λ s. s ≡ score_of levels.now word.now) result }
    ensures exact { IfOk result (Exact levels.now word.now) }
    ensures eighths { EveryEighth }
{
    score_in_turn(levels, word)
}
