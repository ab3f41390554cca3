//! A near tie that is made of rounding.
//!
//! Against these levels the two words have the same four squares that are not 0, in another order: 0.04, 2.56, 1.44, 3.24 and 3.24,
//! 2.56, 1.44, 0.04. So the sums differ by rounding alone, and a fused multiply-add, which does not round the square, orders them
//! the other way.
ghost use Rattle.std.specs.Prelude.{Some};
ghost use Rattle.std.proofs.Common.{rules};

use super::*;
use decoders::hard_decision_for;
use parity::SymbolFault;
use std::test::Fail;

/// Proposes the same word whatever the levels are.
#[derive(Clone, Copy)]
struct Fixed {
    word: Word,
}

impl Decoder for Fixed {
    ghost rule = { λ d _. Some d.word.bytes };

    ghost size = { Prim.search rules };

    fn ask(&mut self, levels: &[f32], word: &mut [u8]) -> Result<bool, AskFault> {
        hard_decision_for(levels, word.len())?;
        word.copy_from_slice(self.word.bytes());
        Ok(true)
    }
}

/// Four levels that are not sure, and after them bits 0.
fn levels() -> [f32; 972] {
    let mut levels = [1.0; 972];
    levels[..4].copy_from_slice(&[0.8, -0.6, -0.2, -0.8]);
    levels
}

/// A word that begins with a symbol and has zeros after it.
fn word_of(symbol: u8) -> Result<Word, SymbolFault> {
    let mut bytes = [0; 162];
    bytes[0] = symbol;
    Word::new(&bytes)
}

/// The sum as it would be with a fused multiply-add.
// Made without the crate `scores`, which is tried here.
fn fused_sum(levels: &[f32; 972], word: &Word) -> f32 {
    let mut sum = 0.0;
    for (i, level) in levels.iter().enumerate() {
        let bit = (word.bytes()[i / 6] >> (5 - i % 6)) % 2;
        let d = if bit == 1 { *level + 1.0 } else { *level - 1.0 };
        sum = d.mul_add(d, sum);
    }
    sum
}

/// The first symbol of the word that the nearest of two gives.
fn first_given(levels: &[f32; 972], first: Word, second: Word) -> Result<u8, AskFault> {
    let mut given = [63; 162];
    NearestDecoder::new(Fixed { word: first }, Fixed { word: second }).ask(levels, &mut given)?;
    Ok(given[0])
}

#[test]
fn a_tie_that_is_made_of_rounding(rt: HostRuntime) -> Result<(), Fail> {
    let levels = levels();
    let zeros = word_of(0)?;
    let other = word_of(0b100100)?;
    assert!(rt; score_word(&levels, &zeros).sum < score_word(&levels, &other).sum);
    assert!(rt; fused_sum(&levels, &other) < fused_sum(&levels, &zeros));
    assert_eq!(rt; first_given(&levels, zeros, other)?, 0);
    assert_eq!(rt; first_given(&levels, other, zeros)?, 0);
    Ok(())
}
