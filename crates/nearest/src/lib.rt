//! The nearest-of-two decoder: of what two decoders propose, the word that is nearer to the levels.
#![tactic(auto)]

ghost use Rattle.std.specs.Prelude.{◌≡◌, Some, None};
ghost use Rattle.decoders.specs.Asks.{ask_fault};
ghost use Rattle.decoders.specs.Reach.{Reach};
ghost use Rattle.parity.specs.Bytes.{OkUnless};
ghost use Rattle.nearest.specs.Nearest.{nearer_of, nearest, proposed};
ghost use Rattle.parity.specs.Words.{bytes_of};
ghost use Rattle.std.proofs.Common.{rules};

use decoders::fault::AskFault;
use decoders::{Decoder, give};
use parity::Word;
use scores::{is_nearer, score_word};

/// What a decoder proposes for the levels. Bytes that are not all symbols count as none.
fn proposal<D: Decoder>(decoder: &mut D, levels: &[f32]) -> Result<Option<Word>, AskFault>
    ensures answer { OkUnless (ask_fault levels.now 162) (λ o. bytes_of o ≡ proposed (D.Decoder.rule decoder.old levels.now)) result }
    ensures same { D.Decoder.rule decoder.new ≡ D.Decoder.rule decoder.old }
{
    let mut bytes = [0; 162];
    if decoder.ask(levels, &mut bytes)? {
        Ok(Word::new(&bytes).ok())
    } else {
        Ok(None)
    }
}

/// The nearer of two proposals; the first where they are as near.
fn nearer(levels: &[f32], first: Option<Word>, second: Option<Word>) -> Option<Word>
    ensures { bytes_of result ≡ nearer_of levels.now (bytes_of first) (bytes_of second) }
{
    let (Some(one), Some(other)) = (first, second) else {
        return first.or(second);
    };
    if is_nearer(&score_word(levels, &other), &score_word(levels, &one)) {
        second
    } else {
        first
    }
}

/// Gives what the one of two decoders proposes, or where both propose a word, the one that is nearer to the levels: the second only
/// where the sum of its squared distances is strictly smaller.
#[derive(Clone, Copy)]
pub struct NearestDecoder<A, B> {
    first: A,
    second: B,
}

impl<A: Decoder, B: Decoder> NearestDecoder<A, B> {
    /// It has reach where both have.
    pub fn new(first: A, second: B) -> NearestDecoder<A, B>
        ensures parts { result ≡ record { first = first; second = second } }
        ensures reach { Reach (A.Decoder.rule first) → Reach (B.Decoder.rule second) → Reach (nearest (A.Decoder.rule result.first) (B.Decoder.rule result.second)) }
    {
        NearestDecoder { first, second }
    }
}

impl<A: Decoder, B: Decoder> Decoder for NearestDecoder<A, B> {
    ghost rule = { λ d. nearest (A.Decoder.rule d.first) (B.Decoder.rule d.second) };

    ghost size = { Prim.search rules };

    fn ask(&mut self, levels: &[f32], word: &mut [u8]) -> Result<bool, AskFault> {
        if word.len() != 162 {
            return Err(AskFault::Buffer);
        }
        let first = proposal(&mut self.first, levels)?;
        let second = proposal(&mut self.second, levels)?;
        Ok(give(nearer(levels, first, second), word))
    }
}

#[cfg(test)]
mod tests;
