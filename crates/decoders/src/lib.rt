//! Decoders: what is asked of one, what it means, and what it answers.
//!
//! A decoder is asked with the 972 levels of a word. What it means is a rule, which gives 162 bytes or nothing for each list of
//! legal levels. The trait says what asking then answers and leaves in the buffer, and that is all that a caller knows.
#![tactic(auto)]

ghost use Rattle.std.specs.Prelude.{◌≡◌, ℕ, List, length, false, is_some, Some, None, OnOk, Float};
ghost use Rattle.decoders.specs.Asks.{answered, ask_fault, left, Rule};
ghost use Rattle.levels.specs.Faults.{level_fault};
ghost use Rattle.parity.specs.Bytes.{OkUnless};
ghost use Rattle.levels.specs.Hard.{hard};
ghost use Rattle.parity.specs.Words.{bytes_of};

use levels::hard_decision;
use parity::Word;

pub mod fault;

use fault::AskFault;

pub trait Decoder {
    /// For each list of 972 legal levels, 162 bytes or nothing.
    ghost rule: { Self → Rule };

    /// Fills the buffer with the bytes that the rule gives for the levels and answers yes; where it gives nothing the answer is no
    /// and the buffer stays as it is.
    ///
    /// A buffer that is not 162 bytes and levels that are not 972 legal ones are refused, and nothing else is. Asking, refused or
    /// not, leaves the rule as it was.
    // A yes or no and a lent buffer, and no Option of a word: the caller of the interface lends the memory.
    fn ask(&mut self, levels: &[f32], word: &mut [u8]) -> Result<bool, AskFault>
        ensures answer { result ≡ answered (ask_fault levels.now (length word.old)) (rule self.old levels.now) }
        ensures buffer { word.new ≡ left (ask_fault levels.now (length word.old)) (rule self.old levels.now) word.old }
        ensures same { rule self.new ≡ rule self.old };

    ghost size: { (d : Self) (xs : List Float) (w : List ℕ) → level_fault 972 xs ≡ None → rule d xs ≡ Some w → length w ≡ 162 };
}

/// The hard decision of levels for which a decoder is asked to fill a buffer of `size` bytes, refused as asking is.
pub fn hard_decision_for(levels: &[f32], size: usize) -> Result<Word, AskFault>
    ensures word { OkUnless (ask_fault levels.now size) (λ w. w.bytes ≡ hard levels.now) result }
    ensures taken { OnOk result ((level_fault 972 levels.now ≡ None) × (size ≡ 162)) }
{
    if size != 162 {
        return Err(AskFault::Buffer);
    }
    Ok(hard_decision(levels)?)
}

/// Fills a buffer of 162 bytes with the word that was found and answers yes; where there is none the answer is no and the buffer stays
/// as it is. A buffer of another length stays as it is too, and the answer is no.
pub fn give(found: Option<Word>, word: &mut [u8]) -> bool
    ensures answer { length word.old ≡ 162 → result ≡ is_some found }
    ensures buffer { length word.old ≡ 162 → word.new ≡ left None (bytes_of found) word.old }
    ensures other { (length word.old ≡ 162 → ⊥) → (result ≡ false) × (word.new ≡ word.old) }
{
    match found {
        Some(codeword) if word.len() == 162 => {
            word.copy_from_slice(codeword.bytes());
            true
        }
        _ => false,
    }
}
