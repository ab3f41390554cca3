//! The erasure decoder: where the single-error decoder gives nothing, the symbols at the two weakest places are taken for unknown.
#![tactic(auto)]

ghost use Rattle.std.specs.Prelude.{◌≡◌, List, None, Float};
ghost use Rattle.decoders.specs.Reach.{Reach};
ghost use Rattle.erasure.specs.Rule.{erasure, Erasure};
ghost use Rattle.levels.specs.Faults.{level_fault};
ghost use Rattle.erasure.specs.Erased.{erasure_size};

use correction::erasures::fill_erasures;
use correction::single::correct_single_error;
use decoders::fault::AskFault;
use decoders::{Decoder, give, hard_decision_for};
use weakness::two_weakest;

/// Gives the only code word that differs from the hard decision in at most one symbol; failing that, the only one that agrees with it
/// outside the two weakest places.
#[derive(Clone, Copy)]
pub struct ErasureDecoder;

impl ErasureDecoder {
    /// For 972 legal levels its rule gives the code word near the hard decision; failing that, the only code word that agrees with the
    /// hard decision outside the two weakest places, or nothing where there is none.
    pub fn new() -> ErasureDecoder
        ensures whole { (xs : List Float) → level_fault 972 xs ≡ None → Erasure xs (erasure xs) }
        ensures reach { Reach erasure }
    {
        ErasureDecoder
    }
}

impl Decoder for ErasureDecoder {
    ghost rule = { λ _. erasure };

    ghost size = { λ d xs w legal e. erasure_size xs w legal e };

    fn ask(&mut self, levels: &[f32], word: &mut [u8]) -> Result<bool, AskFault> {
        let decision = hard_decision_for(levels, word.len())?;
        let mut found = correct_single_error(&decision).word;
        if found.is_none() {
            let (first, second) = two_weakest(levels)?;
            found = fill_erasures(&decision, first, second);
        }
        Ok(give(found, word))
    }
}
