//! The single-error decoder: the only code word that differs from the hard decision in at most one symbol.
#![tactic(auto)]

ghost use Rattle.std.specs.Prelude.{◌≡◌, ◌≤◌, List, length, IfOk, None, Float};
ghost use Rattle.correction.specs.Search.{Only};
ghost use Rattle.decoders.specs.Asks.{answered, ask_fault, left};
ghost use Rattle.decoders.specs.Reach.{Reach};
ghost use Rattle.levels.specs.Faults.{level_fault};
ghost use Rattle.levels.specs.Hard.{hard};
ghost use Rattle.parity.specs.Code.{Codeword};
ghost use Rattle.parity.specs.Sound.{Near};
ghost use Rattle.parity.specs.Table.{bcnav3};
ghost use Rattle.single_error.specs.Rule.{found_in, single_error_rule};
ghost use Rattle.single_error.specs.Only.{single_size};

use correction::single::correct_single_error;
use decoders::fault::AskFault;
use decoders::{Decoder, give, hard_decision_for};

/// Whether a code word was found, and how many changes of a symbol were tried for it.
// A bool, and no Option: the number counts where nothing is found too, and the word goes into the lent buffer.
#[derive(Clone, Copy)]
pub struct Trial {
    pub found: bool,
    pub number: u32,
}

/// Gives the only code word that differs from the hard decision in at most one symbol.
#[derive(Clone, Copy)]
pub struct SingleErrorDecoder;

impl SingleErrorDecoder {
    /// For 972 legal levels its rule gives the only code word near the hard decision, or nothing where there is none.
    pub fn new() -> SingleErrorDecoder
        ensures only { (xs : List Float) → level_fault 972 xs ≡ None → Only (Near bcnav3 (hard xs)) (single_error_rule xs) }
        ensures reach { Reach single_error_rule }
    {
        SingleErrorDecoder
    }

    /// Does as `ask` does, and tells how many changes of a symbol were tried: at most 10,206, and 0 just where the hard decision is a
    /// code word.
    pub fn ask_counting(&self, levels: &[f32], word: &mut [u8]) -> Result<Trial, AskFault>
        ensures answer { found_in result ≡ answered (ask_fault levels.now (length word.old)) (single_error_rule levels.now) }
        ensures buffer { word.new ≡ left (ask_fault levels.now (length word.old)) (single_error_rule levels.now) word.old }
        ensures most { IfOk result (λ t. t.number ≤ 10206) }
        ensures none { IfOk result (λ t. (t.number ≡ 0 → Codeword bcnav3 (hard levels.now)) × (Codeword bcnav3 (hard levels.now) → t.number ≡ 0)) }
    {
        let decision = hard_decision_for(levels, word.len())?;
        let correction = correct_single_error(&decision);
        Ok(Trial {
            found: give(correction.word, word),
            number: correction.trials,
        })
    }
}

impl Decoder for SingleErrorDecoder {
    ghost rule = { λ _. single_error_rule };

    ghost size = { λ d xs w legal e. single_size xs w legal e };

    fn ask(&mut self, levels: &[f32], word: &mut [u8]) -> Result<bool, AskFault> {
        Ok(self.ask_counting(levels, word)?.found)
    }
}
