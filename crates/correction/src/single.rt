//! Correction of a single wrong symbol, by trial.
ghost use Rattle.std.specs.Prelude.{◌≡◌, ◌+◌, ◌*◌, ◌<◌, ◌≤◌, None, Decides};
ghost use Rattle.parity.specs.Code.{Code, Codeword, altered};
ghost use Rattle.parity.specs.Sound.{Sound};
ghost use Rattle.parity.specs.Table.{bcnav3};
ghost use Rattle.correction.specs.Search.{Only, bytes_of};
ghost use Rattle.correction.specs.Single.{Near, OneNear, Stops, corrected, trial};

use parity::Word;

/// The answer of a correction.
#[derive(Clone, Copy)]
pub struct Correction {
    /// The corrected word, if there is one.
    pub word: Option<Word>,
    /// How many changes were tried; 0 where the word was a code word.
    pub trials: u32,
}

/// Whether a candidate is a code word. Row `failed` comes first: a row that failed before fails again at nearly every trial.
fn is_codeword(candidate: &Word, failed: usize) -> bool
    ensures { Decides result (Codeword bcnav3 candidate.now.bytes) }
{
    candidate.row_sum(failed) == 0 && candidate.first_nonzero_sum().is_none()
}

/// Adds `change` to the symbol at `place`, and says whether that gives a code word.
fn try_change(candidate: &mut Word, place: usize, change: u8, failed: usize) -> bool
    requires change_nonzero { 0 < change }
    requires change_bound { change < 64 }
    ensures made { candidate.new.bytes ≡ trial candidate.old.bytes (63 * place + change) }
    ensures back { altered candidate.new.bytes place change ≡ candidate.old.bytes }
    ensures tells { Decides result (Codeword bcnav3 candidate.new.bytes) }
{
    candidate.alter(place, change);
    is_codeword(candidate, failed)
}

/// Tries one change of one symbol after the other, and stops at the first that gives a code word.
fn search(word: &Word) -> Correction
    ensures { Stops word.now.bytes result.trials (bytes_of result.word) }
{
    let Some(failed) = word.first_nonzero_sum() else {
        return Correction {
            word: Some(*word),
            trials: 0,
        };
    };
    let mut candidate = *word;
    let mut found = None;
    let mut trials = 0;
    // Nested loops left by a label: the form that the project asks for at this search.
    'search: for place in 0..162usize {
        for change in 1..64u8 {
            trials += 1;
            if try_change(&mut candidate, place, change, failed) {
                found = Some(candidate);
                break 'search;
            }
            candidate.alter(place, change);
        }
    }
    Correction {
        word: found,
        trials,
    }
}

/// The only code word that differs from the word in at most one place; none where there is none.
///
/// A word has at most one such code word, in any code with a sound table. A code word itself takes no trial.
pub fn correct_single_error(word: &Word) -> Correction
    ensures answer { bytes_of result.word ≡ corrected word.now.bytes }
    ensures only { Only (Near bcnav3 word.now.bytes) (bytes_of result.word) }
    ensures one { (c : Code) → Sound c → OneNear c }
    ensures most { result.trials ≤ 10206 }
    ensures none { result.word ≡ None → result.trials ≡ 10206 }
    ensures zero { (result.trials ≡ 0 → Codeword bcnav3 word.now.bytes) × (Codeword bcnav3 word.now.bytes → result.trials ≡ 0) }
{
    search(word)
}
