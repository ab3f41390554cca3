//! Recovery of two erased symbols from the row sums.
ghost use Rattle.std.specs.Prelude.{◌≡◌, ◌<◌, Decides};
ghost use Rattle.parity.specs.Code.{Code};
ghost use Rattle.parity.specs.Sound.{Sound};
ghost use Rattle.parity.specs.Table.{bcnav3};
ghost use Rattle.correction.specs.Erasures.{OneOutside, Outside, Solves, Tells, filled};
ghost use Rattle.correction.specs.Search.{Only, bytes_of};

use gf64::{inverse, product};
use parity::{Word, factor_at};

/// Whether row `row` has `place`, and not `other` where that is another place: its sum then tells the symbol at `place`.
fn tells(row: usize, place: usize, other: usize) -> bool
    ensures { Decides result (Tells bcnav3 place other row) }
{
    factor_at(row, place) != 0 && (place == other || factor_at(row, other) == 0)
}

/// What has to be added to the symbol at `place` for a code word that agrees with the word outside `place` and `other`:
/// the sum of a row that tells it, over the factor.
// A byte, as in `gf64::product`.
fn error_at(word: &Word, place: usize, other: usize) -> u8
    ensures solves { Solves bcnav3 word.now.bytes place other result }
    ensures below { result < 64 }
{
    match (0..81usize).find(|row| tells(*row, place, other)) {
        Some(row) => product(inverse(factor_at(row, place)), word.row_sum(row)),
        None => 0,
    }
}

/// The only code word that agrees with the word outside two places; none where there is none.
///
/// A word has at most one such code word, in any code with a sound table. The two places may be the same, and a place past
/// the last names no symbol.
// Two places and no pair: the decoder takes the pair of the weakest places apart.
pub fn fill_erasures(word: &Word, first: usize, second: usize) -> Option<Word>
    ensures answer { bytes_of result ≡ filled word.now.bytes first second }
    ensures only { Only (Outside bcnav3 word.now.bytes first second) (bytes_of result) }
    ensures one { (c : Code) → Sound c → OneOutside c }
{
    let mut candidate = *word;
    candidate.alter(first, error_at(&candidate, first, second));
    candidate.alter(second, error_at(&candidate, second, first));
    match candidate.first_nonzero_sum() {
        Some(_) => None,
        None => Some(candidate),
    }
}
