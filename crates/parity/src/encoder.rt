//! The check symbols of a message, in two rounds over the ring of rows.
//!
//! Round the ring each check symbol follows from the one before. Once round, a symbol x becomes a + 26 x, where the message
//! alone decides a. So the first round, from 0, gives a; the ring closes from 34 a, as 34 is the inverse of 1 + 26; and the
//! second round, from there, writes the symbols.
ghost use Rattle.std.specs.Prelude.{◌≡◌, ℕ, ◌<◌};
ghost use Rattle.std.specs.List.{Contains};
ghost use Rattle.parity.specs.Code.{Codeword, sym_at};
ghost use Rattle.parity.specs.Ring.{ring, run, turn_of, turned, reached};
ghost use Rattle.parity.specs.Table.{bcnav3};

use crate::Word;
use crate::sums::term;
use crate::table::{self, Turn};
use gf64::{inverse, product};

/// The place that a turn comes to and its check symbol, from the symbol that the turn starts from.
fn next(word: &Word, turn: &Turn, last: u8) -> (usize, u8)
    requires in_ring { Contains ring turn.now }
    requires bound { last < 64 }
    ensures place { result.0 ≡ reached (turn_of turn.now) }
    ensures symbol { result.1 ≡ turned (turn_of turn.now) (sym_at word.now.bytes) last }
    ensures below { (result.0 < 162) × (result.1 < 64) }
{
    // The check places of a row are its third and fourth, 2 and 3: the one beside `from` is 5 - from.
    let (row, from) = *turn;
    let row = &table::rows()[row as usize];
    let (_, factor) = row[from as usize];
    let (place, divisor) = row[5 - from as usize];
    let message = term(word, &row[0]) ^ term(word, &row[1]);
    (
        place as usize,
        product(inverse(divisor), message ^ product(factor, last)),
    )
}

/// What the ring, from 0, comes back to.
fn once_round(word: &Word) -> u8
    ensures same { result ≡ run (sym_at word.now.bytes) 0 81 }
    ensures below { result < 64 }
{
    let mut last = 0;
    for turn in table::ring() {
        (_, last) = next(word, turn, last);
    }
    last
}

/// Writes the check symbols, 81 to 161, of the message in symbols 0 to 80.
pub(crate) fn fill(word: &mut Word)
    ensures codeword { Codeword bcnav3 word.new.bytes }
    ensures kept { (k : ℕ) → k < 81 → sym_at word.new.bytes k ≡ sym_at word.old.bytes k }
{
    let mut last = product(34, once_round(word));
    for turn in table::ring() {
        let (place, symbol) = next(word, turn, last);
        word.bytes[place] = symbol;
        last = symbol;
    }
}
