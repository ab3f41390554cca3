//! The sums of the rows of the parity-check table.
ghost use Rattle.std.specs.Prelude.{◌≡◌, ◌<◌};
ghost use Rattle.std.specs.List.{Contains};
ghost use Rattle.gf64.specs.Field.{mul};
ghost use Rattle.parity.specs.Code.{sym_at, weighted};
ghost use Rattle.parity.specs.Table.{rows, places_in, factors_in};

use crate::Word;
use crate::table::{Entry, Row};
use gf64::product;

/// The symbol at a place, times its factor.
// A byte, as in `gf64::product`.
pub(crate) fn term(word: &Word, entry: &Entry) -> u8
    requires { (entry.now.0 < 162) × (entry.now.1 < 64) }
    ensures { result ≡ mul entry.now.1 (sym_at word.now.bytes entry.now.0) }
{
    let (place, factor) = *entry;
    product(factor, word.bytes[place as usize])
}

/// The sum of a row.
pub(crate) fn sum(word: &Word, row: &Row) -> u8
    requires { Contains rows row.now }
    ensures same { result ≡ weighted (places_in row.now) (factors_in row.now) (sym_at word.now.bytes) }
    ensures below { result < 64 }
{
    let [a, b, c, d] = row;
    (term(word, a) ^ term(word, b)) ^ (term(word, c) ^ term(word, d))
}
