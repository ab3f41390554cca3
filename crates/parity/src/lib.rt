//! The code of B-CNAV3: words of 162 symbols, of which the first 81 are the message and the others check symbols.
//!
//! A word is a code word when the 81 sums that the parity-check table asks for are all 0. Each message begins exactly one
//! code word, and a code word that is altered at one place or at two is none.
#![tactic(auto)]

ghost use Rattle.std.specs.Prelude.{◌≡◌, ℕ, ◌%◌, ◌<◌, ◌⊎◌, List, length, take, Some, None, slice_index};
ghost use Rattle.parity.specs.Bytes.{symbol_fault, first_nonzero, OkUnless};
ghost use Rattle.parity.specs.Code.{Code, Codeword, Encodes, altered, factor_of, row_sum};
ghost use Rattle.parity.specs.Sound.{Sound, AlteredIsNone};
ghost use Rattle.parity.specs.Table.{bcnav3};

use sums::sum;

mod encoder;
mod fault;
mod sums;
mod table;

/// Why bytes are not the symbols asked for.
#[derive(Clone, Copy, PartialEq, Debug)]
pub enum SymbolFault {
    /// There are more of them or fewer.
    Length,
    /// The byte at this index, the first such, is above 63.
    Byte(usize),
}

/// N symbols: bytes below 64.
#[derive(Clone, Copy)]
pub struct Symbols<const N: usize> {
    bytes: [u8; N],
    ghost long: { length bytes ≡ N },
    ghost small: { (k : ℕ) → slice_index bytes k < 64 },
}

/// The symbols of a word.
pub type Word = Symbols<162>;

/// The symbols of a message.
pub type Message = Symbols<81>;

impl<const N: usize> Symbols<N> {
    /// The bytes as symbols.
    pub fn new(bytes: &[u8]) -> Result<Symbols<N>, SymbolFault>
        ensures { OkUnless (symbol_fault N bytes.now) (λ s. s.bytes ≡ bytes.now) result }
    {
        let Ok(copy) = <[u8; N]>::try_from(bytes) else {
            return Err(SymbolFault::Length);
        };
        if let Some(i) = bytes.iter().position(|b| *b > 63) {
            return Err(SymbolFault::Byte(i));
        }
        Ok(Symbols { bytes: copy })
    }

    pub fn bytes(&self) -> &[u8; N]
        ensures { result.now ≡ self.now.bytes }
    {
        &self.bytes
    }

    /// Adds `change`, its low six bits, to the symbol at `place`; past the last place it changes nothing.
    pub fn alter(&mut self, place: usize, change: u8)
        ensures low { self.new.bytes ≡ altered self.old.bytes place (change % 64) }
        ensures same { change < 64 → self.new.bytes ≡ altered self.old.bytes place change }
    {
        if place < N {
            self.bytes[place] ^= change % 64;
        }
    }
}

impl Symbols<162> {
    /// The first row whose sum is not 0; none just where the word is a code word.
    ///
    /// The table is sound, and for any sound table a code word that is altered at just one or at just two places is no
    /// code word.
    pub fn first_nonzero_sum(&self) -> Option<usize>
        ensures row { result ≡ first_nonzero self.now.bytes }
        ensures none { (result ≡ None → Codeword bcnav3 self.now.bytes) × (Codeword bcnav3 self.now.bytes → result ≡ None) }
        ensures sound { Sound bcnav3 }
        ensures altered { (c : Code) → Sound c → AlteredIsNone c }
    {
        table::rows().iter().position(|row| sum(self, row) != 0)
    }

    /// The sum of row `row`; 0 past the last row.
    pub fn row_sum(&self, row: usize) -> u8
        ensures same { result ≡ row_sum bcnav3 row self.now.bytes }
        ensures below { result < 64 }
    {
        match table::rows().get(row) {
            Some(row) => sum(self, row),
            None => 0,
        }
    }

    /// The message that the word begins with.
    pub fn message(&self) -> Message
        ensures { result.bytes ≡ take 81 self.now.bytes }
    {
        Symbols {
            bytes: *self.bytes.first_chunk().unwrap(),
        }
    }
}

impl Symbols<81> {
    /// The only code word that begins with the message.
    pub fn encode(&self) -> Word
        ensures encodes { Encodes bcnav3 self.now.bytes result.bytes }
        ensures only { (v : List ℕ) → Encodes bcnav3 self.now.bytes v → v ≡ result.bytes }
    {
        let mut bytes = [0; 162];
        bytes[..81].copy_from_slice(&self.bytes);
        let mut word = Symbols { bytes };
        encoder::fill(&mut word);
        word
    }
}

/// The factor of `place` in row `row` of the parity-check table; 0 where the row does not have it.
pub fn factor_at(row: usize, place: usize) -> u8
    ensures same { result ≡ factor_of bcnav3 row place }
    ensures below { result < 64 }
{
    let Some(row) = table::rows().get(row) else {
        return 0;
    };
    match row.iter().position(|entry| entry.0 as usize == place) {
        Some(j) => row[j].1,
        None => 0,
    }
}
