//! Levels as they are received: which are legal, which bits they read as, and the hard decision.
//!
//! A level is legal when it is a number from -4 to 4. Below 0 it reads as bit 1, otherwise as bit 0. What a level means is said
//! by `is_legal` and `bit_of` alone; everything else goes through them.
#![tactic(auto)]

ghost use Rattle.std.specs.Prelude.{◌≡◌, ◌+◌, ◌/◌, ◌<◌, ◌≤◌, map, length, IfOk, Some, None, Decides, MatchOption, MatchResult};
ghost use Rattle.bits.specs.Bits.{bits_of};
ghost use Rattle.levels.specs.Faults.{first_illegal, level_fault, FirstIllegal, LegalBelow};
ghost use Rattle.parity.specs.Bytes.{OkUnless};
ghost use Rattle.parity.specs.Code.{SymbolList};
ghost use Rattle.levels.specs.Hard.{hard, symbol_at};
ghost use Rattle.levels.specs.Levels.{bit, legal, level_at, levels_in, Negative, WithinFour};

use parity::Word;
use std::alloc::{AllocError, Global};
use std::array;
use std::num::f32_from_bits_with_nan;

pub mod fault;

use fault::LevelFault;

/// Whether a level is a number from -4 to 4, both ends in. A NaN fails every comparison.
pub fn is_legal(level: f32) -> bool
    ensures value { result ≡ legal level }
    ensures within { Decides result (WithinFour level) }
{
    level.abs() <= 4.0
}

/// The bit that a level reads as: 1 below 0. Minus zero reads as 0.
pub fn bit_of(level: f32) -> u8
    ensures value { result ≡ bit level }
    ensures negative { (Negative level → result ≡ 1) × ((Negative level → ⊥) → result ≡ 0) }
    ensures below { result < 2 }
{
    if level < 0.0 { 1 } else { 0 }
}

/// The index of the first level that is not legal.
pub fn first_illegal(levels: &[f32]) -> Option<usize>
    ensures value { result ≡ first_illegal levels.now }
    ensures found { MatchOption result (LegalBelow levels.now (length levels.now)) (FirstIllegal levels.now) }
{
    // A loop over the slice with its index: the form that the project asks for at this search.
    for (i, level) in levels.iter().enumerate() {
        if !is_legal(*level) {
            return Some(i);
        }
    }
    None
}

/// Refuses levels that are not `count` legal ones: by their number first, then by the first illegal one.
pub fn examine(levels: &[f32], count: usize) -> Result<(), LevelFault>
    ensures { MatchResult result (λ _. level_fault count levels.now ≡ None) (λ e. level_fault count levels.now ≡ Some e) }
{
    if levels.len() != count {
        return Err(LevelFault::Length);
    }
    match first_illegal(levels) {
        Some(i) => Err(LevelFault::Illegal(i)),
        None => Ok(()),
    }
}

/// The levels of a word, refused where they are not 972 legal ones.
pub fn word_levels(levels: &[f32]) -> Result<&[f32; 972], LevelFault>
    ensures { OkUnless (level_fault 972 levels.now) (λ xs. xs.now ≡ levels.now) result }
{
    examine(levels, 972)?;
    let Some(levels) = levels.as_array() else {
        unreachable()
    };
    Ok(levels)
}

/// The symbol that six levels read as, most significant bit first.
fn symbol_of(six: &[f32; 6]) -> u8
    ensures { result ≡ symbol_at six.now 0 }
{
    let [a, b, c, d, e, f] = six.map(bit_of);
    32 * a + 16 * b + 8 * c + 4 * d + 2 * e + f
}

/// The symbols that the levels of a word read as.
fn symbols_of(levels: &[f32; 972]) -> [u8; 162]
    ensures same { result ≡ hard levels.now }
    ensures symbols { SymbolList 162 result }
{
    let (sixes, _) = levels.as_chunks::<6>();
    array::from_fn(|k| symbol_of(&sixes[k]))
}

/// The word whose bits are those that 972 legal levels read as.
pub fn hard_decision(levels: &[f32]) -> Result<Word, LevelFault>
    ensures word { OkUnless (level_fault 972 levels.now) (λ w. w.bytes ≡ hard levels.now) result }
    ensures bits { IfOk result (λ w. bits_of w.bytes ≡ map bit levels.now) }
{
    let symbols = symbols_of(word_levels(levels)?);
    let Ok(word) = Word::new(&symbols) else {
        unreachable()
    };
    Ok(word)
}

/// The level that four bytes hold, the least significant first. Every pattern of a NaN gives a NaN.
pub fn level_from(bytes: [u8; 4]) -> f32
    ensures { result ≡ level_at bytes 0 }
{
    f32_from_bits_with_nan(u32::from_le_bytes(bytes))
}

/// The levels that bytes hold, four bytes to each. Up to three bytes at the end are left out.
pub fn read_levels(heap: Global, bytes: &[u8]) -> Result<Vec<f32>, AllocError>
    ensures { IfOk result (λ v. v.items ≡ levels_in bytes.now (length bytes.now / 4)) }
{
    // A loop: as a chain with `collect` a goal stays open.
    let mut levels = Vec::new(heap);
    for four in bytes.as_chunks::<4>().0 {
        levels.push(level_from(*four))?;
    }
    Ok(levels)
}
