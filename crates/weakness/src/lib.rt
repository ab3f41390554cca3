//! The two weakest places of a word: those whose symbols the levels tell least of.
//!
//! The weakness of a place is the smallest size among the six levels of its symbol. Of two places that are as weak as each other
//! the lower counts as the weaker.
#![tactic(auto)]

ghost use Rattle.std.specs.Prelude.{◌≡◌, ℕ, ◌<◌, length, get_or, IfOk, Some, None, OnOk, slice_index_or};
ghost use Rattle.std.specs.Float.{float_min, nan};
ghost use Rattle.decoders.specs.Asks.{ask_fault};
ghost use Rattle.parity.specs.Bytes.{OkUnless};
ghost use Rattle.weakness.specs.Weakness.{lower_first, weakest_of, weakness, with_place, Least, Size, Weakest};

use decoders::fault::AskFault;
use levels::word_levels;
use std::array;

/// The smaller of two numbers, and the other one where one is no number.
// Not `f32::min`, which does not say which of two zeros it gives.
fn smaller(a: f32, b: f32) -> f32
    ensures { result ≡ float_min a b }
{
    if a <= b || b.is_nan() { a } else { b }
}

/// The smallest size among six levels.
fn smallest_size(six: &[f32; 6]) -> f32
    ensures { result ≡ weakness six.now 0 }
{
    six.iter()
        .fold(six[0].abs(), |least, level| smaller(least, level.abs()))
}

/// The weakness of each place.
fn weaknesses(levels: &[f32; 972]) -> [f32; 162]
    ensures { (k : ℕ) → k < 162 → slice_index_or result k nan ≡ weakness levels.now k }
{
    let (sixes, _) = levels.as_chunks::<6>();
    array::from_fn(|place| smallest_size(&sixes[place]))
}

/// The two weakest places so far, the weaker first, and one place more.
fn with_place(weak: &[f32; 162], two: (usize, usize), place: usize) -> (usize, usize)
    requires { (two.0 < 162) × ((two.1 < 162) × (place < 162)) }
    ensures same { result ≡ with_place (λ k. get_or weak.now k nan) place two }
    ensures inside { (result.0 < 162) × (result.1 < 162) }
{
    let (first, second) = two;
    if weak[place] < weak[first] {
        (place, first)
    } else if weak[place] < weak[second] {
        (first, place)
    } else {
        (first, second)
    }
}

fn lower_first(two: (usize, usize)) -> (usize, usize)
    ensures { result ≡ lower_first two }
{
    let (first, second) = two;
    if first < second {
        (first, second)
    } else {
        (second, first)
    }
}

/// The two places with the smallest numbers, the lower first.
fn two_least(weak: &[f32; 162]) -> (usize, usize)
    requires { (k : ℕ) → k < 162 → Size (slice_index_or weak.now k nan) }
    ensures { Weakest (λ k. get_or weak.now k nan) result.0 result.1 }
{
    let mut two = if weak[1] < weak[0] { (1, 0) } else { (0, 1) };
    // An index, since the two so far are places too, and both are looked up.
    for place in 2..162usize {
        two = with_place(weak, two, place);
    }
    lower_first(two)
}

/// The two weakest places of a word by its 972 levels, the lower first. Levels are refused as a decoder refuses them.
pub fn two_weakest(levels: &[f32]) -> Result<(usize, usize), AskFault>
    ensures places { OkUnless (ask_fault levels.now 162) (λ p. p ≡ weakest_of levels.now) result }
    ensures weakest { IfOk result (λ p. Weakest (weakness levels.now) p.0 p.1) }
    ensures least { OnOk result ((k : ℕ) → k < 162 → Least levels.now k) }
{
    let levels = word_levels(levels)?;
    Ok(two_least(&weaknesses(levels)))
}
