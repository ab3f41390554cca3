//! The bits of a message.
//!
//! A message is 81 bytes whose low six bits are its symbols. Its 486 bits are the six bits of each symbol,
//! most significant first.
#![tactic(auto)]

ghost use Rattle.std.specs.Prelude.{◌≡◌, ℕ, ◌+◌, ◌-◌, ◌/◌, ◌^◌, ◌<◌, ◌≤◌, length, slice_set};
ghost use Rattle.std.specs.Int.Digits.{number_from_digits};
ghost use Rattle.bits.specs.Bits.{bits_of, part, pasted, spelled, KeepsSmall};

/// The number that the bits of the symbols write.
fn gather(symbols: &[u8]) -> u64
    requires { length symbols.now ≤ 10 }
    ensures { result ≡ number_from_digits 2 (bits_of symbols.now) }
{
    let mut v: u64 = 0;
    for symbol in symbols {
        v = v * 64 + (symbol % 64) as u64;
    }
    v
}

/// The number that `width` bits from the bit `at` on write, most significant first.
///
/// It is 0 where the message has no such bits, and where they are more than 55.
// Two numbers and no type of a range, which would have to hold just the bits that there are: these calls take any two.
pub fn get_bits(symbols: &[u8; 81], at: usize, width: usize) -> u64
    ensures same { width ≤ 55 → at + width ≤ 486 → result ≡ number_from_digits 2 (part (bits_of symbols.now) at width) }
    ensures below { width ≤ 55 → at + width ≤ 486 → result < 2 ^ width }
    ensures none { (width ≤ 55 → at + width ≤ 486 → ⊥) → result ≡ 0 }
{
    if width > 55 || at > 486 - width {
        return 0;
    }
    let end = (at + width + 5) / 6;
    let v = gather(&symbols[at / 6..end]);
    (v >> (6 * end - (at + width))) % (1u64 << width)
}

/// Makes the bit `k` of the symbols `b`.
fn set_bit(symbols: &mut [u8], k: usize, b: u8)
    requires { (k / 6 < length symbols.old) × (b < 2) }
    ensures bits { bits_of symbols.new ≡ slice_set (bits_of symbols.old) k b }
    ensures small { KeepsSmall symbols.old symbols.new }
{
    let shift = 5 - k % 6;
    let s = symbols[k / 6];
    symbols[k / 6] = s - ((s >> shift) % 2 << shift) + (b << shift);
}

/// Writes the low `width` bits of `value` over the bits from `at` on, most significant first.
///
/// The message is the first 81 symbols. Nothing changes where there are fewer, where the message has no such
/// bits, and where they are more than 55.
// Two numbers, as in `get_bits`.
pub fn put_bits(symbols: &mut [u8], at: usize, width: usize, value: u64)
    ensures bits { 81 ≤ length symbols.old → width ≤ 55 → at + width ≤ 486 → bits_of symbols.new ≡ pasted (bits_of symbols.old) at (spelled width value) }
    ensures none { (81 ≤ length symbols.old → width ≤ 55 → at + width ≤ 486 → ⊥) → symbols.new ≡ symbols.old }
    ensures small { KeepsSmall symbols.old symbols.new }
{
    if symbols.len() < 81 || width > 55 || at > 486 - width {
        return;
    }
    // i is a number here, from which each bit's place and power follow, and no index.
    for i in 0..width {
        set_bit(symbols, at + i, ((value >> (width - 1 - i)) % 2) as u8);
    }
}
