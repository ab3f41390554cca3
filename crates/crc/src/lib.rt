//! The CRC-24Q of a message: the remainder of its first 462 bits, times x^24, by the generator 1864CFBh.
//!
//! The register has 24 bits and starts at 0. It takes in a symbol, six bits, at a time.
#![tactic(auto)]

ghost use Rattle.std.specs.Prelude.{◌≡◌, ℕ, ◌^◌, ◌<◌, [], ◌∷◌, take, fold};
ghost use Rattle.bits.specs.Bits.{bits_of};
ghost use Rattle.crc.specs.Crc.{crc_step, crc_of_message, six_zeros};
ghost use Rattle.crc.specs.Remainder.{Remainder, generator};

/// What the six bits that leave the register add to it.
const TABLE: [u32; 64] = [
    0x000000, 0x864CFB, 0x8AD50D, 0x0C99F6, 0x93E6E1, 0x15AA1A, 0x1933EC, 0x9F7F17, 0xA18139,
    0x27CDC2, 0x2B5434, 0xAD18CF, 0x3267D8, 0xB42B23, 0xB8B2D5, 0x3EFE2E, 0xC54E89, 0x430272,
    0x4F9B84, 0xC9D77F, 0x56A868, 0xD0E493, 0xDC7D65, 0x5A319E, 0x64CFB0, 0xE2834B, 0xEE1ABD,
    0x685646, 0xF72951, 0x7165AA, 0x7DFC5C, 0xFBB0A7, 0x0CD1E9, 0x8A9D12, 0x8604E4, 0x00481F,
    0x9F3708, 0x197BF3, 0x15E205, 0x93AEFE, 0xAD50D0, 0x2B1C2B, 0x2785DD, 0xA1C926, 0x3EB631,
    0xB8FACA, 0xB4633C, 0x322FC7, 0xC99F60, 0x4FD39B, 0x434A6D, 0xC50696, 0x5A7981, 0xDC357A,
    0xD0AC8C, 0x56E077, 0x681E59, 0xEE52A2, 0xE2CB54, 0x6487AF, 0xFBF8B8, 0x7DB443, 0x712DB5,
    0xF7614E,
];

fn entry(i: u8) -> u32
    requires { i < 64 }
    ensures { result ≡ six_zeros i }
{
    TABLE[i as usize]
}

/// The register after the six bits of the symbol.
fn step(reg: u32, symbol: u8) -> u32
    requires { reg < 2 ^ 24 }
    ensures { result ≡ fold crc_step reg (bits_of (symbol ∷ [])) }
{
    let out = ((reg >> 18) as u8 ^ symbol) % 64;
    ((reg << 6) & 0xFFFFFF) ^ entry(out)
}

/// The CRC of a message, over all its bits but the last 24.
///
/// It is the remainder of these bits, and no other number is.
pub fn crc24q(symbols: &[u8; 81]) -> u32
    ensures value { result ≡ crc_of_message symbols.now }
    ensures below { result < 2 ^ 24 }
    ensures remainder { Remainder generator (take 462 (bits_of symbols.now)) result }
    ensures only { (s : ℕ) → Remainder generator (take 462 (bits_of symbols.now)) s → s ≡ result }
{
    let mut reg: u32 = 0;
    for symbol in &symbols[..77] {
        reg = step(reg, *symbol);
    }
    reg
}
