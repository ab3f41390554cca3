//! The field of 64 elements in which the code's symbols are added and multiplied.
//!
//! A symbol is a number 0 to 63: bit k is the coefficient of x^k. The sum of two symbols is their exclusive or, `^`.
//! The product is that of polynomials modulo 1 + x + x^6, here by logarithms to the base x.
#![tactic(auto)]

ghost use Rattle.std.specs.Prelude.{◌≡◌, ◌%◌, ◌<◌};
ghost use Rattle.gf64.specs.Field.{mul, inv};
ghost use Rattle.gf64.specs.Laws.{FieldLaws};

use table::{exp, log};

mod table;

/// The product of two symbols, each the low six bits of its byte.
// A symbol is a byte, and no type of its own: words lie in lent bytes, and such a type would only be wrapped and unwrapped at each.
pub fn product(a: u8, b: u8) -> u8
    ensures low { result ≡ mul (a % 64) (b % 64) }
    ensures same { a < 64 → b < 64 → result ≡ mul a b }
    ensures below { result < 64 }
{
    let x = a % 64;
    let y = b % 64;
    if x == 0 || y == 0 {
        return 0;
    }
    exp(log(x) + log(y))
}

/// The symbol whose product with the low six bits of `a` is 1; for 0, which has none, it is 0.
///
/// With it the 64 symbols are a field, as `FieldLaws` says.
pub fn inverse(a: u8) -> u8
    ensures low { result ≡ inv (a % 64) }
    ensures same { a < 64 → result ≡ inv a }
    ensures below { result < 64 }
    ensures field { FieldLaws }
{
    let x = a % 64;
    if x == 0 {
        return 0;
    }
    exp(63 - log(x))
}
