//! Logarithms to the base x, and the powers of x.
ghost use Rattle.std.specs.Prelude.{◌≡◌, ◌<◌, slice_index};
ghost use Rattle.gf64.specs.Field.{logs, exps};

/// The logarithm of each symbol; 0 has none, and its entry is not used.
const LOG: [u8; 64] = [
    0, 0, 1, 6, 2, 12, 7, 26, 3, 32, 13, 35, 8, 48, 27, 18, 4, 24, 33, 16, 14, 52, 36, 54, 9, 45,
    49, 38, 28, 41, 19, 56, 5, 62, 25, 11, 34, 31, 17, 47, 15, 23, 53, 51, 37, 44, 55, 40, 10, 61,
    46, 30, 50, 22, 39, 43, 29, 60, 42, 21, 20, 59, 57, 58,
];

/// The powers of x, twice round, so that a sum of two logarithms needs no reduction.
const EXP: [u8; 126] = [
    1, 2, 4, 8, 16, 32, 3, 6, 12, 24, 48, 35, 5, 10, 20, 40, 19, 38, 15, 30, 60, 59, 53, 41, 17,
    34, 7, 14, 28, 56, 51, 37, 9, 18, 36, 11, 22, 44, 27, 54, 47, 29, 58, 55, 45, 25, 50, 39, 13,
    26, 52, 43, 21, 42, 23, 46, 31, 62, 63, 61, 57, 49, 33, 1, 2, 4, 8, 16, 32, 3, 6, 12, 24, 48,
    35, 5, 10, 20, 40, 19, 38, 15, 30, 60, 59, 53, 41, 17, 34, 7, 14, 28, 56, 51, 37, 9, 18, 36,
    11, 22, 44, 27, 54, 47, 29, 58, 55, 45, 25, 50, 39, 13, 26, 52, 43, 21, 42, 23, 46, 31, 62, 63,
    61, 57, 49, 33,
];

pub(crate) fn log(a: u8) -> u8
    requires { a < 64 }
    ensures { result ≡ slice_index logs a }
{
    LOG[a as usize]
}

pub(crate) fn exp(i: u8) -> u8
    requires { i < 126 }
    ensures { result ≡ slice_index exps i }
{
    EXP[i as usize]
}
