//! Compares words with what should be answered of them, and prints a line for each and a count.
//!
//! The words were made by another program than the encoder here, and the first is the published example of the service.
#![tactic(auto)]

use anyhow::anyhow;
use known_answers::known_answers;
use message::check;
use parity::Word;
use std::alloc::{AllocError, Global};
use std::env;
use terminal::{no_word, on_word};

const HELP: &str = "usage: examples

Compares the words of its table with what should be answered of them, and prints a line for each and a count.";

/// A word on each line: its name, its symbols, whether it is a code word, and what `check` answers, where `-` claims nothing.
///
/// A symbol is a letter or digit of base64, A for 0 to / for 63; `!` is the byte 64, `~` the byte 255, and `=` alone no byte.
const CASES: &str = "\
published KyThKmQpsvcFO6J0i/FcG9Ax03FZQzb6LQJI3ljJ2nWgZEPHLPaD58ffV5XHxYPZGI89kDPW0ACKpupcjku5A3BWtyJbJaDLpVfNreN9fUIGkDtM57XKrt/B8PvKGo4YCTTurT9aBH9L3wrxsybfbM8z6PGd9nmF1i code -
type-10 KVGAA+/hi4/6U1HSKDKJk4cTTwab+VOm8ilzWhwHbII7KmMwurs7k/AwMdAjEl8gV6R+EEglFl5n0fTike/ELRTKgU+qZ8hVzKOA63Om3UUTiaV0mFnirmDlWqW9g7RDOffVvoi8xTHmNgQ/uAe+MZR9xC7tVEnxBM code message 10 345600
type-30 ek6fyF4ffgedOm3s6EwWAR2sNVJtvA2daFzPZwXJJOnbGiLdnSdOP2L4SGDJZ+nWSleHkO7beUYILVyX6R7oB0YE63ZBgLfe5RPLRoIyDpQLf5z/UNKkqDf7HgaorEupUj2WfsNBsQJQ9Lhl1LHkeEudpIYAHYxxwy code message 30 604799
type-40 oAAAI6BkL7NewOJjRkPnr2swMseKcZYzaFJXmCvWTvQTPD9Yw8fKdDamVP0jxoJ92taFwszg5JjBZro089RjlrKfOOi9iftB/GB/SwFgPXjl1TBF6v7ZaX2OxyA6BDDaDQrrSNnjZAlFri+QYulaS9LYaFksmGVlR7 code message 40 0
empty = none refused 1 4 0
short ek6fyF4ffgedOm3s6EwWAR2sNVJtvA2daFzPZwXJJOnbGiLdnSdOP2L4SGDJZ+nWSleHkO7beUYILVyX6R7oB0YE63ZBgLfe5RPLRoIyDpQLf5z/UNKkqDf7HgaorEupUj2WfsNBsQJQ9Lhl1LHkeEudpIYAHYxxw none refused 1 4 0
long ek6fyF4ffgedOm3s6EwWAR2sNVJtvA2daFzPZwXJJOnbGiLdnSdOP2L4SGDJZ+nWSleHkO7beUYILVyX6R7oB0YE63ZBgLfe5RPLRoIyDpQLf5z/UNKkqDf7HgaorEupUj2WfsNBsQJQ9Lhl1LHkeEudpIYAHYxxwyA none refused 1 4 0
byte-64-first !k6fyF4ffgedOm3s6EwWAR2sNVJtvA2daFzPZwXJJOnbGiLdnSdOP2L4SGDJZ+nWSleHkO7beUYILVyX6R7oB0YE63ZBgLfe5RPLRoIyDpQLf5z/UNKkqDf7HgaorEupUj2WfsNBsQJQ9Lhl1LHkeEudpIYAHYxxwy none refused 8 4 0
byte-255-last ek6fyF4ffgedOm3s6EwWAR2sNVJtvA2daFzPZwXJJOnbGiLdnSdOP2L4SGDJZ+nWSleHkO7beUYILVyX6R7oB0YE63ZBgLfe5RPLRoIyDpQLf5z/UNKkqDf7HgaorEupUj2WfsNBsQJQ9Lhl1LHkeEudpIYAHYxxw~ none refused 8 4 161
two-bytes-above-63 ek6fyF4ffgedOm3s6EwWAR2sNVJtvA2daFzPZwXJ~OnbGiLdnSdOP2L4SGDJZ+nWSleHkO7beUYILVyX6R7oB0YE63ZBgLfe5RPL!oIyDpQLf5z/UNKkqDf7HgaorEupUj2WfsNBsQJQ9Lhl1LHkeEudpIYAHYxxwy none refused 8 4 40
altered-first fk6fyF4ffgedOm3s6EwWAR2sNVJtvA2daFzPZwXJJOnbGiLdnSdOP2L4SGDJZ+nWSleHkO7beUYILVyX6R7oB0YE63ZBgLfe5RPLRoIyDpQLf5z/UNKkqDf7HgaorEupUj2WfsNBsQJQ9Lhl1LHkeEudpIYAHYxxwy none refused 9 4 7
altered-last ek6fyF4ffgedOm3s6EwWAR2sNVJtvA2daFzPZwXJJOnbGiLdnSdOP2L4SGDJZ+nWSleHkO7beUYILVyX6R7oB0YE63ZBgLfe5RPLRoIyDpQLf5z/UNKkqDf7HgaorEupUj2WfsNBsQJQ9Lhl1LHkeEudpIYAHYxxwS none refused 9 4 15
altered-two ek6fyF4ffgedOm3s6EwTAR2sNVJtvA2daFzPZwXJJOnbGiLdnSdOP2L4SGDJZ+nWSleHkO7beUYILVyX6R7oB0YE63ZBgLfe5RPLRoIyDpQLf5z/UNKkqDf7HgaorEupUj/WfsNBsQJQ9Lhl1LHkeEudpIYAHYxxwy none refused 9 4 0
wrong-crc-low ek6fyF4ff28SWkQvelFrQeIpqY+wk7eakTvkidmWJOn1HtoKsSdPKcd/DTDt8RciCsXXS91KSR05tLzRFzMWZyAO29Og3RrN5gNBm4ZtBsk+YPVVVgrPtL8WYRgDv5UJRBoKwZncsVNzj49MYauoqp1Jf9E4pCX++f code refused 10 5 0
wrong-crc-high ek6fyF4ffo4/VGAwovoY8QLZM5CKMOPspD0kHpww5OnNPO7TYydO2u1gxA9osVcXWKo/ioKSY3w7jAGLEO3Yb6CIKotiaqVXvmRTHZHBmISNqbI99VOHvBljSV92U+KaxR3aNhilPYGlwznvyW8kOJZFLqXarWWSwc code refused 10 5 0
zeros AAAAAAAAAAAAAAAAAAAAAAAAAAAAAAAAAAAAAAAAAAAAAAAAAAAAAAAAAAAAAAAAAAAAAAAAAAAAAAAAAAAAAAAAAAAAAAAAAAAAAAAAAAAAAAAAAAAAAAAAAAAAAAAAAAAAAAAAAAAAAAAAAAAAAAAAAAAAAAAAAA code refused 11 5 0
type-63 /AAAAAAAAAAAAAAAAAAAAAAAAAAAAAAAAAAAAAAAAAAAAAAAAAAAAAAAAAAAAAAAAAAAAAAAAAAAAp9QZ2XjijHKBxH4Lo1LwOvUbGzPYGFzQuBcTtLd6S4LUG4rxNGsL1jKLNttVbRNx8kapZSvi1t3uNS4G24tJH code refused 11 5 63
type-11 LAAAAAAAAAAAAAAAAAAAAAAAAAAAAAAAAAAAAAAAAAAAAAAAAAAAAAAAAAAAAAAAAAAAAAAAAAAAAvQGBHO3ittyhxYMMnYM6vKCj2YXu2hIsXBxktMw7TMMUvnzkmGGquwKPOmmLmfLkVn1wPEexgmHk7ETGYnhJ9 code refused 11 5 11
second-604800 ok6gAAAAAAAAAAAAAAAAAAAAAAAAAAAAAAAAAAAAAAAAAAAAAAAAAAAAAAAAAAAAAAAAAAAAAAAAAI1XuS/kc+Q9onMWlbT2SHtM6zsUXzDk0Gaj+zj8foWlmqGEsOf8KgHhmuvvkZn6E3Sqmafn7tvihVfpf1G1LY code refused 12 5 6
second-1048575 e///wAAAAAAAAAAAAAAAAAAAAAAAAAAAAAAAAAAAAAAAAAAAAAAAAAAAAAAAAAAAAAAAAAAAAAAAAQ53hxo3kogCT9XXent96jCWh2uEs2kXuMxT/63AGxXepjMTDAgiUwOjBwccmBfG1VPwZDEGYucMmYErgOMpdz code refused 12 5 6
type-before-second Uk6gAAAAAAAAAAAAAAAAAAAAAAAAAAAAAAAAAAAAAAAAAAAAAAAAAAAAAAAAAAAAAAAAAAAAAAAAAGn35X/pMRRHRIzylOs215t46enUKeOkmTgdUajU4syl58Obs7F0SLLP2EvvfuWBEJQqbaZ+76vnYVZtFVO6o2 code refused 11 5 20
type-10-bit-26 KAAAYAAgAAAAAAAAAAAAAAAAAAAAAAAAAAAAAAAAAAAAAAAAAAAAAAAAAAAAAAAAAAAAAAAAAAAAAWrXojHtIegpA2x+GN+G3Kxawv/qtvnrU6db/1GjGg+GuoMTSPNnUJxXGKTTRI+8Sq8G/mIh5+To88ICNaMpwk code refused 6 5 26
type-10-bit-29 KAAARAAgAAAAAAAAAAAAAAAAAAAAAAAAAAAAAAAAAAAAAAAAAAAAAAAAAAAAAAAAAAAAAAAAAAAAAtyEyJqjPsw7eX5AkookwJCGsGAm3GgXFZfWBskdAQAkGSKA5NBZezCDDA33pARd582wTtSoRf3UAnS1BnKciV code refused 6 5 29
type-30-bit-39 eAAAQAEAAAAAAAAAAAAAAAAAAAAAAAAAAAAAAAAAAAAAAAAAAAAAAAAAAAAAAAAAAAAAAAAAAAAAAZUVhbuwvBoY5KNAWU7WYLdK2DAelDEl6VoRg9WvAuAW49PAhn1SR5Mc+AZZjApnhe601yJ/HtZEAaJc1LPSno code refused 6 5 39
type-30-bit-42 eAAAQAAgAAAAAAAAAAAAAAAAAAAAAAAAAAAAAAAAAAAAAAAAAAAAAAAAAAAAAAAAAAAAAAAAAAAAAZmY5MUnMnlGbt+//rX/yx1yx39dv3tFxJy17O/UMC//53km77qlvTr9IUQQ8Q5m7fglugD8NqQj7MDxqSkaoh code refused 6 5 42
reserved-before-field eAAAQAA/gAAAAAAAAAAAAAAAAAAAAAAAAAAAAAAAAAAAAAAAAAAAAAAAAAAAAAAAAAAAAAAAAAAAA9D1HR2MntvuG8wm8FG8ICNhpQPIfB5byoPGzI8bzmm8Wv32yZ4TaCkleW44WH7SyKM+MzzjwD4O3SzU4P3/X9 code refused 6 5 42
t_oe-2016 KAAAQ/AgAAAAAAAAAAAAAAAAAAAAAAAAAAAAAAAAAAAAAAAAAAAAAAAAAAAAAAAAAAAAAAAAAAAAAlOd8iZiCUxP1sPuH4MHRbRB47fYC7xUYu2Sh8HugiuHqwCUVhy6POjVOjLLtCbkVkZSYWn3lULLP2noytFTM4 code refused 13 5 30
SatType-0 KAAAQAAAAAAAAAAAAAAAAAAAAAAAAAAAAAAAAAAAAAAAAAAAAAAAAAAAAAAAAAAAAAAAAAAAAAAAAnz3DW8Po4g5Grz5C1eCmZDjQUxnKUY9rhqF/kCNws5CQiMeOu57UDPI2TwwfDlZOOVo8jvzXHwnpUvH5pMp1t code refused 13 5 41
t_oc-2016 eAAAQAAfgAAAAAAAAAAAAAAAAAAAAAAAAAAAAAAAAAAAAAAAAAAAAAAAAAAAAAAAAAAAAAAAAAAAAmEUZovL2aP34F0k72x7qfcqRlLQS0rPkIu/M/7En+k7cZ7fnY7QOV1g9qzzK3NRnBBshl+mjyzQ5k+g7D7WyC code refused 13 5 43
t_ot-37800 eAAAQAAAAAAAAAAAAAAAAAAAAAAAAAAAAAAAAAAAJOoAAAAAAAAAAAAAAAAAAAAAAAAAAAAAAAAAAdF7BncJujdW7cby2WzYrgz+ccn17Nu8OKzrljYhxZy2tGtGLDs50ZJ3nENNCuZfLxF2ILjB4kPujbXYsht9hH code refused 13 5 242
t_EOP-37800 eAAAQAAAAAAAAAAAAAAAAAAAAAAAAAAAAAAAAAAAAAAAAAAAASdQAAAAAAAAAAAAAAAAAAAAAAAAAtDqNCH83eBnFTbtG4nGRHF2w7ZqC7sEb7MhqhG0hZtGJoIMS+iMYfv7OBTTCqbwSkS7NmnR5UTuG8nXiwIP0k code refused 13 5 295
two-fields eAAAQAAAAAAAAAAAAAAAAAAAAAAAAAAAAAAAAAAAP//AAAAAAf/+AAAAAAAAAAAAAAAAAAAAAAAAA+rfIM5bOGEEyB4n0wXdmvaJnENSxUz2f4tmuydg3Wn0TIgVQFYHjjN+RI99ufemQOn/dXvAvj0y2+cnYcg8k1 code refused 13 5 242";

fn byte_of(digit: u8) -> u8 {
    match digit {
        b'A'..=b'Z' => digit - b'A',
        b'a'..=b'z' => digit - b'a' + 26,
        b'0'..=b'9' => digit - b'0' + 52,
        b'+' => 62,
        b'/' => 63,
        b'!' => 64,
        _ => 255,
    }
}

fn bytes_of(heap: Global, text: &str) -> Result<Vec<u8>, AllocError> {
    if text == "=" {
        return Ok(Vec::new(heap));
    }
    text.bytes().map(byte_of).collect(heap)
}

/// Whether the sums of the bytes are 0 and their first 81 symbols encode to them.
fn is_code_word(bytes: &[u8]) -> bool {
    Word::new(bytes).is_ok_and(|word| {
        word.first_nonzero_sum().is_none() && word.message().encode().bytes() == word.bytes()
    })
}

fn answer(heap: Global, bytes: &[u8]) -> Result<String, AllocError> {
    match check(bytes) {
        Ok(header) => format!(in heap; "{header}"),
        Err(fault) => {
            let refusal = fault.refusal();
            format!(in heap; "{refusal}")
        }
    }
}

/// Compares one line of the table, prints the comparison, and says whether it is as expected.
fn compare(rt: &HostRuntime, case: &str) -> anyhow::Result<bool> {
    let mut parts = case.splitn(4, ' ');
    let (Some(name), Some(text), Some(code), Some(expected)) = (
        parts.next(),
        parts.next(),
        parts.next(),
        parts.next(),
    ) else {
        return Err(anyhow!("a line of the table has fewer than four parts"));
    };
    let bytes = bytes_of(rt.alloc(), text)?;
    let is_code = is_code_word(&bytes);
    let found = answer(rt.alloc(), &bytes)?;
    let code_as_expected = match code {
        "code" => is_code,
        "none" => !is_code,
        _ => false,
    };
    let as_expected = code_as_expected && (expected == "-" || found.as_str() == expected);
    let mark = if as_expected { "ok" } else { "WRONG" };
    let kind = if is_code { "code word" } else { "no code word" };
    if expected == "-" {
        println!(rt; "{mark} {name}: {kind}")?;
    } else {
        println!(rt; "{mark} {name}: {kind}, {found}")?;
    }
    Ok(as_expected)
}

fn compare_all(rt: &HostRuntime) -> anyhow::Result<()> {
    let mut right = 0usize;
    // A loop, since each comparison prints, and may fail to.
    for case in CASES.lines() {
        if compare(rt, case)? {
            right = right.saturating_add(1);
        }
    }
    let count = CASES.lines().count();
    let proved = known_answers();
    println!(rt; "{right} of {count} words as expected, {proved} known answers proved")?;
    if right == count {
        Ok(())
    } else {
        Err(anyhow!("some words are not as expected"))
    }
}

fn main(rt: HostRuntime) -> anyhow::Result<()> {
    let word = env::args(&rt)?.nth(1);
    on_word(&rt, HELP, word.as_deref(), |word| {
        no_word(word)?;
        compare_all(&rt)
    })
}
