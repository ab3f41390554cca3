//! Scores that are known.
use crate::fault::ScoreFault;
use crate::{Score, score_bytes};
use levels::fault::LevelFault;
use std::array;
use std::test::Fail;

/// The levels of size 1 that the bits of a word are sent as.
// Made without `word_bit`, which is tried here.
fn sent(word: &[u8; 162]) -> [f32; 972] {
    array::from_fn(|i| match (word[i / 6] << (i % 6)) & 32 {
        0 => 1.0,
        _ => -1.0,
    })
}

#[test]
fn legal_up_to_4(rt: HostRuntime) -> Result<(), Fail> {
    let mut levels = [4.0; 972];
    let score = score_bytes(&levels, &[0; 162])?;
    assert_eq!(rt;
        score,
        Score {
            sum: 8748.0,
            largest: 9.0,
        }
    );
    levels[700] = 4.5;
    assert_eq!(rt;
        score_bytes(&levels, &[0; 162]),
        Err(ScoreFault::Levels(LevelFault::Illegal(700)))
    );
    Ok(())
}

#[test]
fn zeros_weigh_972(rt: HostRuntime) -> Result<(), Fail> {
    for symbol in 0..64u8 {
        let score = score_bytes(&[0.0; 972], &[symbol; 162])?;
        assert_eq!(rt;
            score,
            Score {
                sum: 972.0,
                largest: 1.0,
            }
        );
    }
    Ok(())
}

#[test]
fn one_half_weighs_a_quarter(rt: HostRuntime) -> Result<(), Fail> {
    for symbol in 0..64u8 {
        let word = [symbol; 162];
        let mut levels = sent(&word);
        levels[symbol as usize * 15] = levels[symbol as usize * 15] / 2.0;
        let score = score_bytes(&levels, &word)?;
        assert_eq!(rt;
            score,
            Score {
                sum: 0.25,
                largest: 0.25,
            }
        );
    }
    Ok(())
}
