//! What the programs have in common: what they do by the first word of the command line.
//!
//! What they read and print stands in each of them, since no clause could say it of a call.
#![tactic(auto)]

ghost use Rattle.std.specs.Prelude.{◌≡◌, IfErr, IsErr, IsOk, IsSomeAnd, MatchOption, Some, codes};
ghost use Rattle.anyhow.specs.Error.{HasMessage};

use anyhow::{Error, anyhow};

/// Does what a program is asked for by its first word: `--help` prints the help, and any other word or none is left to `act`.
pub fn on_word<R: Print, F: FnOnce(Option<&str>) -> anyhow::Result<()>>(
    rt: &R,
    help: &str,
    word: Option<&str>,
    act: F,
) -> anyhow::Result<()>
    requires { F.pre act word }
    ensures { ¬ IsSomeAnd word.entry (λ w. w.now ≡ codes "--help") → F.post act word.entry result }
{
    match word {
        Some("--help") => Ok(println!(rt; "{help}")?),
        _ => act(word),
    }
}

/// The error of a word that a program does not know.
pub fn unknown_word() -> Error
    ensures { HasMessage (Some (codes "unknown argument; try --help")) result }
{
    anyhow!("unknown argument; try --help")
}

/// Refuses every word.
pub fn no_word(word: Option<&str>) -> anyhow::Result<()>
    ensures same { MatchOption word.entry (IsOk result) (λ _. IsErr result) }
    ensures error { IfErr result (HasMessage (Some (codes "unknown argument; try --help"))) }
{
    match word {
        None => Ok(()),
        Some(_) => Err(unknown_word()),
    }
}
