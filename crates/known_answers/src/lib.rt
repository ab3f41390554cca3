//! Worked examples, proved of the definitions that the contracts of the other crates cite.
#![tactic(auto)]

ghost use Rattle.std.specs.Prelude.{◌≡◌, length};
ghost use Rattle.std.specs.List.{AllByRecursion};
ghost use Rattle.known_answers.specs.Claims.{claims, Holds};

/// How many worked examples there are; each of them holds.
pub fn known_answers() -> usize
    ensures count { result ≡ length claims }
    ensures each { AllByRecursion Holds claims }
{
    20
}
