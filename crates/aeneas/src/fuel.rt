ghost use Rattle.std.specs.Prelude.{◌≡◌, MatchOption};
ghost use Rattle.aeneas.specs.Words.{IsFuel, fuel_of};

use aen_base::decimal;

/// The number that FUEL writes; None exactly where the word is not 1 to 18 decimal digits.
#[tactic(auto, using(crate::proofs::FuelLemmas::fuel_read))]
pub fn fuel_number(word: &[u8]) -> Option<u64>
    ensures { MatchOption result (IsFuel word.now → ⊥) (λ n. IsFuel word.now × (n ≡ fuel_of word.now)) }
{
    if word.len() > 18 {
        return None;
    }
    match decimal(word) {
        None => None,
        Some(number) => Some(number as u64),
    }
}
