// A word of decimal digits as a number.
#![tactic(auto)]

ghost use Rattle.std.specs.Prelude.{◌≡◌, ℕ};
ghost use Rattle.numerals.specs.Numerals.{numeral_of};

use fusefields::bytes::{is_digit, run, value_of};

// The largest number that is told: one above it is answered as this one.
const MOST: usize = 1_000_000_000_000_000_000;

// The number that a word spells; nothing for a word that is empty or has a byte that is no digit.
#[tactic(auto, unfolding(crate::specs::Numerals::numeral_of))]
pub fn number_of(s: &[u8]) -> Option<usize>
    ensures { result ≡ numeral_of s.now }
{
    if s.len() < 1 || run(s, is_digit) < s.len() {
        return None;
    }
    Some(value_of(s, MOST))
}
