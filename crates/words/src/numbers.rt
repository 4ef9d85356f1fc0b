// Decimal numbers.
ghost use Rattle.std.specs.Prelude.{◌≡◌};
ghost use Rattle.words.specs.Words.{word};
ghost use Rattle.words.specs.Numbers.{number_of};

use crate::words::word;

// The greatest number that a word may spell, 2^32 - 1.
const MOST: usize = 4294967295;

// Decimal digits, one or more, of a value that is at most MOST.
#[tactic(auto, using(crate::proofs::Digits::digits_end, crate::proofs::Digits::value_end, crate::proofs::Digits::digits_not, crate::proofs::Digits::digits_more, crate::proofs::Digits::value_more, crate::proofs::Digits::none_empty, crate::proofs::Digits::none_digits, crate::proofs::Digits::none_over, crate::proofs::Digits::some_number))]
fn decimal(word: &[u8]) -> Option<usize>
    ensures { result ≡ number_of word.now }
{
    if word.is_empty() {
        return None;
    }
    let mut value = 0;
    for &b in word {
        if !b.is_ascii_digit() {
            return None;
        }
        value = 10 * value + usize::from(b - b'0');
        if MOST < value {
            return None;
        }
    }
    Some(value)
}

// The number that word k of the line spells; nothing where it is not a number.
pub fn number_at(line: &[u8], k: usize) -> Option<usize>
    ensures { result ≡ number_of (word line.now k) }
{
    decimal(word(line, k))
}
