// Bytes as pairs of hex digits, of either case.
ghost use Rattle.std.specs.Prelude.{◌≡◌, ◌<◌, ◌/◌, length, IfSome};
ghost use Rattle.words.specs.Hex.{nibble, pair, hex_fits, unhex};

// The value of a hex digit.
#[tactic(auto, unfolding(crate::specs::Hex::nibble))]
fn nibble(b: u8) -> Option<u8>
    ensures value { result ≡ nibble b }
    ensures small { IfSome result (λ v. v < 16) }
{
    match b {
        b'0'..=b'9' => Some(b - b'0'),
        b'A'..=b'F' => Some(b - b'A' + 10),
        b'a'..=b'f' => Some(b - b'a' + 10),
        _ => None,
    }
}

// The byte that two digits spell; any other byte counts as the digit 0.
#[tactic(auto, unfolding(crate::specs::Hex::pair))]
fn pair(high: u8, low: u8) -> u8
    ensures { result ≡ pair high low }
{
    16 * nibble(high).unwrap_or(0) + nibble(low).unwrap_or(0)
}

// Hex digits only, and an even number of them.
#[tactic(auto, using(crate::proofs::Pairs::fits_odd, crate::proofs::Pairs::fits_even))]
pub fn hex_fits(word: &[u8]) -> bool
    ensures { result ≡ hex_fits word.now }
{
    word.len() % 2 == 0 && word.iter().all(|&b| nibble(b).is_some())
}

// The bytes that the pairs spell are stored.
#[tactic(auto, using(crate::proofs::Pairs::spelt_more, crate::proofs::Pairs::spelt_all))]
pub fn unhex(word: &[u8], out: &mut [u8])
    requires { length out.old ≡ length word.now / 2 }
    ensures { out.new ≡ unhex word.now }
{
    // Kept: `zip` with `chunks_exact(2)` was tried, and a loop over it knows nothing of the bytes that were stored.
    for (k, byte) in out.iter_mut().enumerate() {
        *byte = pair(word[2 * k], word[2 * k + 1]);
    }
}
