// FNV-1a, 64 bits.
ghost use Rattle.std.specs.Prelude.{◌≡◌};
ghost use Rattle.prompt.specs.Sums.{BASIS, sum_after};

const BASIS: u64 = 0xcbf29ce484222325;

const PRIME: u64 = 0x100000001b3;

// The low 64 bits of each product are kept.
#[tactic(auto, using(crate::proofs::Fnv::sum_more, crate::proofs::Fnv::sum_end))]
pub fn sum(s: &[u8]) -> u64
    ensures { result ≡ sum_after BASIS s.now }
{
    let mut h = BASIS;
    for &b in s {
        h = (h ^ u64::from(b)).wrapping_mul(PRIME);
    }
    h
}
