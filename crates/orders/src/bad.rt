// C-12: what is told of an order that is not as it has to be.
ghost use Rattle.std.specs.Prelude.{None, IfSome, ◌≡◌, ◌<◌};
ghost use Rattle.std.proofs.Props.{props};

use told::refusals::Refusal;

// What is wrong, and the first record with which it is, counted from 1, where one is named.
#[derive(Clone, Copy, Debug, PartialEq, Eq)]
pub struct Bad {
    pub record: Option<usize>,
    pub refusal: Refusal,
    pub ghost counted: { IfSome «record» (λ k. 0 < k) } by { Prim.hlevel props },
}

// A refusal that names no record.
impl From<Refusal> for Bad {
    ghost from_gives = { λ refusal bad. (bad.refusal ≡ refusal) × (bad.record ≡ None) };

    fn from(refusal: Refusal) -> Bad {
        Bad {
            record: None,
            refusal,
        }
    }
}
