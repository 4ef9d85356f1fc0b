// What the contracts of the crates below promise together. There is no code here: see specs/ and proofs/.
#![tactic(auto)]
