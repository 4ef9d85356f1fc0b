// The bits of a card's registers by their names, and a choice between two values.
#![tactic(auto)]

pub mod choice;
pub mod flags;
pub mod way;
