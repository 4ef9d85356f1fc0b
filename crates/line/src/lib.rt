// The line between the cards (document 01, "One line step"), over the contracts of the card and of the table.
#![tactic(auto)]

mod passes;
pub mod step;
pub mod traffic;
