// The table of cards as one lent slice (document 01): the test SHAPE, register access by row, and a fresh network, over
// the card's contracts.
#![tactic(auto)]

pub mod calls;
pub mod network;
pub mod walk;
