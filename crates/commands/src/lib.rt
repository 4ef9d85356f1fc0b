// The command bytes of register 1, and what each asks of a card.
#![tactic(auto)]

pub mod commands;
