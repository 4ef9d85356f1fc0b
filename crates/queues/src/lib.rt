// C-11: what waits on each side of a card, oldest first, and the ends that are not cleared yet.
#![tactic(auto)]

pub mod queues;
pub mod rules;
