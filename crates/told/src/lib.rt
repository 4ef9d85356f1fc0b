// What a call is refused with: the refusals, their numbers and their names.
#![tactic(auto)]

pub mod refusals;
