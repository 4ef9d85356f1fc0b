// The registers of one COM20010 card by value (document 01): the commands, the two sides, what an access or the line
// does to them, and what an access is refused with.
#![tactic(auto)]

pub mod access;
pub mod events;
mod naks;
pub mod refusals;
pub mod regs;
// Kept: public, as the other modules of `Regs`; what it has is the crate's.
pub mod sides;
