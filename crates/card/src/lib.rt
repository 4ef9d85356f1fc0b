// One COM20010 card (document 01), and nothing of a network: the part of a lent network that is its row, and the packets
// in its pages.
#![tactic(auto)]

pub mod packets;
pub mod row;
