// What a prompt reads and writes: the lines of standard input, and the answer lines on standard output.
#![tactic(auto)]

pub mod answers;
pub mod help;
pub mod input;
pub mod show;
pub mod sums;
