// The words of a line of text: where each stands, and the numbers and bytes that they spell. Any bytes may be asked about.
#![tactic(auto)]

pub mod hex;
pub mod numbers;
pub mod words;
