// The order desk (document 01, "Order forms and the lap"), over the contracts of order forms and of the line: loading, and the lap.
#![tactic(auto)]

pub mod laps;
pub mod loading;
