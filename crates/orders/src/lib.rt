// Order forms (document 01, "Order forms and the lap"), and what is told of one that is not as it has to be (C-12).
#![tactic(auto)]

pub mod bad;
pub mod check;
pub mod form;
