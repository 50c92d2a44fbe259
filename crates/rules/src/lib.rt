// The rules of a sitting: statuses, trace lines and refusals as types, what every call means as
// definitions, and the laws above them.
#![tactic(auto)]

pub mod laws;
pub mod line;
pub mod sitting_fault;
pub mod status;
pub mod word;
