// Skill banks: the interface, and the banks.
#![tactic(auto)]

pub mod bank_fault;
pub mod banks;
pub mod cap;
pub mod given_take;
pub mod kinds;
pub mod laws;
pub mod making_cap;
pub mod pair;
pub mod parts;
pub mod recorded;
mod recorded_skill;
pub mod refused;
mod take;
#[cfg(test)]
mod tests;
pub mod timed;
pub mod timing;
