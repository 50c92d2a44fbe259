// Entries, what they take and what they are held to, each with its range: counts and abilities.
#![tactic(auto)]

pub mod ability;
pub mod ability_threshold;
pub mod count;
pub mod count_threshold;
pub mod entry_fault;
pub mod kind;
pub mod laws;
pub mod parts;
#[cfg(test)]
mod tests;
pub mod weight;
pub mod whole;
