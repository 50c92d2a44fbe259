// What every refusal has: a number, a layer and a line.
#![tactic(auto)]

pub mod layer;
pub mod refusal;
