// Boards: what marks are entered on, an interface over every kind of entry and two boards of each.
#![tactic(auto)]

pub mod board_fault;
pub mod boards;
pub mod cells;
pub mod entering;
pub mod kinds;
pub mod laws;
pub mod pair;
pub mod pairs;
pub mod parts;
mod size;
pub mod table;
#[cfg(test)]
mod tests;
pub mod writes;
