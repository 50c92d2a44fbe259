// The executive: it runs a mission over a bank, two boards and a trace.
#![tactic(auto)]

mod answering;
mod checks;
mod executive;
mod frame;
mod halting;
mod kinds;
mod leaf;
mod leaf_state;
mod ledger;
mod looking;
mod making;
mod marks;
mod memory;
mod notes;
mod places;
mod results;
mod sitting;
mod skills;
mod table;
#[cfg(test)]
mod tests;
mod turn;
mod turns;
mod visiting;
