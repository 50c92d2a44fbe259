// Missions: lawful behaviour trees in preorder, read from texts and written to them.
#![tactic(auto)]

pub mod breach;
pub mod flaw;
mod line;
pub mod line_fault;
mod lines;
pub mod mission;
mod mission_parts;
mod mission_text;
pub mod node;
pub mod outline;
mod outline_nodes;
pub mod page_fault;
mod pen;
mod ranges;
mod raw;
mod reading;
mod skills;
mod tree;
pub mod tree_fault;
mod words;
mod writing;
