// Lines of fields, as mission texts and evenings are written.
#![tactic(auto)]

pub mod cut;
pub mod field;
pub mod line;
pub mod numeral;
#[cfg(test)]
mod tests;
