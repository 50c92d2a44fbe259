// Mission texts with their verdicts, judged by the mission library.
#![tactic(auto)]

#[cfg(test)]
mod tests;
