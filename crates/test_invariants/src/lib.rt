//! Worked examples of derived invariants, as tests of the calls that lead from a text to them.
#![tactic(auto)]

#[cfg(test)]
mod tests;
