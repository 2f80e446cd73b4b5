//! Tests of the crates of rules: what is taken of inputs, the positions of a linked file's parts, and its tables and script.
#![tactic(auto)]

#[cfg(test)]
mod tests;
