//! Tests of ap_run: its commands over files in memory, each call of which fails in turn.
#![tactic(auto)]

#[cfg(test)]
mod tests;
