//! Tests of the shell: the grammar, the meaning of scripts, and the `dd` statement of a file.
#![tactic(auto)]

#[cfg(test)]
mod tests;
