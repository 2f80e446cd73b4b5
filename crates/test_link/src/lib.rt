//! Tests of ap_link: links from files and from memory.
#![tactic(auto)]

#[cfg(test)]
mod tests;
