//! Tests of the crates of formats: numbers, claims, files, octal text, ELF files, plans of memory, and APE files.
#![tactic(auto)]

#[cfg(test)]
mod tests;
