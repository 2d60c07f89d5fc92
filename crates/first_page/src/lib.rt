//! The examples of the repository's first page, word for word, run, and what they don't use of the names of `aegis`. `docs/check` compares
//! the examples with the page.
#![tactic(auto)]

#[cfg(test)]
mod ciphers;
#[cfg(test)]
mod files;
mod generic;
pub mod names;
