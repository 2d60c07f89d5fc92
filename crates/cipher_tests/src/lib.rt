//! Tests of what the ciphers, the AES blocks and sealed streams show a Rust program: texts, names, and code that is
//! generic over ciphers. What they answer is in the lines of `cipher_cases`.
#![tactic(auto)]

#[cfg(test)]
mod adapters;
#[cfg(test)]
mod blocks;
#[cfg(test)]
mod errors;
#[cfg(test)]
mod names;
#[cfg(test)]
mod streams;
